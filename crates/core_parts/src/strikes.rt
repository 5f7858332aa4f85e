ghost use Rattle.std.specs.Prelude.{◌≡◌, ◌+◌, true, false};
ghost use Rattle.core_parts.specs.Strikes.{arrays_of, with_arrays, own_flips, unit_at, with_strike, cache_of, MayStrike, MayStrikeUnit, IsFor, Came};
ghost use Rattle.flip_ledger.specs.Plan.{IsPlanned};
ghost use Rattle.lf_model.specs.Course.Arrays.{begun, with_cache};
ghost use Rattle.parity_cache.specs.CacheUnits.{struck_at};

use crate::arrays::Arrays;
use crate::record::Record;
use crate::site::Site;
use flip_ledger::{FlipPlan, Owner, Strike, Target};
use parity_cache::Unit;

/// A tag byte of a way of a set.
fn tag_byte(way: u8, set: u16, byte: u8) -> Unit
    ensures { result ≡ unit_at true way set byte }
{
    Unit {
        tag: true,
        way,
        set,
        byte,
    }
}

/// A byte of the line of a way of a set.
fn line_byte(way: u8, set: u16, byte: u8) -> Unit
    ensures { result ≡ unit_at false way set byte }
{
    Unit {
        tag: false,
        way,
        set,
        byte,
    }
}

/// A flip strikes a unit of the fetch cache or of the data cache.
fn strike_cache(arrays: &mut Arrays, fetch: bool, unit: Unit, strike: Strike)
    requires { MayStrikeUnit strike.number strike.bit unit (cache_of fetch arrays.old) }
    ensures { arrays.new ≡ with_arrays arrays.old (with_cache (struck_at strike.number strike.bit unit) fetch (arrays_of arrays.old)) }
{
    if fetch {
        let _ = arrays.fetch_cache.flip(strike.number, unit, strike.bit);
    } else {
        let _ = arrays.data_cache.flip(strike.number, unit, strike.bit);
    }
}

/// A flip of the script strikes the arrays of a core.
#[cold]
#[inline(never)]
fn strike(arrays: &mut Arrays, strike: Strike)
    requires { MayStrike arrays.old strike }
    ensures { arrays.new ≡ with_arrays arrays.old (with_strike (arrays_of arrays.old) strike) }
{
    match strike.target {
        Target::Word { .. } => {}
        Target::Register { cell } => {
            let _ = arrays
                .registers
                .flip(strike.number, usize::from(cell), strike.bit);
        }
        Target::Tag {
            fetch,
            way,
            set,
            byte,
        } => strike_cache(arrays, fetch, tag_byte(way, set, byte), strike),
        Target::Line {
            fetch,
            way,
            set,
            byte,
        } => strike_cache(arrays, fetch, line_byte(way, set, byte), strike),
    }
}

/// The flips of the next step of a core strike its arrays, in the order of the script. `made` is what the core made so far.
#[inline(always)]
pub fn strike_due(arrays: &mut Arrays, plan: &mut FlipPlan, site: &Site, made: &Record)
    requires planned { IsPlanned (Owner.Core made.now.core) site.now.flips made.now.steps plan.old }
    requires units { IsFor made.now.core site.now.flips arrays.old }
    requires came { Came site.now.flips made.now.core made.now.steps (arrays_of arrays.old) }
    ensures struck { arrays.new ≡ with_arrays arrays.old (begun (own_flips made.now.core site.now.flips) made.now.steps (arrays_of arrays.old)) }
    ensures planned { IsPlanned (Owner.Core made.now.core) site.now.flips (made.now.steps + 1) plan.new }
    ensures units { IsFor made.now.core site.now.flips arrays.new }
    ensures came { Came site.now.flips made.now.core (made.now.steps + 1) (arrays_of arrays.new) }
{
    'due: while let Some(next) = plan.next_due(made.steps()) {
        strike(arrays, next);
    }
}
