ghost use Rattle.std.specs.Prelude.{◌≡◌, ◌<◌, ◌≤◌};
ghost use Rattle.lf_model.specs.Caches.Cache.{is_number_of_sets};
ghost use Rattle.parity_cache.specs.CacheState.{reset_cache};

use super::expect;
use lf_model::bus::Why;
use lf_model::config::Shape;
use lf_model::step::Look;
use lf_model::trace::Fate;
use parity_cache::{ParityCache, Unit};
use std::process::Abort;
use std::test::Fail;

/// The words of the line at 40001000 hex.
static WORDS: [u32; 8] = [
    0x0102_0304,
    0x0506_0708,
    0x1122_3344,
    0x5566_7788,
    0,
    0,
    0,
    0xffff_ffff,
];

/// A flip: whether it is of a tag byte, the way, the set, the byte and its bit.
type Strike = (bool, u8, u16, u8, u8);

/// A cache of so many ways and sets, into which that line is filled; flips 0 and 1 of the script; an access that is looked up; the
/// value that it hits with in way 0, or why it misses; the counters of tag errors and byte errors; the fates of the flips.
struct Row {
    shape: (u32, u32),
    flips: (Option<Strike>, Option<Strike>),
    access: (u32, u8),
    hit: Option<u64>,
    misses: Option<Why>,
    counts: (u8, u8),
    fates: (Fate, Fate),
}

static ROWS: [Row; 14] = [
    // Without flips: a byte, a half, a word and a doubleword, and a line that is not there.
    Row {
        shape: (1, 8),
        flips: (None, None),
        access: (0x4000_1005, 1),
        hit: Some(0x06),
        misses: None,
        counts: (0, 0),
        fates: (Fate::Late, Fate::Late),
    },
    Row {
        shape: (2, 16),
        flips: (None, None),
        access: (0x4000_100a, 2),
        hit: Some(0x3344),
        misses: None,
        counts: (0, 0),
        fates: (Fate::Late, Fate::Late),
    },
    Row {
        shape: (4, 256),
        flips: (None, None),
        access: (0x4000_1008, 8),
        hit: Some(0x1122_3344_5566_7788),
        misses: None,
        counts: (0, 0),
        fates: (Fate::Late, Fate::Late),
    },
    Row {
        shape: (3, 8),
        flips: (None, None),
        access: (0x4000_2000, 4),
        hit: None,
        misses: Some(Why::Absent),
        counts: (0, 0),
        fates: (Fate::Late, Fate::Late),
    },
    // A byte of the address, and the valid bits by their parity.
    Row {
        shape: (1, 8),
        flips: (Some((true, 0, 0, 0, 3)), None),
        access: (0x4000_1000, 4),
        hit: None,
        misses: Some(Why::Tag),
        counts: (1, 0),
        fates: (Fate::Discarded, Fate::Late),
    },
    Row {
        shape: (2, 64),
        flips: (Some((true, 0, 0, 3, 8)), None),
        access: (0x4000_1000, 4),
        hit: None,
        misses: Some(Why::Tag),
        counts: (1, 0),
        fates: (Fate::Discarded, Fate::Late),
    },
    // The tag of an empty way: it is dropped and counted, and the other way hits.
    Row {
        shape: (4, 8),
        flips: (Some((true, 3, 0, 1, 7)), None),
        access: (0x4000_1000, 4),
        hit: Some(0x0102_0304),
        misses: None,
        counts: (1, 0),
        fates: (Fate::Discarded, Fate::Late),
    },
    // A tag of another set is not checked.
    Row {
        shape: (1, 8),
        flips: (Some((true, 0, 5, 2, 0)), None),
        access: (0x4000_1000, 4),
        hit: Some(0x0102_0304),
        misses: None,
        counts: (0, 0),
        fates: (Fate::Dormant, Fate::Late),
    },
    // Bytes of the wanted word, also where the access is of another byte of it.
    Row {
        shape: (4, 256),
        flips: (Some((false, 0, 128, 0, 0)), None),
        access: (0x4000_1000, 4),
        hit: None,
        misses: Some(Why::Byte),
        counts: (0, 1),
        fates: (Fate::Discarded, Fate::Late),
    },
    Row {
        shape: (3, 16),
        flips: (Some((false, 0, 0, 3, 8)), None),
        access: (0x4000_1000, 1),
        hit: None,
        misses: Some(Why::Byte),
        counts: (0, 1),
        fates: (Fate::Discarded, Fate::Late),
    },
    // The second word of a doubleword is wanted, that of a word is not.
    Row {
        shape: (1, 256),
        flips: (Some((false, 0, 128, 4, 7)), None),
        access: (0x4000_1000, 8),
        hit: None,
        misses: Some(Why::Byte),
        counts: (0, 1),
        fates: (Fate::Discarded, Fate::Late),
    },
    Row {
        shape: (1, 256),
        flips: (Some((false, 0, 128, 4, 7)), None),
        access: (0x4000_1000, 4),
        hit: Some(0x0102_0304),
        misses: None,
        counts: (0, 0),
        fates: (Fate::Dormant, Fate::Late),
    },
    // Two bytes of a word are found by one look-up. A second flip of one byte is declined, also of the same bit.
    Row {
        shape: (2, 8),
        flips: (Some((false, 0, 0, 1, 2)), Some((false, 0, 0, 2, 5))),
        access: (0x4000_1000, 4),
        hit: None,
        misses: Some(Why::Byte),
        counts: (0, 1),
        fates: (Fate::Discarded, Fate::Discarded),
    },
    Row {
        shape: (2, 8),
        flips: (Some((false, 0, 0, 1, 2)), Some((false, 0, 0, 1, 2))),
        access: (0x4000_1000, 4),
        hit: None,
        misses: Some(Why::Byte),
        counts: (0, 1),
        fates: (Fate::Discarded, Fate::Declined),
    },
];

/// The line is filled into a cache at reset.
fn fill_line(cache: &mut ParityCache, shape: Shape)
    requires { cache.old ≡ reset_cache shape 2 }
    ensures shape { cache.new.cache.shape ≡ shape }
    ensures flips { cache.new.flips ≡ 2 }
    ensures uses { cache.new.cache.uses ≤ 2 }
{
    let _ = cache.look(0x4000_1000, 4);
    let way = cache.victim(0x4000_1000);
    cache.fill(0x4000_1000, way, &WORDS, 0xff);
}

/// A flip of the script strikes a unit, if it is one.
fn strike(rt: &impl Abort, cache: &mut ParityCache, shape: Shape, number: u32, flip: Option<Strike>)
    requires shape { cache.old.cache.shape ≡ shape }
    requires number { number < cache.old.flips }
    ensures shape { cache.new.cache.shape ≡ shape }
    ensures flips { cache.new.flips ≡ cache.old.flips }
    ensures uses { cache.new.cache.uses ≡ cache.old.cache.uses }
{
    let Some((tag, way, set, byte, bit)) = flip else {
        return;
    };
    let bytes = if tag { 4 } else { 32 };
    assert!(rt; u32::from(way) < shape.ways);
    assert!(rt; u32::from(set) < shape.sets);
    assert!(rt; byte < bytes && bit < 9);
    let Fate::Late = cache.fate(number) else {
        expect(rt, number, false);
        return;
    };
    let at = Unit {
        tag,
        way,
        set,
        byte,
    };
    cache.flip(number, at, bit);
}

/// The look-up is as the row says.
fn is_as_said(look: Look, row: &Row) -> bool {
    match look {
        Look::Hit { value, way } => row.hit == Some(value) && way == 0,
        Look::Miss(why) => row.misses == Some(why),
    }
}

/// The row is as its calls answer.
fn holds(rt: &impl Abort, cache: &mut ParityCache, row: &Row, shape: Shape) -> bool
    requires shape { cache.old.cache.shape ≡ shape }
    requires flips { cache.old.flips ≡ 2 }
    requires uses { cache.old.cache.uses ≤ 2 }
{
    strike(rt, cache, shape, 0, row.flips.0);
    strike(rt, cache, shape, 1, row.flips.1);
    let (addr, len) = row.access;
    assert!(rt; len == 1 || len == 2 || len == 4 || len == 8);
    assert!(rt; addr % u32::from(len) == 0);
    let look = cache.look(addr, len);
    let counts = cache.counts();
    is_as_said(look, row)
        && (counts.tag_errors, counts.byte_errors) == row.counts
        && (cache.fate(0), cache.fate(1)) == row.fates
}

/// The sets that a way may have.
fn is_number_of_sets(n: u32) -> bool
    ensures { result ≡ is_number_of_sets n }
{
    n == 8 || (n == 16 || (n == 32 || (n == 64 || (n == 128 || n == 256))))
}

#[test]
fn flips_of_each_kind_of_unit(rt: HostRuntime) -> Result<(), Fail> {
    for (number, row) in ROWS.iter().enumerate() {
        let (ways, sets) = row.shape;
        assert!(rt; 1 <= ways && ways <= 4 && is_number_of_sets(sets));
        let shape = Shape { ways, sets };
        let mut cache = ParityCache::new(rt.alloc(), shape, 2)?;
        fill_line(&mut cache, shape);
        let is_right = holds(&rt, &mut cache, row, shape);
        expect(&rt, number as u32, is_right);
    }
    Ok(())
}
