ghost use Rattle.std.specs.Prelude.{◌≡◌, ◌+◌, ◌<◌, ◌≤◌, ◌^◌, ℕ, nat_lt, List, length};
ghost use Rattle.flip_ledger.specs.Follows.{Gains, Follows, Keeps};
ghost use Rattle.flip_ledger.specs.Ledger.{state_at, standing_in};
ghost use Rattle.flip_ledger.specs.declared.record.FlipState.TheVariants.{ToCome};
ghost use Rattle.lf_model.specs.Flips.{Moment, byte_budget};
ghost use Rattle.lf_model.specs.Flips.Moment.{Struck};
ghost use Rattle.parity_units.specs.Bytes.{answer_of};
ghost use Rattle.parity_units.specs.Events.{moment_of, befallen, over, AreUnits};

use crate::byte::ParityByte;
use flip_ledger::{FlipLedger, Write as HowWritten};
use ft_cells::Flipped;

/// What befalls bytes of a cache.
#[derive(Clone, Copy, Debug)]
pub enum Event {
    /// They are written.
    Write,
    /// They are checked: the struck ones are found, and their line is dropped.
    Check,
}

/// Notes an event of a byte in which a flip stands.
fn note_one(ledger: &mut FlipLedger, unit: usize, event: Event)
    requires { unit < length ledger.old.standing }
    ensures keeps { Keeps ledger.old ledger.new }
    ensures follows { (h new : ℕ → List Moment) → Gains unit (moment_of event) h new → Follows byte_budget h ledger.old → Follows byte_budget new ledger.new }
{
    match event {
        Event::Write => ledger.written(unit, HowWritten::Whole),
        Event::Check => ledger.found(unit),
    }
}

/// Notes an event of these bytes, which are the units of the ledger from `first` on, before it changes them.
pub fn note(ledger: &mut FlipLedger, first: usize, bytes: &[ParityByte], event: Event)
    requires units { first + length bytes.now ≤ length ledger.old.standing }
    requires fits { first + length bytes.now < 2 ^ 64 }
    ensures keeps { Keeps ledger.old ledger.new }
    ensures follows { (h : ℕ → List Moment) → AreUnits first bytes.now h → Follows byte_budget h ledger.old
        → Follows byte_budget (over first (length bytes.now) (befallen event) h) ledger.new }
{
    for (i, byte) in bytes.iter().enumerate() {
        if byte.struck {
            note_one(ledger, first + i, event);
        }
    }
}

/// Notes a flip of the script that comes now, for this unit, by whether it was applied.
pub fn note_flip(ledger: &mut FlipLedger, number: u32, unit: usize, answer: Flipped)
    requires unit { unit < length ledger.old.standing }
    requires number { number < length ledger.old.flips }
    requires late { state_at ledger.old number ≡ ToCome }
    requires answer { answer ≡ answer_of (nat_lt 0 (length (standing_in ledger.old unit))) }
    ensures keeps { Keeps ledger.old ledger.new }
    ensures follows { (bit : ℕ) (h new : ℕ → List Moment) → Gains unit (Struck number bit) h new → Follows byte_budget h ledger.old → Follows byte_budget new ledger.new }
{
    match answer {
        Flipped::Applied => ledger.strike(number, unit),
        Flipped::Declined(_) => ledger.decline(number),
    }
}
