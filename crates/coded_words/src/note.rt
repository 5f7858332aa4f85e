ghost use Rattle.std.specs.Prelude.{◌≡◌, ◌<◌, ℕ, List, length};
ghost use Rattle.flip_ledger.specs.Follows.{Gains, Follows, Keeps};
ghost use Rattle.flip_ledger.specs.Ledger.{state_at, standing_in};
ghost use Rattle.flip_ledger.specs.declared.record.FlipState.TheVariants.{ToCome};
ghost use Rattle.lf_model.specs.Flips.{Moment, word_budget};
ghost use Rattle.lf_model.specs.Flips.Moment.{Struck};
ghost use Rattle.coded_words.specs.WordState.{answer_by};

use flip_ledger::FlipLedger;
use ft_cells::Flipped;

/// Notes a flip of the script that comes now, for this unit, by whether it was applied.
pub(crate) fn note_flip(ledger: &mut FlipLedger, number: u32, unit: usize, answer: Flipped)
    requires unit { unit < length ledger.old.standing }
    requires number { number < length ledger.old.flips }
    requires late { state_at ledger.old number ≡ ToCome }
    requires answer { answer ≡ answer_by (length (standing_in ledger.old unit)) }
    ensures keeps { Keeps ledger.old ledger.new }
    ensures follows { (bit : ℕ) (h new : ℕ → List Moment) → Gains unit (Struck number bit) h new → Follows word_budget h ledger.old → Follows word_budget new ledger.new }
{
    match answer {
        Flipped::Applied => ledger.strike(number, unit),
        Flipped::Declined(_) => ledger.decline(number),
    }
}
