ghost use Rattle.std.specs.Prelude.{◌≡◌, ◌<◌, ℕ, nat_lt, List, length};
ghost use Rattle.flip_ledger.specs.Follows.{Gains, Follows, Keeps};
ghost use Rattle.flip_ledger.specs.Ledger.{state_at, standing_in};
ghost use Rattle.flip_ledger.specs.declared.record.FlipState.TheVariants.{ToCome};
ghost use Rattle.lf_model.specs.Flips.{Moment};
ghost use Rattle.lf_model.specs.Flips.Moment.{Struck};

use flip_ledger::FlipLedger;

/// Notes a flip of the script that comes now, for this unit, in which so many flips stand: it is applied where these are fewer than
/// the budget.
pub(crate) fn note_flip(ledger: &mut FlipLedger, number: u32, unit: usize, count: u8, budget: u8)
    requires unit { unit < length ledger.old.standing }
    requires number { number < length ledger.old.flips }
    requires late { state_at ledger.old number ≡ ToCome }
    requires count { count ≡ length (standing_in ledger.old unit) }
    requires budget { budget < 3 }
    ensures keeps { Keeps ledger.old ledger.new }
    ensures follows { (bit : ℕ) (h new : ℕ → List Moment) → Gains unit (Struck number bit) h new
        → Follows budget h ledger.old → Follows budget new ledger.new }
{
    if count < budget {
        ledger.strike(number, unit);
    } else {
        ledger.decline(number);
    }
}
