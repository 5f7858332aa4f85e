ghost use Rattle.std.specs.Prelude.{◌≡◌};
ghost use Rattle.flip_ledger.specs.Rule.{place_of, earlier};

use lf_model::trace::Fate;

/// The place of a fate in the order in which fates are tried.
fn place_of(fate: Fate) -> u8
    ensures { result ≡ place_of fate }
{
    match fate {
        Fate::Late => 0,
        Fate::Declined => 1,
        Fate::Discarded => 2,
        Fate::Repaired => 3,
        Fate::Stopped => 4,
        Fate::Overwritten => 5,
        Fate::Dormant => 6,
    }
}

/// The one of two fates that is tried first.
pub fn earlier(first: Fate, second: Fate) -> Fate
    ensures { result ≡ earlier first second }
{
    if place_of(first) < place_of(second) {
        first
    } else {
        second
    }
}
