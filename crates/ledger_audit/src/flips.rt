ghost use Rattle.std.specs.Prelude.{◌↔◌, ◌<◌, length, IsTrue};
ghost use Rattle.lf_model.specs.Places.{FailsFirst};
ghost use Rattle.ledger_audit.specs.FirstPlaces.{SameFateAt};

use lf_model::trace::Fate;

/// The trace reports of a flip what became of it.
fn is_same_fate(given: &[Fate], told: &[Fate], flip: usize) -> bool
    requires { flip < length told.now }
    ensures { IsTrue result ↔ SameFateAt given.now told.now flip }
{
    match given.get(flip) {
        Some(fate) => *fate == told[flip],
        None => false,
    }
}

/// The first flip of which the trace reports another fate.
pub(crate) fn first_other_fate(given: &[Fate], told: &[Fate]) -> Option<usize>
    ensures { FailsFirst (length told.now) (SameFateAt given.now told.now) result }
{
    for flip in 0..told.len() {
        if !is_same_fate(given, told, flip) {
            return Some(flip);
        }
    }
    None
}
