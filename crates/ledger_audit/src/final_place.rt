ghost use Rattle.std.specs.Prelude.{◌≡◌, ◌↔◌, count_by, map, IsTrue};
ghost use Rattle.lf_model.specs.Ledger.Account.{final_reported, is_scrubbers, value_missing};
ghost use Rattle.ledger_audit.specs.Account.{final_given};

use crate::ahb::has_status;
use crate::given::Given;
use lf_model::bus::Transfer;
use lf_model::setup::Setup;
use lf_model::trace::{Trace, Word2};

/// The scrubber's number as a master of the bus.
const SCRUBBER: u32 = 8;

/// How many transfers the scrubber made.
fn count_scrubs(transfers: &[Transfer]) -> usize
    ensures { result ≡ count_by is_scrubbers transfers.now }
{
    transfers
        .iter()
        .filter(|transfer| transfer.master == SCRUBBER)
        .count()
}

/// Just these words are shown without a value.
fn are_blank(blank: &[bool], words: &[Word2]) -> bool
    ensures { IsTrue result ↔ blank.now ≡ map value_missing words.now }
{
    if blank.len() != words.len() {
        return false;
    }
    for place in 0..blank.len() {
        if blank[place] != words[place].value.is_none() {
            return false;
        }
    }
    true
}

/// The trace reports AHBSTAT, the watched words and the turns of the scrubber as they are given.
pub(crate) fn is_same_final(setup: &Setup, trace: &Trace, given: &Given) -> bool
    ensures { IsTrue result ↔ final_given setup.now given.now ≡ final_reported trace.now }
{
    has_status(trace, given.turns.as_slice())
        && are_blank(given.blank.as_slice(), trace.watch.as_slice())
        && setup.config.scrub_turns as usize == count_scrubs(trace.transfers.as_slice())
}
