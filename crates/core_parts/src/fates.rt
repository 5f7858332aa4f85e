ghost use Rattle.std.specs.Prelude.{◌≡◌, ◌<◌, true, ℕ, List, Some, slice_get};
ghost use Rattle.core_parts.specs.Fates.{own_fate, unless_late};
ghost use Rattle.core_parts.specs.Strikes.{arrays_of, IsFor, Came};
ghost use Rattle.lf_model.specs.Ledger.CoreAccount.{parity_errors};
ghost use Rattle.lf_model.specs.Promise.Regular.{parity_fits};
ghost use Rattle.lf_model.specs.declared.flip.Flip.{Flip};

use crate::arrays::Arrays;
use lf_model::trace::{Fate, Four};

/// The first of two fates, unless it is late.
fn unless_late(first: Fate, second: Fate) -> Fate
    ensures { result ≡ unless_late first second }
{
    match first {
        Fate::Late => second,
        fate => fate,
    }
}

impl Arrays {
    /// What became of a flip of the script, by its number: late where it struck none of these arrays.
    pub fn fate(&self, number: u32) -> Fate
        requires registers { number < self.now.registers.flips }
        requires fetch_cache { number < self.now.fetch_cache.flips }
        requires data_cache { number < self.now.data_cache.flips }
        ensures fate { (script : List Flip) (core step : ℕ) (flip : Flip) → IsFor core script self.now → Came script core step (arrays_of self.now)
            → slice_get script number ≡ Some flip → result ≡ own_fate core (arrays_of self.now) number flip }
    {
        let cells = self.registers.fate(number);
        let fetch = self.fetch_cache.fate(number);
        let data = self.data_cache.fate(number);
        let in_caches = unless_late(fetch, data);
        unless_late(cells, in_caches)
    }

    /// The counters of parity errors, each 0 to 3.
    pub fn parity(&self) -> Four
        ensures counts { result ≡ parity_errors (arrays_of self.now) }
        ensures fits { parity_fits result ≡ true }
    {
        let fetch = self.fetch_cache.counts();
        let data = self.data_cache.counts();
        Four {
            fetch_tag: fetch.tag_errors,
            fetch_byte: fetch.byte_errors,
            data_tag: data.tag_errors,
            data_byte: data.byte_errors,
        }
    }
}
