ghost use Rattle.std.specs.Prelude.{◌≡◌, ◌≤◌};
ghost use Rattle.lf_model.specs.Start.{ram_first};
ghost use Rattle.ram_words.specs.Ram.{place_of};

use lf_model::addresses::RAM_FIRST;

/// The number of the word of RAM that an address lies in, from 0.
#[inline]
pub fn place_of(addr: u32) -> usize
    requires { ram_first ≤ addr }
    ensures { result ≡ place_of addr }
{
    ((addr - RAM_FIRST) / 4) as usize
}
