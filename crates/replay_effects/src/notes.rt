ghost use Rattle.std.specs.Prelude.{◌≡◌, ◌<◌, ◌+◌, ◌*◌, ◌^◌, true};
ghost use Rattle.replay_effects.specs.Noted.{noted, fitted};
ghost use Rattle.v8_exec.specs.Reading.{is_access_size};

use arrayvec::ArrayVec;

/// Notes a register cell behind those that are noted, of which there are so many at most.
pub(crate) fn note<const MOST: usize>(cells: &mut ArrayVec<u8, MOST>, cell: usize)
    requires { cell < 136 }
    ensures { cells.new.items ≡ noted MOST cells.old.items cell }
{
    if !cells.is_full() {
        cells.push(cell as u8);
    }
}

/// The largest number of so many bytes.
fn most(len: u8) -> u64
    requires { is_access_size len ≡ true }
    ensures { result + 1 ≡ 2 ^ (8 * len) }
{
    match len {
        1 => 0xff,
        2 => 0xffff,
        4 => 0xffff_ffff,
        _ => u64::MAX,
    }
}

/// A number that has no more bytes than so many, and 0 in place of another.
pub(crate) fn fitted(got: u64, len: u8) -> u64
    requires { is_access_size len ≡ true }
    ensures { result ≡ fitted got len }
{
    if got <= most(len) { got } else { 0 }
}
