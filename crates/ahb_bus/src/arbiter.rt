ghost use Rattle.std.specs.Prelude.{◌≡◌, ◌<◌, ◌==◌};
ghost use Rattle.std.specs.Int.{bit_at};
ghost use Rattle.ahb_bus.specs.Grant.{granted};

/// The masters: cores 0 to 7, and the scrubber, 8.
const MASTERS: u32 = 9;

/// Bit `master`, below 32, of `asking` is 1.
fn asks(asking: u32, master: u32) -> bool
    requires { master < 32 }
    ensures { result ≡ (bit_at asking master == 1) }
{
    (asking >> master) % 2 == 1
}

/// Which master has the next turn: the first one after the last that asks, round 0 to 8. Bit n of `asking` is 1 where master n
/// asks. `None` exactly where none of them does.
pub fn grant(asking: u32, last: u32) -> Option<u32>
    requires { last < 9 }
    ensures { result ≡ granted asking last }
{
    for after in 1..10u32 {
        let master = (last + after) % MASTERS;
        if asks(asking, master) {
            return Some(master);
        }
    }
    None
}
