ghost use Rattle.std.specs.Prelude.{◌≡◌};
ghost use Rattle.ahb_bus.specs.Asks.{HasFields};

use crate::record::Who;
use lf_model::bus::{Transfer, TurnKind, Why};

/// The transfer that a master asks for at a turn, before memory answers: a snoop is at address 0, and its length is that of a
/// store or an atomic, else 0.
pub fn asked(turn: u32, w: Who, kind: TurnKind, why: Why, addr: u32) -> Transfer
    ensures value { result ≡ record { syn = 0; turn = turn; master = w.master; step = w.step; addr = addr; kind = kind; why = why; way = 0; words = 0; len = 0 } }
    ensures fields { HasFields result }
{
    Transfer {
        syn: 0,
        turn,
        master: w.master,
        step: w.step,
        addr,
        kind,
        why,
        way: 0,
        words: 0,
        len: 0,
    }
}
