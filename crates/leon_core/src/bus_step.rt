ghost use Rattle.std.specs.Prelude.{◌≡◌, ◌+◌, ◌^◌, ◌<◌, nat_le, false, [], length, vec_len, if◌then◌else◌};
ghost use Rattle.std.specs.Vec.{vec_capacity};
ghost use Rattle.ahb_bus.specs.BusOk.{BusOk};
ghost use Rattle.core_course.specs.Calls.{Joins, MayTurn};
ghost use Rattle.core_course.specs.CoreOk.{CoreOk};
ghost use Rattle.core_course.specs.Settled.{phase_after};
ghost use Rattle.core_parts.specs.Needs.{kind_of};
ghost use Rattle.leon_core.specs.CoreInside.{in_step};
ghost use Rattle.leon_core.specs.EndsTurn.{turn_begun, did_of_turn, EndsTurn};
ghost use Rattle.leon_core.specs.Moves.{store_steps, Moves};
ghost use Rattle.lf_model.specs.Course.Turned.{turn_trap};
ghost use Rattle.turn_course.specs.BusStep.{answer_of, named_by, transfer_at, AddsTransfer};

use crate::local_step::phase_after;
use crate::one_core::Core;
use ahb_bus::Bus;
use core_parts::Record;
use core_turns::make_turn;
use lf_model::bus::Bad;
use lf_model::step::{Did, Turn};
use lf_model::trace::Word2;

/// The trap type of a fetch that wants a bad word: `instruction_access_exception`.
const FETCH_ERROR: u8 = 0x01;

/// The trap type of a load or an atomic that wants a bad word: `data_access_exception`.
const DATA_ERROR: u8 = 0x09;

/// The trap type of a part store that meets a bad word: `data_store_error`.
const STORE_ERROR: u8 = 0x2b;

/// The error trap of a turn that wants a bad word (SPARC V8, chapter 7, trap types). A snoop wants no word.
fn error_trap(turn: Turn) -> u8
    ensures { result ≡ turn_trap (kind_of turn) }
{
    match turn {
        Turn::Fetch { .. } => FETCH_ERROR,
        Turn::Load { .. } | Turn::Atomic { .. } => DATA_ERROR,
        Turn::Drain(_) => STORE_ERROR,
        Turn::Snoop => 0,
    }
}

/// What a turn comes to, whose transfer has this number.
fn did_of_turn(turn: Turn, number: u32, answer: Result<Did, Bad>) -> Did
    ensures { result ≡ did_of_turn turn number answer }
{
    match answer {
        Ok(did) => did,
        Err(bad) => Did::Stop {
            tt: error_trap(turn),
            place: number,
            syn: bad.syn,
        },
    }
}

/// The error trap that stops a core names the bad word, with the number of the transfer that met it.
fn name_word(named: &mut Vec<Word2>, number: u32, answer: Result<Did, Bad>)
    requires none { named.old.items ≡ [] }
    requires used { vec_len named.old ≡ 0 }
    requires room { vec_capacity named.old ≡ 1 }
    ensures named { named.new.items ≡ named_by number [] answer }
    ensures room { vec_capacity named.new ≡ 1 }
{
    if let Err(bad) = answer {
        named.push_reserved(Word2 {
            addr: bad.addr,
            value: Some(number),
        });
    }
}

/// A turn ends, whose transfer has this number. It ends the step that is begun, unless all steps, `limit` in number, were made.
fn end_turn(made: &mut Record, limit: u32, number: u32)
    requires number { number + 1 < 2 ^ 32 }
    ensures ended { made.new ≡ record made.old { steps = if nat_le limit made.old.steps then made.old.steps else made.old.steps + 1; turns = number + 1 } }
{
    if made.steps() < limit {
        made.end_step();
    }
    made.end_turn(number + 1);
}

impl Core {
    /// Makes a turn of the core on the bus: the one that its step needs, a drain by the schedule in a step that is begun, or a drain
    /// after its last step.
    ///
    /// It ends the step that is begun. Where the turn wants a bad word, it stops the core, whose record names the word. Else an atomic
    /// has retired its instruction; any other turn retires none.
    pub fn bus_step(&mut self, bus: &mut Bus, turn: Turn) -> Did
        requires turn { MayTurn self.old turn }
        requires setup { self.old.setup ≡ bus.old.setup }
        requires idle { bus.old.begun ≡ false }
        requires joins { Joins self.old bus.old.log bus.old.transfers }
        ensures ends { EndsTurn turn self.old self.new bus.old bus.new }
        ensures answer { result ≡ did_of_turn turn (length bus.old.transfers) (answer_of (turn_begun bus.old) turn self.old) }
        ensures moves { Moves (in_step self.old.phase) (phase_after result) self.old self.new }
        ensures stores { store_steps self.new.ops ≡ store_steps self.old.ops }
        ensures adds { AddsTransfer turn self.old bus.old bus.new (transfer_at (turn_begun bus.old) turn self.old) }
        ensures ok { CoreOk self.new bus.new.log bus.new.transfers }
        ensures bus_ok { BusOk bus.new }
    {
        let number = bus.turn_start();
        let answer = make_turn(&mut self.arch, &mut self.parts, bus, turn);
        end_turn(&mut self.parts.record, self.limit, number);
        name_word(&mut self.room.named, number, answer);
        let did = did_of_turn(turn, number, answer);
        self.phase = phase_after(did);
        self.quiet = 0;
        did
    }
}
