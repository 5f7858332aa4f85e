//! Ordinary traps of SPARC V8: which trap an instruction takes, and entry into its handler.
//!
//! No call takes memory.
#![tactic(auto)]

ghost use Rattle.std.specs.Prelude.{◌≡◌, ◌<◌, ◌+◌, ◌*◌, ◌/◌, ◌^◌, ◌↔◌, IsTrue, IsNone, IfSome, false};
ghost use Rattle.std.specs.List.{All};
ghost use Rattle.lf_model.specs.State.{State};
ghost use Rattle.lf_model.specs.Traps.{entered, handler_window, no_checks, traps_in_order};
ghost use Rattle.lf_model.specs.Traps.{first_trap as first_of};
ghost use Rattle.v8_traps.specs.Entry.{EntersHandler, at_handler};
ghost use Rattle.v8_traps.specs.Priority.{IsFirst};

pub use lf_model::control::Ctl;
pub use lf_model::trap::Checks;

/// PC is no word of the text.
pub const INSTRUCTION_ACCESS_EXCEPTION: u8 = 0x01;

/// An instruction for the supervisor, in user mode.
pub const PRIVILEGED_INSTRUCTION: u8 = 0x03;

/// A word that is no instruction, or an instruction that may not be executed so.
pub const ILLEGAL_INSTRUCTION: u8 = 0x02;

/// A floating-point instruction, where there is no floating-point unit.
pub const FP_DISABLED: u8 = 0x04;

/// A coprocessor instruction, where there is no coprocessor.
pub const CP_DISABLED: u8 = 0x24;

/// SAVE into an invalid window.
pub const WINDOW_OVERFLOW: u8 = 0x05;

/// RESTORE or RETT into an invalid window.
pub const WINDOW_UNDERFLOW: u8 = 0x06;

/// An address that is no multiple of its size.
pub const MEM_ADDRESS_NOT_ALIGNED: u8 = 0x07;

/// An address that has no such access.
pub const DATA_ACCESS_EXCEPTION: u8 = 0x09;

/// A tagged instruction that traps on overflow.
pub const TAG_OVERFLOW: u8 = 0x0a;

/// A division by 0.
pub const DIVISION_BY_ZERO: u8 = 0x2a;

/// What entry into a handler comes to.
#[derive(Clone, Copy, Debug, PartialEq, Eq)]
pub enum Entered {
    /// Traps are disabled, so that the processor enters error mode.
    ErrorMode,
    /// The handler's window, below 8, and the old PC and nPC, which go to registers 17 and 18 of that window.
    Vectored { window: u8, pc: u32, npc: u32 },
}

/// The trap type of the first trap that is set, in the order of the fields.
fn first_set(c: &Checks) -> Option<u8>
    ensures value { result ≡ first_of (traps_in_order c.now) }
    ensures clear { IsNone result → c.now ≡ no_checks }
{
    if c.fetch {
        Some(INSTRUCTION_ACCESS_EXCEPTION)
    } else if c.privileged {
        Some(PRIVILEGED_INSTRUCTION)
    } else if c.illegal {
        Some(ILLEGAL_INSTRUCTION)
    } else if c.fp_off {
        Some(FP_DISABLED)
    } else if c.cp_off {
        Some(CP_DISABLED)
    } else if c.over {
        Some(WINDOW_OVERFLOW)
    } else if c.under {
        Some(WINDOW_UNDERFLOW)
    } else if c.align {
        Some(MEM_ADDRESS_NOT_ALIGNED)
    } else if c.access {
        Some(DATA_ACCESS_EXCEPTION)
    } else if c.tag {
        Some(TAG_OVERFLOW)
    } else if c.zero {
        Some(DIVISION_BY_ZERO)
    } else {
        c.ticc
    }
}

/// The trap type of the trap that is taken, the first that is set. `None` exactly where none is set.
pub fn first_trap(c: &Checks) -> Option<u8>
    ensures first { IfSome result (IsFirst (traps_in_order c.now)) }
    ensures none { IsNone result ↔ All IsNone (traps_in_order c.now) }
    ensures clear { IsNone result → c.now ≡ no_checks }

    // The same, as the effects of instructions say it.
    ensures value { result ≡ first_of (traps_in_order c.now) }
{
    first_set(c)
}

/// The trap base register with another trap type; it is the address of that trap's handler.
fn with_trap_type(tbr: u32, tt: u8) -> u32
    ensures { result ≡ tbr / 2 ^ 12 * 2 ^ 12 + tt * 2 ^ 4 }
{
    (tbr >> 12 << 12) + ((tt as u32) << 4)
}

/// Entry into the handler of the trap type `tt` (SPARC V8, chapter 7, traps). The caller writes the answer's PC
/// and nPC.
pub fn enter(ctl: &mut Ctl, tt: u8) -> Entered
    requires { ctl.old.cwp < 8 }
    ensures error_mode { (result ≡ Entered.ErrorMode) ↔ (ctl.old.et ≡ false) }
    ensures unchanged { result ≡ Entered.ErrorMode → ctl.new ≡ ctl.old }
    ensures vectored { IsTrue ctl.old.et → result ≡ Entered.Vectored (handler_window ctl.old.cwp) ctl.old.pc ctl.old.npc }
    ensures handler { IsTrue ctl.old.et → EntersHandler tt ctl.old ctl.new }

    // The effect of the trap on each state with this control state.
    ensures control { IsTrue ctl.old.et → (s : State) → s.ctl ≡ ctl.old → (entered tt s).ctl ≡ ctl.new }
    ensures state { IsTrue ctl.old.et → (s : State) → s.ctl ≡ ctl.old → entered tt s ≡ at_handler s ctl.new ctl.old.pc ctl.old.npc }
{
    if !ctl.et {
        return Entered::ErrorMode;
    }
    let window = (ctl.cwp + 7) % 8;
    let answer = Entered::Vectored {
        window,
        pc: ctl.pc,
        npc: ctl.npc,
    };
    let handler = with_trap_type(ctl.tbr, tt);
    ctl.et = false;
    ctl.ps = ctl.s;
    ctl.s = true;
    ctl.cwp = window;
    ctl.tbr = handler;
    ctl.pc = handler;
    ctl.npc = handler + 4;
    answer
}
