ghost use Rattle.std.specs.Prelude.{◌≡◌, ◌<◌, ◌+◌, ◌*◌, ◌%◌, ◌^◌, false, IfOk, IfErr, Ok};
ghost use Rattle.lf_model.specs.Fields.{bits_of};
ghost use Rattle.lf_model.specs.Instructions.{is_privileged_state, registers_read};
ghost use Rattle.lf_model.specs.StateRegisters.{asr_value, state_value, names_no_window, psr_parts, with_state};
ghost use Rattle.lf_model.specs.Step.{IsSound, Seen, state_of, first_bad};
ghost use Rattle.lf_model.specs.declared.instruction.Instr.TheVariants.{ReadState, ReadAsr, WriteState, WriteAsr};
ghost use Rattle.v8_exec.specs.Frame.{bad_in, Performs, Keeps, Refuses};
ghost use Rattle.v8_exec.specs.Reading.{IsSource};
ghost use Rattle.v8_exec.specs.Touching.{Touches};

use crate::operands::{read_operands, write_register};
use crate::ports::Ports;
use crate::program_counter::advance;
use crate::trap;
use lf_model::control::{Arch, Ctl};
use lf_model::instruction::{Src, StateName};
use lf_model::step::{Did, RegBad};
use lf_model::trap::Checks;
use v8_traps::first_trap;

/// The ancillary state register of the processor configuration (GRLIB, LEON3FT, processor configuration register).
const CONFIGURATION: u8 = 17;

/// In the configuration register: the multiply and divide instructions are there.
const MULTIPLY_AND_DIVIDE: u32 = 1 << 8;

/// In the configuration register: the number of windows less 1.
const LAST_WINDOW: u32 = 7;

/// The value of an ancillary state register, 17 or 19.
fn asr_value(core: u32, number: u8) -> u32
    requires { core < 8 }
    ensures { result ≡ asr_value core number }
{
    if number == CONFIGURATION {
        (core << 28) + MULTIPLY_AND_DIVIDE + LAST_WINDOW
    } else {
        0
    }
}

/// PSR, WIM and TBR are for the supervisor alone.
fn is_privileged(name: StateName) -> bool
    ensures { result ≡ is_privileged_state name }
{
    name != StateName::Y
}

fn value_of(a: &Arch, name: StateName) -> u32
    requires sound { IsSound a.now }
    ensures { (seen : Seen) → result ≡ state_value name (state_of a.now seen) }
{
    match name {
        StateName::Y => a.y,
        StateName::Psr => a.ctl.psr(),
        StateName::Wim => a.wim,
        StateName::Tbr => a.ctl.tbr,
    }
}

/// RDY, RDPSR, RDWIM and RDTBR: register `rd` gets a state register.
#[tactic(auto, unfolding(lf_model::specs::Effects::effect))]
pub fn read<P: Ports>(a: &mut Arch, name: StateName, rd: u8, p: &mut P) -> Did
    requires sound { IsSound a.old }
    requires register { rd < 32 }
    ensures does { Performs (ReadState name rd) (P.answers (P.state p.old)) result a.old a.new (P.seen p.old) (P.seen p.new) }
    ensures touches { Touches P.touch (ReadState name rd) (P.answers (P.state p.old)) (Ok result) a.old (P.seen p.old) (P.state p.old) (P.state p.new) }
    ensures keeps { Keeps result a.old a.new (P.seen p.old) (P.seen p.new) (P.room p.old) (P.room p.new) }
{
    let checks = Checks {
        privileged: is_privileged(name) && !a.ctl.s,
        ..Checks::default()
    };
    if let Some(tt) = first_trap(&checks) {
        return trap::take(a, tt, p);
    }
    write_register(a, rd, value_of(a, name), p);
    advance(a);
    Did::Retired
}

/// RDASR: register `rd` gets ancillary state register `number`.
#[tactic(auto, unfolding(lf_model::specs::Effects::effect))]
pub fn read_asr<P: Ports>(a: &mut Arch, rd: u8, number: u8, p: &mut P) -> Did
    requires sound { IsSound a.old }
    requires core { a.old.core ≡ (P.seen p.old).site.core }
    requires register { rd < 32 }
    ensures does { Performs (ReadAsr rd number) (P.answers (P.state p.old)) result a.old a.new (P.seen p.old) (P.seen p.new) }
    ensures touches { Touches P.touch (ReadAsr rd number) (P.answers (P.state p.old)) (Ok result) a.old (P.seen p.old) (P.state p.old) (P.state p.new) }
    ensures keeps { Keeps result a.old a.new (P.seen p.old) (P.seen p.new) (P.room p.old) (P.room p.new) }
{
    write_register(a, rd, asr_value(a.core, number), p);
    advance(a);
    Did::Retired
}

/// The value is none that PSR may get, since its CWP field names no window.
fn names_no_window(name: StateName, value: u32) -> bool
    ensures { result ≡ names_no_window name value }
{
    name == StateName::Psr && value % 32 > 7
}

/// The parts of PSR that WRPSR writes.
fn set_psr(ctl: &mut Ctl, value: u32)
    requires { value % 32 < 8 }
    ensures parts { ctl.new ≡ psr_parts value ctl.old }
    ensures codes { ctl.new.icc < 16 }
    ensures level { ctl.new.pil < 16 }
    ensures window { ctl.new.cwp < 8 }
{
    ctl.icc = (value >> 20 & 15) as u8;
    ctl.pil = (value >> 8 & 15) as u8;
    ctl.s = value >> 7 & 1 == 1;
    ctl.ps = value >> 6 & 1 == 1;
    ctl.et = value >> 5 & 1 == 1;
    ctl.cwp = (value & 31) as u8;
}

/// TBR with another base address.
fn with_base(tbr: u32, value: u32) -> u32
    ensures base { result ≡ bits_of value 31 12 * 2 ^ 12 + tbr % 2 ^ 12 }
    ensures zeros { tbr % 16 ≡ 0 → result % 16 ≡ 0 }
{
    (value >> 12 << 12) + tbr % 4096
}

/// A value in a state register.
fn set_state(a: &mut Arch, name: StateName, value: u32)
    requires sound { IsSound a.old }
    requires window { names_no_window name value ≡ false }
    ensures sound { IsSound a.new }
    ensures state { (seen : Seen) → state_of a.new seen ≡ with_state name value (state_of a.old seen) }
    ensures core { a.new.core ≡ a.old.core }
    ensures instructions { a.new.n ≡ a.old.n }
    ensures operations { a.new.k ≡ a.old.k }
{
    match name {
        StateName::Y => a.y = value,
        StateName::Psr => set_psr(&mut a.ctl, value),
        StateName::Wim => a.wim = value % 256,
        StateName::Tbr => a.ctl.tbr = with_base(a.ctl.tbr, value),
    }
}

/// WRY, WRPSR, WRWIM and WRTBR: a state register becomes the first operand xor the second.
#[tactic(auto, unfolding(lf_model::specs::Effects::effect))]
pub fn write<P: Ports>(
    a: &mut Arch,
    name: StateName,
    rs1: u8,
    src: Src,
    p: &mut P,
) -> Result<Did, RegBad>
    requires sound { IsSound a.old }
    requires register { rs1 < 32 }
    requires fields { IsSource src }
    ensures read { first_bad (P.answers (P.state p.old)) a.old.ctl.cwp (registers_read (WriteState name rs1 src)) ≡ bad_in result }
    ensures does { IfOk result (λ did. Performs (WriteState name rs1 src) (P.answers (P.state p.old)) did a.old a.new (P.seen p.old) (P.seen p.new)) }
    ensures touches { Touches P.touch (WriteState name rs1 src) (P.answers (P.state p.old)) result a.old (P.seen p.old) (P.state p.old) (P.state p.new) }
    ensures keeps { IfOk result (λ did. Keeps did a.old a.new (P.seen p.old) (P.seen p.new) (P.room p.old) (P.room p.new)) }
    ensures refuses { IfErr result (λ bad. Refuses bad a.old a.new (P.seen p.old) (P.seen p.new) (P.answers (P.state p.old)) (P.answers (P.state p.new)) (P.room p.old) (P.room p.new)) }
{
    let x = read_operands(a, rs1, src, p)?;
    let value = x.a ^ x.b;
    let checks = Checks {
        privileged: is_privileged(name) && !a.ctl.s,
        illegal: names_no_window(name, value),
        ..Checks::default()
    };
    if let Some(tt) = first_trap(&checks) {
        return Ok(trap::take(a, tt, p));
    }
    set_state(a, name, value);
    advance(a);
    Ok(Did::Retired)
}

/// WRASR, which has no effect but that its operands are read.
#[tactic(auto, unfolding(lf_model::specs::Effects::effect))]
pub fn write_asr<P: Ports>(
    a: &mut Arch,
    number: u8,
    rs1: u8,
    src: Src,
    p: &mut P,
) -> Result<Did, RegBad>
    requires sound { IsSound a.old }
    requires register { rs1 < 32 }
    requires fields { IsSource src }
    ensures read { first_bad (P.answers (P.state p.old)) a.old.ctl.cwp (registers_read (WriteAsr number rs1 src)) ≡ bad_in result }
    ensures does { IfOk result (λ did. Performs (WriteAsr number rs1 src) (P.answers (P.state p.old)) did a.old a.new (P.seen p.old) (P.seen p.new)) }
    ensures touches { Touches P.touch (WriteAsr number rs1 src) (P.answers (P.state p.old)) result a.old (P.seen p.old) (P.state p.old) (P.state p.new) }
    ensures keeps { IfOk result (λ did. Keeps did a.old a.new (P.seen p.old) (P.seen p.new) (P.room p.old) (P.room p.new)) }
    ensures refuses { IfErr result (λ bad. Refuses bad a.old a.new (P.seen p.old) (P.seen p.new) (P.answers (P.state p.old)) (P.answers (P.state p.new)) (P.room p.old) (P.room p.new)) }
{
    read_operands(a, rs1, src, p)?;
    advance(a);
    Ok(Did::Retired)
}
