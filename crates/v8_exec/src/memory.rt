ghost use Rattle.std.specs.Prelude.{◌≡◌, ◌<◌, ◌≤◌, ◌+◌, ◌*◌, ◌^◌, fold, IfOk, IfErr, false, true};
ghost use Rattle.lf_model.specs.Instructions.{registers_read};
ghost use Rattle.lf_model.specs.Start.{touches_text};
ghost use Rattle.lf_model.specs.Memory.{size_of, load_refused, store_refused, access_misaligned, access_refused, extended, load_effect, load_double_effect, store_effect, output_effect, atomic_effect, stored_number, mem_effect};
ghost use Rattle.lf_model.specs.State.{register};
ghost use Rattle.lf_model.specs.Alternate.{is_plain_space, alternate_refused, control_effect};
ghost use Rattle.lf_model.specs.Step.{IsSound, state_of, first_bad};
ghost use Rattle.lf_model.specs.declared.instruction.Instr.TheVariants.{Mem, Alternate};
ghost use Rattle.lf_model.specs.declared.touch.Touch.TheVariants.{LookData};
ghost use Rattle.v8_exec.specs.Calls.{spent_by_read};
ghost use Rattle.v8_exec.specs.Frame.{bad_in, Makes, Performs, Keeps, Refuses};
ghost use Rattle.v8_exec.specs.Accesses.{Asks, Looks, is_atomic_size};
ghost use Rattle.v8_exec.specs.Reading.{IsSource, HasPair, IsAccess};
ghost use Rattle.v8_exec.specs.Touching.{acts_of, Touches};

use crate::operands::{Request, read_request, write_register};
use crate::ports::Ports;
use crate::program_counter::advance;
use crate::retire::retire_with;
use crate::trap;
use lf_model::addresses::OUTPUT_WORD;
use lf_model::bus::Why;
use lf_model::control::Arch;
use lf_model::instruction::{MemName, Src};
use lf_model::step::{Did, Look, RegBad, Turn};
use lf_model::trap::Checks;
use v8_traps::first_trap;

/// The address space of the system control registers.
const SYSTEM_CONTROL: u8 = 0x02;

/// The size of an access in bytes.
fn size(name: MemName) -> u8
    ensures size { result ≡ size_of name }
    ensures some { 1 ≤ result }
    ensures few { result ≤ 8 }
{
    match name {
        MemName::Ldub | MemName::Ldsb | MemName::Stb | MemName::Ldstub => 1,
        MemName::Lduh | MemName::Ldsh | MemName::Sth => 2,
        MemName::Ld | MemName::St | MemName::Swap => 4,
        MemName::Ldd | MemName::Std => 8,
    }
}

// ---- the traps of an address

fn is_misaligned(name: MemName, addr: u32) -> bool
    ensures { result ≡ access_misaligned name addr }
{
    addr % u32::from(size(name)) != 0
}

fn is_load_refused<P: Ports>(addr: u32, len: u8, p: &P) -> bool
    ensures { result ≡ load_refused (P.seen p.now).site addr len }
{
    !p.in_ram(addr, len)
}

fn is_store_refused<P: Ports>(addr: u32, len: u8, p: &P) -> bool
    ensures { result ≡ store_refused (P.seen p.now).site addr len }
{
    p.is_text(addr, len) || !p.in_ram(addr, len)
}

/// The access may not have this address: it is to be wholly in RAM, and what stores touches no text, but ST may write
/// the output word.
fn is_refused<P: Ports>(name: MemName, addr: u32, p: &P) -> bool
    ensures { result ≡ access_refused (P.seen p.now).site name addr }
{
    let len = size(name);
    match name {
        MemName::St if addr == OUTPUT_WORD => false,
        MemName::St | MemName::Stb | MemName::Sth | MemName::Std => is_store_refused(addr, len, p),
        MemName::Ldstub | MemName::Swap => {
            is_load_refused(addr, len, p) || is_store_refused(addr, len, p)
        }
        MemName::Ld
        | MemName::Ldub
        | MemName::Lduh
        | MemName::Ldd
        | MemName::Ldsb
        | MemName::Ldsh => is_load_refused(addr, len, p),
    }
}

fn is_plain_space(asi: u8) -> bool
    ensures { result ≡ is_plain_space asi }
{
    matches!(asi, 0x01 | 0x08 | 0x09 | 0x0a | 0x0b)
}

/// The access may not have this address in this address space: a system control register is loaded and stored as a
/// word, and there is no other space than these and the plain ones.
fn is_alternate_refused<P: Ports>(name: MemName, asi: u8, addr: u32, p: &P) -> bool
    ensures { result ≡ alternate_refused (P.seen p.now).site name asi addr }
{
    if is_plain_space(asi) {
        is_refused(name, addr, p)
    } else {
        asi != SYSTEM_CONTROL || !matches!(name, MemName::Ld | MemName::St)
    }
}

// ---- what an access does

/// The bytes that a load reads, or what it comes to where the data cache misses.
fn look<P: Ports>(addr: u32, len: u8, p: &mut P) -> Result<u64, Did>
    requires access { IsAccess (P.seen p.old).site addr len }
    requires room { 0 < P.room p.old }
    ensures looks { Looks (P.answers (P.state p.old)) addr len (P.seen p.old) (P.seen p.new) result }
    ensures touches { P.state p.new ≡ P.touch (P.state p.old) (LookData addr len) }
    ensures turn { IfErr result (Asks (P.seen p.old).site) }
    ensures fits { IfOk result (λ value. value < 2 ^ (8 * len)) }
    ensures room { P.room p.old ≤ P.room p.new + spent_by_read result }
{
    let waiting = p.waiting();
    match p.load(addr, len) {
        Look::Hit { value, .. } => Ok(value),
        Look::Miss(_) if waiting => Err(Did::Need(Turn::Drain(Why::Miss))),
        Look::Miss(why) => Err(Did::Need(Turn::Load { addr, len, why })),
    }
}

/// What a load of one register puts there of the bytes that it read.
fn loaded(name: MemName, value: u64) -> u32
    requires bytes { value < 2 ^ (8 * size_of name) }
    requires one { size_of name ≤ 4 }
    ensures { result ≡ extended name value }
{
    match name {
        MemName::Ldsb => lf_num::sext(value as u32, 8),
        MemName::Ldsh => lf_num::sext(value as u32, 16),
        _ => value as u32,
    }
}

/// A load of one register.
fn load<P: Ports>(a: &mut Arch, name: MemName, addr: u32, rd: u8, p: &mut P) -> Did
    requires sound { IsSound a.old }
    requires count { a.old.k + 1 < 2 ^ 32 }
    requires one { size_of name ≤ 4 }
    requires register { rd < 32 }
    requires access { IsAccess (P.seen p.old).site addr (size_of name) }
    requires room { 0 < P.room p.old }
    ensures does { Makes (load_effect name addr rd (state_of a.old (P.seen p.old))) (P.answers (P.state p.old)) result a.old a.new (P.seen p.old) (P.seen p.new) }
    ensures touches { P.state p.new ≡ fold P.touch (P.state p.old) (acts_of (load_effect name addr rd (state_of a.old (P.seen p.old))) result) }
    ensures keeps { Keeps result a.old a.new (P.seen p.old) (P.seen p.new) (P.room p.old) (P.room p.new) }
    ensures turn { Asks (P.seen p.old).site result }
{
    match look(addr, size(name), p) {
        Ok(value) => {
            retire_with(a, rd, loaded(name, value), p);
            Did::Retired
        }
        Err(did) => did,
    }
}

/// LDD.
fn load_double<P: Ports>(a: &mut Arch, addr: u32, rd: u8, p: &mut P) -> Did
    requires sound { IsSound a.old }
    requires count { a.old.k + 1 < 2 ^ 32 }
    requires register { rd + 1 < 32 }
    requires access { IsAccess (P.seen p.old).site addr 8 }
    requires room { 0 < P.room p.old }
    ensures does { Makes (load_double_effect addr rd (state_of a.old (P.seen p.old))) (P.answers (P.state p.old)) result a.old a.new (P.seen p.old) (P.seen p.new) }
    ensures touches { P.state p.new ≡ fold P.touch (P.state p.old) (acts_of (load_double_effect addr rd (state_of a.old (P.seen p.old))) result) }
    ensures keeps { Keeps result a.old a.new (P.seen p.old) (P.seen p.new) (P.room p.old) (P.room p.new) }
    ensures turn { Asks (P.seen p.old).site result }
{
    match look(addr, 8, p) {
        Ok(value) => {
            write_register(a, rd, (value >> 32) as u32, p);
            retire_with(a, rd + 1, (value % (1 << 32)) as u32, p);
            Did::Retired
        }
        Err(did) => did,
    }
}

/// A store of the number `value`.
fn store<P: Ports>(a: &mut Arch, name: MemName, addr: u32, rd: u8, value: u64, p: &mut P) -> Did
    requires sound { IsSound a.old }
    requires count { a.old.k + 1 < 2 ^ 32 }
    requires number { value ≡ stored_number name rd (state_of a.old (P.seen p.old)) }
    requires fits { value < 2 ^ (8 * size_of name) }
    requires access { IsAccess (P.seen p.old).site addr (size_of name) }
    requires text { touches_text (P.seen p.old).site.image.text addr (size_of name) ≡ false }
    requires room { 0 < P.room p.old }
    ensures does { Makes (store_effect name addr rd (state_of a.old (P.seen p.old))) (P.answers (P.state p.old)) result a.old a.new (P.seen p.old) (P.seen p.new) }
    ensures touches { P.state p.new ≡ fold P.touch (P.state p.old) (acts_of (store_effect name addr rd (state_of a.old (P.seen p.old))) result) }
    ensures keeps { Keeps result a.old a.new (P.seen p.old) (P.seen p.new) (P.room p.old) (P.room p.new) }
    ensures turn { Asks (P.seen p.old).site result }
{
    if p.store(addr, size(name), value).is_err() {
        return Did::Need(Turn::Drain(Why::Full));
    }
    advance(a);
    a.k += 1;
    Did::Retired
}

/// A word stored to the output word.
fn output<P: Ports>(a: &mut Arch, rd: u8, value: u64, p: &mut P) -> Did
    requires sound { IsSound a.old }
    requires number { value ≡ register (state_of a.old (P.seen p.old)) rd }
    requires room { 0 < P.room p.old }
    ensures does { Makes (output_effect rd (state_of a.old (P.seen p.old))) (P.answers (P.state p.old)) result a.old a.new (P.seen p.old) (P.seen p.new) }
    ensures touches { P.state p.new ≡ fold P.touch (P.state p.old) (acts_of (output_effect rd (state_of a.old (P.seen p.old))) result) }
    ensures keeps { Keeps result a.old a.new (P.seen p.old) (P.seen p.new) (P.room p.old) (P.room p.new) }
    ensures turn { Asks (P.seen p.old).site result }
{
    p.out((value % 256) as u8);
    advance(a);
    Did::Retired
}

/// LDSTUB and SWAP: a turn on the bus, once no store waits.
fn atomic<P: Ports>(a: &Arch, name: MemName, addr: u32, rd: u8, value: u32, p: &P) -> Did
    requires register { rd < 32 }
    requires access { IsAccess (P.seen p.now).site addr (size_of name) }
    requires one { is_atomic_size (size_of name) ≡ true }
    requires text { touches_text (P.seen p.now).site.image.text addr (size_of name) ≡ false }
    requires fits { value < 2 ^ (8 * size_of name) }
    requires number { value ≡ stored_number name rd (state_of a.now (P.seen p.now)) }
    ensures does { Makes (atomic_effect name addr rd (state_of a.now (P.seen p.now))) (P.answers (P.state p.now)) result a.now a.now (P.seen p.now) (P.seen p.now) }
    ensures touches { P.state p.now ≡ fold P.touch (P.state p.now) (acts_of (atomic_effect name addr rd (state_of a.now (P.seen p.now))) result) }
    ensures turn { Asks (P.seen p.now).site result }
{
    if p.waiting() {
        return Did::Need(Turn::Drain(Why::Atomic));
    }
    Did::Need(Turn::Atomic {
        addr,
        len: size(name),
        new: value,
        rd,
    })
}

/// An access that takes no trap.
fn make<P: Ports>(a: &mut Arch, name: MemName, rd: u8, x: Request, p: &mut P) -> Did
    requires sound { IsSound a.old }
    requires count { a.old.k + 1 < 2 ^ 32 }
    requires register { rd < 32 }
    requires pair { HasPair name rd }
    requires number { x.value ≡ stored_number name rd (state_of a.old (P.seen p.old)) }
    requires fits { x.value < 2 ^ (8 * size_of name) }
    requires aligned { access_misaligned name x.addr ≡ false }
    requires accepted { access_refused (P.seen p.old).site name x.addr ≡ false }
    requires room { 0 < P.room p.old }
    ensures does { Makes (mem_effect name x.addr rd (state_of a.old (P.seen p.old))) (P.answers (P.state p.old)) result a.old a.new (P.seen p.old) (P.seen p.new) }
    ensures touches { P.state p.new ≡ fold P.touch (P.state p.old) (acts_of (mem_effect name x.addr rd (state_of a.old (P.seen p.old))) result) }
    ensures keeps { Keeps result a.old a.new (P.seen p.old) (P.seen p.new) (P.room p.old) (P.room p.new) }
    ensures turn { Asks (P.seen p.old).site result }
{
    match name {
        MemName::Ldd => load_double(a, x.addr, rd, p),
        MemName::St if x.addr == OUTPUT_WORD => output(a, rd, x.value, p),
        MemName::St | MemName::Stb | MemName::Sth | MemName::Std => {
            store(a, name, x.addr, rd, x.value, p)
        }
        MemName::Ldstub | MemName::Swap => atomic(a, name, x.addr, rd, x.value as u32, p),
        MemName::Ld | MemName::Ldub | MemName::Lduh | MemName::Ldsb | MemName::Ldsh => {
            load(a, name, x.addr, rd, p)
        }
    }
}

/// A load, store or atomic.
#[tactic(auto, unfolding(lf_model::specs::Effects::effect))]
pub fn access<P: Ports>(
    a: &mut Arch,
    name: MemName,
    rd: u8,
    rs1: u8,
    src: Src,
    p: &mut P,
) -> Result<Did, RegBad>
    requires sound { IsSound a.old }
    requires count { a.old.k + 1 < 2 ^ 32 }
    requires registers { (rd < 32) × (rs1 < 32) }
    requires fields { IsSource src }
    requires pair { HasPair name rd }
    requires room { 0 < P.room p.old }
    ensures read { first_bad (P.answers (P.state p.old)) a.old.ctl.cwp (registers_read (Mem name rd rs1 src)) ≡ bad_in result }
    ensures does { IfOk result (λ did. Performs (Mem name rd rs1 src) (P.answers (P.state p.old)) did a.old a.new (P.seen p.old) (P.seen p.new)) }
    ensures touches { Touches P.touch (Mem name rd rs1 src) (P.answers (P.state p.old)) result a.old (P.seen p.old) (P.state p.old) (P.state p.new) }
    ensures keeps { IfOk result (λ did. Keeps did a.old a.new (P.seen p.old) (P.seen p.new) (P.room p.old) (P.room p.new)) }
    ensures refuses { IfErr result (λ bad. Refuses bad a.old a.new (P.seen p.old) (P.seen p.new) (P.answers (P.state p.old)) (P.answers (P.state p.new)) (P.room p.old) (P.room p.new)) }
    ensures turn { IfOk result (λ did. Asks (P.seen p.old).site did) }
{
    let x = read_request(a, name, rd, rs1, src, p)?;
    let checks = Checks {
        align: is_misaligned(name, x.addr),
        access: is_refused(name, x.addr, p),
        ..Checks::default()
    };
    if let Some(tt) = first_trap(&checks) {
        return Ok(trap::take(a, tt, p));
    }
    Ok(make(a, name, rd, x, p))
}

/// LDA and STA of a system control register, which reads as 0.
fn control<P: Ports>(a: &mut Arch, name: MemName, rd: u8, p: &mut P) -> Did
    requires sound { IsSound a.old }
    requires register { rd < 32 }
    ensures does { Makes (control_effect name rd (state_of a.old (P.seen p.old))) (P.answers (P.state p.old)) result a.old a.new (P.seen p.old) (P.seen p.new) }
    ensures touches { P.state p.new ≡ fold P.touch (P.state p.old) (acts_of (control_effect name rd (state_of a.old (P.seen p.old))) result) }
    ensures keeps { Keeps result a.old a.new (P.seen p.old) (P.seen p.new) (P.room p.old) (P.room p.new) }
    ensures turn { Asks (P.seen p.old).site result }
{
    if name == MemName::Ld {
        write_register(a, rd, 0, p);
    }
    advance(a);
    Did::Retired
}

/// An alternate form: in a plain address space it does what its plain form does.
#[tactic(auto, unfolding(lf_model::specs::Effects::effect))]
#[cold]
#[inline(never)]
pub fn alternate<P: Ports>(
    a: &mut Arch,
    name: MemName,
    rd: u8,
    rs1: u8,
    rs2: u8,
    asi: u8,
    p: &mut P,
) -> Result<Did, RegBad>
    requires sound { IsSound a.old }
    requires count { a.old.k + 1 < 2 ^ 32 }
    requires registers { (rd < 32) × (rs1 < 32) × (rs2 < 32) }
    requires pair { HasPair name rd }
    requires room { 0 < P.room p.old }
    ensures read { first_bad (P.answers (P.state p.old)) a.old.ctl.cwp (registers_read (Alternate name rd rs1 rs2 asi)) ≡ bad_in result }
    ensures does { IfOk result (λ did. Performs (Alternate name rd rs1 rs2 asi) (P.answers (P.state p.old)) did a.old a.new (P.seen p.old) (P.seen p.new)) }
    ensures touches { Touches P.touch (Alternate name rd rs1 rs2 asi) (P.answers (P.state p.old)) result a.old (P.seen p.old) (P.state p.old) (P.state p.new) }
    ensures keeps { IfOk result (λ did. Keeps did a.old a.new (P.seen p.old) (P.seen p.new) (P.room p.old) (P.room p.new)) }
    ensures refuses { IfErr result (λ bad. Refuses bad a.old a.new (P.seen p.old) (P.seen p.new) (P.answers (P.state p.old)) (P.answers (P.state p.new)) (P.room p.old) (P.room p.new)) }
    ensures turn { IfOk result (λ did. Asks (P.seen p.old).site did) }
{
    let x = read_request(a, name, rd, rs1, Src::Reg(rs2), p)?;
    let checks = Checks {
        privileged: !a.ctl.s,
        align: is_misaligned(name, x.addr),
        access: is_alternate_refused(name, asi, x.addr, p),
        ..Checks::default()
    };
    if let Some(tt) = first_trap(&checks) {
        return Ok(trap::take(a, tt, p));
    }
    if is_plain_space(asi) {
        return Ok(make(a, name, rd, x, p));
    }
    Ok(control(a, name, rd, p))
}
