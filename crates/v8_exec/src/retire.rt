ghost use Rattle.std.specs.Prelude.{◌≡◌, ◌<◌, ◌≤◌, ◌+◌, ◌^◌, ℕ, fold};
ghost use Rattle.lf_model.specs.Course.Touches.{write_touches};
ghost use Rattle.lf_model.specs.Effect.{cell_written};
ghost use Rattle.lf_model.specs.State.{advanced, with_register};
ghost use Rattle.lf_model.specs.Step.{IsSound, Parts, state_of};
ghost use Rattle.lf_model.specs.declared.instruction.Instr.{Instr};
ghost use Rattle.v8_exec.specs.Accesses.{atomic_access, Finishes};

use crate::operands::write_register;
use crate::ports::Ports;
use crate::program_counter::advance;
use lf_model::control::Arch;

/// The end of a load or an atomic: register `rd` gets a value, and the operation is counted.
pub fn retire_with<P: Ports>(a: &mut Arch, rd: u8, value: u32, p: &mut P)
    requires sound { IsSound a.old }
    requires count { a.old.k + 1 < 2 ^ 32 }
    requires register { rd < 32 }
    ensures state { state_of a.new (P.seen p.new) ≡ advanced (with_register rd value (state_of a.old (P.seen p.old))) }
    ensures sound { IsSound a.new }
    ensures core { a.new.core ≡ a.old.core }
    ensures instructions { a.new.n ≡ a.old.n }
    ensures operations { a.new.k ≡ a.old.k + 1 }
    ensures site { (P.seen p.new).site ≡ (P.seen p.old).site }
    ensures ops { (P.seen p.new).ops ≡ (P.seen p.old).ops }
    ensures touches { P.state p.new ≡ fold P.touch (P.state p.old) (write_touches (cell_written (state_of a.old (P.seen p.old)) rd)) }
    ensures room { P.room p.old ≤ P.room p.new }
{
    write_register(a, rd, value, p);
    advance(a);
    a.k += 1;
}

/// The end of LDSTUB or SWAP: the turn on the bus that it needed read `got`, which goes to register `rd`. The
/// instruction and its operation are counted; the caller records the operation.
pub fn finish_atomic<P: Ports>(a: &mut Arch, rd: u8, got: u32, p: &mut P)
    requires sound { IsSound a.old }
    requires instructions { a.old.n + 1 < 2 ^ 32 }
    requires operations { a.old.k + 1 < 2 ^ 32 }
    requires register { rd < 32 }
    ensures finishes { (i : Instr) (parts : Parts) (addr len new : ℕ) → Finishes i parts (atomic_access addr len new rd) got a.old a.new (P.seen p.old) (P.seen p.new) }
    ensures state { state_of a.new (P.seen p.new) ≡ advanced (with_register rd got (state_of a.old (P.seen p.old))) }
    ensures sound { IsSound a.new }
    ensures core { a.new.core ≡ a.old.core }
    ensures instructions { a.new.n ≡ a.old.n + 1 }
    ensures operations { a.new.k ≡ a.old.k + 1 }
    ensures site { (P.seen p.new).site ≡ (P.seen p.old).site }
    ensures ops { (P.seen p.new).ops ≡ (P.seen p.old).ops }
    ensures touches { P.state p.new ≡ fold P.touch (P.state p.old) (write_touches (cell_written (state_of a.old (P.seen p.old)) rd)) }
    ensures room { P.room p.old ≤ P.room p.new }
{
    retire_with(a, rd, got, p);
    a.n += 1;
}
