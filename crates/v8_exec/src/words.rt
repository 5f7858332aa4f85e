ghost use Rattle.std.specs.Prelude.{◌≡◌, ◌<◌, ◌^◌, IsTrue, IfSome};
ghost use Rattle.lf_model.specs.Instructions.{instruction_of};
ghost use Rattle.lf_model.specs.declared.instruction.Instr.TheVariants.{Calc, Mem, Sethi, Bicc};
ghost use Rattle.v8_exec.specs.Reading.{IsInstruction, IsSource, HasPair};
ghost use Rattle.v8_word.specs.Common.{is_common};

use lf_model::instruction::Instr;
use v8_word::{Access, Branch, Calculation, HighBits};

/// The instruction that a word is, with its fields in their ranges.
pub fn decoded(w: u32) -> Instr
    ensures row { result ≡ instruction_of w }
    ensures fields { IsInstruction result }
{
    v8_word::decode(w)
}

/// The fields, in their ranges, of a word that is a sum, a difference, a logical operation or a shift.
#[inline(always)]
pub fn calculation_of(w: u32) -> Option<Calculation>
    ensures row { IfSome result (λ x. instruction_of w ≡ Calc x.name x.rd x.rs1 x.src) }
    ensures fields { IfSome result (λ x. (x.rd < 32) × (x.rs1 < 32) × IsSource x.src) }
    ensures common { IfSome result (λ x. IsTrue (is_common x.name)) }
{
    v8_word::calculation_of(w)
}

/// The fields, in their ranges, of a word that is a load or store of a register.
#[inline(always)]
pub fn access_of(w: u32) -> Option<Access>
    ensures row { IfSome result (λ x. instruction_of w ≡ Mem x.name x.rd x.rs1 x.src) }
    ensures fields { IfSome result (λ x. (x.rd < 32) × (x.rs1 < 32) × IsSource x.src) }
    ensures pair { IfSome result (λ x. HasPair x.name x.rd) }
{
    v8_word::access_of(w)
}

/// The fields, in their ranges, of a word that is SETHI.
#[inline(always)]
pub fn high_bits_of(w: u32) -> Option<HighBits>
    ensures row { IfSome result (λ x. instruction_of w ≡ Sethi x.rd x.imm22) }
    ensures fields { IfSome result (λ x. (x.rd < 32) × (x.imm22 < 2 ^ 22)) }
{
    v8_word::high_bits_of(w)
}

/// The fields, in their ranges, of a word that is Bicc.
#[inline(always)]
pub fn branch_of(w: u32) -> Option<Branch>
    ensures row { IfSome result (λ x. instruction_of w ≡ Bicc x.cond x.annul x.disp22) }
    ensures fields { IfSome result (λ x. x.disp22 < 2 ^ 22) }
{
    v8_word::branch_of(w)
}
