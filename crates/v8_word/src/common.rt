//! The fields of the common instructions, which `decode` answers too, each kind by itself.

ghost use Rattle.std.specs.Prelude.{◌≡◌, IsTrue, IfSome};
ghost use Rattle.lf_model.specs.Fields.{op_of, rd_of, rs1_of, src_of};
ghost use Rattle.lf_model.specs.Instructions.{instruction_of, calc, in_range, rd_fits};
ghost use Rattle.lf_model.specs.declared.instruction.Instr.TheVariants.{Calc, Mem, Sethi, Bicc};
ghost use Rattle.v8_word.specs.Common.{is_common};

use crate::fields::{annul, cond, disp22, imm22, op, op2, op3, rd, rs1, src};
use lf_model::instruction::{CalcName, MemName, Src};

/// The fields of an instruction that calculates.
#[derive(Clone, Copy)]
pub struct Calculation {
    pub name: CalcName,
    pub rd: u8,
    pub rs1: u8,
    pub src: Src,
}

/// The fields of a load or store.
#[derive(Clone, Copy)]
pub struct Access {
    pub name: MemName,
    pub rd: u8,
    pub rs1: u8,
    pub src: Src,
}

/// The fields of SETHI.
#[derive(Clone, Copy)]
pub struct HighBits {
    pub rd: u8,
    pub imm22: u32,
}

/// The fields of Bicc.
#[derive(Clone, Copy)]
pub struct Branch {
    pub cond: u8,
    pub annul: bool,
    pub disp22: u32,
}

/// The name of a sum, a difference, a logical operation or a shift, none of which reads icc or Y.
#[inline(always)]
#[tactic(auto, unfolding(lf_model::specs::Instructions::instruction_of, lf_model::specs::Instructions::arithmetic))]
fn common_name(w: u32) -> Option<CalcName>
    requires op { op_of w ≡ 2 }
    ensures row { IfSome result (λ name. instruction_of w ≡ calc name w) }
    ensures common { IfSome result (λ name. IsTrue (is_common name)) }
{
    match op3(w) {
        0x00 => Some(CalcName::Add),
        0x01 => Some(CalcName::And),
        0x02 => Some(CalcName::Or),
        0x03 => Some(CalcName::Xor),
        0x04 => Some(CalcName::Sub),
        0x05 => Some(CalcName::AndN),
        0x06 => Some(CalcName::OrN),
        0x07 => Some(CalcName::XNor),
        0x10 => Some(CalcName::AddCc),
        0x11 => Some(CalcName::AndCc),
        0x12 => Some(CalcName::OrCc),
        0x13 => Some(CalcName::XorCc),
        0x14 => Some(CalcName::SubCc),
        0x15 => Some(CalcName::AndNCc),
        0x16 => Some(CalcName::OrNCc),
        0x17 => Some(CalcName::XNorCc),
        0x25 => Some(CalcName::Sll),
        0x26 => Some(CalcName::Srl),
        0x27 => Some(CalcName::Sra),
        _ => None,
    }
}

/// A word that is a sum, a difference, a logical operation or a shift, none of which reads icc or Y.
#[inline(always)]
pub fn calculation_of(w: u32) -> Option<Calculation>
    ensures row { IfSome result (λ x. instruction_of w ≡ Calc x.name x.rd x.rs1 x.src) }
    ensures range { IfSome result (λ x. IsTrue (in_range (Calc x.name x.rd x.rs1 x.src))) }
    ensures common { IfSome result (λ x. IsTrue (is_common x.name)) }
{
    if op(w) != 2 {
        return None;
    }
    let name = common_name(w)?;
    Some(Calculation {
        name,
        rd: rd(w),
        rs1: rs1(w),
        src: src(w),
    })
}

/// The name of a load or store of a register.
#[inline(always)]
#[tactic(auto, unfolding(lf_model::specs::Instructions::instruction_of, lf_model::specs::Instructions::memory))]
fn access_name(w: u32) -> Option<MemName>
    requires op { op_of w ≡ 3 }
    ensures row { IfSome result (λ name. instruction_of w ≡ Mem name (rd_of w) (rs1_of w) (src_of w)) }
    ensures fits { IfSome result (λ name. IsTrue (rd_fits name (rd_of w))) }
{
    match op3(w) {
        0x00 => Some(MemName::Ld),
        0x01 => Some(MemName::Ldub),
        0x02 => Some(MemName::Lduh),
        0x04 => Some(MemName::St),
        0x05 => Some(MemName::Stb),
        0x06 => Some(MemName::Sth),
        0x09 => Some(MemName::Ldsb),
        0x0a => Some(MemName::Ldsh),
        _ => None,
    }
}

/// A word that is a load or store of a register.
#[inline(always)]
pub fn access_of(w: u32) -> Option<Access>
    ensures row { IfSome result (λ x. instruction_of w ≡ Mem x.name x.rd x.rs1 x.src) }
    ensures range { IfSome result (λ x. IsTrue (in_range (Mem x.name x.rd x.rs1 x.src))) }
{
    if op(w) != 3 {
        return None;
    }
    let name = access_name(w)?;
    Some(Access {
        name,
        rd: rd(w),
        rs1: rs1(w),
        src: src(w),
    })
}

/// A word that is SETHI.
#[inline(always)]
#[tactic(auto, unfolding(lf_model::specs::Instructions::instruction_of, lf_model::specs::Instructions::branch))]
pub fn high_bits_of(w: u32) -> Option<HighBits>
    ensures row { IfSome result (λ x. instruction_of w ≡ Sethi x.rd x.imm22) }
    ensures range { IfSome result (λ x. IsTrue (in_range (Sethi x.rd x.imm22))) }
{
    if op(w) != 0 || op2(w) != 4 {
        return None;
    }
    Some(HighBits {
        rd: rd(w),
        imm22: imm22(w),
    })
}

/// A word that is Bicc.
#[inline(always)]
#[tactic(auto, unfolding(lf_model::specs::Instructions::instruction_of, lf_model::specs::Instructions::branch))]
pub fn branch_of(w: u32) -> Option<Branch>
    ensures row { IfSome result (λ x. instruction_of w ≡ Bicc x.cond x.annul x.disp22) }
    ensures range { IfSome result (λ x. IsTrue (in_range (Bicc x.cond x.annul x.disp22))) }
{
    if op(w) != 0 || op2(w) != 2 {
        return None;
    }
    Some(Branch {
        cond: cond(w),
        annul: annul(w),
        disp22: disp22(w),
    })
}
