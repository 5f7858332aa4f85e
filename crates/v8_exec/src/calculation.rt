//! The results of the instructions that calculate, apart from registers and ports (SPARC V8, appendix B).

ghost use Rattle.std.specs.Prelude.{◌≡◌, ◌<◌, ◌==◌, ◌↔◌, IsErr, IfOk, IfErr, IsTrue, Ok, if◌then◌else◌};
ghost use Rattle.std.specs.Int.{from_bool};
ghost use Rattle.lf_num.specs.Arithmetic.{product, low_word, high_word, plain_icc, quotient, quotient_icc, word_sum, word_difference, step_augend, step_addend, step_y, sum_icc, tagged_sum_icc, tagged_difference_icc};
ghost use Rattle.lf_model.specs.Conditions.{codes_of};
ghost use Rattle.lf_model.specs.Calculation.{carry_of};
ghost use Rattle.v8_alu.specs.Operations.{value_of, codes_of as alu_codes};
ghost use Rattle.v8_exec.specs.Calculating.{Calculates};
ghost use Rattle.v8_word.specs.Common.{is_common};

use lf_model::instruction::CalcName;
use v8_alu::{AluOp, alu};
use v8_traps::{DIVISION_BY_ZERO, TAG_OVERFLOW};

/// What an instruction calculates from: the values of its operands, icc and Y.
#[derive(Clone, Copy)]
pub struct Inputs {
    pub a: u32,
    pub b: u32,
    pub icc: u8,
    pub y: u32,
}

/// What an instruction calculates: the value of a register, and icc and Y as they are afterwards.
#[derive(Clone, Copy)]
pub struct Calculated {
    pub value: u32,
    pub icc: u8,
    pub y: u32,
}

fn carry(icc: u8) -> bool
    ensures { from_bool result ≡ carry_of icc }
{
    icc & 1 == 1
}

fn overflow(icc: u8) -> bool
    ensures { result ≡ (codes_of icc).v }
{
    icc >> 1 & 1 == 1
}

/// A result that leaves icc and Y as they were.
#[inline(always)]
fn plain(op: AluOp, x: Inputs) -> Calculated
    ensures value { result.value ≡ value_of op x.a x.b (carry_of x.icc) }
    ensures icc { result.icc ≡ x.icc }
    ensures y { result.y ≡ x.y }
{
    Calculated {
        value: alu(op, x.a, x.b, carry(x.icc)).value,
        icc: x.icc,
        y: x.y,
    }
}

/// A result that sets icc.
#[inline(always)]
fn with_codes(op: AluOp, x: Inputs) -> Calculated
    ensures value { result.value ≡ value_of op x.a x.b (carry_of x.icc) }
    ensures icc { result.icc ≡ alu_codes op x.a x.b (carry_of x.icc) }
    ensures y { result.y ≡ x.y }
    ensures fits { result.icc < 16 }
{
    let out = alu(op, x.a, x.b, carry(x.icc));
    Calculated {
        value: out.value,
        icc: out.icc,
        y: x.y,
    }
}

/// UMUL and SMUL; the cc forms set icc.
fn multiply(signed: bool, cc: bool, x: Inputs) -> Calculated
    requires { x.icc < 16 }
    ensures value { result.value ≡ low_word (product signed x.a x.b) }
    ensures icc { result.icc ≡ (if cc then plain_icc (low_word (product signed x.a x.b)) else x.icc) }
    ensures y { result.y ≡ high_word (product signed x.a x.b) }
    ensures fits { result.icc < 16 }
{
    let out = v8_muldiv::mul(signed, x.a, x.b);
    Calculated {
        value: out.value,
        icc: if cc { out.icc } else { x.icc },
        y: out.y,
    }
}

/// UDIV and SDIV, or their trap type; the cc forms set icc.
fn divide(signed: bool, cc: bool, x: Inputs) -> Result<Calculated, u8>
    requires { x.icc < 16 }
    ensures by_zero { IsErr result ↔ (x.b ≡ 0) }
    ensures trap { IfErr result (λ tt_. tt_ ≡ 0x2a) }
    ensures value { IfOk result (λ out. out.value ≡ quotient signed x.y x.a x.b) }
    ensures icc { IfOk result (λ out. out.icc ≡ (if cc then quotient_icc signed x.y x.a x.b else x.icc)) }
    ensures y { IfOk result (λ out. out.y ≡ x.y) }
    ensures fits { IfOk result (λ out. out.icc < 16) }
{
    let Some(out) = v8_muldiv::div(signed, x.y, x.a, x.b) else {
        return Err(DIVISION_BY_ZERO);
    };
    Ok(Calculated {
        value: out.value,
        icc: if cc { out.icc } else { x.icc },
        y: x.y,
    })
}

/// MULScc.
fn multiply_step(x: Inputs) -> Calculated
    ensures value { result.value ≡ word_sum (step_augend x.a x.icc) (step_addend x.b x.y) 0 }
    ensures icc { result.icc ≡ sum_icc (step_augend x.a x.icc) (step_addend x.b x.y) 0 }
    ensures y { result.y ≡ step_y x.a x.y }
    ensures fits { result.icc < 16 }
{
    let out = v8_muldiv::mulscc(x.a, x.b, x.icc, x.y);
    Calculated {
        value: out.value,
        icc: out.icc,
        y: out.y,
    }
}

/// TADDcc and TSUBcc.
fn tagged(sub: bool, x: Inputs) -> Calculated
    ensures value { result.value ≡ (if sub then word_difference x.a x.b 0 else word_sum x.a x.b 0) }
    ensures icc { result.icc ≡ (if sub then tagged_difference_icc x.a x.b else tagged_sum_icc x.a x.b) }
    ensures y { result.y ≡ x.y }
    ensures fits { result.icc < 16 }
{
    let out = v8_muldiv::tagged(sub, x.a, x.b);
    Calculated {
        value: out.value,
        icc: out.icc,
        y: x.y,
    }
}

/// A TV form: the tagged result, or its trap type where V would be 1.
fn unless_overflow(out: Calculated) -> Result<Calculated, u8>
    ensures overflow { IsErr result ↔ IsTrue (codes_of out.icc).v }
    ensures trap { IfErr result (λ tt_. tt_ ≡ 0x0a) }
    ensures value { IfOk result (λ same. same ≡ out) }
{
    if overflow(out.icc) {
        Err(TAG_OVERFLOW)
    } else {
        Ok(out)
    }
}

/// What a sum, a difference, a logical operation or a shift calculates.
#[tactic(auto, unfolding(lf_model::specs::Calculation::result_of, lf_model::specs::Calculation::icc_after, lf_model::specs::Families::y_after, lf_model::specs::Families::overflows_tag, lf_model::specs::Families::divides_by_zero))]
#[inline(always)]
pub fn common_calculation(name: CalcName, x: Inputs) -> Calculated
    requires codes { x.icc < 16 }
    requires common { IsTrue (is_common name) }
    ensures { Calculates name x (Ok result) }
{
    match name {
        CalcName::Add => plain(AluOp::Add, x),
        CalcName::AddCc => with_codes(AluOp::Add, x),
        CalcName::And => plain(AluOp::And, x),
        CalcName::AndCc => with_codes(AluOp::And, x),
        CalcName::Or => plain(AluOp::Or, x),
        CalcName::OrCc => with_codes(AluOp::Or, x),
        CalcName::Xor => plain(AluOp::Xor, x),
        CalcName::XorCc => with_codes(AluOp::Xor, x),
        CalcName::Sub => plain(AluOp::Sub, x),
        CalcName::SubCc => with_codes(AluOp::Sub, x),
        CalcName::AndN => plain(AluOp::AndN, x),
        CalcName::AndNCc => with_codes(AluOp::AndN, x),
        CalcName::OrN => plain(AluOp::OrN, x),
        CalcName::OrNCc => with_codes(AluOp::OrN, x),
        CalcName::XNor => plain(AluOp::XNor, x),
        CalcName::XNorCc => with_codes(AluOp::XNor, x),
        CalcName::Sll => plain(AluOp::Sll, x),
        CalcName::Srl => plain(AluOp::Srl, x),
        CalcName::Sra => plain(AluOp::Sra, x),
        _ => unreachable!(),
    }
}

/// What an instruction calculates, or the type of the trap that it takes instead.
#[tactic(auto, unfolding(lf_model::specs::Calculation::result_of, lf_model::specs::Calculation::icc_after, lf_model::specs::Families::y_after, lf_model::specs::Families::overflows_tag, lf_model::specs::Families::divides_by_zero))]
pub fn calculation(name: CalcName, x: Inputs) -> Result<Calculated, u8>
    requires { x.icc < 16 }
    ensures { Calculates name x result }
{
    match name {
        CalcName::Add => Ok(plain(AluOp::Add, x)),
        CalcName::AddCc => Ok(with_codes(AluOp::Add, x)),
        CalcName::AddX => Ok(plain(AluOp::AddX, x)),
        CalcName::AddXCc => Ok(with_codes(AluOp::AddX, x)),
        CalcName::Sub => Ok(plain(AluOp::Sub, x)),
        CalcName::SubCc => Ok(with_codes(AluOp::Sub, x)),
        CalcName::SubX => Ok(plain(AluOp::SubX, x)),
        CalcName::SubXCc => Ok(with_codes(AluOp::SubX, x)),
        CalcName::And => Ok(plain(AluOp::And, x)),
        CalcName::AndCc => Ok(with_codes(AluOp::And, x)),
        CalcName::AndN => Ok(plain(AluOp::AndN, x)),
        CalcName::AndNCc => Ok(with_codes(AluOp::AndN, x)),
        CalcName::Or => Ok(plain(AluOp::Or, x)),
        CalcName::OrCc => Ok(with_codes(AluOp::Or, x)),
        CalcName::OrN => Ok(plain(AluOp::OrN, x)),
        CalcName::OrNCc => Ok(with_codes(AluOp::OrN, x)),
        CalcName::Xor => Ok(plain(AluOp::Xor, x)),
        CalcName::XorCc => Ok(with_codes(AluOp::Xor, x)),
        CalcName::XNor => Ok(plain(AluOp::XNor, x)),
        CalcName::XNorCc => Ok(with_codes(AluOp::XNor, x)),
        CalcName::Sll => Ok(plain(AluOp::Sll, x)),
        CalcName::Srl => Ok(plain(AluOp::Srl, x)),
        CalcName::Sra => Ok(plain(AluOp::Sra, x)),
        CalcName::UMul => Ok(multiply(false, false, x)),
        CalcName::UMulCc => Ok(multiply(false, true, x)),
        CalcName::SMul => Ok(multiply(true, false, x)),
        CalcName::SMulCc => Ok(multiply(true, true, x)),
        CalcName::UDiv => divide(false, false, x),
        CalcName::UDivCc => divide(false, true, x),
        CalcName::SDiv => divide(true, false, x),
        CalcName::SDivCc => divide(true, true, x),
        CalcName::MulScc => Ok(multiply_step(x)),
        CalcName::TAddCc => Ok(tagged(false, x)),
        CalcName::TSubCc => Ok(tagged(true, x)),
        CalcName::TAddCcTv => unless_overflow(tagged(false, x)),
        CalcName::TSubCcTv => unless_overflow(tagged(true, x)),
    }
}
