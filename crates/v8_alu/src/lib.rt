//! The values and condition codes of the sums, differences, logical operations and shifts of SPARC V8.
//!
//! `icc` holds N, Z, V and C as bits 3 to 0. No call takes memory.
#![tactic(auto)]

ghost use Rattle.std.specs.Prelude.{◌≡◌, IfSome, false};
ghost use Rattle.std.specs.Int.{from_bool};
ghost use Rattle.lf_num.specs.Arithmetic.{icc_of, plain_icc, word_sum, sum_icc, word_difference, difference_icc};
ghost use Rattle.lf_num.specs.Arithmetic.{shifted_right_signed, signed_sum, signed_difference, OverflowTells, IsWordOf};
ghost use Rattle.v8_alu.specs.Operations.{value_of, codes_of, signed_result};

use lf_num::sext;

/// An operation of the arithmetic and logic unit (SPARC V8, appendix B, logical, shift, add and subtract
/// instructions). `AddX` and `SubX` take the carry in, and the shifts take the low five bits of their second operand.
#[derive(Clone, Copy, Debug, PartialEq, Eq)]
pub enum AluOp {
    Add,
    AddX,
    Sub,
    SubX,
    And,
    AndN,
    Or,
    OrN,
    Xor,
    XNor,
    Sll,
    Srl,
    Sra,
}

/// A result and its condition codes: N, Z, V and C are bits 3 to 0 of `icc`.
#[derive(Clone, Copy, Debug, PartialEq, Eq)]
pub struct AluOut {
    pub value: u32,
    pub icc: u8,
}

/// The condition codes of a result with these V and C.
pub fn condition_codes(value: u32, overflow: bool, carry: bool) -> u8
    ensures codes { result ≡ icc_of value overflow carry }
{
    let negative = (value >> 31) as u8;
    let zero = u8::from(value == 0);
    negative * 8 + zero * 4 + u8::from(overflow) * 2 + u8::from(carry)
}

fn sum(a: u32, b: u32, carry: bool) -> AluOut
    ensures value { result.value ≡ word_sum a b (from_bool carry) }
    ensures codes { result.icc ≡ sum_icc a b (from_bool carry) }
    ensures overflow { OverflowTells result.icc (signed_sum a b (from_bool carry)) }
    ensures signed { IsWordOf result.value (signed_sum a b (from_bool carry)) }
{
    let (value, carries) = a.carrying_add(b, carry);
    let overflows = a >> 31 == b >> 31 && value >> 31 != a >> 31;
    AluOut {
        value,
        icc: condition_codes(value, overflows, carries),
    }
}

fn difference(a: u32, b: u32, carry: bool) -> AluOut
    ensures value { result.value ≡ word_difference a b (from_bool carry) }
    ensures codes { result.icc ≡ difference_icc a b (from_bool carry) }
    ensures overflow { OverflowTells result.icc (signed_difference a b (from_bool carry)) }
    ensures signed { IsWordOf result.value (signed_difference a b (from_bool carry)) }
{
    let (value, borrows) = a.borrowing_sub(b, carry);
    let overflows = a >> 31 != b >> 31 && value >> 31 != a >> 31;
    AluOut {
        value,
        icc: condition_codes(value, overflows, borrows),
    }
}

fn logical(value: u32) -> AluOut
    ensures value { result.value ≡ value }
    ensures codes { result.icc ≡ plain_icc value }
{
    AluOut {
        value,
        icc: condition_codes(value, false, false),
    }
}

fn shifted(value: u32) -> AluOut
    ensures value { result.value ≡ value }
    ensures codes { result.icc ≡ 0 }
{
    AluOut { value, icc: 0 }
}

fn shifted_with_sign(a: u32, b: u32) -> u32
    ensures { result ≡ shifted_right_signed a b }
{
    let by = b % 32;
    sext(a >> by, 32 - by)
}

/// The result and the condition codes of `op` on the words `a` and `b`, with C as `carry`.
pub fn alu(op: AluOp, a: u32, b: u32, carry: bool) -> AluOut
    ensures value { result.value ≡ value_of op a b (from_bool carry) }
    ensures codes { result.icc ≡ codes_of op a b (from_bool carry) }

    // A sum or difference of signed numbers: V tells that it is no number of 32 bits, and else the result is it.
    ensures overflow { IfSome (signed_result op a b (from_bool carry)) (OverflowTells result.icc) }
    ensures signed { IfSome (signed_result op a b (from_bool carry)) (IsWordOf result.value) }
{
    match op {
        AluOp::Add => sum(a, b, false),
        AluOp::AddX => sum(a, b, carry),
        AluOp::Sub => difference(a, b, false),
        AluOp::SubX => difference(a, b, carry),
        AluOp::And => logical(a & b),
        AluOp::AndN => logical(a & !b),
        AluOp::Or => logical(a | b),
        AluOp::OrN => logical(a | !b),
        AluOp::Xor => logical(a ^ b),
        AluOp::XNor => logical(!(a ^ b)),
        AluOp::Sll => shifted(a << (b % 32)),
        AluOp::Srl => shifted(a >> (b % 32)),
        AluOp::Sra => shifted(shifted_with_sign(a, b)),
    }
}
