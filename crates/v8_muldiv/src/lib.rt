//! Products, quotients, steps of a product, and tagged sums and differences of SPARC V8.
//!
//! `icc` holds N, Z, V and C as bits 3 to 0. No call takes memory.
#![tactic(auto)]

ghost use Rattle.std.specs.Prelude.{◌≡◌, ◌≢◌, ◌↔◌, ◌+◌, ◌*◌, ◌/◌, ◌%◌, ◌^◌, ◌<◌, IfSome, IsNone, true, false, if◌then◌else◌};
ghost use Rattle.std.specs.Prelude.{pos, ◌*ℤ◌, int_div};
ghost use Rattle.std.specs.Int.{saturate_signed, w32, w64};
ghost use Rattle.lf_num.specs.Arithmetic.{plain_icc, product, low_word, high_word};
ghost use Rattle.lf_num.specs.Arithmetic.{quotient, quotient_icc, fits_signed_word};
ghost use Rattle.lf_num.specs.Arithmetic.{step_augend, step_addend, step_y, product_by_steps, mixed_product, StepsMultiply};
ghost use Rattle.lf_num.specs.Arithmetic.{word_sum, sum_icc, word_difference, has_tag, tagged_sum_icc, tagged_difference_icc, signed_sum, signed_difference, TaggedOverflowTells};
ghost use Rattle.v8_muldiv.specs.Stepping.{steps_of};

pub use v8_alu::AluOut;
use v8_alu::{AluOp, alu, condition_codes};

/// The low word of a product, or the result of a multiply step, with its condition codes, and the new Y.
#[derive(Clone, Copy, Debug, PartialEq, Eq)]
pub struct MulOut {
    pub value: u32,
    pub y: u32,
    pub icc: u8,
}

/// A quotient and its condition codes.
#[derive(Clone, Copy, Debug, PartialEq, Eq)]
pub struct DivOut {
    pub value: u32,
    pub icc: u8,
}

fn signed_product(a: i32, b: i32) -> i64
    ensures { result ≡ a *ℤ b }
{
    a as i64 * b as i64
}

fn wide_product(signed: bool, a: u32, b: u32) -> u64
    ensures { result ≡ product signed a b }
{
    if signed {
        signed_product(a.cast_signed(), b.cast_signed()).cast_unsigned()
    } else {
        u64::from(a) * u64::from(b)
    }
}

/// UMUL and SMUL: the product of two words, unsigned or signed (SPARC V8, appendix B, multiply instructions).
pub fn mul(signed: bool, a: u32, b: u32) -> MulOut
    ensures value { result.value ≡ low_word (product signed a b) }
    ensures upper { result.y ≡ high_word (product signed a b) }
    ensures codes { result.icc ≡ plain_icc (low_word (product signed a b)) }
{
    let product = wide_product(signed, a, b);
    let value = (product & 0xffff_ffff) as u32;
    MulOut {
        value,
        y: (product >> 32) as u32,
        icc: condition_codes(value, false, false),
    }
}

/// Y and a as one number of 64 bits.
fn dividend(y: u32, a: u32) -> u64
    ensures { result ≡ y * 2 ^ 32 + a }
{
    (u64::from(y) << 32) + u64::from(a)
}

fn unsigned_division(y: u32, a: u32, b: u32) -> DivOut
    requires { b ≢ 0 }
    ensures value { result.value ≡ quotient false y a b }
    ensures codes { result.icc ≡ quotient_icc false y a b }
{
    let exact = dividend(y, a) / u64::from(b);
    let overflow = exact > 0xffff_ffff;
    let value = if overflow { 0xffff_ffff } else { exact as u32 };
    DivOut {
        value,
        icc: condition_codes(value, overflow, false),
    }
}

/// The quotient rounded to zero, which has more than 64 bits only for -2 ^ 63 by -1.
fn rounded_quotient(dividend: i64, divisor: i32) -> i64
    requires { divisor ≢ pos 0 }
    ensures value { result ≡ saturate_signed w64 (int_div dividend divisor) }
    ensures fits { fits_signed_word result ≡ fits_signed_word (int_div dividend divisor) }
    ensures nearest { saturate_signed w32 result ≡ saturate_signed w32 (int_div dividend divisor) }
{
    dividend.saturating_div(divisor as i64)
}

fn nearest_word(exact: i64) -> i32
    ensures { result ≡ saturate_signed w32 exact }
{
    if exact > 0x7fff_ffff {
        i32::MAX
    } else if exact < -0x8000_0000 {
        i32::MIN
    } else {
        exact as i32
    }
}

fn fits_word(exact: i64) -> bool
    ensures { result ≡ fits_signed_word exact }
{
    exact >= -0x8000_0000 && exact <= 0x7fff_ffff
}

fn signed_division(y: u32, a: u32, b: u32) -> DivOut
    requires { b ≢ 0 }
    ensures value { result.value ≡ quotient true y a b }
    ensures codes { result.icc ≡ quotient_icc true y a b }
{
    let exact = rounded_quotient(dividend(y, a).cast_signed(), b.cast_signed());
    let value = nearest_word(exact).cast_unsigned();
    DivOut {
        value,
        icc: condition_codes(value, !fits_word(exact), false),
    }
}

/// UDIV and SDIV: the quotient of Y and `a`, as one number of 64 bits, by `b`, unsigned or signed and rounded to
/// zero, or the nearest number of 32 bits; None where `b` is 0 (SPARC V8, appendix B, divide instructions).
pub fn div(signed: bool, y: u32, a: u32, b: u32) -> Option<DivOut>
    ensures by_zero { IsNone result ↔ (b ≡ 0) }
    ensures value { IfSome result (λ out. out.value ≡ quotient signed y a b) }
    ensures codes { IfSome result (λ out. out.icc ≡ quotient_icc signed y a b) }
{
    if b == 0 {
        None
    } else if signed {
        Some(signed_division(y, a, b))
    } else {
        Some(unsigned_division(y, a, b))
    }
}

fn step_augend(a: u32, icc: u8) -> u32
    ensures { result ≡ step_augend a icc }
{
    let negative = icc >> 3 & 1;
    let overflow = icc >> 1 & 1;
    (u32::from(negative ^ overflow) << 31) + (a >> 1)
}

/// MULScc: one step of a product (SPARC V8, appendix B, multiply step instruction).
pub fn mulscc(a: u32, b: u32, icc: u8, y: u32) -> MulOut
    ensures value { result.value ≡ word_sum (step_augend a icc) (step_addend b y) 0 }
    ensures shifted { result.y ≡ step_y a y }
    ensures codes { result.icc ≡ sum_icc (step_augend a icc) (step_addend b y) 0 }
{
    let addend = if y & 1 == 1 { b } else { 0 };
    let sum = alu(AluOp::Add, step_augend(a, icc), addend, false);
    MulOut {
        value: sum.value,
        y: ((a & 1) << 31) + (y >> 1),
        icc: sum.icc,
    }
}

/// The product of `y`, unsigned, and `b`, signed, by multiply steps alone, as programs make it that use no
/// multiply instruction: 32 steps with `b`, from the value 0 with N = V = 0 and `y` in Y, and one with 0. The
/// product's high word is the value, and its low word is in Y.
pub fn multiply_by_steps(y: u32, b: u32) -> MulOut
    ensures steps { steps_of result ≡ product_by_steps y b 0 }
    ensures product { result.value * 2 ^ 32 + result.y ≡ mixed_product y b }
    ensures unsigned { b < 2 ^ 31 → result.value * 2 ^ 32 + result.y ≡ product false y b }

    // The same from any icc whose N and V are 0.
    ensures law { StepsMultiply y b }
{
    let mut out = MulOut {
        value: 0,
        y,
        icc: 0,
    };
    for _ in 0..32u32 {
        out = mulscc(out.value, b, out.icc, out.y);
    }
    mulscc(out.value, 0, out.icc, out.y)
}

fn has_tag(a: u32, b: u32) -> bool
    ensures { result ≡ has_tag a b }
{
    a % 4 != 0 || b % 4 != 0
}

/// The condition codes with V set.
fn with_overflow(icc: u8) -> u8
    ensures { result ≡ icc / 4 * 4 + 2 + icc % 2 }
{
    (icc >> 2 << 2) + 2 + (icc & 1)
}

fn marked(plain: AluOut, tag: bool) -> AluOut
    ensures value { result.value ≡ plain.value }
    ensures plain { tag ≡ false → result.icc ≡ plain.icc }
    ensures tagged { tag ≡ true → result.icc ≡ plain.icc / 4 * 4 + 2 + plain.icc % 2 }
{
    if tag {
        AluOut {
            value: plain.value,
            icc: with_overflow(plain.icc),
        }
    } else {
        plain
    }
}

fn tagged_sum(a: u32, b: u32) -> AluOut
    ensures value { result.value ≡ word_sum a b 0 }
    ensures codes { result.icc ≡ tagged_sum_icc a b }
    ensures overflow { TaggedOverflowTells a b result.icc (signed_sum a b 0) }
{
    marked(alu(AluOp::Add, a, b, false), has_tag(a, b))
}

fn tagged_difference(a: u32, b: u32) -> AluOut
    ensures value { result.value ≡ word_difference a b 0 }
    ensures codes { result.icc ≡ tagged_difference_icc a b }
    ensures overflow { TaggedOverflowTells a b result.icc (signed_difference a b 0) }
{
    marked(alu(AluOp::Sub, a, b, false), has_tag(a, b))
}

/// TADDcc and TSUBcc: a sum or difference of tagged words (SPARC V8, appendix B, tagged add and subtract
/// instructions). V is also 1 where a low bit of an operand, bit 0 or 1, is 1.
pub fn tagged(sub: bool, a: u32, b: u32) -> AluOut
    ensures value { result.value ≡ (if sub then word_difference a b 0 else word_sum a b 0) }
    ensures codes { result.icc ≡ (if sub then tagged_difference_icc a b else tagged_sum_icc a b) }
    ensures overflow { TaggedOverflowTells a b result.icc (if sub then signed_difference a b 0 else signed_sum a b 0) }
{
    if sub {
        tagged_difference(a, b)
    } else {
        tagged_sum(a, b)
    }
}
