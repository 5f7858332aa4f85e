//! The fields of an instruction word (SPARC V8, chapter 5, instruction formats).

ghost use Rattle.std.specs.Prelude.{◌≡◌};
ghost use Rattle.lf_model.specs.Fields.{op_of, op2_of, op3_of, rd_of, rs1_of, rs2_of, cond_of, a_of, i_of, asi_of, imm22_of, disp22_of, disp30_of, src_of};

use lf_model::instruction::Src;
use lf_num::bits;

#[inline(always)]
pub fn op(w: u32) -> u8
    ensures { result ≡ op_of w }
{
    bits(w, 31, 30) as u8
}

#[inline(always)]
pub fn op2(w: u32) -> u8
    ensures { result ≡ op2_of w }
{
    bits(w, 24, 22) as u8
}

#[inline(always)]
pub fn op3(w: u32) -> u8
    ensures { result ≡ op3_of w }
{
    bits(w, 24, 19) as u8
}

#[inline(always)]
pub fn rd(w: u32) -> u8
    ensures { result ≡ rd_of w }
{
    bits(w, 29, 25) as u8
}

#[inline(always)]
pub fn rs1(w: u32) -> u8
    ensures { result ≡ rs1_of w }
{
    bits(w, 18, 14) as u8
}

#[inline(always)]
pub fn rs2(w: u32) -> u8
    ensures { result ≡ rs2_of w }
{
    bits(w, 4, 0) as u8
}

#[inline(always)]
pub fn cond(w: u32) -> u8
    ensures { result ≡ cond_of w }
{
    bits(w, 28, 25) as u8
}

#[inline(always)]
pub fn annul(w: u32) -> bool
    ensures { result ≡ a_of w }
{
    bits(w, 29, 29) == 1
}

#[inline(always)]
pub fn i(w: u32) -> u8
    ensures { result ≡ i_of w }
{
    bits(w, 13, 13) as u8
}

#[inline(always)]
pub fn asi(w: u32) -> u8
    ensures { result ≡ asi_of w }
{
    bits(w, 12, 5) as u8
}

#[inline(always)]
pub fn imm22(w: u32) -> u32
    ensures { result ≡ imm22_of w }
{
    bits(w, 21, 0)
}

#[inline(always)]
pub fn disp22(w: u32) -> u32
    ensures { result ≡ disp22_of w }
{
    bits(w, 21, 0)
}

#[inline(always)]
pub fn disp30(w: u32) -> u32
    ensures { result ≡ disp30_of w }
{
    bits(w, 29, 0)
}

#[inline(always)]
pub fn src(w: u32) -> Src
    ensures { result ≡ src_of w }
{
    if i(w) == 0 {
        Src::Reg(rs2(w))
    } else {
        Src::Imm(bits(w, 12, 0))
    }
}
