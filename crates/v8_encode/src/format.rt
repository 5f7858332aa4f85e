//! Words of format 3, whose fields are op, rd, op3, rs1 and the second operand (SPARC V8, chapter 5,
//! instruction formats).

ghost use Rattle.std.specs.Prelude.{◌≡◌, ◌+◌, ◌*◌, ◌^◌, ◌<◌, ◌∷◌, ◌&&◌, IfSome, is_some, nat_lt};
ghost use Rattle.std.specs.List.{list_all};
ghost use Rattle.lf_model.specs.Instructions.{src_registers, imm_fits};
ghost use Rattle.v8_encode.specs.Words.{HasFields, HasSpace, SrcUnnamedAreZero};

use v8_word::Src;

/// The fields op, rd, op3 and rs1 at their places.
fn fields(op: u32, rd: u8, op3: u32, rs1: u8) -> u32
    requires op { op < 4 }
    requires rd { rd < 32 }
    requires op3 { op3 < 64 }
    requires rs1 { rs1 < 32 }
    ensures { result ≡ op * 2 ^ 30 + rd * 2 ^ 25 + op3 * 2 ^ 19 + rs1 * 2 ^ 14 }
{
    op << 30 | (u32::from(rd) << 25 | (op3 << 19 | u32::from(rs1) << 14))
}

/// The word with register rs2 as its second operand and an address space, which only the alternate
/// forms have.
pub fn register_form(op: u32, rd: u8, op3: u32, rs1: u8, rs2: u8, asi: u8) -> u32
    requires op { op < 4 }
    requires rd { rd < 32 }
    requires op3 { op3 < 64 }
    requires rs1 { rs1 < 32 }
    requires rs2 { rs2 < 32 }
    ensures fields { HasFields op rd op3 rs1 (Src.Reg rs2) result }
    ensures space { HasSpace rs2 asi result }
{
    fields(op, rd, op3, rs1) + (u32::from(asi) << 5) + u32::from(rs2)
}

/// The word with an immediate second operand.
fn immediate_form(op: u32, rd: u8, op3: u32, rs1: u8, simm13: u32) -> u32
    requires op { op < 4 }
    requires rd { rd < 32 }
    requires op3 { op3 < 64 }
    requires rs1 { rs1 < 32 }
    requires simm13 { simm13 < 2 ^ 13 }
    ensures { HasFields op rd op3 rs1 (Src.Imm simm13) result }
{
    fields(op, rd, op3, rs1) + (1 << 13) + simm13
}

/// The word with these fields, None where a register or the second operand is out of range.
pub fn format3(op: u32, rd: u8, op3: u32, rs1: u8, src: Src) -> Option<u32>
    requires op { op < 4 }
    requires op3 { op3 < 64 }
    ensures range { is_some result ≡
        (imm_fits src && list_all (λ register. nat_lt register 32) (rd ∷ rs1 ∷ src_registers src)) }
    ensures fields { IfSome result (HasFields op rd op3 rs1 src) }
    ensures unnamed { IfSome result (SrcUnnamedAreZero src) }
{
    match src {
        Src::Reg(rs2) if rd < 32 && rs1 < 32 && rs2 < 32 => {
            Some(register_form(op, rd, op3, rs1, rs2, 0))
        }
        Src::Imm(simm13) if simm13 < 1 << 13 && rd < 32 && rs1 < 32 => {
            Some(immediate_form(op, rd, op3, rs1, simm13))
        }
        _ => None,
    }
}
