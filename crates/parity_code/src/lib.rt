//! The parity code of cache tags and cache lines: eight data bits and their parity.
//!
//! One turned bit of nine is always detected, and never put right. No call takes memory.
#![tactic(auto)]

ghost use Rattle.std.specs.Prelude.{◌≡◌, ◌≢◌, ◌/◌, ◌%◌, ◌^◌, ◌<◌, ◌↔◌, IsNone, IfSome};
ghost use Rattle.parity_code.specs.Parity.{parity, code, ReadsStruck};

use lf_num::odd8;

/// The nine bits that hold `b`: the byte in bits 0 to 7, and in bit 8 a 1 where it has an odd number of ones.
pub fn put9(b: u8) -> u16
    ensures code { result ≡ code b }
    ensures fits { result < 2 ^ 9 }
{
    u16::from(b) + (u16::from(odd8(b)) << 8)
}

/// The byte of nine bits; `None` exactly where bit 8 is not the parity of the others.
pub fn get9(c: u16) -> Option<u8>
    requires { c < 2 ^ 9 }
    ensures none { IsNone result ↔ (c / 2 ^ 8 ≢ parity (c % 2 ^ 8)) }
    ensures byte { IfSome result (λ b. b ≡ c % 2 ^ 8) }
    ensures struck { ReadsStruck c result }
{
    let byte = (c % 256) as u8;
    let is_odd = c >= 256;
    if odd8(byte) == is_odd {
        Some(byte)
    } else {
        None
    }
}
