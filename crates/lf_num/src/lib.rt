//! Bit fields, sign extension, parity and counts of ones. No call takes memory.
#![tactic(auto)]

ghost use Rattle.std.specs.Prelude.{◌≡◌, ◌+◌, ◌-◌, ◌/◌, ◌%◌, ◌^◌, ◌<◌, ◌≤◌};
ghost use Rattle.std.specs.Int.{from_bool};
ghost use Rattle.lf_num.specs.Bits.{field, ones_below, sign_extended, sign_repeated};

/// The bit field `w[hi:lo]` as a number, where bit 0 is the lowest of the word.
pub fn bits(w: u32, hi: u32, lo: u32) -> u32
    requires ordered { lo ≤ hi }
    requires within { hi < 32 }
    ensures field { result ≡ field w hi lo }
    ensures value { result ≡ w / 2 ^ lo % 2 ^ (hi + 1 - lo) }
{
    (w >> lo) & (u32::MAX >> (31 - (hi - lo)))
}

/// `v`, a two's complement number of `width` bits, as a word: its sign bit repeated up to bit 31.
pub fn sext(v: u32, width: u32) -> u32
    requires wide { 1 ≤ width }
    requires narrow { width ≤ 32 }
    requires value { v < 2 ^ width }
    ensures value { result ≡ sign_extended v width }
    ensures bits { result ≡ sign_repeated v width }
{
    let sign_weight = 1 << (width - 1);
    if v < sign_weight {
        v
    } else {
        v.wrapping_sub(sign_weight).wrapping_sub(sign_weight)
    }
}

/// How many bits of `v` are 1.
pub fn ones(v: u64) -> u32
    ensures count { result ≡ ones_below 64 v }
{
    v.count_ones()
}

/// Whether a byte has an odd number of ones.
pub fn odd8(v: u8) -> bool
    ensures parity { from_bool result ≡ ones_below 8 v % 2 }
{
    ones(u64::from(v)) % 2 == 1
}

/// Whether a number of 64 bits has an odd number of ones.
pub fn odd64(v: u64) -> bool
    ensures parity { from_bool result ≡ ones_below 64 v % 2 }
{
    ones(v) % 2 == 1
}
