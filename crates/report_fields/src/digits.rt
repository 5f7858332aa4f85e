ghost use Rattle.std.specs.Prelude.{◌≡◌, ◌<◌, ◌≤◌, ◌^◌, ℕ, IfSome};
ghost use Rattle.std.specs.Option.{option_map};
ghost use Rattle.report_fields.specs.Digits.{is_digit, digits_more, digits_at, number_at, own_at, digit_of, hex_more, hex_at, value_at, sized_at};

use super::texts::{literal, next};

/// The greatest number of a field without a bound of its own.
const ANY: u32 = 0xFFFF_FFFF;

/// The byte is a decimal digit.
fn is_digit(b: u8) -> bool
    ensures digit { result ≡ is_digit b }
{
    b'0' <= b && b <= b'9'
}

/// At most `most` more digits after those worth `n`, and then the byte that ends the field.
fn digits_after(stop: u8, most: u8, n: u64, bytes: &[u8]) -> Option<(u64, &[u8])>
    requires few { most ≤ 9 }
    requires small { n < 10 }
    ensures read { option_map (λ x. (x.0, x.1.now)) result ≡ digits_more stop most n bytes.now }
{
    let mut n = n;
    let mut left = most;
    let mut rest = bytes;
    while let Some((b, after)) = next(rest) {
        if b == stop {
            return Some((n, after));
        }
        if left == 0 || !is_digit(b) {
            return None;
        }
        n = 10 * n + u64::from(b - b'0');
        left -= 1;
        rest = after;
    }
    None
}

/// A number of at most ten digits without leading zeros, and the bytes after the byte that ends it.
fn digits(stop: u8, bytes: &[u8]) -> Option<(u64, &[u8])>
    ensures read { option_map (λ x. (x.0, x.1.now)) result ≡ digits_at stop 9 bytes.now }
{
    let (b, rest) = next(bytes)?;
    if !is_digit(b) {
        return None;
    }
    let most = if b == b'0' { 0 } else { 9 };
    digits_after(stop, most, u64::from(b - b'0'), rest)
}

/// A number up to `last` in decimal digits, and the bytes after the byte that ends it.
#[tactic(auto, unfolding(crate::specs::Digits::number_at))]
pub fn number(stop: u8, last: u32, bytes: &[u8]) -> Option<(u32, &[u8])>
    ensures read { option_map (λ x. (x.0, x.1.now)) result ≡ number_at stop last bytes.now }
    ensures last { IfSome result (λ x. x.0 ≤ last) }
{
    let (n, rest) = digits(stop, bytes)?;
    if n > u64::from(last) {
        return None;
    }
    Some((n as u32, rest))
}

/// The bytes after the number that a line has to have.
#[tactic(auto, unfolding(crate::specs::Digits::own_at))]
pub fn own_number(stop: u8, own: u32, bytes: &[u8]) -> Option<&[u8]>
    ensures read { option_map (λ rest. rest.now) result ≡ own_at stop own bytes.now }
{
    let (n, rest) = number(stop, ANY, bytes)?;
    if n == own { Some(rest) } else { None }
}

/// The value of a hexadecimal digit in capitals.
pub fn digit(b: u8) -> Option<u8>
    ensures value { result ≡ digit_of b }
    ensures below { IfSome result (λ d. d < 16) }
{
    match b {
        b'0'..=b'9' => Some(b - b'0'),
        b'A'..=b'F' => Some(b - b'A' + 10),
        _ => None,
    }
}

/// So many hexadecimal digits, and the bytes after them.
fn hex_digits(digits: u16, bytes: &[u8]) -> Option<(u64, &[u8])>
    requires few { digits ≤ 16 }
    ensures read { option_map (λ x. (x.0, x.1.now)) result ≡ hex_more digits 0 bytes.now }
    ensures below { IfSome result (λ x. x.0 < 16 ^ digits) }
{
    let mut n = 0u64;
    let mut rest = bytes;
    for _i in 0..digits {
        let (b, after) = next(rest)?;
        n = 16 * n + u64::from(digit(b)?);
        rest = after;
    }
    Some((n, rest))
}

/// A number of so many hexadecimal digits, and the bytes after the byte that ends it.
#[tactic(auto, unfolding(crate::specs::Digits::hex_at))]
pub fn hex(stop: u8, digits: u16, bytes: &[u8]) -> Option<(u64, &[u8])>
    requires few { digits ≤ 16 }
    ensures read { option_map (λ x. (x.0, x.1.now)) result ≡ hex_at stop digits bytes.now }
    ensures below { IfSome result (λ x. x.0 < 16 ^ digits) }
{
    let (n, rest) = hex_digits(digits, bytes)?;
    let rest = literal(&[stop], rest)?;
    Some((n, rest))
}

/// A byte in two hexadecimal digits, and the bytes after the byte that ends it.
pub fn byte(stop: u8, bytes: &[u8]) -> Option<(u8, &[u8])>
    ensures read { option_map (λ x. (x.0, x.1.now)) result ≡ hex_at stop 2 bytes.now }
{
    let (n, rest) = hex(stop, 2, bytes)?;
    Some((n as u8, rest))
}

/// A word in eight hexadecimal digits, and the bytes after the byte that ends it.
pub fn word(stop: u8, bytes: &[u8]) -> Option<(u32, &[u8])>
    ensures read { option_map (λ x. (x.0, x.1.now)) result ≡ hex_at stop 8 bytes.now }
{
    let (n, rest) = hex(stop, 8, bytes)?;
    Some((n as u32, rest))
}

/// A number of eight bytes in sixteen hexadecimal digits, and the bytes after the byte that ends it.
pub fn long(stop: u8, bytes: &[u8]) -> Option<(u64, &[u8])>
    ensures read { option_map (λ x. (x.0, x.1.now)) result ≡ hex_at stop 16 bytes.now }
{
    hex(stop, 16, bytes)
}

/// A word in eight hexadecimal digits, or `None` for eight dashes, and the bytes after the byte that ends it.
#[tactic(auto, unfolding(crate::specs::Digits::value_at))]
pub fn value(stop: u8, bytes: &[u8]) -> Option<(Option<u32>, &[u8])>
    ensures read { option_map (λ x. (x.0, x.1.now)) result ≡ value_at stop bytes.now }
{
    let dashes = [b'-', b'-', b'-', b'-', b'-', b'-', b'-', b'-', stop];
    if let Some(rest) = literal(&dashes, bytes) {
        return Some((None, rest));
    }
    let (n, rest) = word(stop, bytes)?;
    Some((Some(n), rest))
}

/// A number of 1, 2, 4 or 8 bytes in two hexadecimal digits each: its length in bytes, its value, and the bytes after
/// the byte that ends it.
#[tactic(auto, unfolding(crate::specs::Digits::sized_at))]
pub fn sized(stop: u8, bytes: &[u8]) -> Option<((u8, u64), &[u8])>
    ensures read { option_map (λ x. (x.0, x.1.now)) result ≡ sized_at stop bytes.now }
    ensures length { IfSome result (λ x. x.0.0 ≤ 8) }
{
    if let Some((n, rest)) = hex(stop, 2, bytes) {
        return Some(((1, n), rest));
    }
    if let Some((n, rest)) = hex(stop, 4, bytes) {
        return Some(((2, n), rest));
    }
    if let Some((n, rest)) = hex(stop, 8, bytes) {
        return Some(((4, n), rest));
    }
    let (n, rest) = hex(stop, 16, bytes)?;
    Some(((8, n), rest))
}
