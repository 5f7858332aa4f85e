ghost use Rattle.std.specs.Prelude.{◌≡◌, ℕ, List, IfOk};
ghost use Rattle.std.specs.Option.{option_map};
ghost use Rattle.report_fields.specs.Parts.{Gives, line_at};
ghost use Rattle.report_lines.specs.CoreLines.{pair_at, pairs_at, bytes_at, output_head, output_at};

use report_fields::{Unread, digit, literal, next, own_number};
use std::alloc::{AllocError, Global};

/// A byte whose first digit is `first`, and the bytes after its second.
fn pair(first: u8, bytes: &[u8]) -> Option<(u8, &[u8])>
    ensures read { option_map (λ x. (x.0, x.1.now)) result ≡ pair_at first bytes.now }
{
    let (second, rest) = next(bytes)?;
    let high = digit(first)?;
    let low = digit(second)?;
    Some((16 * high + low, rest))
}

/// Bytes of two digits each up to the line feed, and what follows it.
fn pairs(alloc: Global, bytes: &[u8]) -> Result<Option<(Vec<u8>, &[u8])>, AllocError>
    ensures read { IfOk result (λ read. option_map {U = List ℕ × List ℕ} (λ x. (x.0.items, x.1.now)) read ≡ pairs_at bytes.now) }
{
    let mut out = Vec::new(alloc);
    let mut rest = bytes;
    while let Some((first, after)) = next(rest) {
        if first == b'\n' {
            return Ok(Some((out, after)));
        }
        let Some((byte, later)) = pair(first, after) else {
            return Ok(None);
        };
        out.push(byte)?;
        rest = later;
    }
    Ok(None)
}

/// The bytes that a core wrote, or none for a dash, and what follows the line.
fn written(alloc: Global, bytes: &[u8]) -> Result<Option<(Vec<u8>, &[u8])>, AllocError>
    ensures read { IfOk result (λ read. option_map {U = List ℕ × List ℕ} (λ x. (x.0.items, x.1.now)) read ≡ bytes_at bytes.now) }
{
    if let Some(rest) = literal(b"-\n", bytes) {
        return Ok(Some((Vec::new(alloc), rest)));
    }
    let Some((out, rest)) = pairs(alloc, bytes)? else {
        return Ok(None);
    };
    if out.is_empty() {
        Ok(None)
    } else {
        Ok(Some((out, rest)))
    }
}

/// What follows the first word of the line and the number of the core.
#[tactic(auto, unfolding(crate::specs::CoreLines::output_head))]
fn head(k: u32, bytes: &[u8]) -> Option<&[u8]>
    ensures read { option_map (λ rest. rest.now) result ≡ output_head k bytes.now }
{
    let rest = literal(b"out ", bytes)?;
    own_number(b' ', k, rest)
}

/// The line of the bytes that core `k` wrote to the output word.
#[tactic(auto, unfolding(crate::specs::CoreLines::output_at, crate::specs::CoreLines::output_head))]
pub fn output_line(alloc: Global, k: u32, bytes: &[u8]) -> Result<(Vec<u8>, &[u8]), Unread>
    ensures read { Gives (λ x. (x.0.items, x.1.now)) result (line_at (output_at k) bytes.now) }
{
    let Some(rest) = head(k, bytes) else {
        return Err(Unread::Left(bytes.len()));
    };
    match written(alloc, rest) {
        Ok(Some(read)) => Ok(read),
        Ok(None) => Err(Unread::Left(bytes.len())),
        Err(_) => Err(Unread::Memory),
    }
}
