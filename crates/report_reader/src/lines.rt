ghost use Rattle.std.specs.Prelude.{◌≡◌, ◌<◌, ◌≤◌, ℕ, List, IfOk, IfSome, length};
ghost use Rattle.std.specs.Option.{option_map};
ghost use Rattle.report_fields.specs.Parts.{Part, Gives, items_at, count_at, counted_at};

use report_fields::{Unread, literal, number};
use report_lines::fits;
use std::alloc::{AllocError, Global};

/// An item of a list in a report: a line, or the lines of a core.
pub trait Item: Drop {
    ghost at: { ℕ → ℕ → List ℕ → Part Self };

    /// Item `i` of `count`, and the bytes after it.
    fn read(alloc: Global, count: u32, i: u32, bytes: &[u8]) -> Result<(Self, &[u8]), Unread>
        ensures item { Gives (λ x. (x.0, x.1.now)) result (at count i bytes.now) };
}

/// So many items, and the bytes after them.
fn items<L: Item>(alloc: Global, count: u32, bytes: &[u8]) -> Result<(Vec<L>, &[u8]), Unread>
    ensures items { Gives (λ x. (x.0.items, x.1.now)) result (items_at (L.at count) 0 count bytes.now) }
    ensures length { IfOk result (λ x. length x.0.items ≡ count) }
{
    let mut items = Vec::new(alloc);
    let mut rest = bytes;
    for i in 0..count {
        let (item, after) = L::read(alloc, count, i, rest)?;
        rest = after;
        if items.push(item).is_err() {
            return Err(Unread::Memory);
        }
    }
    Ok((items, rest))
}

/// A line that says how many items follow, from `least` to `most`, and those items; then the bytes after them.
pub fn counted<'a, L: Item>(
    alloc: Global,
    head: &[u8],
    least: u32,
    most: u32,
    bytes: &'a [u8],
) -> Result<(Vec<L>, &'a [u8]), Unread>
    ensures items { Gives (λ x. (x.0.items, x.1.now)) result (counted_at head.now least most L.at bytes.now) }
    ensures few { IfOk result (λ x. length x.0.items ≤ most) }
{
    let (count, rest) = fits(bytes, count_of(head, least, most, bytes))?;
    items(alloc, count, rest)
}

/// The number of a line that says how many items follow.
#[tactic(auto, unfolding(report_fields::specs::Parts::count_at))]
fn count_of<'a>(head: &[u8], least: u32, most: u32, bytes: &'a [u8]) -> Option<(u32, &'a [u8])>
    ensures count { option_map (λ x. (x.0, x.1.now)) result ≡ count_at head.now least most bytes.now }
    ensures most { IfSome result (λ x. x.0 ≤ most) }
{
    let rest = literal(head, bytes)?;
    let (count, rest) = number(b'\n', most, rest)?;
    if count < least {
        return None;
    }
    Some((count, rest))
}
