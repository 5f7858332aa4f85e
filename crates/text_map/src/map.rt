ghost use Rattle.std.specs.Prelude.{◌≡◌, ◌<◌, ◌^◌, ℕ, map, filter, find, IfOk, All, slice_get};
ghost use Rattle.std.specs.List.Sorted.{IsNonDecreasingBy};
ghost use Rattle.lf_model.specs.Start.{is_text_byte, is_text_word, touches_text};
ghost use Rattle.text_map.specs.Spans.{is_in_use, span_of, in_spans, ends_after, has_word, has_one, IsApart, IsMerged};

use lf_model::image::{Range, Ranges};
use std::alloc::{AllocError, Global};
use std::marker::Model;
use std::snapshot::Snapshot;

/// The addresses from `first` on, up to `end`, which is not one of them.
#[derive(Clone, Copy, Debug)]
struct Span {
    first: u64,
    end: u64,
}

impl Span {
    /// The addresses of a range.
    fn of(range: &Range) -> Span
        ensures { result ≡ span_of range.now }
    {
        let first = u64::from(range.first);
        Span {
            first,
            end: first + u64::from(range.length),
        }
    }

    /// The four bytes from an address on are in the span, which ends behind the address.
    fn has_word(self, addr: u64) -> bool
        requires { addr < 2 ^ 32 }
        ensures { result ≡ has_word addr self }
    {
        self.first <= addr && addr + 4 <= self.end
    }

    /// One of the `len` bytes from an address on is in the span, which ends behind the address.
    fn has_one(self, addr: u64, len: u8) -> bool
        requires { addr < 2 ^ 32 }
        ensures { result ≡ has_one addr len self }
    {
        len > 0 && self.first < addr + u64::from(len)
    }
}

/// The ranges that have addresses.
fn spans_of(alloc: Global, text: &[Range]) -> Result<Vec<Span>, AllocError>
    ensures { IfOk result (λ spans. spans.items ≡ map span_of (filter is_in_use text.now)) }
{
    text.iter()
        .filter(|range| range.length > 0)
        .map(Span::of)
        .collect(alloc)
}

/// The ranges that have addresses, by their first ones.
fn sorted_spans(alloc: Global, text: &[Range]) -> Result<Vec<Span>, AllocError>
    ensures sorted { IfOk result (λ spans. IsNonDecreasingBy (λ s. s.first) spans.items) }
    ensures in_use { IfOk result (λ spans. All (λ s. s.first < s.end) spans.items) }
    ensures text { IfOk result (λ spans. (a : ℕ) → in_spans spans.items a ≡ is_text_byte text.now a) }
{
    let mut spans = spans_of(alloc, text)?;
    spans.sort_unstable_by_key(|span| span.first);
    Ok(spans)
}

/// Spans that follow one another with gaps between them, for sorted ones that may overlap or adjoin.
fn merged(alloc: Global, spans: &[Span]) -> Result<Vec<Span>, AllocError>
    requires sorted { IsNonDecreasingBy (λ s. s.first) spans.now }
    requires in_use { All (λ s. s.first < s.end) spans.now }
    ensures { IfOk result (λ merged. IsMerged merged.items spans.now) }
{
    let mut merged = Vec::new(alloc);
    if spans.is_empty() {
        return Ok(merged);
    }
    let mut last = spans[0];
    for i in 1..spans.len() {
        let span = spans[i];
        if span.first <= last.end {
            last.end = last.end.max(span.end);
        } else {
            merged.push(last)?;
            last = span;
        }
    }
    merged.push(last)?;
    Ok(merged)
}

/// The span at a place, if there is one.
fn span_at(spans: &[Span], place: usize) -> Option<Span>
    ensures { result ≡ slice_get spans.now place }
{
    spans.get(place).copied()
}

/// The first of these spans that ends behind an address, by a binary search.
fn search(spans: &[Span], addr: u64) -> Option<Span>
    requires { IsApart spans.now }
    ensures { result ≡ find (ends_after addr) spans.now }
{
    let place = spans.partition_point(|span| span.end <= addr);
    span_at(spans, place)
}

/// The first of these spans that ends behind an address. Most images have one span of text, which is found without a search.
fn span_behind(spans: &[Span], addr: u64) -> Option<Span>
    requires { IsApart spans.now }
    ensures { result ≡ find (ends_after addr) spans.now }
{
    match spans.first() {
        Some(first) if addr < first.end => Some(*first),
        _ => search(spans, addr),
    }
}

/// The text of an image, laid out so that an address is found by a binary search. Contracts see it as the ranges of
/// text that it was made of.
#[derive(Drop)]
pub struct TextMap {
    spans: Vec<Span>,
    text: Snapshot<Ranges>,
}

impl Model for TextMap {
    ghost use Rattle.std.specs.Prelude.{List};
    ghost use Rattle.lf_model.specs.declared.image.Range.{Range};
    ghost use Rattle.text_map.specs.Spans.{IsMapOf};

    ghost Value = { List Range };

    ghost view = { λ map. map.text.value };

    ghost invariant = { λ map. IsMapOf map.spans.items map.text.value };
}

impl TextMap {
    /// The map of these ranges, which may overlap or adjoin.
    pub fn new(alloc: Global, text: &Ranges) -> Result<TextMap, AllocError>
        ensures { IfOk result (λ map. map ≡ text.now) }
    {
        let spans = sorted_spans(alloc, text.as_slice())?;
        Ok(TextMap {
            spans: merged(alloc, &spans)?,
            text: Snapshot::of(text),
        })
    }

    /// The word at this address, a multiple of 4, is text: all its four bytes are.
    pub fn is_text_word(&self, addr: u32) -> bool
        ensures { result ≡ is_text_word self.now addr }
    {
        let addr = u64::from(addr);
        match span_behind(&self.spans, addr) {
            Some(span) => span.has_word(addr),
            None => false,
        }
    }

    /// One of the `len` bytes from this address on is text.
    pub fn touches_text(&self, addr: u32, len: u8) -> bool
        ensures { result ≡ touches_text self.now addr len }
    {
        let addr = u64::from(addr);
        match span_behind(&self.spans, addr) {
            Some(span) => span.has_one(addr, len),
            None => false,
        }
    }
}
