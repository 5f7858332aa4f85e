ghost use Rattle.std.specs.Prelude.{◌≡◌, ℕ};
ghost use Rattle.std.specs.Option.{option_map};
ghost use Rattle.lf_model.specs.Report.{letter_of, fate_word};
ghost use Rattle.report_fields.specs.Reading.{word_at};
ghost use Rattle.report_lines.specs.OutcomeLines.{status_at, op_kinds, loaded_at, stored_at, swapped_at, operands_at, operation_at, fates, fate_at, watched_at};

use crate::operands::Operands;
use lf_model::bus::OpKind;
use lf_model::trace::{Fate, Op, Word2};
use report_fields::{any_word, hex, literal, number, own_number, sized, value, word};

/// The greatest number of a field without a bound of its own.
const ANY: u32 = 0xFFFF_FFFF;

/// The line of the AHB failing address and status registers.
#[tactic(auto, unfolding(crate::specs::OutcomeLines::status_at))]
pub fn status(bytes: &[u8]) -> Option<((u32, u32), &[u8])>
    ensures read { option_map (λ x. (x.0, x.1.now)) result ≡ status_at bytes.now }
{
    let rest = literal(b"ahb ", bytes)?;
    let (addr, rest) = word(b' ', rest)?;
    let (status, rest) = word(b'\n', rest)?;
    Some(((addr, status), rest))
}

/// The letter of an operation.
fn letter(bytes: &[u8]) -> Option<(OpKind, &[u8])>
    ensures read { option_map (λ x. (x.0, x.1.now)) result ≡ word_at letter_of op_kinds bytes.now }
{
    any_word(
        &[OpKind::Load, OpKind::Store, OpKind::Atomic, OpKind::Lost],
        bytes,
    )
}

/// What a load read, and its way.
#[tactic(auto, unfolding(crate::specs::OutcomeLines::loaded_at))]
fn loaded(bytes: &[u8]) -> Option<(Operands, &[u8])>
    ensures read { option_map (λ x. (x.0, x.1.now)) result ≡ loaded_at bytes.now }
{
    let ((len, got), rest) = sized(b' ', bytes)?;
    let (way, rest) = number(b'\n', 255, rest)?;
    let operands = Operands {
        got,
        put: 0,
        len,
        way: way as u8,
    };
    Some((operands, rest))
}

/// What a store put.
#[tactic(auto, unfolding(crate::specs::OutcomeLines::stored_at))]
fn stored(bytes: &[u8]) -> Option<(Operands, &[u8])>
    ensures read { option_map (λ x. (x.0, x.1.now)) result ≡ stored_at bytes.now }
{
    let ((len, put), rest) = sized(b'\n', bytes)?;
    let operands = Operands {
        got: 0,
        put,
        len,
        way: 0,
    };
    Some((operands, rest))
}

/// What an atomic read and put.
#[tactic(auto, unfolding(crate::specs::OutcomeLines::swapped_at))]
fn swapped(bytes: &[u8]) -> Option<(Operands, &[u8])>
    ensures read { option_map (λ x. (x.0, x.1.now)) result ≡ swapped_at bytes.now }
{
    let ((len, got), rest) = sized(b' ', bytes)?;
    let (put, rest) = hex(b'\n', 2 * u16::from(len), rest)?;
    let operands = Operands {
        got,
        put,
        len,
        way: 0,
    };
    Some((operands, rest))
}

/// What an operation of a kind read and put.
fn operands(kind: OpKind, bytes: &[u8]) -> Option<(Operands, &[u8])>
    ensures read { option_map (λ x. (x.0, x.1.now)) result ≡ operands_at kind bytes.now }
{
    match kind {
        OpKind::Load => loaded(bytes),
        OpKind::Atomic => swapped(bytes),
        OpKind::Store | OpKind::Lost => stored(bytes),
    }
}

/// The line of a memory operation.
#[tactic(auto, unfolding(crate::specs::OutcomeLines::operation_at))]
pub fn operation(bytes: &[u8]) -> Option<(Op, &[u8])>
    ensures read { option_map (λ x. (x.0, x.1.now)) result ≡ operation_at bytes.now }
{
    let (kind, rest) = letter(bytes)?;
    let (core, rest) = number(b' ', ANY, rest)?;
    let (k, rest) = number(b' ', ANY, rest)?;
    let (step, rest) = number(b' ', ANY, rest)?;
    let (addr, rest) = word(b' ', rest)?;
    let (shown, rest) = operands(kind, rest)?;
    let operation = Op {
        got: shown.got,
        put: shown.put,
        core,
        k,
        step,
        addr,
        kind,
        len: shown.len,
        way: shown.way,
    };
    Some((operation, rest))
}

/// The word for what became of a flip.
fn fate_word(bytes: &[u8]) -> Option<(Fate, &[u8])>
    ensures read { option_map (λ x. (x.0, x.1.now)) result ≡ word_at fate_word fates bytes.now }
{
    let fates = [
        Fate::Late,
        Fate::Declined,
        Fate::Repaired,
        Fate::Discarded,
        Fate::Stopped,
        Fate::Overwritten,
        Fate::Dormant,
    ];
    any_word(&fates, bytes)
}

/// The line of what became of flip `i`.
#[tactic(auto, unfolding(crate::specs::OutcomeLines::fate_at))]
pub fn fate(i: u32, bytes: &[u8]) -> Option<(Fate, &[u8])>
    ensures read { option_map (λ x. (x.0, x.1.now)) result ≡ fate_at i bytes.now }
{
    let rest = literal(b"f ", bytes)?;
    let rest = own_number(b' ', i, rest)?;
    fate_word(rest)
}

/// The line of a watched word.
#[tactic(auto, unfolding(crate::specs::OutcomeLines::watched_at))]
pub fn watched(bytes: &[u8]) -> Option<(Word2, &[u8])>
    ensures read { option_map (λ x. (x.0, x.1.now)) result ≡ watched_at bytes.now }
{
    let rest = literal(b"w ", bytes)?;
    let (addr, rest) = word(b' ', rest)?;
    let (value, rest) = value(b'\n', rest)?;
    Some((Word2 { addr, value }, rest))
}
