ghost use Rattle.std.specs.Prelude.{◌≡◌, ◌++◌, ℕ, IfOk, codes};
ghost use Rattle.std.specs.Option.{option_map};
ghost use Rattle.report_fields.specs.Digits.{number_at};
ghost use Rattle.report_fields.specs.Parts.{Gives};
ghost use Rattle.report_lines.specs.CoreLines.{values_at, words_at, registers_at, control_at, parity_at};

use crate::left::fits;
use lf_model::trace::Four;
use report_fields::{Unread, literal, number, own_number, value, word};
use std::alloc::{AllocError, Global};

/// The registers of a core's last line but one.
#[derive(Clone, Copy, Debug)]
pub struct Control {
    pub psr: u32,
    pub wim: u32,
    pub tbr: u32,
    pub y: u32,
    pub pc: u32,
    pub npc: u32,
}

/// Eight registers; `None` is one that reads bad.
type Eight = [Option<u32>; 8];

/// Eight words, the last of which ends the line.
fn eight(bytes: &[u8]) -> Option<(Eight, &[u8])>
    ensures read { option_map (λ x. (x.0, x.1.now)) result ≡ values_at 7 bytes.now }
{
    let (a, rest) = value(b' ', bytes)?;
    let (b, rest) = value(b' ', rest)?;
    let (c, rest) = value(b' ', rest)?;
    let (d, rest) = value(b' ', rest)?;
    let (e, rest) = value(b' ', rest)?;
    let (f, rest) = value(b' ', rest)?;
    let (g, rest) = value(b' ', rest)?;
    let (h, rest) = value(b'\n', rest)?;
    Some(([a, b, c, d, e, f, g, h], rest))
}

/// A line of eight registers of core `k`: its first word with the space behind it, `k`, and the words.
#[tactic(auto, unfolding(crate::specs::CoreLines::words_at))]
fn words<'a>(head: &[u8], k: u32, bytes: &'a [u8]) -> Option<(Eight, &'a [u8])>
    ensures read { option_map (λ x. (x.0, x.1.now)) result ≡ words_at head.now k bytes.now }
{
    let rest = literal(head, bytes)?;
    let rest = own_number(b' ', k, rest)?;
    eight(rest)
}

/// Registers in the order of their numbers: globals, outs, locals and ins.
fn in_order(
    alloc: Global,
    g: &Eight,
    o: &Eight,
    l: &Eight,
    i: &Eight,
) -> Result<Vec<Option<u32>>, AllocError>
    ensures words { IfOk result (λ v. v.items ≡ g.now ++ (o.now ++ (l.now ++ i.now))) }
{
    let mut registers = Vec::new(alloc);
    registers.extend_from_slice(g)?;
    registers.extend_from_slice(o)?;
    registers.extend_from_slice(l)?;
    registers.extend_from_slice(i)?;
    Ok(registers)
}

/// The lines of the globals, outs, locals and ins of core `k`.
#[tactic(auto, unfolding(crate::specs::CoreLines::registers_at))]
pub fn register_lines(
    alloc: Global,
    k: u32,
    bytes: &[u8],
) -> Result<(Vec<Option<u32>>, &[u8]), Unread>
    ensures read { Gives (λ x. (x.0.items, x.1.now)) result (registers_at k bytes.now) }
{
    let (g, rest) = fits(bytes, words(b"g ", k, bytes))?;
    let (o, rest) = fits(rest, words(b"o ", k, rest))?;
    let (l, rest) = fits(rest, words(b"l ", k, rest))?;
    let (i, rest) = fits(rest, words(b"i ", k, rest))?;
    match in_order(alloc, &g, &o, &l, &i) {
        Ok(registers) => Ok((registers, rest)),
        Err(_) => Err(Unread::Memory),
    }
}

/// The line of PSR, WIM, TBR, Y, PC and nPC of core `k`.
#[tactic(auto, unfolding(crate::specs::CoreLines::control_at))]
pub fn control_line(k: u32, bytes: &[u8]) -> Option<(Control, &[u8])>
    ensures read { option_map (λ x. (x.0, x.1.now)) result ≡ control_at k bytes.now }
{
    let rest = literal(b"ctl ", bytes)?;
    let rest = own_number(b' ', k, rest)?;
    let (psr, rest) = word(b' ', rest)?;
    let (wim, rest) = word(b' ', rest)?;
    let (tbr, rest) = word(b' ', rest)?;
    let (y, rest) = word(b' ', rest)?;
    let (pc, rest) = word(b' ', rest)?;
    let (npc, rest) = word(b'\n', rest)?;
    let control = Control {
        psr,
        wim,
        tbr,
        y,
        pc,
        npc,
    };
    Some((control, rest))
}

/// A counter of parity errors, which stops at 3.
fn counter(stop: u8, bytes: &[u8]) -> Option<(u8, &[u8])>
    ensures read { option_map (λ x. (x.0, x.1.now)) result ≡ number_at stop 3 bytes.now }
{
    let (n, rest) = number(stop, 3, bytes)?;
    Some((n as u8, rest))
}

/// The line of the counters of parity errors of core `k`.
#[tactic(auto, unfolding(crate::specs::CoreLines::parity_at))]
pub fn parity_line(k: u32, bytes: &[u8]) -> Option<(Four, &[u8])>
    ensures read { option_map (λ x. (x.0, x.1.now)) result ≡ parity_at k bytes.now }
{
    let rest = literal(b"parity ", bytes)?;
    let rest = own_number(b' ', k, rest)?;
    let (fetch_tag, rest) = counter(b' ', rest)?;
    let (fetch_byte, rest) = counter(b' ', rest)?;
    let (data_tag, rest) = counter(b' ', rest)?;
    let (data_byte, rest) = counter(b'\n', rest)?;
    let parity = Four {
        fetch_tag,
        fetch_byte,
        data_tag,
        data_byte,
    };
    Some((parity, rest))
}
