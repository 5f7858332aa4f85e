ghost use Rattle.std.specs.Prelude.{◌≡◌, ◌<◌, length, IfOk};

use super::expect;
use ft_memory::{Fixed, Got, Memory};
use lf_model::image::{Image, Segment};
use lf_model::listed::Listed;
use lf_model::trace::Fate;
use std::alloc::{AllocError, Global};
use std::process::Abort;
use std::test::Fail;

/// Flips of bits of the word 11223344 at 40000004, what the word reads as then, what a fix answers, and what a byte answers that is
/// stored at 40000005: the syndrome, or that of a bad word. The columns of the code are 4f of bit 0, 4a of bit 1 and 40 of bit 38.
struct Row {
    bits: (Option<u8>, Option<u8>),
    word: Option<u32>,
    fix: Fixed,
    stored: Result<u8, u8>,
}

static ROWS: [Row; 5] = [
    Row {
        bits: (None, None),
        word: Some(0x1122_3344),
        fix: Fixed::Clean,
        stored: Ok(0),
    },
    Row {
        bits: (Some(0), None),
        word: Some(0x1122_3344),
        fix: Fixed::Corrected { bit: 0, syn: 0x4f },
        stored: Ok(0x4f),
    },
    Row {
        bits: (Some(38), None),
        word: Some(0x1122_3344),
        fix: Fixed::Corrected { bit: 38, syn: 0x40 },
        stored: Ok(0x40),
    },
    Row {
        bits: (Some(0), Some(1)),
        word: None,
        fix: Fixed::Bad { syn: 0x05 },
        stored: Err(0x05),
    },
    Row {
        bits: (Some(1), Some(1)),
        word: Some(0x1122_3344),
        fix: Fixed::Clean,
        stored: Ok(0),
    },
];

/// RAM of 64 bytes, with the word 11223344 at 40000004, and a script of two flips.
fn small_memory(alloc: Global) -> Result<Memory, AllocError>
    ensures words { IfOk result (λ memory. length memory.histories ≡ 16) }
    ensures flips { IfOk result (λ memory. memory.flips ≡ 2) }
{
    let mut bytes = Listed::new(alloc);
    for byte in [0x11, 0x22, 0x33, 0x44] {
        bytes.push(byte)?;
    }
    let mut segments = Listed::new(alloc);
    segments.push(Segment {
        addr: 0x4000_0004,
        bytes,
        size: 4,
        write: true,
        exec: false,
    })?;
    let image = Image {
        entry: 0x4000_0000,
        segments,
        text: Listed::new(alloc),
    };
    Memory::new(alloc, 64, &image, 2)
}

/// A flip of the script strikes a bit of the word at 40000004, if it is one.
fn strike(rt: &impl Abort, memory: &mut Memory, number: u32, bit: Option<u8>)
    requires words { length memory.old.histories ≡ 16 }
    requires number { number < memory.old.flips }
    ensures words { length memory.new.histories ≡ 16 }
    ensures flips { memory.new.flips ≡ memory.old.flips }
{
    let Some(bit) = bit else { return };
    assert!(rt; bit < 39);
    let Fate::Late = memory.fate(number) else {
        expect(rt, number, false);
        return;
    };
    memory.flip(number, 0x4000_0004, bit);
}

/// Memory with these flips.
fn struck(
    rt: &impl Abort,
    alloc: Global,
    bits: (Option<u8>, Option<u8>),
) -> Result<Memory, AllocError>
    ensures words { IfOk result (λ memory. length memory.histories ≡ 16) }
    ensures flips { IfOk result (λ memory. memory.flips ≡ 2) }
{
    let mut memory = small_memory(alloc)?;
    strike(rt, &mut memory, 0, bits.0);
    strike(rt, &mut memory, 1, bits.1);
    Ok(memory)
}

#[test]
fn reads_fixes_and_part_stores(rt: HostRuntime) -> Result<(), Fail> {
    for row in &ROWS {
        let name = u32::from(row.bits.0.unwrap_or(39));
        let mut memory = struck(&rt, rt.alloc(), row.bits)?;
        expect(&rt, name, memory.peek(0x4000_0004) == row.word);
        expect(&rt, name, memory.fix(0x4000_0004) == row.fix);
        let mut memory = struck(&rt, rt.alloc(), row.bits)?;
        let stored = memory.write_part(0x4000_0005, 1, 0xaa);
        expect(&rt, name, stored.map_err(|bad| bad.syn) == row.stored);
    }
    Ok(())
}

#[test]
fn a_line_and_a_word(rt: HostRuntime) -> Result<(), Fail> {
    let mut memory = struck(&rt, rt.alloc(), (Some(38), None))?;
    let line = memory.read_line(0x4000_0000);
    assert!(rt; line.words == [0, 0x1122_3344, 0, 0, 0, 0, 0, 0]);
    assert!(rt; line.syn == [0, 0x40, 0, 0, 0, 0, 0, 0]);
    assert!(rt; line.bad == [false; 8]);
    memory.write_word(0x4000_0004, 0x77);
    assert!(rt; memory.fate(0) == Fate::Overwritten);
    Ok(())
}

#[test]
fn an_atomic_of_a_byte(rt: HostRuntime) -> Result<(), Fail> {
    let mut memory = struck(&rt, rt.alloc(), (None, None))?;
    let got = memory.exchange(0x4000_0007, 1, 0xff).ok();
    let old = Got {
        value: 0x1122_3344,
        syn: 0,
    };
    assert!(rt; got == Some(old));
    Ok(())
}
