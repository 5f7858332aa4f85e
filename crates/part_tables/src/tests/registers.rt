ghost use Rattle.std.specs.Prelude.{◌≡◌, ◌<◌, length, IfOk};

use super::expect;
use core_parts::Record;
use ft_regfile::RegFile;
use lf_model::trace::Fate;
use std::alloc::{AllocError, Global};
use std::process::Abort;
use std::test::Fail;

/// Flips 0 and 1 of the script, of bits of cell 17, which holds 11223344; what a read of it answers, its value or the syndrome of a
/// bad cell; and the fates after that read, and after an error trap, if the cell is bad, and a write. The columns of the code are 4f
/// of bit 0, 4a of bit 1 and 40 of bit 38.
struct Row {
    bits: (Option<u8>, Option<u8>),
    read: Result<u32, u8>,
    read_fates: (Fate, Fate),
    write_fates: (Fate, Fate),
}

static ROWS: [Row; 6] = [
    Row {
        bits: (None, None),
        read: Ok(0x1122_3344),
        read_fates: (Fate::Late, Fate::Late),
        write_fates: (Fate::Late, Fate::Late),
    },
    // A read corrects one bit, and writes the cell back.
    Row {
        bits: (Some(0), None),
        read: Ok(0x1122_3344),
        read_fates: (Fate::Repaired, Fate::Late),
        write_fates: (Fate::Repaired, Fate::Late),
    },
    Row {
        bits: (Some(38), None),
        read: Ok(0x1122_3344),
        read_fates: (Fate::Repaired, Fate::Late),
        write_fates: (Fate::Repaired, Fate::Late),
    },
    // Two different bits are detected, and nothing is written.
    Row {
        bits: (Some(0), Some(1)),
        read: Err(0x05),
        read_fates: (Fate::Dormant, Fate::Dormant),
        write_fates: (Fate::Stopped, Fate::Stopped),
    },
    Row {
        bits: (Some(38), Some(0)),
        read: Err(0x0f),
        read_fates: (Fate::Dormant, Fate::Dormant),
        write_fates: (Fate::Stopped, Fate::Stopped),
    },
    // The same bit twice: the cell is clean, and a read does not write it.
    Row {
        bits: (Some(1), Some(1)),
        read: Ok(0x1122_3344),
        read_fates: (Fate::Dormant, Fate::Dormant),
        write_fates: (Fate::Overwritten, Fate::Overwritten),
    },
];

/// A flip of the script strikes a bit of cell 17, if it is one.
fn strike(rt: &impl Abort, registers: &mut RegFile, number: u32, bit: Option<u8>)
    requires cells { length registers.old.histories ≡ 136 }
    requires number { number < registers.old.flips }
    ensures cells { length registers.new.histories ≡ 136 }
    ensures flips { registers.new.flips ≡ registers.old.flips }
{
    let Some(bit) = bit else { return };
    assert!(rt; bit < 39);
    let Fate::Late = registers.fate(number) else {
        expect(rt, number, false);
        return;
    };
    registers.flip(number, 17, bit);
}

/// The row is as its calls answer.
fn holds(rt: &impl Abort, registers: &mut RegFile, row: &Row) -> bool
    requires cells { length registers.old.histories ≡ 136 }
    requires flips { registers.old.flips ≡ 2 }
{
    registers.write(17, 0x1122_3344);
    strike(rt, registers, 0, row.bits.0);
    strike(rt, registers, 1, row.bits.1);
    let read = registers.read(17).map_err(|bad| bad.syn);
    let read_fates = (registers.fate(0), registers.fate(1));
    if read.is_err() {
        registers.name(17);
    }
    registers.write(17, 0x77);
    let write_fates = (registers.fate(0), registers.fate(1));
    read == row.read
        && read_fates == row.read_fates
        && write_fates == row.write_fates
        && registers.peek(17) == Some(0x77)
}

#[test]
fn flips_of_a_cell(rt: HostRuntime) -> Result<(), Fail> {
    for (number, row) in ROWS.iter().enumerate() {
        let mut registers = RegFile::new(rt.alloc(), 2)?;
        let is_right = holds(&rt, &mut registers, row);
        expect(&rt, number as u32, is_right);
    }
    Ok(())
}

#[test]
fn a_write_before_a_read(rt: HostRuntime) -> Result<(), Fail> {
    let mut registers = RegFile::with_values(rt.alloc(), &[0x1122_3344; 136], 1)?;
    strike(&rt, &mut registers, 0, Some(5));
    assert!(rt; registers.peek(17) == Some(0x1122_3344));
    registers.write(17, 0x77);
    assert!(rt; registers.fate(0) == Fate::Overwritten);
    assert!(rt; registers.peek(17) == Some(0x77));
    assert!(rt; registers.peek(135) == Some(0x1122_3344));
    Ok(())
}

#[test]
fn a_record_of_a_core(rt: HostRuntime) -> Result<(), Fail> {
    let record = Record::new(rt.alloc(), 1, 4)?;
    assert!(rt; record.steps() == 0);
    Ok(())
}
