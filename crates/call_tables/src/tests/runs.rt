use super::{OUTPUT, PLAY, called, expect, image};
use lf_io::{MemFiles, MemSink};
use std::alloc::{AllocError, Global};
use std::test::Fail;

/// A program and a script, the status, and what the report says. All else in it is 0.
#[derive(Clone, Copy)]
struct Row {
    words: &'static [u32],
    script: &'static str,
    status: u8,
    end: &'static str,
    out: &'static str,
    globals: &'static str,
    outs: &'static str,
    psr: &'static str,
    pcs: &'static str,
    ahb: &'static str,
    transfers: &'static str,
    order: &'static str,
    flips: &'static str,
}

/// Registers that hold 0.
const ZEROS: &str = "00000000 00000000 00000000 00000000 00000000 00000000 00000000 00000000";

/// A byte is written to the output word. Most rows differ in some of it.
const WRITES: Row = Row {
    words: &OUTPUT,
    script: "",
    status: 0,
    end: "halt 80 4 5",
    out: "41",
    globals: "00000000 80000000 00000000 00000000 00000000 00000000 00000000 00000000",
    outs: "00000041 00000000 00000000 00000000 00000000 00000000 00000000 00000000",
    psr: "F3000080",
    pcs: "4000000C 40000010",
    ahb: "00000000 00000000",
    transfers: "1\nt 0 0 0 fetch absent 40000000 0 0000000000000000",
    order: "0",
    flips: "0",
};

/// A word is loaded from 40001000, and its low byte written to the output word.
const LOADS: Row = Row {
    words: &[
        0x0310_0004,
        0x0520_0000,
        0xd000_6000,
        0xd020_a100,
        0x91d0_2000,
    ],
    end: "halt 80 5 7",
    out: "00",
    globals: "00000000 40001000 80000000 00000000 00000000 00000000 00000000 00000000",
    outs: ZEROS,
    pcs: "40000010 40000014",
    transfers: "2\nt 0 0 0 fetch absent 40000000 0 0000000000000000\nt 1 0 3 load absent 40001000 0 0000000000000000",
    order: "1\nL 0 0 4 40001000 00000000 0",
    ..WRITES
};

/// The folder cases/ has more.
static ROWS: [Row; 10] = [
    WRITES,
    // One flip is corrected.
    Row {
        script: "mem 1 40001000 0\n",
        ahb: "40001000 00000302",
        transfers: "2\nt 0 0 0 fetch absent 40000000 0 0000000000000000\nt 1 0 3 load absent 40001000 0 4F00000000000000",
        flips: "1\nf 0 dormant",
        ..LOADS
    },
    // Two flips stop the core.
    Row {
        script: "mem 1 40001000 0\nmem 1 40001000 1\n",
        status: 10,
        end: "stop 09 2 4 1 05",
        out: "-",
        pcs: "40000008 4000000C",
        ahb: "40001000 00000102",
        transfers: "2\nt 0 0 0 fetch absent 40000000 0 0000000000000000\nt 1 0 3 load absent 40001000 0 0500000000000000",
        order: "0",
        flips: "2\nf 0 stopped\nf 1 stopped",
        ..LOADS
    },
    // One bit flipped twice reads clean, and a third flip is declined.
    Row {
        script: "mem 1 40001000 0\nmem 1 40001000 0\nmem 1 40001000 2\n",
        flips: "3\nf 0 dormant\nf 1 dormant\nf 2 declined",
        ..LOADS
    },
    // Seven SAVEs: the seventh meets the invalid window.
    Row {
        words: &[
            0x81e0_0000,
            0x81e0_0000,
            0x81e0_0000,
            0x81e0_0000,
            0x81e0_0000,
            0x81e0_0000,
            0x81e0_0000,
        ],
        end: "halt 05 7 8",
        out: "-",
        globals: ZEROS,
        outs: ZEROS,
        psr: "F3000082",
        pcs: "40000018 4000001C",
        ..WRITES
    },
    // One flip of a register is corrected.
    Row {
        script: "reg 0 2 1 0\n",
        flips: "1\nf 0 repaired",
        ..WRITES
    },
    // Two flips of a register stop the core.
    Row {
        script: "reg 0 2 1 0\nreg 0 2 1 1\n",
        status: 10,
        end: "stop 20 2 4 1 05",
        out: "-",
        globals: "00000000 -------- 00000000 00000000 00000000 00000000 00000000 00000000",
        pcs: "40000008 4000000C",
        flips: "2\nf 0 stopped\nf 1 stopped",
        ..WRITES
    },
    // A register that is not read is reported without a value.
    Row {
        script: "reg 0 0 5 0\nreg 0 0 5 1\n",
        globals: "00000000 80000000 00000000 00000000 00000000 -------- 00000000 00000000",
        flips: "2\nf 0 dormant\nf 1 dormant",
        ..WRITES
    },
    // UDIV by 0.
    Row {
        words: &[0x8270_0000, 0x91d0_2000],
        end: "halt 2A 1 2",
        out: "-",
        globals: ZEROS,
        outs: ZEROS,
        pcs: "40000000 40000004",
        ..WRITES
    },
    // LDD from a multiple of 4 alone.
    Row {
        words: &[0x0310_0004, 0xd018_6004, 0x91d0_2000],
        end: "halt 07 2 3",
        out: "-",
        globals: "00000000 40001000 00000000 00000000 00000000 00000000 00000000 00000000",
        outs: ZEROS,
        pcs: "40000004 40000008",
        ..WRITES
    },
];

/// The whole report of a row.
fn report(alloc: Global, row: &Row) -> Result<String, AllocError> {
    let core = format!(in alloc;
        "leon3ft report 1\ncores 1\ncore 0 {}\nout 0 {}\n",
        row.end, row.out
    )?;
    let registers = format!(in alloc;
        "g 0 {}\no 0 {}\nl 0 {ZEROS}\ni 0 {ZEROS}\n",
        row.globals, row.outs
    )?;
    let control = format!(in alloc;
        "ctl 0 {} 00000002 00000000 00000000 {}\nparity 0 0 0 0 0\nahb {}\n",
        row.psr, row.pcs, row.ahb
    )?;
    format!(in alloc;
        "{core}{registers}{control}transfers {}\norder {}\nflips {}\nwatch 0\nend\n",
        row.transfers, row.order, row.flips
    )
}

/// The status of a row, of whose files and sink these calls fail, and what the sink took.
fn played(
    alloc: Global,
    row: &Row,
    reads: &[u64],
    writes: &[u64],
) -> Result<(u8, MemSink), AllocError> {
    let mut files = MemFiles::new(alloc, reads)?;
    files.put("image", &image(alloc, row.words)?)?;
    files.put("configuration", b"")?;
    files.put("script", row.script.as_bytes())?;
    files.put("schedule", b"")?;
    called(alloc, PLAY, &mut files, writes)
}

#[test]
fn rows_run_to_their_reports(rt: HostRuntime) -> Result<(), Fail> {
    for (number, row) in ROWS.iter().enumerate() {
        let (status, out) = played(rt.alloc(), row, &[], &[])?;
        let text = report(rt.alloc(), row)?;
        let is_right = status == row.status && out.taken() == text.as_bytes();
        expect(&rt, number, is_right);
    }
    Ok(())
}

/// The lines of files that could not be read, in the order in which files are read.
static UNREAD: [&str; 4] = [
    "error 3 configuration\n",
    "error 3 image\n",
    "error 3 script\n",
    "error 3 schedule\n",
];

/// The place of a text among these lines, or their number.
fn place_of(text: &[u8]) -> usize {
    UNREAD
        .iter()
        .position(|line| line.as_bytes() == text)
        .unwrap_or(UNREAD.len())
}

#[test]
fn each_read_fails_in_turn(rt: HostRuntime) -> Result<(), Fail> {
    let mut last = 0;
    for call in 1..100usize {
        let (status, out) = played(rt.alloc(), &WRITES, &[call as u64], &[])?;
        if status == 0 {
            expect(&rt, call, last == UNREAD.len() - 1);
            return Ok(());
        }
        let place = place_of(out.taken());
        let is_next = last <= place && place - last <= 1;
        expect(&rt, call, status == 3 && place < UNREAD.len() && is_next);
        last = place;
    }
    panic!(rt; "every run met a failure")
}

#[test]
fn each_write_fails_in_turn(rt: HostRuntime) -> Result<(), Fail> {
    let text = report(rt.alloc(), &WRITES)?;
    for call in 1..100usize {
        let (status, out) = played(rt.alloc(), &WRITES, &[], &[call as u64])?;
        if status == 0 {
            expect(&rt, call, call > 1);
            return Ok(());
        }
        let is_prefix = text.as_bytes().starts_with(out.taken());
        expect(&rt, call, status == 8 && is_prefix);
    }
    panic!(rt; "every run met a failure")
}
