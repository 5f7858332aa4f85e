use super::expect;
use ahb_status::{Size, Status};

/// An error: the word's address, the length of the access in bytes, the master, whether it wrote, and whether the word was
/// corrected; and the status word with it, by GRLIB's table of its fields.
struct Row {
    error: (u32, u8, u32, bool, bool),
    status: u32,
}

static ROWS: [Row; 9] = [
    // A load of a core 0 that corrects a word; one that meets an uncorrectable word; the drain of a byte that does.
    Row {
        error: (0x4000_1000, 4, 0, false, true),
        status: 0x302,
    },
    Row {
        error: (0x4000_1000, 4, 0, false, false),
        status: 0x102,
    },
    Row {
        error: (0x4000_1000, 1, 0, true, false),
        status: 0x180,
    },
    // A half is drained into a word that is corrected.
    Row {
        error: (0x4000_1000, 2, 0, true, true),
        status: 0x381,
    },
    // LDSTUB and SWAP read before they write.
    Row {
        error: (0x4000_1000, 1, 3, false, true),
        status: 0x318,
    },
    Row {
        error: (0x4000_1000, 4, 3, false, true),
        status: 0x31a,
    },
    // The last core, and the scrubber.
    Row {
        error: (0x4000_1ffc, 4, 7, false, false),
        status: 0x13a,
    },
    Row {
        error: (0x4000_1000, 4, 8, false, false),
        status: 0x142,
    },
    Row {
        error: (0x4000_1000, 4, 8, false, true),
        status: 0x342,
    },
];

#[test]
fn status_words(rt: HostRuntime) {
    for row in &ROWS {
        let (addr, len, master, write, fixable) = row.error;
        assert!(rt; master < 9);
        let mut status = Status::new();
        status.note(addr, Size::of_length(len), master, write, fixable);
        expect(&rt, row.status, status.read() == (addr, row.status));
    }
}

#[test]
fn first_error_stays_until_it_is_cleared(rt: HostRuntime) {
    let mut status = Status::new();
    assert!(rt; status.read() == (0, 0));
    status.note(0x4000_1004, Size::Word, 0, false, true);
    status.note(0x4000_1000, Size::Byte, 1, true, false);
    assert!(rt; status.read() == (0x4000_1004, 0x302));
    status.cleared(0x4000_1000);
    assert!(rt; status.read() == (0x4000_1004, 0x302));
    status.cleared(0x4000_1004);
    assert!(rt; status.read() == (0, 0));
    status.note(0x4000_1000, Size::Byte, 1, true, false);
    assert!(rt; status.read() == (0x4000_1000, 0x188));
}
