use super::expect;
use v8_windows::WindowTrap::{Overflow, Underflow};
use v8_windows::{WindowTrap, cell, restore, save};

/// Windows, registers and their cells: %g1, %g7; %o0, %l0 and %i0 of window 0; %o0 of window 1; %o7 and %i7 of adjacent
/// windows; %l1, %l7, %i0 and %i7 of window 7.
static CELLS: [(u8, u8, usize); 13] = [
    (0, 1, 1),
    (7, 1, 1),
    (3, 7, 7),
    (0, 8, 8),
    (0, 16, 16),
    (0, 24, 24),
    (1, 8, 24),
    (7, 15, 127),
    (6, 31, 127),
    (7, 17, 129),
    (7, 23, 135),
    (7, 24, 8),
    (7, 31, 15),
];

/// Windows, WIM, and the window that SAVE enters.
static SAVES: [(u8, u32, Result<u8, WindowTrap>); 7] = [
    (0, 0x0000_0000, Ok(7)),
    (0, 0xffff_ff7f, Ok(7)),
    (0, 0x0000_0080, Err(Overflow)),
    (1, 0x0000_0002, Ok(0)),
    (1, 0x0000_0001, Err(Overflow)),
    (7, 0x0000_00bf, Ok(6)),
    (7, 0x0000_0040, Err(Overflow)),
];

/// Windows, WIM, and the window that RESTORE enters.
static RESTORES: [(u8, u32, Result<u8, WindowTrap>); 7] = [
    (7, 0x0000_0000, Ok(0)),
    (7, 0xffff_fffe, Ok(0)),
    (7, 0x0000_0001, Err(Underflow)),
    (0, 0x0000_0001, Ok(1)),
    (0, 0x0000_0002, Err(Underflow)),
    (6, 0x0000_007f, Ok(7)),
    (6, 0x0000_0080, Err(Underflow)),
];

#[test]
fn cells(rt: HostRuntime) {
    for &(cwp, n, expected) in &CELLS {
        assert!(rt; cwp < 8 && n < 32);
        expect(&rt, u32::from(n), cell(cwp, n) == expected);
    }
}

#[test]
fn saves(rt: HostRuntime) {
    for &(cwp, wim, expected) in &SAVES {
        assert!(rt; cwp < 8);
        expect(&rt, wim, save(cwp, wim) == expected);
    }
}

#[test]
fn restores(rt: HostRuntime) {
    for &(cwp, wim, expected) in &RESTORES {
        assert!(rt; cwp < 8);
        expect(&rt, wim, restore(cwp, wim) == expected);
    }
}
