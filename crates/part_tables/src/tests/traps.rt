ghost use Rattle.std.specs.Prelude.{◌≡◌, ◌<◌};

use super::expect;
use Trap::{Access, Align, CpOff, Fetch, FpOff, Illegal, Over, Privileged, Tag, Ticc, Under, Zero};
use v8_traps::{Checks, Ctl, Entered, enter, first_trap};

/// One of the traps of `Checks`.
#[derive(Clone, Copy)]
enum Trap {
    Fetch,
    Privileged,
    Illegal,
    FpOff,
    CpOff,
    Over,
    Under,
    Align,
    Access,
    Tag,
    Zero,
    Ticc(u8),
}

fn and(c: Checks, trap: Trap) -> Checks {
    match trap {
        Fetch => Checks { fetch: true, ..c },
        Privileged => Checks {
            privileged: true,
            ..c
        },
        Illegal => Checks { illegal: true, ..c },
        FpOff => Checks { fp_off: true, ..c },
        CpOff => Checks { cp_off: true, ..c },
        Over => Checks { over: true, ..c },
        Under => Checks { under: true, ..c },
        Align => Checks { align: true, ..c },
        Access => Checks { access: true, ..c },
        Tag => Checks { tag: true, ..c },
        Zero => Checks { zero: true, ..c },
        Ticc(number) => Checks {
            ticc: Some(number),
            ..c
        },
    }
}

/// A trap, one that it comes before, and its trap type.
static ORDER: [(Trap, Trap, u8); 15] = [
    (Fetch, Privileged, 0x01),
    (Privileged, Illegal, 0x03),
    (Illegal, FpOff, 0x02),
    (FpOff, CpOff, 0x04),
    (CpOff, Over, 0x24),
    (Over, Under, 0x05),
    (Under, Align, 0x06),
    (Align, Access, 0x07),
    (Access, Tag, 0x09),
    (Tag, Zero, 0x0a),
    (Zero, Ticc(0x80), 0x2a),
    (Ticc(0x80), Ticc(0x80), 0x80),
    (Ticc(0xff), Ticc(0xff), 0xff),
    (Fetch, Ticc(0xff), 0x01),
    (Privileged, FpOff, 0x03),
];

#[test]
fn first_traps(rt: HostRuntime) {
    let none = Checks::default();
    assert!(rt; first_trap(&none).is_none());
    for &(trap, other, tt) in &ORDER {
        let alone = and(none, trap);
        expect(&rt, u32::from(tt), first_trap(&alone) == Some(tt));
        expect(
            &rt,
            u32::from(tt),
            first_trap(&and(alone, other)) == Some(tt),
        );
    }
}

/// S, CWP, TBR, PC and nPC before entry, and the trap type; PSR, CWP and TBR after it.
static ENTRIES: [(bool, u8, u32, u32, u32, u8, u32, u8, u32); 4] = [
    (
        true,
        0,
        0x4000_0000,
        0x4000_0010,
        0x4000_0014,
        0x80,
        0xf3a0_05c7,
        7,
        0x4000_0800,
    ),
    (
        false,
        3,
        0x4000_1fff,
        0x4000_0100,
        0x4000_0200,
        0x05,
        0xf3a0_0582,
        2,
        0x4000_1050,
    ),
    (
        true,
        7,
        0xffff_f000,
        0xffff_fffc,
        0x0000_0000,
        0xff,
        0xf3a0_05c6,
        6,
        0xffff_fff0,
    ),
    (
        false,
        1,
        0x0000_0ff0,
        0x0000_0000,
        0x0000_0004,
        0x01,
        0xf3a0_0580,
        0,
        0x0000_0010,
    ),
];

/// The state at entry, with traps enabled.
fn state(s: bool, cwp: u8, tbr: u32, pc: u32, npc: u32) -> Ctl
    ensures codes { result.icc < 16 }
    ensures level { result.pil < 16 }
    ensures window { result.cwp ≡ cwp }
{
    Ctl {
        icc: 0b1010,
        pil: 5,
        s,
        ps: !s,
        et: true,
        cwp,
        tbr,
        pc,
        npc,
    }
}

/// PSR, TBR, PC and nPC.
fn registers(ctl: &Ctl) -> (u32, u32, u32, u32)
    requires codes { ctl.now.icc < 16 }
    requires level { ctl.now.pil < 16 }
    requires window { ctl.now.cwp < 8 }
{
    (ctl.psr(), ctl.tbr, ctl.pc, ctl.npc)
}

#[test]
fn entries(rt: HostRuntime) {
    for &(s, cwp, tbr, pc, npc, tt, psr, window, handler) in &ENTRIES {
        assert!(rt; cwp < 8);
        let mut ctl = state(s, cwp, tbr, pc, npc);
        let entered = enter(&mut ctl, tt);
        expect(&rt, psr, entered == Entered::Vectored { window, pc, npc });
        let after = (psr, handler, handler, handler.wrapping_add(4));
        expect(&rt, psr, registers(&ctl) == after);
    }
}

#[test]
fn nothing_changes_where_traps_are_disabled(rt: HostRuntime) {
    for &(s, cwp, tbr, pc, npc, tt, ..) in &ENTRIES {
        assert!(rt; cwp < 8);
        let mut ctl = state(s, cwp, tbr, pc, npc);
        ctl.et = false;
        let before = registers(&ctl);
        expect(&rt, tbr, enter(&mut ctl, tt) == Entered::ErrorMode);
        expect(&rt, tbr, registers(&ctl) == before);
    }
}
