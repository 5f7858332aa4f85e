use lf_io::MemSink;
use lf_model::bus::{OpKind, Transfer, TurnKind, Why};
use lf_model::listed::Listed;
use lf_model::trace::{CoreEnd, CoreResult, Fate, Four, Op, Regs, Trace, Word2};
use report_text::write_report;
use std::alloc::{AllocError, Global};
use std::test::Fail;

/// One core, and no transfer, operation, flip or watched word.
const OUTPUT: &str = "leon3ft report 1
cores 1
core 0 halt 80 4 4
out 0 41
g 0 00000000 80000000 00000000 00000000 00000000 00000000 00000000 00000000
o 0 00000041 00000000 00000000 00000000 00000000 00000000 00000000 00000000
l 0 00000000 00000000 00000000 00000000 00000000 00000000 00000000 00000000
i 0 00000000 00000000 00000000 00000000 00000000 00000000 00000000 00000000
ctl 0 F3000080 00000002 00000000 00000000 4000000C 40000010
parity 0 0 0 0 0
ahb 00000000 00000000
transfers 0
order 0
flips 0
watch 0
end
";

/// A line of each kind.
pub const EACH_KIND: &str = "leon3ft report 1
cores 3
core 0 stop 09 2 4 1 05
out 0 -
g 0 00000000 -------- 00000000 00000000 00000000 00000000 00000000 00000000
o 0 00000000 00000000 00000000 00000000 00000000 00000000 00000000 00000000
l 0 00000000 00000000 00000000 00000000 00000000 00000000 00000000 00000000
i 0 00000000 00000000 00000000 00000000 00000000 00000000 00000000 --------
ctl 0 F3000080 00000002 00000000 00000000 40000008 4000000C
parity 0 0 0 0 0
core 1 stop 2B 7 10 2 05
out 1 77005A
g 1 00000000 00000000 00000000 00000000 00000000 00000000 00000000 00000000
o 1 00000000 00000000 00000000 00000000 00000000 00000000 00000000 00000000
l 1 00000000 00000000 00000000 00000000 00000000 00000000 00000000 00000000
i 1 00000000 00000000 00000000 00000000 00000000 00000000 00000000 00000000
ctl 1 F3000080 00000002 00000000 00000000 40000008 4000000C
parity 1 0 0 1 3
core 2 limit 3 4
out 2 -
g 2 00000000 00000000 00000000 00000000 00000000 00000000 00000000 00000000
o 2 00000000 00000000 00000000 00000000 00000000 00000000 00000000 00000000
l 2 00000000 00000000 00000000 00000000 00000000 00000000 00000000 00000000
i 2 00000000 00000000 00000000 00000000 00000000 00000000 00000000 00000000
ctl 2 F3000080 00000002 00000000 00000000 40000008 4000000C
parity 2 0 0 0 0
ahb 40001000 00000302
transfers 11
t 0 0 0 fetch absent 40000000 0 0000000000000000
t 1 0 3 load absent 40001000 0 4F00000000000000
t 2 0 9 store end 40001000 - 05
t 3 8 1 fix - 40001000 - 00
t 4 8 0 look - 40001000 - 5800000000000000
t 5 0 5 load tag 40001000 3 0000000000000000
t 6 1 7 store full 40001008 - ----
t 7 1 8 atomic - 40001010 - 00
t 8 1 9 store sched 40001020 - --
t 9 1 10 snoop window 00000000 - -
t 10 0 4000000 store stbar 40001002 - 43
order 7
L 0 0 4 40001000 0000005A 2
S 1 0 6 40001008 0123456789ABCDEF
A 1 1 8 40001010 00 FF
X 0 1 6 40001000 77
S 0 1 7 40001020 00000001
L 0 2 7 40001000 77 0
S 1 3 9 40001002 BEEF
flips 7
f 0 late
f 1 declined
f 2 repaired
f 3 discarded
f 4 stopped
f 5 overwritten
f 6 dormant
watch 2
w 40001000 00000001
w 40001004 --------
end
";

const NO_ERRORS: Four = Four {
    fetch_tag: 0,
    fetch_byte: 0,
    data_tag: 0,
    data_byte: 0,
};

static TRANSFERS: [Transfer; 11] = [
    Transfer {
        syn: 0,
        turn: 0,
        master: 0,
        step: 0,
        addr: 0x4000_0000,
        kind: TurnKind::Fetch,
        why: Why::Absent,
        way: 0,
        words: 8,
        len: 0,
    },
    Transfer {
        syn: 0x4f00_0000_0000_0000,
        turn: 1,
        master: 0,
        step: 3,
        addr: 0x4000_1000,
        kind: TurnKind::Load,
        why: Why::Absent,
        way: 0,
        words: 8,
        len: 0,
    },
    Transfer {
        syn: 0x0500_0000_0000_0000,
        turn: 2,
        master: 0,
        step: 9,
        addr: 0x4000_1000,
        kind: TurnKind::Store,
        why: Why::End,
        way: 0,
        words: 1,
        len: 0,
    },
    Transfer {
        syn: 0,
        turn: 3,
        master: 8,
        step: 1,
        addr: 0x4000_1000,
        kind: TurnKind::Fix,
        why: Why::None,
        way: 0,
        words: 1,
        len: 0,
    },
    Transfer {
        syn: 0x5800_0000_0000_0000,
        turn: 4,
        master: 8,
        step: 0,
        addr: 0x4000_1000,
        kind: TurnKind::Look,
        why: Why::None,
        way: 0,
        words: 8,
        len: 0,
    },
    Transfer {
        syn: 0,
        turn: 5,
        master: 0,
        step: 5,
        addr: 0x4000_1000,
        kind: TurnKind::Load,
        why: Why::Tag,
        way: 3,
        words: 8,
        len: 0,
    },
    Transfer {
        syn: 0,
        turn: 6,
        master: 1,
        step: 7,
        addr: 0x4000_1008,
        kind: TurnKind::Store,
        why: Why::Full,
        way: 0,
        words: 0,
        len: 0,
    },
    Transfer {
        syn: 0,
        turn: 7,
        master: 1,
        step: 8,
        addr: 0x4000_1010,
        kind: TurnKind::Atomic,
        why: Why::None,
        way: 0,
        words: 1,
        len: 0,
    },
    Transfer {
        syn: 0,
        turn: 8,
        master: 1,
        step: 9,
        addr: 0x4000_1020,
        kind: TurnKind::Store,
        why: Why::Sched,
        way: 0,
        words: 0,
        len: 0,
    },
    Transfer {
        syn: 0,
        turn: 9,
        master: 1,
        step: 10,
        addr: 0,
        kind: TurnKind::Snoop,
        why: Why::Window,
        way: 0,
        words: 0,
        len: 0,
    },
    Transfer {
        syn: 0x4300_0000_0000_0000,
        turn: 10,
        master: 0,
        step: 4_000_000,
        addr: 0x4000_1002,
        kind: TurnKind::Store,
        why: Why::Stbar,
        way: 0,
        words: 1,
        len: 0,
    },
];

static OPERATIONS: [Op; 7] = [
    Op {
        got: 0x5a,
        put: 0,
        core: 0,
        k: 0,
        step: 4,
        addr: 0x4000_1000,
        kind: OpKind::Load,
        len: 4,
        way: 2,
    },
    Op {
        got: 0,
        put: 0x0123_4567_89ab_cdef,
        core: 1,
        k: 0,
        step: 6,
        addr: 0x4000_1008,
        kind: OpKind::Store,
        len: 8,
        way: 0,
    },
    Op {
        got: 0,
        put: 0xff,
        core: 1,
        k: 1,
        step: 8,
        addr: 0x4000_1010,
        kind: OpKind::Atomic,
        len: 1,
        way: 0,
    },
    Op {
        got: 0,
        put: 0x77,
        core: 0,
        k: 1,
        step: 6,
        addr: 0x4000_1000,
        kind: OpKind::Lost,
        len: 1,
        way: 0,
    },
    Op {
        got: 0,
        put: 1,
        core: 0,
        k: 1,
        step: 7,
        addr: 0x4000_1020,
        kind: OpKind::Store,
        len: 4,
        way: 0,
    },
    Op {
        got: 0x77,
        put: 0,
        core: 0,
        k: 2,
        step: 7,
        addr: 0x4000_1000,
        kind: OpKind::Load,
        len: 1,
        way: 0,
    },
    Op {
        got: 0,
        put: 0xbeef,
        core: 1,
        k: 3,
        step: 9,
        addr: 0x4000_1002,
        kind: OpKind::Store,
        len: 2,
        way: 0,
    },
];

static FATES: [Fate; 7] = [
    Fate::Late,
    Fate::Declined,
    Fate::Repaired,
    Fate::Discarded,
    Fate::Stopped,
    Fate::Overwritten,
    Fate::Dormant,
];

static WATCHED: [Word2; 2] = [
    Word2 {
        addr: 0x4000_1000,
        value: Some(1),
    },
    Word2 {
        addr: 0x4000_1004,
        value: None,
    },
];

/// A core that ended so, and whose next instruction lies at `pc`.
fn core(
    alloc: Global,
    end: CoreEnd,
    n: u32,
    steps: u32,
    pc: u32,
) -> Result<CoreResult, AllocError> {
    Ok(CoreResult {
        end,
        n,
        steps,
        out: Listed::new(alloc),
        regs: registers(alloc, Some(0), Some(0), Some(0))?,
        psr: 0xf300_0080,
        wim: 2,
        tbr: 0,
        y: 0,
        pc,
        npc: pc.wrapping_add(4),
        parity: NO_ERRORS,
    })
}

/// Registers with these values of %g1, %o0 and %i7, and 0 in the others.
fn registers(
    alloc: Global,
    g1: Option<u32>,
    o0: Option<u32>,
    i7: Option<u32>,
) -> Result<Regs, AllocError> {
    let mut registers = Listed::new(alloc);
    for n in 0..32 {
        registers.push(match n {
            1 => g1,
            8 => o0,
            31 => i7,
            _ => Some(0),
        })?;
    }
    Ok(registers)
}

fn of_output(alloc: Global) -> Result<Trace, AllocError> {
    let mut only = core(alloc, CoreEnd::Halt(0x80), 4, 4, 0x4000_000c)?;
    only.out = Listed::from_vec(vec![in alloc; 0x41]?);
    only.regs = registers(alloc, Some(0x8000_0000), Some(0x41), Some(0))?;
    Ok(Trace {
        cores: Listed::from_vec(vec![in alloc; only]?),
        ahb_addr: 0,
        ahb_status: 0,
        transfers: Listed::new(alloc),
        order: Listed::new(alloc),
        fates: Listed::new(alloc),
        watch: Listed::new(alloc),
    })
}

fn of_each_kind(alloc: Global) -> Result<Trace, AllocError> {
    Ok(Trace {
        cores: Listed::from_vec(cores_of_each_end(alloc)?),
        ahb_addr: 0x4000_1000,
        ahb_status: 0x302,
        transfers: Listed::from_vec(Vec::from_slice(alloc, &TRANSFERS)?),
        order: Listed::from_vec(Vec::from_slice(alloc, &OPERATIONS)?),
        fates: Listed::from_vec(Vec::from_slice(alloc, &FATES)?),
        watch: Listed::from_vec(Vec::from_slice(alloc, &WATCHED)?),
    })
}

fn cores_of_each_end(alloc: Global) -> Result<Vec<CoreResult>, AllocError> {
    let pc = 0x4000_0008;
    let mut at_a_load = core(
        alloc,
        CoreEnd::Stop {
            tt: 0x09,
            place: 1,
            syn: 0x05,
        },
        2,
        4,
        pc,
    )?;
    at_a_load.regs = registers(alloc, None, Some(0), None)?;
    let mut at_a_drain = core(
        alloc,
        CoreEnd::Stop {
            tt: 0x2b,
            place: 2,
            syn: 0x05,
        },
        7,
        10,
        pc,
    )?;
    at_a_drain.out = Listed::from_vec(vec![in alloc; 0x77, 0x00, 0x5a]?);
    at_a_drain.parity = Four {
        data_tag: 1,
        data_byte: 3,
        ..NO_ERRORS
    };
    let at_the_limit = core(alloc, CoreEnd::Limit, 3, 4, pc)?;
    let mut cores = Vec::new(alloc);
    for core in [at_a_load, at_a_drain, at_the_limit] {
        cores.push(core)?;
    }
    Ok(cores)
}

#[test]
fn each_line_has_its_text(rt: HostRuntime) -> Result<(), Fail> {
    let alloc = rt.alloc();
    for (trace, text) in [
        (of_output(alloc)?, OUTPUT),
        (of_each_kind(alloc)?, EACH_KIND),
    ] {
        let mut out = MemSink::new(alloc, text.len(), &[])?;
        assert!(rt; write_report(&trace, &mut out).is_ok());
        assert_eq!(rt; out.taken(), text.as_bytes());
    }
    Ok(())
}
