use super::expect;
use lf_model::flip::Flip;
use lf_model::setup::{Actor, Event};
use run_texts::{ConfigErr, Key, TextErr, TextWhy, read_config, read_schedule, read_script};
use std::test::Fail;

/// A configuration in which no two caches, and no two numbers of a kind, are the same.
const MACHINE: &[u8] = b"
machine = { cores = 3, ram = 65536, steps = 500, window = 7, buffer = 2, watch = [0x40000004, 0x40000000] }
icache = { ways = 2, sets = 8 }
dcache = { ways = 4, sets = 256 }
scrub = { first = 0x40000020, length = 64, turns = 1000000 }
";

/// A configuration, and its fault.
type ConfigRow = (&'static [u8], Option<ConfigErr>);

static CONFIGS: [ConfigRow; 43] = [
    (b"machine.cores = 1", None),
    (b"machine.cores = 8", None),
    (b"machine.cores = 0", Some(ConfigErr::Range(Key::Cores))),
    (b"machine.cores = 9", Some(ConfigErr::Range(Key::Cores))),
    (b"machine = { cores = 8, steps = 500000 }", None),
    (
        b"machine = { cores = 8, steps = 500001 }",
        Some(ConfigErr::Range(Key::Steps)),
    ),
    (b"machine = { cores = 3, steps = 1333333 }", None),
    (
        b"machine = { cores = 3, steps = 1333334 }",
        Some(ConfigErr::Range(Key::Steps)),
    ),
    // Words of a RAM of 1 MiB, from 40000000 hex to 40100000 hex.
    (b"machine.watch = []", None),
    (b"machine.watch = [0x40000000]", None),
    (b"machine.watch = [0x400FFFFC]", None),
    (b"machine.watch = [0x40000008, 0x40000008]", None),
    (
        b"machine.watch = [0x3FFFFFFC]",
        Some(ConfigErr::Range(Key::Watch)),
    ),
    (
        b"machine.watch = [0x40100000]",
        Some(ConfigErr::Range(Key::Watch)),
    ),
    (
        b"machine.watch = [0x40000000, 0x40000002]",
        Some(ConfigErr::Range(Key::Watch)),
    ),
    (b"machine.watch = [-4]", Some(ConfigErr::Range(Key::Watch))),
    (
        b"machine.watch = [0x140000000]",
        Some(ConfigErr::Range(Key::Watch)),
    ),
    (
        b"machine.watch = [0x40000002, 1.0]",
        Some(ConfigErr::Kind(Key::Watch)),
    ),
    (b"machine = { ram = 65536, watch = [0x4000FFFC] }", None),
    (
        b"machine = { ram = 65536, watch = [0x40010000] }",
        Some(ConfigErr::Range(Key::Watch)),
    ),
    (b"scrub.first = 0x40000000", None),
    (b"scrub.first = 0x400FFFE0", None),
    (
        b"scrub.first = 0x3FFFFFE0",
        Some(ConfigErr::Range(Key::ScrubFirst)),
    ),
    (
        b"scrub.first = 0x40100000",
        Some(ConfigErr::Range(Key::ScrubFirst)),
    ),
    (
        b"scrub.first = 0x40000010",
        Some(ConfigErr::Range(Key::ScrubFirst)),
    ),
    (b"scrub.length = 32", None),
    (b"scrub.length = 0x100000", None),
    (
        b"scrub.length = 0x100020",
        Some(ConfigErr::Range(Key::ScrubLength)),
    ),
    (
        b"scrub.length = 0",
        Some(ConfigErr::Range(Key::ScrubLength)),
    ),
    (
        b"scrub.length = 48",
        Some(ConfigErr::Range(Key::ScrubLength)),
    ),
    (b"scrub = { first = 0x40000020, length = 0xFFFE0 }", None),
    (
        b"scrub = { first = 0x40000040, length = 0xFFFE0 }",
        Some(ConfigErr::Range(Key::ScrubLength)),
    ),
    (
        b"scrub = { first = 0x400FFFE0, length = 64 }",
        Some(ConfigErr::Range(Key::ScrubLength)),
    ),
    (b"scrub.turns = 0", None),
    (b"scrub.turns = 1000000", None),
    (
        b"scrub.turns = 1000001",
        Some(ConfigErr::Range(Key::ScrubTurns)),
    ),
    (b"scrub.turns = -1", Some(ConfigErr::Range(Key::ScrubTurns))),
    // The first of several faults, in the order of the keys, each of another kind before out of range.
    (
        b"machine = { cores = 9, ram = 5 }",
        Some(ConfigErr::Range(Key::Cores)),
    ),
    (
        b"machine = { cores = 8, steps = 500001, watch = [2] }",
        Some(ConfigErr::Range(Key::Steps)),
    ),
    (
        b"machine.watch = [2]\nicache.ways = true",
        Some(ConfigErr::Range(Key::Watch)),
    ),
    (
        b"scrub = { first = 1, length = 0, turns = 1000001 }",
        Some(ConfigErr::Range(Key::ScrubFirst)),
    ),
    (
        b"scrub = { length = 0, turns = 1000001 }",
        Some(ConfigErr::Range(Key::ScrubLength)),
    ),
    (b"machine.cores = 9\nscrub.line = 32", Some(ConfigErr::Key)),
];

#[test]
fn configurations_are_read_or_refused(rt: HostRuntime) -> Result<(), Fail> {
    for (row, (text, fault)) in CONFIGS.iter().enumerate() {
        let told = match read_config(rt.alloc(), text) {
            Ok(_) => None,
            Err(fault) => Some(fault),
        };
        expect(&rt, row, told == *fault);
    }
    Ok(())
}

#[test]
fn at_most_64_words_are_watched(rt: HostRuntime) -> Result<(), Fail> {
    let alloc = rt.alloc();
    for (count, is_read) in [(64, true), (65, false)] {
        let mut text = Vec::from_slice(alloc, b"machine.watch = [")?;
        for _ in 0..count {
            text.extend_from_slice(b"0x40000000,")?;
        }
        text.extend_from_slice(b"]")?;
        let told = match read_config(alloc, &text) {
            Ok(config) => config.watch.len() == count && is_read,
            Err(fault) => fault == ConfigErr::Range(Key::Watch) && !is_read,
        };
        expect(&rt, count, told);
    }
    Ok(())
}

#[test]
fn configuration_has_its_values(rt: HostRuntime) -> Result<(), Fail> {
    let config = read_config(rt.alloc(), MACHINE)?;
    let rows = [
        (config.cores, 3),
        (config.ram, 65_536),
        (config.steps, 500),
        (config.window, 7),
        (config.buffer, 2),
        (config.fetch_cache.ways, 2),
        (config.fetch_cache.sets, 8),
        (config.load_cache.ways, 4),
        (config.load_cache.sets, 256),
        (config.scrub.first, 0x4000_0020),
        (config.scrub.length, 64),
        (config.scrub_turns, 1_000_000),
    ];
    for (row, (value, want)) in rows.iter().enumerate() {
        expect(&rt, row, value == want);
    }
    assert_eq!(rt;
        config.watch.as_slice(),
        [0x4000_0004, 0x4000_0000].as_slice()
    );
    Ok(())
}

/// The kind of a flip, and its numbers in the order of its line: 0 memory, 1 registers, 2 tags and 3 lines of the fetch cache, 4 tags and
/// 5 lines of the data cache.
fn numbers_of(flip: Flip) -> [u32; 7] {
    match flip {
        Flip::Mem { turn, addr, bit } => [0, turn, addr, u32::from(bit), 0, 0, 0],
        Flip::Reg {
            core,
            step,
            cell,
            bit,
        } => [1, core, step, u32::from(cell), u32::from(bit), 0, 0],
        Flip::Tag {
            core,
            step,
            fetch,
            way,
            set,
            byte,
            bit,
        } => {
            let kind = if fetch { 2 } else { 4 };
            [
                kind,
                core,
                step,
                u32::from(way),
                u32::from(set),
                u32::from(byte),
                u32::from(bit),
            ]
        }
        Flip::Line {
            core,
            step,
            fetch,
            way,
            set,
            byte,
            bit,
        } => {
            let kind = if fetch { 3 } else { 5 };
            [
                kind,
                core,
                step,
                u32::from(way),
                u32::from(set),
                u32::from(byte),
                u32::from(bit),
            ]
        }
    }
}

static FLIPS: [[u32; 7]; 11] = [
    [0, 4_294_967_295, 0x4000_FFFC, 38, 0, 0, 0],
    [1, 2, 499, 135, 38, 0, 0],
    [2, 2, 499, 1, 7, 3, 8],
    [4, 2, 499, 3, 255, 3, 8],
    [3, 2, 499, 1, 7, 31, 8],
    [5, 2, 499, 3, 255, 31, 8],
    [2, 1, 0, 1, 5, 2, 6],
    [4, 1, 0, 2, 15, 3, 7],
    [3, 1, 0, 1, 5, 20, 6],
    [5, 1, 0, 2, 15, 30, 7],
    [1, 1, 0, 20, 30, 0, 0],
];

#[test]
fn flips_are_spelled(rt: HostRuntime) -> Result<(), Fail> {
    let config = read_config(rt.alloc(), MACHINE)?;
    let script = b"# the last of each
mem 4294967295 4000FFFC 38
reg 2 499 135 38
itag 2 499 1 7 3 8
dtag 2 499 3 255 3 8
idat 2 499 1 7 31 8
ddat 2 499 3 255 31 8

# six numbers of which no two are the same
itag 1 0 1 5 2 6\r
dtag\t1 0 2 15\t 3 7
idat 1 0 1 5 20 6
ddat 1 0 2 15 30 0000000007
reg 1 0 20 30";
    let flips = read_script(rt.alloc(), script, &config)?;
    assert_eq!(rt; flips.as_slice().len(), FLIPS.len());
    for (row, flip) in flips.as_slice().iter().enumerate() {
        expect(
            &rt,
            row,
            row < FLIPS.len() && numbers_of(*flip) == FLIPS[row],
        );
    }
    Ok(())
}

/// A script or a schedule for that configuration, its first faulty line and the fault.
type FaultRow = (&'static [u8], u64, TextWhy);

static SCRIPTS: [FaultRow; 53] = [
    (b"tag 0 0 0 0 0 0", 1, TextWhy::Word),
    (b"Itag 0 0 0 0 0 0", 1, TextWhy::Word),
    (b"ddata 0 0 0 0 0 0", 1, TextWhy::Word),
    (b"irq 0 1", 1, TextWhy::Word),
    (b"core 0", 1, TextWhy::Word),
    (b"itag", 1, TextWhy::Count),
    (b"dtag 0 0 0 0 0", 1, TextWhy::Count),
    (b"idat 0 0 0 0 0 0 0", 1, TextWhy::Count),
    (b"ddat 3 x 4 256 32", 1, TextWhy::Count),
    (b"itag x 0 0 0 0 0", 1, TextWhy::Number),
    (b"dtag 0 -1 0 0 0 0", 1, TextWhy::Number),
    (b"idat 0 0 0x0 0 0 0", 1, TextWhy::Number),
    (b"ddat 0 0 0 00000000000 0 0", 1, TextWhy::Number),
    (b"itag 0 0 0 0 a 0", 1, TextWhy::Number),
    (b"ddat 3 500 4 256 32 x", 1, TextWhy::Number),
    (b"reg 3 0 0 0", 1, TextWhy::Range),
    (b"reg 2 500 0 0", 1, TextWhy::Range),
    (b"reg 2 0 136 0", 1, TextWhy::Range),
    (b"reg 2 0 0 39", 1, TextWhy::Range),
    (b"itag 3 0 0 0 0 0", 1, TextWhy::Range),
    (b"itag 0 500 0 0 0 0", 1, TextWhy::Range),
    (b"itag 0 0 2 0 0 0", 1, TextWhy::Range),
    (b"itag 0 0 0 8 0 0", 1, TextWhy::Range),
    (b"itag 0 0 0 0 4 0", 1, TextWhy::Range),
    (b"itag 0 0 0 0 0 9", 1, TextWhy::Range),
    (b"dtag 3 0 0 0 0 0", 1, TextWhy::Range),
    (b"dtag 0 500 0 0 0 0", 1, TextWhy::Range),
    (b"dtag 0 0 4 0 0 0", 1, TextWhy::Range),
    (b"dtag 0 0 0 256 0 0", 1, TextWhy::Range),
    (b"dtag 0 0 0 0 4 0", 1, TextWhy::Range),
    (b"dtag 0 0 0 0 0 9", 1, TextWhy::Range),
    (b"idat 3 0 0 0 0 0", 1, TextWhy::Range),
    (b"idat 0 500 0 0 0 0", 1, TextWhy::Range),
    (b"idat 0 0 2 0 0 0", 1, TextWhy::Range),
    (b"idat 0 0 0 8 0 0", 1, TextWhy::Range),
    (b"idat 0 0 0 0 32 0", 1, TextWhy::Range),
    (b"idat 0 0 0 0 0 9", 1, TextWhy::Range),
    (b"ddat 3 0 0 0 0 0", 1, TextWhy::Range),
    (b"ddat 0 500 0 0 0 0", 1, TextWhy::Range),
    (b"ddat 0 0 4 0 0 0", 1, TextWhy::Range),
    (b"ddat 0 0 0 256 0 0", 1, TextWhy::Range),
    (b"ddat 0 0 0 0 32 0", 1, TextWhy::Range),
    (b"ddat 0 0 0 0 0 9", 1, TextWhy::Range),
    // What would be 0 in the 32, 16 or 8 bits that are kept.
    (b"idat 4294967296 0 0 0 0 0", 1, TextWhy::Range),
    (b"idat 0 4294967296 0 0 0 0", 1, TextWhy::Range),
    (b"idat 0 0 256 0 0 0", 1, TextWhy::Range),
    (b"idat 0 0 0 65536 0 0", 1, TextWhy::Range),
    (b"idat 0 0 0 0 256 0", 1, TextWhy::Range),
    (b"idat 0 0 0 0 0 256", 1, TextWhy::Range),
    // The first of several faulty lines, where each line counts.
    (
        b"itag 0 0 0 0 0 0\n\ndtag 0 0 4 0 0 0\nidat\nx",
        3,
        TextWhy::Range,
    ),
    (b"# x\nddat\nitag 0 0 0 0 0 9", 2, TextWhy::Count),
    (
        b"ddat 0 0 0 0 0 0\r\n\tdtag a 0 0 0 0 0\r\n",
        2,
        TextWhy::Number,
    ),
    (b"\n\n\nscrub 1\nitag", 4, TextWhy::Word),
];

#[test]
fn scripts_are_refused(rt: HostRuntime) -> Result<(), Fail> {
    let alloc = rt.alloc();
    let config = read_config(alloc, MACHINE)?;
    for (row, (text, line, why)) in SCRIPTS.iter().enumerate() {
        let fault = TextErr::At {
            line: *line,
            why: *why,
        };
        let is_told = match read_script(alloc, text, &config) {
            Ok(_) => false,
            Err(told) => told == fault,
        };
        expect(&rt, row, is_told);
    }
    Ok(())
}

/// The actor of an event, its core and its count: 0 a core, 1 a drain, 2 the scrubber.
fn numbers_of_event(event: Event) -> [u32; 3] {
    let actor = match event.actor {
        Actor::Core => 0,
        Actor::Drain => 1,
        Actor::Scrub => 2,
    };
    [actor, event.core, event.count]
}

static EVENTS: [[u32; 3]; 7] = [
    [0, 0, 1],
    [0, 2, 8_000_000],
    [1, 1, 1],
    [1, 2, 3],
    [2, 0, 1],
    [2, 0, 8_000_000],
    [0, 1, 1],
];

#[test]
fn events_are_spelled(rt: HostRuntime) -> Result<(), Fail> {
    let config = read_config(rt.alloc(), MACHINE)?;
    let schedule = b"core 0\ncore 2 8000000\n
# a comment
 drain\t1\r\ndrain 2 0000000003\nscrub\nscrub 8000000 \n\tcore 1 1";
    let events = read_schedule(rt.alloc(), schedule, &config)?;
    assert_eq!(rt; events.len(), EVENTS.len());
    for (row, event) in events.iter().enumerate() {
        expect(
            &rt,
            row,
            row < EVENTS.len() && numbers_of_event(*event) == EVENTS[row],
        );
    }
    let none = read_schedule(rt.alloc(), b"# core 0\r\n\r\n\t\n", &config)?;
    assert!(rt; none.is_empty());
    Ok(())
}

static SCHEDULES: [FaultRow; 29] = [
    (b"cores 0", 1, TextWhy::Word),
    (b"Core 0", 1, TextWhy::Word),
    (b"scrubber", 1, TextWhy::Word),
    (b"mem 0 40000000 0", 1, TextWhy::Word),
    (b"\r", 1, TextWhy::Word),
    (b"core", 1, TextWhy::Count),
    (b"drain", 1, TextWhy::Count),
    (b"core 0 1 1", 1, TextWhy::Count),
    (b"drain x 1 1", 1, TextWhy::Count),
    (b"scrub 1 1", 1, TextWhy::Count),
    (b"core 0 1 # once", 1, TextWhy::Count),
    (b"core x", 1, TextWhy::Number),
    (b"drain -1", 1, TextWhy::Number),
    (b"core 3 x", 1, TextWhy::Number),
    (b"core x 0", 1, TextWhy::Number),
    (b"scrub 1.0", 1, TextWhy::Number),
    (b"scrub 00000000001", 1, TextWhy::Number),
    (b"core 3", 1, TextWhy::Range),
    (b"drain 3", 1, TextWhy::Range),
    (b"core 4294967296", 1, TextWhy::Range),
    (b"core 0 0", 1, TextWhy::Range),
    (b"drain 0 0", 1, TextWhy::Range),
    (b"scrub 0", 1, TextWhy::Range),
    (b"core 0 8000001", 1, TextWhy::Range),
    (b"drain 0 8000001", 1, TextWhy::Range),
    (b"scrub 4294967297", 1, TextWhy::Range),
    // The first of several faulty lines, where each line counts.
    (b"core 0\n\ndrain 3 1\ncore\n", 3, TextWhy::Range),
    (b"#\r\nscrub 2 2\r\ncores", 2, TextWhy::Count),
    (b"scrub\ncore 2\nstep 1", 3, TextWhy::Word),
];

#[test]
fn schedules_are_refused(rt: HostRuntime) -> Result<(), Fail> {
    let alloc = rt.alloc();
    let config = read_config(alloc, MACHINE)?;
    for (row, (text, line, why)) in SCHEDULES.iter().enumerate() {
        let fault = TextErr::At {
            line: *line,
            why: *why,
        };
        let is_told = match read_schedule(alloc, text, &config) {
            Ok(_) => false,
            Err(told) => told == fault,
        };
        expect(&rt, row, is_told);
    }
    Ok(())
}
