ghost use Rattle.std.specs.Prelude.{◌≡◌, ◌<◌, ◌≤◌, [], true, false, length, IfOk};
ghost use Rattle.std.specs.List.{AllByRecursion};
ghost use Rattle.bus_memory.specs.MemoryState.{ram_of, reads_line};
ghost use Rattle.lf_model.specs.declared.bus.TurnKind.TheVariants.{Store, Atomic, Fix};
ghost use Rattle.lf_model.specs.declared.bus.Why.TheVariants as whys;
ghost use Rattle.bus_memory.specs.Strikes.{AimsAt};
ghost use Rattle.ram_words.specs.Ram.{IsInRam};

use super::expect;
use bus_memory::{BusMemory, Fixed};
use lf_model::bus::{Transfer, TurnKind, Why};
use lf_model::config::{Config, Shape};
use lf_model::flip::{Flip, Flips};
use lf_model::image::{Image, Range, Segment};
use lf_model::listed::Listed;
use lf_model::setup::Setup;
use lf_model::trace::{Fate, Word2, Words2};
use std::alloc::{AllocError, Global};
use std::process::Abort;
use std::test::Fail;

/// The flips of the script, each of a turn, a word of memory and a bit, and what becomes of it.
static FLIPS: [(u32, u32, u8, Fate); 12] = [
    // The byte of turn 1 is merged into the word, corrected.
    (0, 0x4000_0004, 0, Fate::Repaired),
    // The half of turn 2 meets a bad word, and a trap names it.
    (2, 0x4000_0004, 0, Fate::Stopped),
    (2, 0x4000_0004, 1, Fate::Stopped),
    // The same bit twice: no fix writes it. A third flip is declined.
    (8, 0x4000_0004, 2, Fate::Overwritten),
    (8, 0x4000_0004, 2, Fate::Overwritten),
    (8, 0x4000_0004, 3, Fate::Declined),
    // An atomic corrects what it reads, and writes.
    (11, 0x4000_0004, 38, Fate::Repaired),
    (12, 0x4000_0004, 3, Fate::Repaired),
    // The scrubber sees it at turn 14, but the store of turn 15 comes before its fix.
    (13, 0x4000_0024, 0, Fate::Overwritten),
    // A fill writes nothing back.
    (17, 0x4000_002c, 4, Fate::Dormant),
    (18, 0x4000_0028, 0, Fate::Repaired),
    // There is no turn 19.
    (19, 0x4000_0028, 0, Fate::Late),
];

/// What a turn does.
#[derive(Clone, Copy)]
enum Act {
    Load(u32),
    Look(u32),
    Fix(u32),
    Snoop,
    Store(u32, u8, u64),
    Atomic(u32, u8, u32),
}

/// What it answers.
#[derive(Clone, Copy, PartialEq, Eq)]
enum Answer {
    Nothing,
    /// The second word of a line, or the word that an atomic read, if it is not bad.
    Word(Option<u32>),
    /// Whether the store was made.
    Stored(bool),
    Fixed(Fixed),
}

/// A turn, its answer, how many words its transfer read, and their syndromes, that of the first in the top byte.
struct Row {
    act: Act,
    answer: Answer,
    words: u8,
    syn: u64,
}

/// The columns of the code are 4f of bit 0, 4a of bit 1, 54 of bit 3, 57 of bit 4 and 40 of bit 38: bits 0 and 1 make 05.
static ROWS: [Row; 19] = [
    Row {
        act: Act::Load(0x4000_0000),
        answer: Answer::Word(Some(0x1122_3344)),
        words: 8,
        syn: 0x004f_0000_0000_0000,
    },
    Row {
        act: Act::Store(0x4000_0005, 1, 0xaa),
        answer: Answer::Stored(true),
        words: 1,
        syn: 0x4f00_0000_0000_0000,
    },
    Row {
        act: Act::Store(0x4000_0006, 2, 0xbbcc),
        answer: Answer::Stored(false),
        words: 1,
        syn: 0x0500_0000_0000_0000,
    },
    Row {
        act: Act::Load(0x4000_0000),
        answer: Answer::Word(None),
        words: 8,
        syn: 0x0005_0000_0000_0000,
    },
    Row {
        act: Act::Look(0x4000_0000),
        answer: Answer::Word(None),
        words: 8,
        syn: 0x0005_0000_0000_0000,
    },
    Row {
        act: Act::Fix(0x4000_0004),
        answer: Answer::Fixed(Fixed::Bad { syn: 0x05 }),
        words: 1,
        syn: 0x0500_0000_0000_0000,
    },
    Row {
        act: Act::Atomic(0x4000_0007, 1, 0xff),
        answer: Answer::Word(None),
        words: 1,
        syn: 0x0500_0000_0000_0000,
    },
    Row {
        act: Act::Store(0x4000_0004, 4, 0x5566_7788),
        answer: Answer::Stored(true),
        words: 0,
        syn: 0,
    },
    Row {
        act: Act::Load(0x4000_0000),
        answer: Answer::Word(Some(0x5566_7788)),
        words: 8,
        syn: 0,
    },
    Row {
        act: Act::Fix(0x4000_0004),
        answer: Answer::Fixed(Fixed::Clean),
        words: 1,
        syn: 0,
    },
    Row {
        act: Act::Store(0x4000_0000, 8, 0x0102_0304_0506_0708),
        answer: Answer::Stored(true),
        words: 0,
        syn: 0,
    },
    Row {
        act: Act::Atomic(0x4000_0004, 4, 0x99),
        answer: Answer::Word(Some(0x0506_0708)),
        words: 1,
        syn: 0x4000_0000_0000_0000,
    },
    Row {
        act: Act::Atomic(0x4000_0007, 1, 0xff),
        answer: Answer::Word(Some(0x99)),
        words: 1,
        syn: 0x5400_0000_0000_0000,
    },
    Row {
        act: Act::Snoop,
        answer: Answer::Nothing,
        words: 0,
        syn: 0,
    },
    Row {
        act: Act::Look(0x4000_0020),
        answer: Answer::Word(Some(0)),
        words: 8,
        syn: 0x004f_0000_0000_0000,
    },
    Row {
        act: Act::Store(0x4000_0024, 4, 7),
        answer: Answer::Stored(true),
        words: 0,
        syn: 0,
    },
    Row {
        act: Act::Fix(0x4000_0024),
        answer: Answer::Fixed(Fixed::Clean),
        words: 1,
        syn: 0,
    },
    Row {
        act: Act::Load(0x4000_0020),
        answer: Answer::Word(Some(7)),
        words: 8,
        syn: 0x0000_0057_0000_0000,
    },
    Row {
        act: Act::Fix(0x4000_0028),
        answer: Answer::Fixed(Fixed::Corrected { bit: 0, syn: 0x4f }),
        words: 1,
        syn: 0x4f00_0000_0000_0000,
    },
];

/// A flip of a word of 64 bytes of RAM is put into the script.
fn add_flip(
    rt: &impl Abort,
    flips: &mut Flips,
    turn: u32,
    addr: u32,
    bit: u8,
) -> Result<(), AllocError>
    requires aims { AllByRecursion (AimsAt 16) flips.old }
    ensures aims { AllByRecursion (AimsAt 16) flips.new }
{
    assert!(rt; addr >= 0x4000_0000 && addr % 4 == 0 && (addr - 0x4000_0000) / 4 < 16 && bit < 39);
    flips.push(Flip::Mem { turn, addr, bit })
}

/// The script, with a flip of a register cell at its end.
fn script(rt: &impl Abort, alloc: Global) -> Result<Flips, AllocError>
    ensures aims { IfOk result (λ flips. AllByRecursion (AimsAt 16) flips) }
    ensures few { IfOk result (λ flips. length flips ≤ 13) }
{
    let mut flips = Listed::new(alloc);
    for row in &FLIPS {
        add_flip(rt, &mut flips, row.0, row.1, row.2)?;
    }
    flips.push(Flip::Reg {
        core: 0,
        step: 0,
        cell: 8,
        bit: 0,
    })?;
    assert!(rt; flips.len() <= 13);
    Ok(flips)
}

/// RAM of 64 bytes, with the word 11223344 at 40000004.
pub fn small_image(alloc: Global) -> Result<Image, AllocError>
    ensures segments { IfOk result (λ image. IsInRam 64 image) }
    ensures text { IfOk result (λ image. image.text ≡ []) }
{
    let mut bytes = Listed::new(alloc);
    for byte in [0x11, 0x22, 0x33, 0x44] {
        bytes.push(byte)?;
    }
    let mut segments = Listed::new(alloc);
    segments.push(Segment {
        addr: 0x4000_0004,
        bytes,
        size: 4,
        write: true,
        exec: false,
    })?;
    Ok(Image {
        entry: 0x4000_0000,
        segments,
        text: Listed::new(alloc),
    })
}

/// Memory before the first turn, with room for 19.
fn small_memory(rt: &impl Abort, alloc: Global) -> Result<BusMemory, AllocError>
    ensures between { IfOk result (λ memory. memory.begun ≡ false) }
    ensures ram { IfOk result (λ memory. ram_of memory ≡ 64) }
    ensures room { IfOk result (λ memory. memory.room ≡ 19) }
{
    let shape = Shape { ways: 1, sets: 8 };
    let setup = Setup {
        image: small_image(alloc)?,
        config: Config {
            cores: 2,
            ram: 64,
            steps: 20,
            window: 4,
            buffer: 2,
            fetch_cache: shape,
            load_cache: shape,
            scrub: Range {
                first: 0x4000_0000,
                length: 64,
            },
            scrub_turns: 20,
            watch: Listed::new(alloc),
        },
        flips: script(rt, alloc)?,
    };
    BusMemory::new(alloc, &setup, 19)
}

/// A transfer as its master asks for it.
fn asked(turn: u32, kind: TurnKind, addr: u32, len: u8) -> Transfer
    ensures { result ≡ record { syn = 0; turn = turn; master = 0; step = turn; addr = addr; kind = kind; why = whys.None; way = 0; words = 0; len = len } }
{
    Transfer {
        syn: 0,
        turn,
        master: 0,
        step: turn,
        addr,
        kind,
        why: Why::None,
        way: 0,
        words: 0,
        len,
    }
}

/// A line of RAM is read.
fn read(rt: &impl Abort, memory: &mut BusMemory, asked: Transfer) -> Answer
    requires begun { memory.old.begun ≡ true }
    requires ram { ram_of memory.old ≡ 64 }
    requires room { length memory.old.transfers < memory.old.room }
    requires kind { reads_line asked.kind ≡ true }
    ensures between { memory.new.begun ≡ false }
    ensures ram { ram_of memory.new ≡ 64 }
    ensures room { memory.new.room ≡ memory.old.room }
{
    assert!(rt; asked.addr == 0x4000_0000 || asked.addr == 0x4000_0020);
    let line = memory.read_line(asked);
    Answer::Word(if line.bad[1] {
        None
    } else {
        Some(line.words[1])
    })
}

/// A store of a number.
fn store(rt: &impl Abort, memory: &mut BusMemory, asked: Transfer, value: u64) -> Answer
    requires begun { memory.old.begun ≡ true }
    requires ram { ram_of memory.old ≡ 64 }
    requires room { length memory.old.transfers < memory.old.room }
    requires kind { asked.kind ≡ Store }
    ensures between { memory.new.begun ≡ false }
    ensures ram { ram_of memory.new ≡ 64 }
    ensures room { memory.new.room ≡ memory.old.room }
{
    let Transfer { addr, len, .. } = asked;
    assert!(rt; addr >= 0x4000_0000 && addr < 0x4000_0038);
    assert!(rt;
        len == 1 && value < 1 << 8
            || len == 2 && value < 1 << 16
            || len == 4 && value < 1 << 32
            || len == 8
    );
    assert!(rt; addr % u32::from(len) == 0);
    Answer::Stored(memory.store(asked, value).is_ok())
}

/// An atomic.
fn exchange(rt: &impl Abort, memory: &mut BusMemory, asked: Transfer, value: u32) -> Answer
    requires begun { memory.old.begun ≡ true }
    requires ram { ram_of memory.old ≡ 64 }
    requires room { length memory.old.transfers < memory.old.room }
    requires kind { asked.kind ≡ Atomic }
    ensures between { memory.new.begun ≡ false }
    ensures ram { ram_of memory.new ≡ 64 }
    ensures room { memory.new.room ≡ memory.old.room }
{
    let Transfer { addr, len, .. } = asked;
    assert!(rt; addr >= 0x4000_0000 && addr < 0x4000_0038);
    assert!(rt; len == 1 || len == 4);
    assert!(rt; addr % u32::from(len) == 0);
    Answer::Word(memory.exchange(asked, value).ok().map(|got| got.value))
}

/// A fix of a word.
fn fix(rt: &impl Abort, memory: &mut BusMemory, asked: Transfer) -> Answer
    requires begun { memory.old.begun ≡ true }
    requires ram { ram_of memory.old ≡ 64 }
    requires room { length memory.old.transfers < memory.old.room }
    requires kind { asked.kind ≡ Fix }
    ensures between { memory.new.begun ≡ false }
    ensures ram { ram_of memory.new ≡ 64 }
    ensures room { memory.new.room ≡ memory.old.room }
{
    assert!(rt; asked.addr >= 0x4000_0000 && asked.addr < 0x4000_0038);
    assert!(rt; asked.addr % 4 == 0);
    Answer::Fixed(memory.fix(asked))
}

/// A turn begins and ends.
fn play(rt: &impl Abort, memory: &mut BusMemory, act: &Act) -> Answer
    requires between { memory.old.begun ≡ false }
    requires ram { ram_of memory.old ≡ 64 }
    requires room { memory.old.room ≡ 19 }
    ensures between { memory.new.begun ≡ false }
    ensures ram { ram_of memory.new ≡ 64 }
    ensures room { memory.new.room ≡ 19 }
{
    let turn = memory.turns();
    assert!(rt; turn < 19);
    memory.begin();
    match *act {
        Act::Load(line) => read(rt, memory, asked(turn, TurnKind::Load, line, 0)),
        Act::Look(line) => read(rt, memory, asked(turn, TurnKind::Look, line, 0)),
        Act::Fix(addr) => fix(rt, memory, asked(turn, TurnKind::Fix, addr, 0)),
        Act::Store(addr, len, value) => store(
            rt,
            memory,
            asked(turn, TurnKind::Store, addr, len),
            value,
        ),
        Act::Atomic(addr, len, value) => exchange(
            rt,
            memory,
            asked(turn, TurnKind::Atomic, addr, len),
            value,
        ),
        Act::Snoop => {
            memory.snoop(asked(turn, TurnKind::Snoop, 0, 0));
            Answer::Nothing
        }
    }
}

/// The words that error traps name: the half of turn 2 stops core 0. Names of a turn before the flip, of a word that is clean, and
/// of no turn, change nothing.
fn named(alloc: Global) -> Result<Words2, AllocError> {
    let mut words = Listed::new(alloc);
    words.push(Word2 {
        addr: 0x4000_0004,
        value: Some(2),
    })?;
    words.push(Word2 {
        addr: 0x4000_002c,
        value: Some(3),
    })?;
    words.push(Word2 {
        addr: 0x4000_0020,
        value: Some(5),
    })?;
    words.push(Word2 {
        addr: 0x4000_0028,
        value: None,
    })?;
    Ok(words)
}

#[test]
fn turns_of_each_kind(rt: HostRuntime) -> Result<(), Fail> {
    let mut memory = small_memory(&rt, rt.alloc())?;
    for (number, row) in ROWS.iter().enumerate() {
        let answer = play(&rt, &mut memory, &row.act);
        expect(&rt, number as u32, answer == row.answer);
    }
    let mut names = vec![in rt.alloc()]?;
    names.push(named(rt.alloc())?)?;
    let record = memory.finish(names.as_slice());
    let transfers = record.transfers.as_slice();
    assert!(rt; transfers.len() == 19);
    for (number, row) in ROWS.iter().enumerate() {
        let transfer = &transfers[number];
        expect(
            &rt,
            number as u32,
            (transfer.words, transfer.syn) == (row.words, row.syn),
        );
    }
    let fates = record.fates.as_slice();
    assert!(rt; fates.len() == 13);
    for (number, flip) in FLIPS.iter().enumerate() {
        expect(&rt, number as u32, fates[number] == flip.3);
    }
    assert!(rt; fates[12] == Fate::Late);
    Ok(())
}
