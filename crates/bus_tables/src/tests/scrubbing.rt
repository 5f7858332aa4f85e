ghost use Rattle.std.specs.Prelude.{◌≡◌, ◌≤◌, [], false, length, IfOk};
ghost use Rattle.std.specs.List.{AllByRecursion};
ghost use Rattle.bus_memory.specs.Strikes.{AimsAt};
ghost use Rattle.lf_model.specs.Bus.Walk.{walk_after};
ghost use Rattle.lf_model.specs.Start.{ram_first};
ghost use Rattle.lf_model.specs.declared.image.Range.{Range as Addresses};
ghost use Rattle.ram_words.specs.Ram.{IsInRam};

use super::turns::small_image;
use ahb_bus::{Bus, Who};
use lf_model::bus::{Pending, Why};
use lf_model::config::{Config, Shape};
use lf_model::flip::{Flip, Flips};
use lf_model::image::Range;
use lf_model::listed::Listed;
use lf_model::setup::Setup;
use lf_model::trace::Fate;
use scrubber::Scrubber;
use std::alloc::{AllocError, Global};
use std::process::Abort;
use std::test::Fail;

/// Flips of the word at 40000004 at turns 0 and 5, and of two bits of the word at 40000024 at turn 3.
fn script(alloc: Global) -> Result<Flips, AllocError>
    ensures aims { IfOk result (λ flips. AllByRecursion (AimsAt 16) flips) }
    ensures few { IfOk result (λ flips. length flips ≤ 4) }
{
    let mut flips = Listed::new(alloc);
    flips.push(Flip::Mem {
        turn: 0,
        addr: 0x4000_0004,
        bit: 0,
    })?;
    flips.push(Flip::Mem {
        turn: 3,
        addr: 0x4000_0024,
        bit: 0,
    })?;
    flips.push(Flip::Mem {
        turn: 3,
        addr: 0x4000_0024,
        bit: 1,
    })?;
    flips.push(Flip::Mem {
        turn: 5,
        addr: 0x4000_0004,
        bit: 38,
    })?;
    Ok(flips)
}

/// A core and 64 bytes of RAM, which the scrubber walks in 20 turns.
fn small_config(alloc: Global) -> Config
    ensures cores { result.cores ≡ 1 }
    ensures ram { result.ram ≡ 64 }
    ensures steps { result.steps ≡ 20 }
    ensures scrub { result.scrub ≡ record { first = ram_first; length = 64 } }
    ensures turns { result.scrub_turns ≡ 20 }
{
    let shape = Shape { ways: 1, sets: 8 };
    Config {
        cores: 1,
        ram: 64,
        steps: 20,
        window: 4,
        buffer: 2,
        fetch_cache: shape,
        load_cache: shape,
        scrub: Range {
            first: 0x4000_0000,
            length: 64,
        },
        scrub_turns: 20,
        watch: Listed::new(alloc),
    }
}

/// The bus, with the word 11223344 at 40000004, and the scrubber, before the first turn.
fn small_bus(alloc: Global) -> Result<(Bus, Scrubber), AllocError>
    ensures between { IfOk result (λ t. t.0.begun ≡ false) }
    ensures cores { IfOk result (λ t. t.0.setup.config.cores ≡ 1) }
    ensures ram { IfOk result (λ t. t.0.setup.config.ram ≡ 64) }
    ensures steps { IfOk result (λ t. t.0.setup.config.steps ≡ 20) }
    ensures text { IfOk result (λ t. t.0.setup.image.text ≡ []) }
    ensures config { IfOk result (λ t. t.0.setup.config ≡ t.1.config) }
    ensures walk { IfOk result (λ t. t.1.walk ≡ walk_after t.1.config.scrub t.0.transfers) }
{
    let setup = Setup {
        image: small_image(alloc)?,
        config: small_config(alloc),
        flips: script(alloc)?,
    };
    let bus = Bus::new(alloc, &setup)?;
    let scrubber = Scrubber::new(&setup.config);
    Ok((bus, scrubber))
}

/// The scrubber makes its next turn.
fn scrub(rt: &impl Abort, scrubber: &mut Scrubber, bus: &mut Bus)
    requires between { bus.old.begun ≡ false }
    requires config { bus.old.setup.config ≡ scrubber.old.config }
    requires walk { scrubber.old.walk ≡ walk_after scrubber.old.config.scrub bus.old.transfers }
    ensures between { bus.new.begun ≡ false }
    ensures setup { bus.new.setup ≡ bus.old.setup }
    ensures config { scrubber.new.config ≡ scrubber.old.config }
    ensures walk { scrubber.new.walk ≡ walk_after scrubber.new.config.scrub bus.new.transfers }
{
    assert!(rt; scrubber.turns_left() > 0);
    scrubber.step(bus);
}

/// The core stores a word.
fn store(rt: &impl Abort, bus: &mut Bus, addr: u32, value: u32)
    requires between { bus.old.begun ≡ false }
    requires cores { bus.old.setup.config.cores ≡ 1 }
    requires ram { bus.old.setup.config.ram ≡ 64 }
    requires steps { bus.old.setup.config.steps ≡ 20 }
    requires text { bus.old.setup.image.text ≡ [] }
    ensures between { bus.new.begun ≡ false }
    ensures setup { bus.new.setup ≡ bus.old.setup }
    ensures walk { (range : Addresses) → walk_after range bus.new.transfers ≡ walk_after range bus.old.transfers }
{
    assert!(rt; addr >= 0x4000_0000 && addr < 0x4000_003c && addr % 4 == 0);
    assert!(rt; bus.log().len() < 20);
    let turn = bus.turn_start();
    assert!(rt; turn < 28);
    let waiting = Pending {
        value: u64::from(value),
        addr,
        k: 7,
        step: turn,
        len: 4,
    };
    let stored = bus.store(
        Who {
            master: 0,
            step: turn,
        },
        Why::Window,
        &waiting,
    );
    assert!(rt; stored.ok() == Some(0));
}

#[test]
fn a_store_between_look_and_fix(rt: HostRuntime) -> Result<(), Fail> {
    let (mut bus, mut scrubber) = small_bus(rt.alloc())?;
    // The look of turn 0 notes the word at 40000004. The store of turn 1 writes it, and the fix of turn 2 leaves it.
    scrub(&rt, &mut scrubber, &mut bus);
    store(&rt, &mut bus, 0x4000_0004, 0x5566_7788);
    scrub(&rt, &mut scrubber, &mut bus);
    // That of turn 3 notes the word at 40000024, which is bad at the fix of turn 4.
    scrub(&rt, &mut scrubber, &mut bus);
    scrub(&rt, &mut scrubber, &mut bus);
    // That of turn 5 notes the first word again, in which the fix of turn 6 corrects a check bit.
    scrub(&rt, &mut scrubber, &mut bus);
    scrub(&rt, &mut scrubber, &mut bus);
    assert!(rt; scrubber.turns_left() == 14);
    assert!(rt; bus.peek(0x4000_0004) == Some(0x5566_7788));
    assert!(rt; bus.peek(0x4000_0024).is_none());
    let record = bus.finish(&[]);
    assert!(rt; record.transfers.len() == 7);
    let fates = [
        Fate::Overwritten,
        Fate::Dormant,
        Fate::Dormant,
        Fate::Repaired,
    ];
    assert!(rt; record.fates.as_slice() == fates.as_slice());
    // The word at 40000024: a read of a word by the scrubber, not corrected.
    assert!(rt; (record.ahb_addr, record.ahb_status) == (0x4000_0024, 0x142));
    assert!(rt; record.log.len() == 1);
    let entry = record.log.at(0);
    assert!(rt; (entry.core, entry.k, entry.addr, entry.put) == (0, 7, 0x4000_0004, 0x5566_7788));
    Ok(())
}
