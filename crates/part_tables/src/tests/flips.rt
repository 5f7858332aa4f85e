ghost use Rattle.std.specs.Prelude.{◌≡◌, ◌<◌, length};

use super::expect;
use coded_words::{CodedWords, How};
use lf_model::trace::Fate;
use std::process::Abort;
use std::test::Fail;

/// What happens to a word.
#[derive(Clone, Copy)]
enum Event {
    Nothing,
    Written(How),
    /// An error trap names it.
    Named,
}

/// The bits of a word that flips 0, 1 and 2 of the script strike, what happens to the word then, and the flips' fates.
struct Row {
    bits: (Option<u8>, Option<u8>, Option<u8>),
    events: (Event, Event),
    fates: (Fate, Fate, Fate),
}

static ROWS: [Row; 12] = [
    // One flip, and what writes its word.
    Row {
        bits: (Some(0), None, None),
        events: (Event::Nothing, Event::Nothing),
        fates: (Fate::Dormant, Fate::Late, Fate::Late),
    },
    Row {
        bits: (Some(1), None, None),
        events: (Event::Written(How::Whole), Event::Nothing),
        fates: (Fate::Overwritten, Fate::Late, Fate::Late),
    },
    Row {
        bits: (Some(2), None, None),
        events: (Event::Written(How::ByPartStore), Event::Nothing),
        fates: (Fate::Repaired, Fate::Late, Fate::Late),
    },
    Row {
        bits: (Some(3), None, None),
        events: (Event::Written(How::ByAtomic), Event::Nothing),
        fates: (Fate::Repaired, Fate::Late, Fate::Late),
    },
    Row {
        bits: (Some(4), None, None),
        events: (Event::Written(How::ByFix), Event::Nothing),
        fates: (Fate::Repaired, Fate::Late, Fate::Late),
    },
    Row {
        bits: (Some(38), None, None),
        events: (Event::Written(How::ByReadBack), Event::Nothing),
        fates: (Fate::Repaired, Fate::Late, Fate::Late),
    },
    // The next write decides.
    Row {
        bits: (Some(6), None, None),
        events: (Event::Written(How::Whole), Event::Written(How::ByFix)),
        fates: (Fate::Overwritten, Fate::Late, Fate::Late),
    },
    // A stop stands before an overwrite, and behind a repair. It meets no flip that was written over before it.
    Row {
        bits: (Some(7), None, None),
        events: (Event::Named, Event::Written(How::Whole)),
        fates: (Fate::Stopped, Fate::Late, Fate::Late),
    },
    Row {
        bits: (Some(8), None, None),
        events: (Event::Named, Event::Written(How::ByFix)),
        fates: (Fate::Repaired, Fate::Late, Fate::Late),
    },
    Row {
        bits: (Some(9), None, None),
        events: (Event::Written(How::Whole), Event::Named),
        fates: (Fate::Overwritten, Fate::Late, Fate::Late),
    },
    // Two flips are applied, also of one bit; a third is declined.
    Row {
        bits: (Some(0), Some(1), Some(2)),
        events: (Event::Named, Event::Nothing),
        fates: (Fate::Stopped, Fate::Stopped, Fate::Declined),
    },
    Row {
        bits: (Some(5), Some(5), Some(5)),
        events: (Event::Written(How::Whole), Event::Nothing),
        fates: (Fate::Overwritten, Fate::Overwritten, Fate::Declined),
    },
];

/// A flip of the script strikes a bit of word 1, if it is one.
fn strike(rt: &impl Abort, words: &mut CodedWords, number: u32, bit: Option<u8>)
    requires words { length words.old.histories ≡ 2 }
    requires number { number < words.old.flips }
    ensures words { length words.new.histories ≡ 2 }
    ensures flips { words.new.flips ≡ words.old.flips }
    ensures past { words.new.past ≡ words.old.past }
{
    let Some(bit) = bit else { return };
    assert!(rt; bit < 39);
    let Fate::Late = words.fate(number) else {
        expect(rt, number, false);
        return;
    };
    words.flip(number, 1, bit);
}

/// Something happens to word 1.
fn happen(words: &mut CodedWords, event: Event)
    requires words { length words.old.histories ≡ 2 }
    ensures words { length words.new.histories ≡ 2 }
    ensures flips { words.new.flips ≡ words.old.flips }
{
    match event {
        Event::Nothing => {}
        Event::Written(how) => words.write(1, 0x77, how),
        Event::Named => words.name(1),
    }
}

#[test]
fn fates_of_flips(rt: HostRuntime) -> Result<(), Fail> {
    for row in &ROWS {
        let mut words = CodedWords::new(rt.alloc(), &[0x5a, 0x66], 3)?;
        strike(&rt, &mut words, 0, row.bits.0);
        strike(&rt, &mut words, 1, row.bits.1);
        strike(&rt, &mut words, 2, row.bits.2);
        happen(&mut words, row.events.0);
        happen(&mut words, row.events.1);
        let fates = (words.fate(0), words.fate(1), words.fate(2));
        expect(&rt, u32::from(row.bits.0.unwrap_or(39)), fates == row.fates);
    }
    Ok(())
}

#[test]
fn stop_as_an_earlier_turn_ended(rt: HostRuntime) -> Result<(), Fail> {
    let mut words = CodedWords::new(rt.alloc(), &[0x5a, 0x66], 2)?;
    strike(&rt, &mut words, 0, Some(3));
    words.end_turn();
    words.write(1, 0x77, How::Whole);
    strike(&rt, &mut words, 1, Some(4));
    words.name_in(1, 0);
    assert!(rt; words.fate(0) == Fate::Stopped);
    assert!(rt; words.fate(1) == Fate::Dormant);
    Ok(())
}
