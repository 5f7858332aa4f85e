ghost use Rattle.std.specs.Prelude.{◌≡◌, ◌<◌, ◌≤◌, length, map, option_map};
ghost use Rattle.std.specs.List.{AllByRecursion};
ghost use Rattle.lf_model.specs.Bus.Words.{write_of, words_after};
ghost use Rattle.lf_model.specs.Caches.Slot.{history_at};
ghost use Rattle.lf_model.specs.Flips.{word_budget};
ghost use Rattle.replay_units.specs.Ways.{how_of};
ghost use Rattle.replay_words.specs.Places.{words_of, AreDistinct, IsAligned};
ghost use Rattle.replay_words.specs.Writing.{written_at, named_at, after_writes, KeepsStruck, AreWordUnits};

use crate::places::Places;
use crate::touched::touched;
use lf_model::bus::{Transfer, TurnKind};
use replay_units::{How, Units};

/// How a transfer writes a word that it touches, if it does: a store of words whole, a part store and an atomic unless the word is
/// bad, a fix where the word is fixed.
fn how_written(units: &Units, place: usize, made: &Transfer) -> Option<How>
    requires words { units.now.budget ≡ word_budget }
    requires place { place < length units.now.histories }
    ensures { option_map how_of result ≡ write_of made.now.len (history_at place units.now.histories) made.now.kind }
{
    match made.kind {
        TurnKind::Store => {
            if made.len >= 4 {
                Some(How::Whole)
            } else if units.is_bad(place) {
                None
            } else {
                Some(How::ByPartStore)
            }
        }
        TurnKind::Atomic => {
            if units.is_bad(place) {
                None
            } else {
                Some(How::ByAtomic)
            }
        }
        TurnKind::Fix => {
            if units.is_fixed(place) {
                Some(How::ByFix)
            } else {
                None
            }
        }
        TurnKind::Fetch | TurnKind::Load | TurnKind::Snoop | TurnKind::Look => None,
    }
}

/// A transfer writes the word at an address, which it touches.
fn write_at(units: &mut Units, places: &Places, addr: u64, made: &Transfer)
    requires units { AreWordUnits places.now units.old }
    requires distinct { AreDistinct places.now }
    ensures words { words_of places.now units.new.histories ≡ map (written_at made.now addr) (words_of places.now units.old.histories) }
    ensures keeps { KeepsStruck units.old units.new }
{
    if let Some(place) = places.find(addr) {
        if let Some(how) = how_written(units, place, made) {
            units.write(place, how);
        }
    }
}

/// A transfer writes the words that it touches.
pub(crate) fn write_touched(units: &mut Units, places: &Places, made: &Transfer)
    requires units { AreWordUnits places.now units.old }
    requires distinct { AreDistinct places.now }
    requires aligned { AllByRecursion IsAligned places.now }
    ensures words { words_of places.now units.new.histories ≡ map (after_writes made.now) (words_of places.now units.old.histories) }
    ensures keeps { KeepsStruck units.old units.new }
{
    let span = touched(made);
    for i in 0..span.count {
        write_at(
            units,
            places,
            u64::from(span.first) + 4 * u64::from(i),
            made,
        );
    }
}

/// An error trap names the word at an address.
pub(crate) fn name_at(units: &mut Units, places: &Places, addr: u32)
    requires units { AreWordUnits places.now units.old }
    requires distinct { AreDistinct places.now }
    ensures words { words_of places.now units.new.histories ≡ map (named_at addr) (words_of places.now units.old.histories) }
    ensures keeps { KeepsStruck units.old units.new }
{
    if let Some(place) = places.find(u64::from(addr)) {
        units.name(place);
    }
}
