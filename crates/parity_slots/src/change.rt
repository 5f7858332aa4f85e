ghost use Rattle.lf_model.specs.Caches.Slot.{dropped};
ghost use Rattle.parity_slots.specs.SlotState.{empty_state, tags_checked, bytes_checked, with_slot, filled_state, byte_stored, tag_struck, line_struck, used_at};

use ghost_value::{Change, Shown};
use std::marker::Model;

/// What contracts see of a `Ghost<State>`: a slot, and the bytes of its line. No value of this type is made.
#[derive(Drop)]
pub(crate) struct State;

impl Model for State {
    ghost use Rattle.parity_slots.specs.SlotState.{SlotState, empty_state};

    ghost Value = { SlotState };

    ghost view = { λ _. empty_state };
}

/// A slot at reset.
#[derive(Drop)]
pub(crate) struct Empty;

impl Shown<State> for Empty {
    ghost shown = { λ _. empty_state };
}

/// The tag bytes are checked.
#[derive(Drop)]
pub(crate) struct TagsChecked;

impl Change<State> for TagsChecked {
    ghost after = { λ _ s. with_slot tags_checked s };
}

/// The bytes of the words that an access wants are checked.
#[derive(Drop)]
pub(crate) struct BytesChecked {
    pub(crate) addr: u32,
    pub(crate) len: u8,
}

impl Change<State> for BytesChecked {
    ghost after = { λ check s. with_slot (bytes_checked check.addr check.len) s };
}

/// The line is dropped.
#[derive(Drop)]
pub(crate) struct Dropped;

impl Change<State> for Dropped {
    ghost after = { λ _ s. with_slot dropped s };
}

/// A line is filled in.
#[derive(Drop)]
pub(crate) struct Filled<'a> {
    pub(crate) addr: u32,
    pub(crate) valid: u8,
    pub(crate) words: &'a [u32],
}

impl<'a> Change<State> for Filled<'a> {
    ghost after = { λ fill s. filled_state fill.addr fill.valid fill.words.now s };
}

/// A byte of the line is written.
#[derive(Drop)]
pub(crate) struct ByteStored {
    pub(crate) place: usize,
    pub(crate) byte: u8,
}

impl Change<State> for ByteStored {
    ghost after = { λ store s. byte_stored store.place store.byte s };
}

/// A flip of the script strikes a tag byte.
#[derive(Drop)]
pub(crate) struct TagStruck {
    pub(crate) place: usize,
    pub(crate) number: u32,
    pub(crate) bit: u8,
}

impl Change<State> for TagStruck {
    ghost after = { λ flip s. tag_struck flip.place flip.number flip.bit s };
}

/// A flip of the script strikes a byte of the line.
#[derive(Drop)]
pub(crate) struct LineStruck {
    pub(crate) place: usize,
    pub(crate) number: u32,
    pub(crate) bit: u8,
}

impl Change<State> for LineStruck {
    ghost after = { λ flip s. line_struck flip.place flip.number flip.bit s };
}

/// The slot is used.
#[derive(Drop)]
pub(crate) struct Used {
    pub(crate) at: u32,
}

impl Change<State> for Used {
    ghost after = { λ used s. used_at used.at s };
}
