ghost use Rattle.std.specs.Prelude.{◌≡◌, ◌↔◌, ◌<◌, ◌≤◌, ◌+◌, map, slice_index, IsTrue, IfSome};
ghost use Rattle.lf_model.specs.Bus.Status.{status_start, status_after, status_by, cleared, noted, note_of, first_unclean, size_by_length, size_noted, is_noted};
ghost use Rattle.lf_model.specs.Course.Syndromes.{syndromes_of};
ghost use Rattle.lf_model.specs.Ledger.Account.{final_reported};
ghost use Rattle.ledger_audit.specs.Account.{transfer_of};

use crate::given::TurnGiven;
use crate::syndromes::{is_bad, syndrome_of};
use lf_model::bus::{Transfer, TurnKind};
use lf_model::trace::Trace;
use std::marker::Model;

/// The weight of the lowest bit of HMASTER in the status word, bits 6:3.
const HMASTER: u64 = 1 << 3;
/// The access was a write.
const HWRITE: u64 = 1 << 7;
/// New error: one was noted.
const NE: u64 = 1 << 8;
/// Correctable error.
const CE: u64 = 1 << 9;

/// The registers AHBSTAT (GRLIB, AHBSTAT). They have 64 bits here, since what a wrong transfer leaves may not fit 32.
#[derive(Drop)]
struct Registers {
    /// The failing address.
    addr: u64,
    /// The status word.
    status: u64,
}

impl Model for Registers {
    ghost use Rattle.lf_model.specs.Bus.Status.{AhbStatus};

    ghost Value = { AhbStatus };

    ghost view = { λ registers. record { addr = registers.addr; status = registers.status } };
}

/// The first word, of those that a transfer read, that was not clean.
fn first_unclean(transfer: &Transfer) -> Option<u8>
    ensures found { result ≡ first_unclean transfer.now }
    ensures within { IfSome result (λ place. place < transfer.now.words) }
{
    for place in 0..transfer.words {
        if syndrome_of(transfer, place) != 0 {
            return Some(place);
        }
    }
    None
}

/// HSIZE of an access to so many bytes: 0 for a byte, 1 for a half, 2 for more.
fn size_by_length(len: u8) -> u64
    ensures { result ≡ size_by_length len }
{
    match len {
        1 => 0,
        2 => 1,
        _ => 2,
    }
}

/// HSIZE of a transfer.
fn size_noted(transfer: &Transfer) -> u64
    ensures size { result ≡ size_noted transfer.now.len transfer.now.kind }
    ensures most { result ≤ 2 }
{
    match transfer.kind {
        TurnKind::Store | TurnKind::Atomic => size_by_length(transfer.len),
        _ => 2,
    }
}

/// The registers with the note of a word that a transfer read not clean.
fn note_of(transfer: &Transfer, place: u8) -> Registers
    requires within { place < transfer.now.words }
    ensures { result ≡ note_of transfer.now place }
{
    let write = matches!(transfer.kind, TurnKind::Store);
    let fixed = !is_bad(syndrome_of(transfer, place));
    let access = size_noted(transfer)
        + HMASTER * u64::from(transfer.master)
        + HWRITE * u64::from(write);
    let addr = u64::from(transfer.addr);
    Registers {
        addr: addr - addr % 4 + 4 * u64::from(place),
        status: access + NE + CE * u64::from(fixed),
    }
}

/// The syndrome of the first word that a transfer read, 0 if it read none.
fn first_syndrome(transfer: &Transfer) -> u8
    ensures { result ≡ slice_index (syndromes_of transfer.now) 0 }
{
    if transfer.words == 0 {
        0
    } else {
        syndrome_of(transfer, 0)
    }
}

impl Registers {
    /// As at reset.
    fn new() -> Registers
        ensures { result ≡ status_start }
    {
        Registers { addr: 0, status: 0 }
    }

    /// An error was noted, and not yet cleared.
    fn is_noted(&self) -> bool
        ensures { result ≡ is_noted self.now }
    {
        (self.status >> 8) % 2 == 1
    }

    /// With the note of a transfer's first word that is not clean, if it has one and none is noted.
    fn noted(self, transfer: &Transfer) -> Registers
        ensures { result ≡ noted self transfer.now (first_unclean transfer.now) }
    {
        if self.is_noted() {
            return self;
        }
        match first_unclean(transfer) {
            Some(place) => note_of(transfer, place),
            None => self,
        }
    }

    /// Cleared by a fix that read its word clean or fixed, if they name that word.
    fn cleared(self, transfer: &Transfer) -> Registers
        ensures { result ≡ cleared self transfer.now }
    {
        let fixed = matches!(transfer.kind, TurnKind::Fix) && !is_bad(first_syndrome(transfer));
        if fixed && self.addr == u64::from(transfer.addr) {
            Registers::new()
        } else {
            self
        }
    }

    /// After a transfer.
    fn after(self, transfer: &Transfer) -> Registers
        ensures { result ≡ status_by self transfer.now }
    {
        self.noted(transfer).cleared(transfer)
    }
}

/// The registers after some transfers.
fn registers_after(turns: &[TurnGiven]) -> Registers
    ensures { result ≡ status_after (map transfer_of turns.now) }
{
    let mut registers = Registers::new();
    for turn in turns {
        registers = registers.after(&turn.transfer);
    }
    registers
}

/// The trace reports AHBSTAT as these transfers leave it: the first word that was read not clean since a fix cleared it. They have the
/// lengths of their stores and atomics, by which HSIZE is known.
pub(crate) fn has_status(trace: &Trace, turns: &[TurnGiven]) -> bool
    ensures { IsTrue result ↔ status_after (map transfer_of turns.now) ≡ (final_reported trace.now).ahb }
{
    let registers = registers_after(turns);
    registers.addr == u64::from(trace.ahb_addr) && registers.status == u64::from(trace.ahb_status)
}
