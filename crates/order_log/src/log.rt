ghost use Rattle.std.specs.Prelude.{◌≡◌, ◌<◌, ◌≤◌, ◌↔◌, ℕ, [], ◌∷◌, ◌++◌, false, length, take, All, IsTrue, IsNone, IfOk, slice_get, unwrap_or};
ghost use Rattle.lf_model.specs.Operation.{touches, byte_put};
ghost use Rattle.lf_model.specs.Value.{stored};
ghost use Rattle.order_log.specs.LogState.{IsLogEntry};

use lf_model::bus::Entry;
use std::alloc::{AllocError, Global};
use std::marker::Model;

/// One of the bytes that an entry puts into memory is at this address.
fn touches(entry: &Entry, addr: u32) -> bool
    ensures { result ≡ touches addr entry.now }
{
    entry.addr <= addr && addr - entry.addr < u32::from(entry.len)
}

/// The byte that an entry puts into memory at this address.
fn byte_put(entry: &Entry, addr: u32) -> u8
    requires touched { IsTrue (touches addr entry.now) }
    requires len { entry.now.len ≤ 8 }
    ensures { result ≡ byte_put addr entry.now }
{
    let after = u32::from(entry.len) - 1 - (addr - entry.addr);
    ((entry.put >> (8 * after)) % 256) as u8
}

/// The stores and atomics that reached memory, in the order in which they did (SPARC V8, chapter 6, memory model). Contracts
/// see it as the list of these entries, and how many it has room for in all.
#[derive(Drop)]
pub struct Log {
    entries: Vec<Entry>,
}

impl Model for Log {
    ghost use Rattle.order_log.specs.LogState.{LogState};

    ghost Value = { LogState };

    ghost use Rattle.order_log.specs.Inside.{seen, IsLog};

    ghost view = { seen };

    ghost invariant = { IsLog };
}

impl Log {
    /// A log with no entries, and the memory for all that it has room for.
    ///
    /// # Errors
    ///
    /// Memory ran out.
    pub fn new(alloc: Global, room: u32) -> Result<Log, AllocError>
        ensures empty { IfOk result (λ log. log ≡ record { entries = []; room = room }) }
    {
        Ok(Log {
            entries: Vec::with_capacity(alloc, room as usize)?,
        })
    }

    /// How many entries it has.
    pub fn len(&self) -> u32
        ensures length { result ≡ length self.now.entries }
        ensures within { result ≤ self.now.room }
    {
        self.entries.len() as u32
    }

    /// Puts an entry at the end, in the room that was reserved: a store or an atomic of 1, 2, 4 or 8 bytes at a multiple of
    /// its length.
    pub fn push(&mut self, e: Entry)
        requires room { length self.old.entries < self.old.room }
        requires entry { IsLogEntry e }
        ensures grown { self.new ≡ record self.old { entries = self.old.entries ++ e ∷ [] } }
    {
        self.entries.push_reserved(e);
    }

    /// Entry number `i`, from 0.
    pub fn at(&self, i: u32) -> Entry
        requires { i < length self.now.entries }
        ensures listed { slice_get self.now.entries i ≡ Some result }
        ensures entry { IsLogEntry result }
    {
        self.entries[i as usize]
    }

    /// The byte last stored at an address by the first `i` entries, if one of them stored it.
    pub fn byte_after(&self, i: u32, addr: u32) -> Option<u8>
        requires { i ≤ length self.now.entries }
        // Whatever the byte was before them.
        ensures byte { (before : ℕ) → stored addr (take i self.now.entries) before ≡ unwrap_or result before }
        ensures none { IsNone result ↔ All (λ e. touches addr e ≡ false) (take i self.now.entries) }
    {
        for place in (0..i as usize).rev() {
            let entry = &self.entries[place];
            if touches(entry, addr) {
                return Some(byte_put(entry, addr));
            }
        }
        None
    }
}
