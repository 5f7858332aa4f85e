ghost use Rattle.std.specs.Prelude.{◌≡◌, ◌%◌, ◌^◌, ◌*◌, ◌<◌, ◌||◌, ◌==◌, ◌++◌, [], ◌∷◌, true, false, length, IsTrue, if◌then◌else◌};
ghost use Rattle.order_log.specs.LogState.{IsLogEntry};
ghost use Rattle.bus_memory.specs.MemoryState.{store_answer, read_answer};
ghost use Rattle.lf_model.specs.Bus.Words.{word_of};
ghost use Rattle.lf_model.specs.Promise.Regular.{is_length};
ghost use Rattle.lf_model.specs.declared.bus.TurnKind.TheVariants.{Store};
ghost use Rattle.lf_model.specs.Start.{is_in_ram, touches_text};
ghost use Rattle.ahb_bus.specs.Asks.{IsCoreTurn, HasEntryLeft, IsCauseOf};
ghost use Rattle.ahb_bus.specs.BusOk.{BusOk};
ghost use Rattle.ahb_bus.specs.BusState.{memory_of, store_entry, atomic_entry, part_of, word_of_answer, stored_by, exchanged_by};

use crate::bus::Bus;
use crate::noting::{note_atomic, note_store};
use crate::record::Who;
use crate::transfer::asked;
use bus_memory::Got;
use lf_model::bus::{Bad, Entry, OpKind, Pending, Transfer, TurnKind, Why};
use order_log::Log;

/// The entry of a store.
fn entry_of_store(w: Who, p: &Pending) -> Entry
    ensures { result ≡ store_entry w p.now }
{
    Entry {
        got: 0,
        put: p.value,
        core: w.master,
        k: p.k,
        addr: p.addr,
        kind: OpKind::Store,
        len: p.len,
    }
}

/// The entry of an atomic, which read this word.
fn entry_of_atomic(w: Who, p: &Pending, word: u32) -> Entry
    requires length { IsTrue (p.now.len == 1 || p.now.len == 4) }
    requires aligned { p.now.addr % p.now.len ≡ 0 }
    ensures { result ≡ atomic_entry w p.now word }
{
    Entry {
        got: part_of(word, p.addr, p.len),
        put: p.value,
        core: w.master,
        k: p.k,
        addr: p.addr,
        kind: OpKind::Atomic,
        len: p.len,
    }
}

/// The byte of a word at an address, or the word.
fn part_of(word: u32, addr: u32, len: u8) -> u64
    requires length { IsTrue (len == 1 || len == 4) }
    requires aligned { addr % len ≡ 0 }
    ensures { result ≡ part_of word addr len }
{
    if len == 4 {
        return u64::from(word);
    }
    u64::from(word.to_be_bytes()[(addr % 4) as usize])
}

/// Puts an entry into the log, if its turn reached memory.
fn enter(log: &mut Log, entry: Entry, reached: bool)
    requires room { length log.old.entries < log.old.room }
    requires entry { IsLogEntry entry }
    ensures { log.new ≡ record log.old { entries = log.old.entries ++ (if reached then entry ∷ [] else []) } }
{
    if reached {
        log.push(entry);
    }
}

impl Bus {
    /// Makes the turn's transfer the store of `p`: of 1, 2, 4 or 8 bytes, at a multiple of their number in RAM. Whole words are
    /// written without a read. A byte or half is merged into its word, which is read and corrected first. The turn ends.
    ///
    /// # Errors
    ///
    /// The store is of a byte or half, and its word is bad: two different bits of it are flipped. Memory and log are as before.
    pub fn store(&mut self, w: Who, why: Why, p: &Pending) -> Result<u8, Bad>
        requires begun { self.old.begun ≡ true }
        requires turn { IsCoreTurn w self.old }
        requires entry { HasEntryLeft w self.old }
        requires cause { IsCauseOf Store why }
        requires length { is_length p.now.len ≡ true }
        requires in_ram { IsTrue (is_in_ram (self.old.setup.config.ram) p.now.addr p.now.len) }
        requires aligned { p.now.addr % p.now.len ≡ 0 }
        requires value { p.now.value < 2 ^ (8 * p.now.len) }
        requires text { touches_text self.old.setup.image.text p.now.addr p.now.len ≡ false }
        ensures answer { result ≡ store_answer (memory_of self.old) p.now.addr p.now.len }
        ensures made { self.new ≡ stored_by w why p.now self.old }
        ensures ok { BusOk self.new }
    {
        let made = Transfer {
            len: p.len,
            ..asked(self.memory.turns(), w, TurnKind::Store, why, p.addr)
        };
        let answer = self.memory.store(made, p.value);
        note_store(&mut self.status, &made, &answer);
        enter(&mut self.log, entry_of_store(w, p), answer.is_ok());
        answer
    }

    /// Makes the turn's transfer an atomic: the word that `p.addr` lies in is read and corrected, and gets the number of `p` in its
    /// place, a byte (LDSTUB) or the whole word (SWAP), in one turn. Gives the word that was read, and its syndrome. The turn ends.
    ///
    /// # Errors
    ///
    /// The word is bad: two different bits of it are flipped. Memory and log are as before.
    pub fn atomic(&mut self, w: Who, p: &Pending) -> Result<Got, Bad>
        requires begun { self.old.begun ≡ true }
        requires turn { IsCoreTurn w self.old }
        requires entry { HasEntryLeft w self.old }
        requires length { IsTrue (p.now.len == 1 || p.now.len == 4) }
        requires in_ram { IsTrue (is_in_ram (self.old.setup.config.ram) p.now.addr p.now.len) }
        requires aligned { p.now.addr % p.now.len ≡ 0 }
        requires value { p.now.value < 2 ^ (8 * p.now.len) }
        requires text { touches_text self.old.setup.image.text p.now.addr p.now.len ≡ false }
        ensures answer { result ≡ read_answer (memory_of self.old) (word_of p.now.addr) }
        ensures made { self.new ≡ exchanged_by w p.now self.old }
        ensures ok { BusOk self.new }
    {
        let made = Transfer {
            len: p.len,
            ..asked(self.memory.turns(), w, TurnKind::Atomic, Why::None, p.addr)
        };
        let answer = self.memory.exchange(made, p.value as u32);
        note_atomic(&mut self.status, &made, &answer);
        let word = word_read(&answer);
        enter(&mut self.log, entry_of_atomic(w, p, word), answer.is_ok());
        answer
    }
}

/// The word that an atomic read, 0 where it was bad.
fn word_read(answer: &Result<Got, Bad>) -> u32
    ensures { result ≡ word_of_answer answer.now }
{
    match answer {
        Ok(got) => got.value,
        Err(_) => 0,
    }
}
