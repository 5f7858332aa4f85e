ghost use Rattle.std.specs.Prelude.{◌≡◌, ◌+◌, ◌*◌, ◌/◌, ◌%◌, ◌^◌, ◌<◌, ◌≤◌, ◌==◌, ◌||◌, ◌∷◌, ◌++◌, [], true, false, length, IsTrue, IfOk, slice_set};
ghost use Rattle.std.specs.List.{AllByRecursion};
ghost use Rattle.lf_model.specs.Promise.Regular.{is_length};
ghost use Rattle.lf_model.specs.Start.{is_in_ram};
ghost use Rattle.lf_model.specs.Bus.Words.{word_of};
ghost use Rattle.lf_model.specs.Ledger.FlipFate.{flip_fates};
ghost use Rattle.lf_model.specs.Records.BusMemory.{memory_after};
ghost use Rattle.lf_model.specs.Records.BusRecord.{no_arrays};
ghost use Rattle.lf_model.specs.declared.bus.TurnKind.TheVariants.{Store, Atomic, Snoop, Fix};
ghost use Rattle.ram_words.specs.Parts.{is_part};
ghost use Rattle.ram_words.specs.Ram.{IsInRam, first_words, place_of};
ghost use Rattle.bus_memory.specs.MemoryState.{ram_of, line_shown, value_shown, read_answer, store_answer, fix_answer, reads_line, made, merged_in, stored};
ghost use Rattle.bus_memory.specs.Names.{names_of};
ghost use Rattle.bus_memory.specs.Strikes.{AimsAt};

use crate::names::name_all;
use crate::record::{MemoryRecord, note_fates};
use crate::strike::strike_due;
use crate::transfer::{
    end_turn, syndrome_met, syndrome_of, syndrome_read, with_line, with_none, with_word,
};
use flip_ledger::{FlipPlan, Owner};
use ft_memory::Memory;
use lf_model::bus::{Bad, Line, Transfer};
use lf_model::flip::Flips;
use lf_model::listed::Listed;
use lf_model::setup::Setup;
use lf_model::trace::{Fate, Words2};
use ram_words::{Fixed, Got};
use std::alloc::{AllocError, Global};
use std::marker::Model;
use std::snapshot::Snapshot;

/// Coded RAM over the transfers on the bus.
///
/// A turn begins with `begin`: its flips of the script strike. Then one call makes its transfer, which ends the turn. A word
/// reads as it was last written until two bits of it are flipped; then it is bad, until a store of words writes it.
#[derive(Drop)]
pub struct BusMemory {
    memory: Memory,
    /// The flips that are still to come.
    plan: FlipPlan,
    transfers: Vec<Transfer>,
    /// A turn is begun.
    begun: bool,
    /// The bytes of RAM.
    ram: u32,
    /// Of each flip of the script its fate, late until the record is made.
    fates: Vec<Fate>,
    /// The script, for contracts alone.
    script: Snapshot<Flips>,
}

impl Model for BusMemory {
    ghost use Rattle.bus_memory.specs.MemoryState.{MemoryState};

    ghost Value = { MemoryState };

    ghost use Rattle.bus_memory.specs.Inside.{seen, IsBusMemory};

    ghost view = { seen };

    ghost invariant = { IsBusMemory };
}

impl BusMemory {
    /// RAM of a setup as its image has it, before the first turn, with room for so many transfers.
    ///
    /// # Errors
    ///
    /// Memory ran out.
    pub fn new(alloc: Global, setup: &Setup, room: u32) -> Result<BusMemory, AllocError>
        requires segments { IsInRam setup.now.config.ram setup.now.image }
        requires flips { length setup.now.flips < 2 ^ 32 }
        requires aims { AllByRecursion (AimsAt (setup.now.config.ram / 4)) setup.now.flips }
        ensures { IfOk result (λ m. m ≡ record { script = setup.now.flips; transfers = []; begun = false; values = first_words setup.now.config.ram setup.now.image; room = room }) }
    {
        let flips = setup.flips.len() as u32;
        let memory = Memory::new(alloc, setup.config.ram, &setup.image, flips)?;
        let plan = FlipPlan::new(alloc, setup.flips.as_slice(), Owner::Memory)?;
        let transfers = Vec::with_capacity(alloc, room as usize)?;
        let fates = vec![in alloc; Fate::Late; flips as usize]?;
        Ok(BusMemory {
            memory,
            plan,
            transfers,
            begun: false,
            ram: setup.config.ram,
            fates,
            script: Snapshot::of(&setup.flips),
        })
    }

    /// How many transfers were made.
    pub fn turns(&self) -> u32
        ensures { result ≡ length self.now.transfers }
    {
        self.transfers.len() as u32
    }

    /// A turn begins: the flips of its number strike memory, in the order of the script.
    pub fn begin(&mut self)
        requires { self.old.begun ≡ false }
        ensures { self.new ≡ record self.old { begun = true } }
    {
        let turn = self.transfers.len() as u32;
        strike_due(&mut self.memory, &mut self.plan, &self.script, turn);
        self.begun = true;
    }

    /// The turn's transfer reads a line, at a multiple of 32 in RAM: a fill of a cache, or a look of the scrubber.
    pub fn read_line(&mut self, asked: Transfer) -> Line
        requires begun { self.old.begun ≡ true }
        requires room { length self.old.transfers < self.old.room }
        requires kind { reads_line asked.kind ≡ true }
        requires in_ram { IsTrue (is_in_ram (ram_of self.old) asked.addr 32) }
        requires aligned { asked.addr % 32 ≡ 0 }
        ensures line { result ≡ line_shown self.old asked.addr }
        ensures made { self.new ≡ made asked self.old }
    {
        let line = self.memory.read_line(asked.addr);
        end_turn(
            &mut self.memory,
            &mut self.transfers,
            with_line(asked, &line),
        );
        self.begun = false;
        line
    }

    /// The turn's transfer is a snoop, which reads and writes nothing.
    pub fn snoop(&mut self, asked: Transfer)
        requires begun { self.old.begun ≡ true }
        requires room { length self.old.transfers < self.old.room }
        requires kind { asked.kind ≡ Snoop }
        ensures { self.new ≡ made asked self.old }
    {
        end_turn(&mut self.memory, &mut self.transfers, with_none(asked));
        self.begun = false;
    }

    /// The turn's transfer is a store of a number of 1, 2, 4 or 8 bytes, at a multiple of their number in RAM. Whole words are
    /// written without a read. A byte or half is merged into its word, which is read and corrected first. Gives the syndrome that
    /// was read, 0 where no word was.
    ///
    /// # Errors
    ///
    /// The store is of a byte or half, and its word is bad: two different bits of it are flipped. Nothing is written.
    pub fn store(&mut self, asked: Transfer, value: u64) -> Result<u8, Bad>
        requires begun { self.old.begun ≡ true }
        requires room { length self.old.transfers < self.old.room }
        requires kind { asked.kind ≡ Store }
        requires length { is_length asked.len ≡ true }
        requires in_ram { IsTrue (is_in_ram (ram_of self.old) asked.addr asked.len) }
        requires aligned { asked.addr % asked.len ≡ 0 }
        requires value { value < 2 ^ (8 * asked.len) }
        ensures answer { result ≡ store_answer self.old asked.addr asked.len }
        ensures made { self.new ≡ made asked (stored asked.addr asked.len value self.old) }
    {
        if asked.len < 4 {
            return self.store_part(asked, value as u32);
        }
        if asked.len == 4 {
            self.store_word(asked, value as u32);
        } else {
            self.store_double(asked, value);
        }
        Ok(0)
    }

    /// A store of a byte or half.
    fn store_part(&mut self, asked: Transfer, value: u32) -> Result<u8, Bad>
        requires begun { self.old.begun ≡ true }
        requires room { length self.old.transfers < self.old.room }
        requires kind { asked.kind ≡ Store }
        requires part { IsTrue (is_part asked.len) }
        requires in_ram { IsTrue (is_in_ram (ram_of self.old) asked.addr asked.len) }
        requires aligned { asked.addr % asked.len ≡ 0 }
        ensures answer { result ≡ store_answer self.old asked.addr asked.len }
        ensures made { self.new ≡ made asked (merged_in asked.addr asked.len value self.old) }
    {
        let answer = self.memory.write_part(asked.addr, asked.len, value);
        let syn = syndrome_of(&answer);
        end_turn(&mut self.memory, &mut self.transfers, with_word(asked, syn));
        self.begun = false;
        answer
    }

    /// A store of a word.
    fn store_word(&mut self, asked: Transfer, value: u32)
        requires begun { self.old.begun ≡ true }
        requires room { length self.old.transfers < self.old.room }
        requires kind { asked.kind ≡ Store }
        requires length { asked.len ≡ 4 }
        requires in_ram { IsTrue (is_in_ram (ram_of self.old) asked.addr 4) }
        requires aligned { asked.addr % 4 ≡ 0 }
        ensures { self.new ≡ made asked (record self.old { values = slice_set self.old.values (place_of asked.addr) value }) }
    {
        self.memory.write_word(asked.addr, value);
        end_turn(&mut self.memory, &mut self.transfers, with_none(asked));
        self.begun = false;
    }

    /// A store of two words, the higher half first.
    fn store_double(&mut self, asked: Transfer, value: u64)
        requires begun { self.old.begun ≡ true }
        requires room { length self.old.transfers < self.old.room }
        requires kind { asked.kind ≡ Store }
        requires length { asked.len ≡ 8 }
        requires in_ram { IsTrue (is_in_ram (ram_of self.old) asked.addr 8) }
        requires aligned { asked.addr % 8 ≡ 0 }
        ensures { self.new ≡ made asked (record self.old { values = slice_set (slice_set self.old.values (place_of asked.addr) (value / 2 ^ 32)) (place_of (asked.addr + 4)) (value % 2 ^ 32) }) }
    {
        self.memory.write_word(asked.addr, (value >> 32) as u32);
        self.memory
            .write_word(asked.addr + 4, (value % (1 << 32)) as u32);
        end_turn(&mut self.memory, &mut self.transfers, with_none(asked));
        self.begun = false;
    }

    /// The turn's transfer is an atomic, in one turn: it reads the word that its address lies in, and writes a byte of it (LDSTUB)
    /// or all of it (SWAP). Gives the word that was read, and its syndrome.
    ///
    /// # Errors
    ///
    /// The word is bad: two different bits of it are flipped. Nothing is written.
    pub fn exchange(&mut self, asked: Transfer, value: u32) -> Result<Got, Bad>
        requires begun { self.old.begun ≡ true }
        requires room { length self.old.transfers < self.old.room }
        requires kind { asked.kind ≡ Atomic }
        requires length { IsTrue (asked.len == 1 || asked.len == 4) }
        requires in_ram { IsTrue (is_in_ram (ram_of self.old) asked.addr asked.len) }
        requires aligned { asked.addr % asked.len ≡ 0 }
        ensures answer { result ≡ read_answer self.old (word_of asked.addr) }
        ensures made { self.new ≡ made asked (merged_in asked.addr asked.len value self.old) }
    {
        let answer = self.memory.exchange(asked.addr, asked.len, value);
        let syn = syndrome_read(&answer);
        end_turn(&mut self.memory, &mut self.transfers, with_word(asked, syn));
        self.begun = false;
        answer
    }

    /// The turn's transfer is a fix: it reads the word at its address, a multiple of 4 in RAM, once, and writes it back where it
    /// can be corrected. No word's value changes.
    pub fn fix(&mut self, asked: Transfer) -> Fixed
        requires begun { self.old.begun ≡ true }
        requires room { length self.old.transfers < self.old.room }
        requires kind { asked.kind ≡ Fix }
        requires in_ram { IsTrue (is_in_ram (ram_of self.old) asked.addr 4) }
        requires aligned { asked.addr % 4 ≡ 0 }
        ensures answer { result ≡ fix_answer self.old asked.addr }
        ensures made { self.new ≡ made asked self.old }
    {
        let answer = self.memory.fix(asked.addr);
        let syn = syndrome_met(answer);
        end_turn(&mut self.memory, &mut self.transfers, with_word(asked, syn));
        self.begun = false;
        answer
    }

    /// The value of the word at an address of RAM, a multiple of 4; `None` exactly where it is bad.
    pub fn peek(&self, addr: u32) -> Option<u32>
        requires in_ram { IsTrue (is_in_ram (ram_of self.now) addr 4) }
        requires aligned { addr % 4 ≡ 0 }
        ensures { result ≡ value_shown self.now addr }
    {
        self.memory.peek(addr)
    }

    /// The record after the last turn. `named` has for each core the words that its stop names, each with the number of its
    /// transfer: a flip that stood in such a word as that turn ended is stopped. A name of any other word or turn changes nothing.
    pub fn finish(self, named: &[Words2]) -> MemoryRecord
        requires { self.begun ≡ false }
        ensures transfers { result.transfers ≡ self.transfers }
        ensures answered { (memory_after self.script (names_of named.now) self.transfers).answers ≡ self.transfers }
        ensures fates { result.fates ≡ flip_fates self.script (memory_after self.script (names_of named.now) self.transfers).words no_arrays }
    {
        let BusMemory {
            mut memory,
            transfers,
            ram,
            mut fates,
            script,
            ..
        } = self;
        name_all(&mut memory, ram, &script, transfers.as_slice(), named);
        note_fates(&mut fates, &memory, &script, transfers.as_slice());
        MemoryRecord {
            transfers: Listed::from_vec(transfers),
            fates: Listed::from_vec(fates),
        }
    }
}
