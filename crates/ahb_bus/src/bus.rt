ghost use Rattle.std.specs.Prelude.{◌≡◌, ◌+◌, ◌%◌, ◌/◌, ◌^◌, ◌<◌, ◌≤◌, ℕ, [], true, false, length, IsTrue, IfOk, slice_index};
ghost use Rattle.std.specs.List.{AllByRecursion};
ghost use Rattle.bus_memory.specs.MemoryState.{value_shown};
ghost use Rattle.bus_memory.specs.Strikes.{AimsAt};
ghost use Rattle.lf_model.specs.Start.{is_in_ram};
ghost use Rattle.ram_words.specs.Ram.{IsInRam, first_words};
ghost use Rattle.lf_model.specs.Bus.Status.{status_start};
ghost use Rattle.ahb_bus.specs.BusOk.{BusOk, HasBytes};
ghost use Rattle.ahb_bus.specs.BusState.{most_transfers, most_entries, memory_of};

use ahb_status::Status;
use bus_memory::BusMemory;
use lf_model::config::Config;
use lf_model::image::Image;
use lf_model::setup::Setup;
use order_log::Log;
use std::alloc::{AllocError, Global};
use std::marker::Model;
use std::snapshot::Snapshot;

/// The AHB bus with the memory behind it.
#[derive(Drop)]
pub struct Bus {
    pub(crate) memory: BusMemory,
    pub(crate) log: Log,
    pub(crate) status: Status,
    /// The setup, for contracts alone.
    pub(crate) setup: Snapshot<Setup>,
}

impl Model for Bus {
    ghost use Rattle.ahb_bus.specs.BusState.{BusState};

    ghost Value = { BusState };

    ghost use Rattle.ahb_bus.specs.Inside.{seen, IsBus};

    ghost view = { seen };

    ghost invariant = { IsBus };
}

/// The transfers that all masters may make.
fn most_transfers_of(config: &Config) -> u32
    requires steps { config.now.steps + 8 < 2 ^ 32 }
    requires room { most_transfers config.now < 2 ^ 32 }
    ensures { result ≡ most_transfers config.now }
{
    config.cores * (config.steps + 8) + config.scrub_turns
}

/// The stores and atomics that all cores may make.
fn most_entries_of(config: &Config) -> u32
    requires { most_entries config.now < 2 ^ 32 }
    ensures { result ≡ most_entries config.now }
{
    config.cores * config.steps
}

/// For contracts alone: the items of a list of bytes are bytes.
fn are_bytes(_bytes: &[u8])
    ensures { (k : ℕ) → slice_index _bytes.now k < 2 ^ 8 }
{}

/// For contracts alone: the bytes of an image are bytes.
fn has_bytes(image: &Image)
    ensures { HasBytes image.now }
{
    for segment in image.segments.as_slice() {
        are_bytes(segment.bytes.as_slice());
    }
}

impl Bus {
    /// The bus of a setup before its first turn, with RAM as its image has it. All records are reserved.
    ///
    /// # Errors
    ///
    /// Memory ran out.
    pub fn new(alloc: Global, s: &Setup) -> Result<Bus, AllocError>
        requires ram { s.now.config.ram % 4 ≡ 0 }
        requires segments { IsInRam s.now.config.ram s.now.image }
        requires flips { length s.now.flips < 2 ^ 32 }
        requires aims { AllByRecursion (AimsAt (s.now.config.ram / 4)) s.now.flips }
        requires cores { s.now.config.cores ≤ 8 }
        requires steps { s.now.config.steps + 8 < 2 ^ 32 }
        requires room { most_transfers s.now.config < 2 ^ 32 }
        requires log_room { most_entries s.now.config < 2 ^ 32 }
        ensures made { IfOk result (λ bus. bus ≡ record { setup = s.now; log = []; transfers = []; begun = false; values = first_words s.now.config.ram s.now.image; status = status_start }) }
        ensures ok { IfOk result BusOk }
    {
        has_bytes(&s.image);
        let memory = BusMemory::new(alloc, s, most_transfers_of(&s.config))?;
        let log = Log::new(alloc, most_entries_of(&s.config))?;
        Ok(Bus {
            memory,
            log,
            status: Status::new(),
            setup: Snapshot::of(s),
        })
    }

    /// A turn begins: the flips of its number strike memory, in the order of the script. Gives its number.
    pub fn turn_start(&mut self) -> u32
        requires { self.old.begun ≡ false }
        ensures number { result ≡ length self.old.transfers }
        ensures begun { self.new ≡ record self.old { begun = true } }
        ensures ok { BusOk self.new }
    {
        self.memory.begin();
        self.memory.turns()
    }

    /// The stores and atomics that reached memory.
    pub fn log(&self) -> &Log
        ensures entries { result.now.entries ≡ self.now.log }
        ensures ok { BusOk self.now }
    {
        &self.log
    }

    /// The value of the word at an address of RAM, a multiple of 4; `None` exactly where it is bad.
    pub fn peek(&self, addr: u32) -> Option<u32>
        requires in_ram { IsTrue (is_in_ram (self.now.setup.config.ram) addr 4) }
        requires aligned { addr % 4 ≡ 0 }
        ensures { result ≡ value_shown (memory_of self.now) addr }
    {
        self.memory.peek(addr)
    }
}
