ghost use Rattle.std.specs.Prelude.{◌≡◌};
ghost use Rattle.lf_model.specs.Start.{is_in_ram};
ghost use Rattle.lf_model.specs.Caches.Cache.{is_number_of_sets};
ghost use Rattle.run_texts.specs.Keys.{row, section_of, name_of, default_of};

use lf_model::addresses::{RAM_FIRST, is_in_ram};
use lf_model::config::Config;

/// The most steps of all cores together.
const MOST_STEPS: u64 = 4_000_000;

/// The sets that each way of a cache may have.
const SETS: [u32; 6] = [8, 16, 32, 64, 128, 256];

/// A key of a configuration, in the order in which their faults are told.
#[derive(Clone, Copy, Debug, PartialEq, Eq)]
pub enum Key {
    /// `machine.cores`: the number of cores.
    Cores,
    /// `machine.ram`: the bytes of RAM.
    Ram,
    /// `machine.steps`: the core steps that each core may make.
    Steps,
    /// `machine.window`: the local steps that a core makes at most between two turns on the bus.
    Window,
    /// `machine.buffer`: the stores that a core's store buffer holds at most.
    Buffer,
    /// `machine.watch`: the addresses of the words whose value is reported at the end.
    Watch,
    /// `icache.ways`: the ways of the instruction cache.
    FetchWays,
    /// `icache.sets`: the sets in each way of the instruction cache.
    FetchSets,
    /// `dcache.ways`: the ways of the data cache.
    LoadWays,
    /// `dcache.sets`: the sets in each way of the data cache.
    LoadSets,
    /// `scrub.first`: the first address that the scrubber walks.
    ScrubFirst,
    /// `scrub.length`: the bytes that the scrubber walks.
    ScrubLength,
    /// `scrub.turns`: the turns on the bus that the scrubber makes.
    ScrubTurns,
}

/// The kind of value that stands at a key.
#[derive(Clone, Copy)]
pub enum Kind {
    /// An integer.
    Integer {
        /// The value where the document has none.
        default: u32,
    },
    /// An array of integers, empty where the document has none.
    Integers {
        /// The most that there may be.
        most: usize,
    },
}

/// What the table of keys says of a key.
#[derive(Clone, Copy)]
struct Row {
    /// The section and the name in it, joined by a dot.
    path: &'static str,
    kind: Kind,
}

/// The row of a key whose value is an integer.
fn integer(path: &'static str, default: u32) -> Row
    ensures path { result.path.now ≡ path.entry.now }
    ensures kind { result.kind ≡ Kind.Integer default }
{
    Row {
        path,
        kind: Kind::Integer { default },
    }
}

/// Whether each way of a cache may have so many sets.
fn is_number_of_sets(number: u32) -> bool
    ensures { result ≡ is_number_of_sets number }
{
    SETS.contains(&number)
}

/// Whether so many bytes from the scrubber's first address on are in RAM.
fn is_scrubbed_in_ram(config: &Config, length: u32) -> bool
    ensures { result ≡ is_in_ram config.now.ram config.now.scrub.first length }
{
    let first = u64::from(config.scrub.first);
    let end = u64::from(RAM_FIRST) + u64::from(config.ram);
    u64::from(RAM_FIRST) <= first && first + u64::from(length) <= end
}

impl Key {
    /// All keys, in their order.
    pub const ALL: [Key; 13] = [
        Key::Cores,
        Key::Ram,
        Key::Steps,
        Key::Window,
        Key::Buffer,
        Key::Watch,
        Key::FetchWays,
        Key::FetchSets,
        Key::LoadWays,
        Key::LoadSets,
        Key::ScrubFirst,
        Key::ScrubLength,
        Key::ScrubTurns,
    ];

    /// What the table of keys says of this key.
    #[tactic(auto, unfolding(crate::specs::Keys::row))]
    fn row(self) -> Row
        ensures path { result.path.now ≡ (row self).path }
        ensures kind { result.kind ≡ (row self).kind }
    {
        match self {
            Key::Cores => integer("machine.cores", 1),
            Key::Ram => integer("machine.ram", 1_048_576),
            Key::Steps => integer("machine.steps", 100_000),
            Key::Window => integer("machine.window", 64),
            Key::Buffer => integer("machine.buffer", 4),
            Key::Watch => Row {
                path: "machine.watch",
                kind: Kind::Integers { most: 64 },
            },
            Key::FetchWays => integer("icache.ways", 1),
            Key::FetchSets => integer("icache.sets", 64),
            Key::LoadWays => integer("dcache.ways", 1),
            Key::LoadSets => integer("dcache.sets", 64),
            Key::ScrubFirst => integer("scrub.first", RAM_FIRST),
            Key::ScrubLength => integer("scrub.length", 32),
            Key::ScrubTurns => integer("scrub.turns", 0),
        }
    }

    /// Whether a number at this key is in range, where the keys before it have the values of this configuration.
    #[tactic(auto, unfolding(crate::specs::Keys::row))]
    pub(crate) fn is_in_range(self, number: u32, config: &Config) -> bool
        ensures { result ≡ (row self).is_in_range config.now number }
    {
        match self {
            Key::Cores => (1..=8).contains(&number),
            Key::Ram => number % 65_536 == 0 && (65_536..=16_777_216).contains(&number),
            Key::Steps => 0 < number && u64::from(config.cores) * u64::from(number) <= MOST_STEPS,
            Key::Window => (1..=1_024).contains(&number),
            Key::Buffer => (1..=8).contains(&number),
            Key::Watch => number % 4 == 0 && is_in_ram(config.ram, number, 4),
            Key::FetchWays | Key::LoadWays => (1..=4).contains(&number),
            Key::FetchSets | Key::LoadSets => is_number_of_sets(number),
            Key::ScrubFirst => number % 32 == 0 && is_in_ram(config.ram, number, 32),
            Key::ScrubLength => number % 32 == 0
                && 0 < number
                && is_scrubbed_in_ram(config, number),
            Key::ScrubTurns => (0..=1_000_000).contains(&number),
        }
    }

    /// The name of the key as its faults are told, as `machine.cores`.
    pub fn name(self) -> &'static str
        ensures { result.now ≡ (row self).path }
    {
        self.row().path
    }

    /// The kind of value that stands at this key.
    pub(crate) fn kind(self) -> Kind
        ensures { result ≡ (row self).kind }
    {
        self.row().kind
    }

    /// The default of a key whose value is an integer.
    pub(crate) fn default(self) -> u32
        ensures { result ≡ default_of (row self).kind }
    {
        match self.kind() {
            Kind::Integer { default } => default,
            Kind::Integers { .. } => 0,
        }
    }

    /// The section of the key, and its name in it.
    pub(crate) fn place(self) -> (&'static str, &'static str)
        ensures section { result.0.now ≡ section_of self }
        ensures name { result.1.now ≡ name_of self }
    {
        let path = self.name();
        path.split_once('.').unwrap_or((path, ""))
    }
}
