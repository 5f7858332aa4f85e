ghost use Rattle.std.specs.Prelude.{◌≡◌, ◌<◌, ◌≤◌, true, false};
ghost use Rattle.lf_model.specs.declared.flip.Flip.TheVariants.{Tag, Line};
ghost use Rattle.run_texts.specs.declared.flip_line.FlipKind.TheVariants.{MemoryWord, RegisterCell};
ghost use Rattle.run_texts.specs.Text.{fields};
ghost use Rattle.run_texts.specs.Columns.{word_of_ram};
ghost use Rattle.run_texts.specs.FlipLine.{kind_of};
ghost use Rattle.run_texts.specs.Keys.{IsOfTable};
ghost use Rattle.run_texts.specs.Answer.{IsFlipOrFault, IsBitOrFault};
ghost use Rattle.run_texts.specs.Grammar.{IsLineAnswer};
ghost use Rattle.run_texts.specs.Script.{flip_lines, IsFlipBehind};

use crate::error::TextWhy;
use crate::fields::{Fields, is_comment};
use crate::numbers::{decimal, hexadecimal};
use lf_model::addresses::is_in_ram;
use lf_model::config::{Config, Shape};
use lf_model::flip::Flip;

/// The most flips that a script may have.
const MOST_FLIPS: usize = 65_536;

/// The register cells of a core.
const REGISTER_CELLS: u64 = 136;

/// The bits of the cell of a memory word or a register: 32 of data and 7 check bits.
const CELL_BITS: u64 = 39;

/// The bytes of the tag of a line in a cache, and those of the line.
const TAG_BYTES: u64 = 4;

const LINE_BYTES: u64 = 32;

/// The bits of a byte of a cache: 8 of data and their parity.
const BYTE_BITS: u64 = 9;

/// What a line of script strikes.
#[derive(Clone, Copy)]
pub enum FlipKind {
    /// A word of memory: `mem TURN ADDR BIT`.
    MemoryWord,
    /// A register cell of a core: `reg CORE STEP CELL BIT`.
    RegisterCell,
    /// A tag byte of the instruction cache of a core: `itag CORE STEP WAY SET BYTE BIT`.
    InstructionTag,
    /// A tag byte of the data cache of a core: `dtag CORE STEP WAY SET BYTE BIT`.
    DataTag,
    /// A line byte of the instruction cache of a core: `idat CORE STEP WAY SET BYTE BIT`.
    InstructionLine,
    /// A line byte of the data cache of a core: `ddat CORE STEP WAY SET BYTE BIT`.
    DataLine,
}

/// A bit of a cache of a core, and the step of the core at which it is struck.
#[derive(Clone, Copy)]
pub struct CacheBit {
    core: u32,
    step: u32,
    way: u8,
    set: u16,
    byte: u8,
    bit: u8,
}

impl CacheBit {
    /// The flip of this bit of the tags of a cache, the instruction cache where `fetch`.
    fn of_tag(self, fetch: bool) -> Flip
        ensures { result ≡ Tag self.core self.step fetch self.way self.set self.byte self.bit }
    {
        Flip::Tag {
            core: self.core,
            step: self.step,
            fetch,
            way: self.way,
            set: self.set,
            byte: self.byte,
            bit: self.bit,
        }
    }

    /// The flip of this bit of the lines of a cache, the instruction cache where `fetch`.
    fn of_line(self, fetch: bool) -> Flip
        ensures { result ≡ Line self.core self.step fetch self.way self.set self.byte self.bit }
    {
        Flip::Line {
            core: self.core,
            step: self.step,
            fetch,
            way: self.way,
            set: self.set,
            byte: self.byte,
            bit: self.bit,
        }
    }
}

impl FlipKind {
    /// The kind that the first field of a line names.
    #[tactic(auto, unfolding(crate::specs::FlipLine::kind_of))]
    fn from_word(word: &[u8]) -> Option<FlipKind>
        ensures { result ≡ kind_of word.now }
    {
        match word {
            b"mem" => Some(FlipKind::MemoryWord),
            b"reg" => Some(FlipKind::RegisterCell),
            b"itag" => Some(FlipKind::InstructionTag),
            b"dtag" => Some(FlipKind::DataTag),
            b"idat" => Some(FlipKind::InstructionLine),
            b"ddat" => Some(FlipKind::DataLine),
            _ => None,
        }
    }

    /// The flip of this kind that the fields behind the first one spell, or else their first fault.
    fn flip(self, fields: Fields, config: &Config) -> Result<Flip, TextWhy>
        requires of_table { IsOfTable config.now }
        ensures { IsFlipOrFault config.now self fields.entry result }
    {
        match self {
            FlipKind::MemoryWord => memory_flip(fields, config),
            FlipKind::RegisterCell => register_flip(fields, config),
            FlipKind::InstructionTag => {
                let bit = cache_bit(fields, config, config.fetch_cache, TAG_BYTES)?;
                Ok(bit.of_tag(true))
            }
            FlipKind::DataTag => {
                let bit = cache_bit(fields, config, config.load_cache, TAG_BYTES)?;
                Ok(bit.of_tag(false))
            }
            FlipKind::InstructionLine => {
                let bit = cache_bit(fields, config, config.fetch_cache, LINE_BYTES)?;
                Ok(bit.of_line(true))
            }
            FlipKind::DataLine => {
                let bit = cache_bit(fields, config, config.load_cache, LINE_BYTES)?;
                Ok(bit.of_line(false))
            }
        }
    }
}

/// Whether a word of RAM of `ram` bytes stands at this address.
fn is_word_of_ram(ram: u32, addr: u32) -> bool
    ensures { result ≡ (word_of_ram ram).is_in_range addr }
{
    addr % 4 == 0 && is_in_ram(ram, addr, 4)
}

/// The flip of a memory word that the fields behind `mem` spell, or else their first fault.
fn memory_flip(mut fields: Fields, config: &Config) -> Result<Flip, TextWhy>
    ensures { IsFlipOrFault config.now MemoryWord fields.entry result }
{
    let turn = fields.next().ok_or(TextWhy::Count)?;
    let addr = fields.next().ok_or(TextWhy::Count)?;
    let bit = fields.next().ok_or(TextWhy::Count)?;
    if fields.next().is_some() {
        return Err(TextWhy::Count);
    }
    let turn = decimal(turn).ok_or(TextWhy::Number)?;
    let addr = hexadecimal(addr).ok_or(TextWhy::Number)?;
    let bit = decimal(bit).ok_or(TextWhy::Number)?;
    if turn > u64::from(u32::MAX) || !is_word_of_ram(config.ram, addr) || bit >= CELL_BITS {
        return Err(TextWhy::Range);
    }
    Ok(Flip::Mem {
        turn: turn as u32,
        addr,
        bit: bit as u8,
    })
}

/// The flip of a register cell that the fields behind `reg` spell, or else their first fault.
fn register_flip(mut fields: Fields, config: &Config) -> Result<Flip, TextWhy>
    ensures { IsFlipOrFault config.now RegisterCell fields.entry result }
{
    let core = fields.next().ok_or(TextWhy::Count)?;
    let step = fields.next().ok_or(TextWhy::Count)?;
    let cell = fields.next().ok_or(TextWhy::Count)?;
    let bit = fields.next().ok_or(TextWhy::Count)?;
    if fields.next().is_some() {
        return Err(TextWhy::Count);
    }
    let core = decimal(core).ok_or(TextWhy::Number)?;
    let step = decimal(step).ok_or(TextWhy::Number)?;
    let cell = decimal(cell).ok_or(TextWhy::Number)?;
    let bit = decimal(bit).ok_or(TextWhy::Number)?;
    if core >= u64::from(config.cores)
        || step >= u64::from(config.steps)
        || cell >= REGISTER_CELLS
        || bit >= CELL_BITS
    {
        return Err(TextWhy::Range);
    }
    Ok(Flip::Reg {
        core: core as u32,
        step: step as u32,
        cell: cell as u8,
        bit: bit as u8,
    })
}

/// The bit of a cache of this shape, in a slot of so many bytes, that the fields behind the first one spell, or else their
/// first fault.
fn cache_bit(
    mut fields: Fields,
    config: &Config,
    shape: Shape,
    bytes: u64,
) -> Result<CacheBit, TextWhy>
    requires few_ways { shape.ways < 256 }
    requires few_sets { shape.sets < 65536 }
    requires few_bytes { bytes ≤ 256 }
    ensures { IsBitOrFault config.now shape bytes fields.entry result }
{
    let core = fields.next().ok_or(TextWhy::Count)?;
    let step = fields.next().ok_or(TextWhy::Count)?;
    let way = fields.next().ok_or(TextWhy::Count)?;
    let set = fields.next().ok_or(TextWhy::Count)?;
    let byte = fields.next().ok_or(TextWhy::Count)?;
    let bit = fields.next().ok_or(TextWhy::Count)?;
    if fields.next().is_some() {
        return Err(TextWhy::Count);
    }
    let core = decimal(core).ok_or(TextWhy::Number)?;
    let step = decimal(step).ok_or(TextWhy::Number)?;
    let way = decimal(way).ok_or(TextWhy::Number)?;
    let set = decimal(set).ok_or(TextWhy::Number)?;
    let byte = decimal(byte).ok_or(TextWhy::Number)?;
    let bit = decimal(bit).ok_or(TextWhy::Number)?;
    let is_of_core = core < u64::from(config.cores) && step < u64::from(config.steps);
    let is_of_cache = way < u64::from(shape.ways) && set < u64::from(shape.sets);
    if !is_of_core || !is_of_cache || byte >= bytes || bit >= BYTE_BITS {
        return Err(TextWhy::Range);
    }
    Ok(CacheBit {
        core: core as u32,
        step: step as u32,
        way: way as u8,
        set: set as u16,
        byte: byte as u8,
        bit: bit as u8,
    })
}

/// The flip that a line spells behind `earlier` flips, `None` where the line is empty or a comment, or else its first
/// fault.
#[tactic(auto, unfolding(crate::specs::FlipLine::fault_of, crate::specs::FlipLine::flip_of))]
pub fn read_flip(line: &[u8], earlier: usize, config: &Config) -> Result<Option<Flip>, TextWhy>
    requires of_table { IsOfTable config.now }
    ensures { IsLineAnswer (flip_lines config.now) (IsFlipBehind config.now) earlier (fields line.now) result }
{
    let mut fields = Fields::new(line);
    let Some(first) = fields.next() else {
        return Ok(None);
    };
    if is_comment(first) {
        return Ok(None);
    }
    let kind = FlipKind::from_word(first).ok_or(TextWhy::Word)?;
    if earlier >= MOST_FLIPS {
        return Err(TextWhy::Many);
    }
    let flip = kind.flip(fields, config)?;
    Ok(Some(flip))
}
