ghost use Rattle.std.specs.Prelude.{◌≡◌, ℕ, ◌+◌, ◌%◌, ◌^◌, ◌<◌, true};
ghost use Rattle.ahb_bus.specs.Asks.{IsCoreTurn};
ghost use Rattle.ahb_bus.specs.BusOk.{BusOk};
ghost use Rattle.ahb_bus.specs.BusState.{memory_of};
ghost use Rattle.bus_memory.specs.MemoryState.{line_shown};
ghost use Rattle.lf_model.specs.Caches.Slot.{line_of};
ghost use Rattle.lf_model.specs.declared.bus.TurnKind.TheVariants.{Fetch, Load};
ghost use Rattle.lf_model.specs.declared.step.Turn.TheVariants as turns;
ghost use Rattle.parity_slots.specs.SlotState.{IsAccess};
ghost use Rattle.core_turns.specs.AskedTurn.{turn_answer};
ghost use Rattle.core_turns.specs.CanTurn.{CanFill};
ghost use Rattle.core_turns.specs.Filling.{fill_of, bus_filled, text_filled, data_filled, fetch_filled, load_filled};

use ahb_bus::{Bus, Who};
use core_parts::{Parts, Site, good_text_words, good_wanted, good_words};
use lf_model::bus::{Bad, Line, TurnKind, Why};
use lf_model::step::Did;
use parity_cache::ParityCache;

/// Fills a line of the fetch cache, at a multiple of 32 in RAM.
fn fill_text(
    cache: &mut ParityCache,
    site: &Site,
    bus: &mut Bus,
    who: Who,
    why: Why,
    line: u32,
) -> Line
    requires begun { bus.old.begun ≡ true }
    requires turn { IsCoreTurn who bus.old }
    requires ok { BusOk bus.old }
    requires fill { CanFill bus.old.setup Fetch why line cache.old.cache }
    requires aligned { line % 32 ≡ 0 }
    requires uses { cache.old.cache.uses + 1 < 2 ^ 32 }
    ensures line { result ≡ line_shown (memory_of bus.old) line }
    ensures filled { cache.new ≡ text_filled bus.old who why line site.now.image cache.old }
    ensures made { bus.new ≡ bus_filled bus.old who Fetch why line cache.old }
    ensures ok { BusOk bus.new }
{
    let way = cache.victim(line);
    let got = bus.fill(who, TurnKind::Fetch, why, line, way);
    let valid = good_text_words(&got, line, site);
    cache.fill(line, way, &got.words, valid);
    got
}

/// Fills a line of the data cache, at a multiple of 32 in RAM.
fn fill_data(cache: &mut ParityCache, bus: &mut Bus, who: Who, why: Why, line: u32) -> Line
    requires begun { bus.old.begun ≡ true }
    requires turn { IsCoreTurn who bus.old }
    requires ok { BusOk bus.old }
    requires fill { CanFill bus.old.setup Load why line cache.old.cache }
    requires aligned { line % 32 ≡ 0 }
    requires uses { cache.old.cache.uses + 1 < 2 ^ 32 }
    ensures line { result ≡ line_shown (memory_of bus.old) line }
    ensures filled { cache.new ≡ data_filled bus.old who why line cache.old }
    ensures made { bus.new ≡ bus_filled bus.old who Load why line cache.old }
    ensures ok { BusOk bus.new }
{
    let way = cache.victim(line);
    let got = bus.fill(who, TurnKind::Load, why, line, way);
    cache.fill(line, way, &got.words, good_words(&got));
    got
}

/// A fill of the fetch cache for the instruction at `pc`.
///
/// # Errors
///
/// The word at `pc` is bad.
pub fn fetch(pc: u32, who: Who, parts: &mut Parts, bus: &mut Bus, why: Why) -> Result<Did, Bad>
    requires begun { bus.old.begun ≡ true }
    requires turn { IsCoreTurn who bus.old }
    requires ok { BusOk bus.old }
    requires fill { CanFill bus.old.setup Fetch why (line_of pc) parts.old.arrays.fetch_cache.cache }
    requires access { IsAccess pc 4 }
    requires uses { parts.old.arrays.fetch_cache.cache.uses + 1 < 2 ^ 32 }
    ensures filled { parts.new ≡ fetch_filled bus.old who why pc parts.old }
    ensures made { bus.new ≡ bus_filled bus.old who Fetch why (line_of pc) parts.old.arrays.fetch_cache }
    ensures answer { result ≡ turn_answer pc (turns.Fetch (line_of pc) why) (fill_of bus.old who Fetch why (line_of pc) parts.old.arrays.fetch_cache) }
    ensures ok { BusOk bus.new }
    ensures address { pc < 2 ^ 32 }
{
    let line = pc - pc % 32;
    let got = fill_text(
        &mut parts.arrays.fetch_cache,
        &parts.site,
        bus,
        who,
        why,
        line,
    );
    good_wanted(&got, pc, 4)?;
    Ok(Did::Turned)
}

/// A fill of the data cache for a load of `len` bytes at `addr`.
///
/// # Errors
///
/// The lowest bad word of the one or two that the load wants.
pub fn load(
    who: Who,
    parts: &mut Parts,
    bus: &mut Bus,
    addr: u32,
    len: u8,
    why: Why,
) -> Result<Did, Bad>
    requires begun { bus.old.begun ≡ true }
    requires turn { IsCoreTurn who bus.old }
    requires ok { BusOk bus.old }
    requires fill { CanFill bus.old.setup Load why (line_of addr) parts.old.arrays.data_cache.cache }
    requires access { IsAccess addr len }
    requires uses { parts.old.arrays.data_cache.cache.uses + 1 < 2 ^ 32 }
    ensures filled { parts.new ≡ load_filled bus.old who why addr parts.old }
    ensures made { bus.new ≡ bus_filled bus.old who Load why (line_of addr) parts.old.arrays.data_cache }
    ensures answer { (pc : ℕ) → result ≡ turn_answer pc (turns.Load addr len why) (fill_of bus.old who Load why (line_of addr) parts.old.arrays.data_cache) }
    ensures ok { BusOk bus.new }
{
    let line = addr - addr % 32;
    let got = fill_data(&mut parts.arrays.data_cache, bus, who, why, line);
    good_wanted(&got, addr, len)?;
    Ok(Did::Turned)
}
