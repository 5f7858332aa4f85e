ghost use Rattle.std.specs.Prelude.{◌≡◌, ◌/◌, ◌==◌, ◌&&◌, ◌++◌, ◌^◌, ◌<◌, [], length, MatchOption};
ghost use Rattle.lf_model.specs.Records.BusMemory.{is_turn, names_word};
ghost use Rattle.bus_memory.specs.Names.{names_of, IsNewName, NamesNothing};
ghost use Rattle.bus_memory.specs.Named.{IsNamed};

use ft_memory::Memory;
use lf_model::addresses::is_in_ram;
use lf_model::bus::Transfer;
use lf_model::flip::Flips;
use lf_model::trace::{Word2, Words2};
use std::snapshot::Snapshot;

/// A word of RAM that an error trap names, and the turn in which the trap came.
#[derive(Clone, Copy)]
struct Name {
    addr: u32,
    turn: u32,
}

/// The name is of this word and turn.
fn is_of(name: &Word2, addr: u32, turn: u32) -> bool
    ensures { result ≡ (name.now.addr == addr && is_turn turn name.now.value) }
{
    name.addr == addr && name.value == Some(turn)
}

/// One of these names is of this word and turn.
fn has_name(names: &[Word2], addr: u32, turn: u32) -> bool
    ensures { result ≡ names_word names.now turn addr }
{
    names.iter().any(|name| is_of(name, addr, turn))
}

/// One of the names of these cores is.
fn some_has_name(cores: &[Words2], addr: u32, turn: u32) -> bool
    ensures { result ≡ names_word (names_of cores.now) turn addr }
{
    for names in cores {
        if has_name(names.as_slice(), addr, turn) {
            return true;
        }
    }
    false
}

/// The name of a word of RAM, of `ram` bytes, and of one of the first `turns` turns, unless it is one of those of earlier cores or
/// of the earlier ones of its own.
fn new_name(name: Word2, cores: &[Words2], own: &[Word2], ram: u32, turns: u32) -> Option<Name>
    ensures { MatchOption result (NamesNothing (ram / 4) turns (names_of cores.now ++ own.now) name) (λ n. IsNewName (ram / 4) turns (names_of cores.now ++ own.now) name n.addr n.turn) }
{
    let Word2 { addr, value } = name;
    let turn = value?;
    if turn >= turns || addr % 4 != 0 || !is_in_ram(ram, addr, 4) {
        return None;
    }
    if some_has_name(cores, addr, turn) || has_name(own, addr, turn) {
        return None;
    }
    Some(Name { addr, turn })
}

/// Error traps named these words of a core, beside those of the cores before it.
fn name_words(
    memory: &mut Memory,
    ram: u32,
    script: &Snapshot<Flips>,
    transfers: &[Transfer],
    cores: &[Words2],
    own: &[Word2],
)
    requires few { length transfers.now < 2 ^ 32 }
    requires named { IsNamed script.now.value transfers.now (ram / 4) (names_of cores.now) memory.old }
    ensures { IsNamed script.now.value transfers.now (ram / 4) (names_of cores.now ++ own.now) memory.new }
{
    let turns = transfers.len() as u32;
    for (k, name) in own.iter().enumerate() {
        if let Some(name) = new_name(*name, cores, &own[..k], ram, turns) {
            memory.name_in(name.addr, name.turn);
        }
    }
}

/// Error traps named these words of all cores.
pub fn name_all(
    memory: &mut Memory,
    ram: u32,
    script: &Snapshot<Flips>,
    transfers: &[Transfer],
    named: &[Words2],
)
    requires few { length transfers.now < 2 ^ 32 }
    requires named { IsNamed script.now.value transfers.now (ram / 4) [] memory.old }
    ensures { IsNamed script.now.value transfers.now (ram / 4) (names_of named.now) memory.new }
{
    for (core, names) in named.iter().enumerate() {
        name_words(
            memory,
            ram,
            script,
            transfers,
            &named[..core],
            names.as_slice(),
        );
    }
}
