ghost use Rattle.std.specs.Prelude.{◌≡◌, ◌+◌, ◌/◌, ◌<◌, ◌≤◌, ◌^◌, ◌%◌, ℕ, List, length, map, take, vec_len, vec_capacity, IfOk};
ghost use Rattle.std.specs.List.{AllByRecursion};
ghost use Rattle.lf_model.specs.Bus.Words.{words_struck};
ghost use Rattle.lf_model.specs.Start.{ram_first};
ghost use Rattle.replay_words.specs.Places.{place_in, with_address, addr_of, IsAimed, AreDistinct, IsAligned};
ghost use Rattle.replay_words.specs.Table.{IsWord, IsTable};

use lf_model::addresses::RAM_FIRST;
use lf_model::flip::Flip;
use std::alloc::{AllocError, Global};
use std::marker::Model;

/// Where each word that the script strikes stands among them. Contracts see their addresses, in order.
#[derive(Drop)]
pub(crate) struct Places {
    /// For each word of RAM one more than its place, or 0 where no flip is for it.
    table: Vec<u32>,
    addrs: Vec<u32>,
}

impl Model for Places {
    ghost use Rattle.std.specs.Prelude.{ℕ, List};

    ghost Value = { List ℕ };

    ghost use Rattle.replay_words.specs.Table.{IsTable};

    ghost view = { λ places. places.addrs.items };

    ghost invariant = { λ places. IsTable places.table.items places.addrs.items };
}

/// The place that the table has for the word at an address, if it has one.
fn place_at(table: &[u32], addr: u64) -> Option<usize>
    ensures { (addrs : List ℕ) → IsTable table.now addrs → result ≡ place_in addrs addr }
{
    let first = u64::from(RAM_FIRST);
    if addr < first {
        return None;
    }
    if addr % 4 != 0 {
        return None;
    }
    let word = ((addr - first) / 4) as usize;
    if word >= table.len() {
        return None;
    }
    match table[word] {
        0 => None,
        number => Some(number as usize - 1),
    }
}

/// Gives the word at an address a place, unless it has one.
fn add(table: &mut Vec<u32>, addrs: &mut Vec<u32>, addr: u32)
    requires table { IsTable table.old.items addrs.old.items }
    requires word { IsWord (length table.old.items) addr }
    requires few { vec_len addrs.old + 1 < 2 ^ 32 }
    requires room { vec_len addrs.old < vec_capacity addrs.old }
    ensures table { IsTable table.new.items addrs.new.items }
    ensures long { length table.new.items ≡ length table.old.items }
    ensures added { addrs.new.items ≡ with_address addrs.old.items addr }
    ensures reserved { vec_capacity addrs.new ≡ vec_capacity addrs.old }
    ensures most { vec_len addrs.new ≤ vec_len addrs.old + 1 }
{
    if place_at(table.as_slice(), u64::from(addr)).is_some() {
        return;
    }
    addrs.push_reserved(addr);
    table[((addr - RAM_FIRST) / 4) as usize] = addrs.len() as u32;
}

impl Places {
    /// The places of the words that a script strikes in RAM of so many bytes.
    ///
    /// # Errors
    ///
    /// Memory ran out.
    pub(crate) fn new(alloc: Global, ram: u32, flips: &[Flip]) -> Result<Places, AllocError>
        requires few { length flips.now < 2 ^ 32 }
        requires aimed { AllByRecursion (IsAimed ram) flips.now }
        ensures addresses { IfOk result (λ places. places ≡ map addr_of (words_struck flips.now)) }
        ensures distinct { IfOk result AreDistinct }
        ensures aligned { IfOk result (AllByRecursion IsAligned) }
    {
        let mut table = vec![in alloc; 0u32; (ram / 4) as usize]?;
        let mut addrs = Vec::with_capacity(alloc, flips.len())?;
        for i in 0..flips.len() {
            if let Flip::Mem { addr, .. } = flips[i] {
                add(&mut table, &mut addrs, addr);
            }
        }
        Ok(Places { table, addrs })
    }

    /// How many words there are.
    pub(crate) fn len(&self) -> usize
        ensures { result ≡ length self.now }
    {
        self.addrs.len()
    }

    /// The place of the word at an address, if a flip is for it.
    pub(crate) fn find(&self, addr: u64) -> Option<usize>
        ensures { result ≡ place_in self.now addr }
    {
        place_at(self.table.as_slice(), addr)
    }
}
