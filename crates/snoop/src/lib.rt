//! Snooping: a cache drops the lines that other cores stored to (GRLIB, LEON3FT, cache subsystem). A core catches up with the
//! order of memory before it uses its data cache again. No call takes memory.
#![tactic(auto)]

ghost use Rattle.std.specs.Prelude.{◌≡◌, ◌≤◌, ℕ, fold, map, drop, length};
ghost use Rattle.std.specs.List.{AllByRecursion};
ghost use Rattle.lf_model.specs.Caches.Change.{snooped};
ghost use Rattle.order_log.specs.LogState.{IsLogEntry};
ghost use Rattle.parity_cache.specs.CacheState.{with_cache, IsCleanSet};
ghost use Rattle.parity_cache.specs.Keeps.{Keeps};
ghost use Rattle.snoop.specs.Snooping.{address_of};

use order_log::Log;
use parity_cache::ParityCache;

/// Drops the lines that the entries of the log from `seen` on stored to, in the order of memory. Answers how many entries the
/// cache has seen then: all.
pub fn catch_up(cache: &mut ParityCache, log: &Log, seen: u32) -> u32
    requires { seen ≤ length log.now.entries }
    ensures seen { result ≡ length log.now.entries }
    ensures snooped { cache.new ≡ with_cache (fold snooped cache.old.cache (map address_of (drop seen log.now.entries))) cache.old }
    // What it snoops are stores and atomics at a multiple of their length, so that each lies in the line of its address.
    ensures entries { AllByRecursion IsLogEntry (drop seen log.now.entries) }
    ensures clean { (addr : ℕ) → IsCleanSet addr cache.old.cache → IsCleanSet addr cache.new.cache }
    ensures keeps { Keeps 0 cache.old cache.new }
{
    for i in seen..log.len() {
        cache.drop_line(log.at(i).addr);
    }
    log.len()
}
