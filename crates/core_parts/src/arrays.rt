ghost use Rattle.std.specs.Prelude.{◌≡◌, IfOk};
ghost use Rattle.core_parts.specs.Reset.{reset_registers};
ghost use Rattle.lf_model.specs.Caches.Cache.{IsCacheShape};
ghost use Rattle.parity_cache.specs.CacheState.{reset_cache};

use ft_regfile::{CELL_COUNT, RegFile};
use lf_model::config::Config;
use parity_cache::ParityCache;
use std::alloc::{AllocError, Global};
use v8_windows::cell;

/// The register that holds the core's number at reset: %o0.
const OUT_0: u8 = 8;

/// The arrays of a core that flips strike: its register cells and its two caches.
#[derive(Drop)]
pub struct Arrays {
    pub registers: RegFile,
    pub fetch_cache: ParityCache,
    pub data_cache: ParityCache,
}

impl Arrays {
    /// The arrays of core number `core` at reset, for a script of so many flips.
    ///
    /// # Errors
    ///
    /// Memory ran out.
    pub fn new(alloc: Global, core: u32, config: &Config, flips: u32) -> Result<Arrays, AllocError>
        requires fetch_cache { IsCacheShape config.now.fetch_cache }
        requires data_cache { IsCacheShape config.now.load_cache }
        ensures registers { IfOk result (λ a. a.registers ≡ reset_registers core flips) }
        ensures fetch_cache { IfOk result (λ a. a.fetch_cache ≡ reset_cache config.now.fetch_cache flips) }
        ensures data_cache { IfOk result (λ a. a.data_cache ≡ reset_cache config.now.load_cache flips) }
    {
        let mut values = [0; CELL_COUNT];
        values[cell(0, OUT_0)] = core;
        Ok(Arrays {
            registers: RegFile::with_values(alloc, &values, flips)?,
            fetch_cache: ParityCache::new(alloc, config.fetch_cache, flips)?,
            data_cache: ParityCache::new(alloc, config.load_cache, flips)?,
        })
    }
}
