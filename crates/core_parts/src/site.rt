ghost use Rattle.std.specs.Prelude.{◌≡◌, IfOk};
ghost use Rattle.lf_model.specs.Start.{is_text_word, touches_text, is_in_ram};

use lf_model::addresses;
use lf_model::setup::Setup;
use std::alloc::{AllocError, Global};
use std::marker::Model;
use std::snapshot::Snapshot;
use text_map::TextMap;

/// Where a core runs: the text of its image, and the bytes of RAM. Contracts see it as the setup of the run.
#[derive(Drop)]
pub struct Site {
    text: TextMap,
    ram: u32,
    setup: Snapshot<Setup>,
}

impl Model for Site {
    ghost use Rattle.lf_model.specs.declared.setup.Setup.{Setup};

    ghost Value = { Setup };

    ghost use Rattle.core_parts.specs.SiteInside.{setup_of, IsSite};

    ghost view = { setup_of };

    ghost invariant = { IsSite };
}

impl Site {
    /// The site of the cores of a setup.
    ///
    /// # Errors
    ///
    /// Memory ran out.
    pub fn new(alloc: Global, s: &Setup) -> Result<Site, AllocError>
        ensures setup { IfOk result (λ site. site ≡ s.now) }
    {
        Ok(Site {
            text: TextMap::new(alloc, &s.image.text)?,
            ram: s.config.ram,
            setup: Snapshot::of(s),
        })
    }

    /// The word at this address, a multiple of 4, is text: all its four bytes are.
    pub fn is_text_word(&self, addr: u32) -> bool
        ensures { result ≡ is_text_word self.now.image.text addr }
    {
        self.text.is_text_word(addr)
    }

    /// One of the `len` bytes from this address on is text.
    pub fn touches_text(&self, addr: u32, len: u8) -> bool
        ensures touches { result ≡ touches_text self.now.image.text addr len }
    {
        self.text.touches_text(addr, len)
    }

    /// All the `len` bytes from this address on are in RAM.
    pub fn is_in_ram(&self, addr: u32, len: u8) -> bool
        ensures within { result ≡ is_in_ram self.now.config.ram addr len }
    {
        addresses::is_in_ram(self.ram, addr, len)
    }
}
