ghost use Rattle.std.specs.Prelude.{◌≡◌, ◌<◌, ◌≤◌, ◌+◌, ◌^◌, ℕ, vec_len, slice_index, IfOk, Some, None, if◌then◌else◌};
ghost use Rattle.lf_model.specs.Start.{ram_first, initial_byte, is_text_word, touches_text, word_at, IsLoadable};

use lf_model::addresses::RAM_FIRST;
use lf_model::setup::Setup;
use ram_words::{initial_bytes, word_at};
use std::alloc::{AllocError, Global};
use text_map::TextMap;

/// The program of a setup, laid out so that each fetch is a search of its text and one read.
#[derive(Drop)]
pub struct Program<'a> {
    pub setup: &'a Setup,
    text: TextMap,
    /// RAM at the start. Text is write-protected, so its words stay these.
    bytes: Vec<u8>,
    ghost text_is: { text ≡ setup.now.image.text },
    ghost loads: { IsLoadable setup.now.config.ram setup.now.image },
    ghost size: { vec_len bytes ≡ setup.now.config.ram },
    ghost small: { setup.now.config.ram ≤ 16777216 },
    ghost bytes_are: { (k : ℕ) → k < setup.now.config.ram → slice_index bytes.items k ≡ initial_byte setup.now.image (ram_first + k) },
}

impl<'a> Program<'a> {
    /// The program of a setup, whose image can be loaded into its RAM.
    ///
    /// # Errors
    ///
    /// Memory ran out.
    pub fn new(alloc: Global, setup: &'a Setup) -> Result<Program<'a>, AllocError>
        requires loads { IsLoadable setup.now.config.ram setup.now.image }
        requires small { setup.now.config.ram ≤ 16777216 }
        ensures setup { IfOk result (λ program. program.setup.now ≡ setup.entry.now) }
    {
        let text = TextMap::new(alloc, &setup.image.text)?;
        let bytes = initial_bytes(alloc, setup.config.ram, &setup.image)?;
        Ok(Program { setup, text, bytes })
    }

    /// The word at an address, where it is a text word.
    pub fn fetch(&self, pc: u32) -> Option<u32>
        ensures word { result ≡ (if is_text_word self.now.setup.now.image.text pc then Some (word_at self.now.setup.now.image pc) else None) }
    {
        if self.text.is_text_word(pc) {
            Some(word_at(&self.bytes, (pc - RAM_FIRST) as usize))
        } else {
            None
        }
    }

    /// One of these bytes is a text byte.
    pub fn touches_text(&self, addr: u32, len: u8) -> bool
        ensures touches { result ≡ touches_text self.now.setup.now.image.text addr len }
    {
        self.text.touches_text(addr, len)
    }
}
