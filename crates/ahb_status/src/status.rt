ghost use Rattle.std.specs.Prelude.{◌≡◌, ◌<◌, ◌==◌, if◌then◌else◌};
ghost use Rattle.lf_model.specs.Bus.Status.{status_start};
ghost use Rattle.ahb_status.specs.Note.{hsize, note_with, first_of};

use crate::note::Note;
use crate::size::Size;
use std::marker::Model;

/// The registers AHBSTAT. Contracts see them as the failing address and the status word.
#[derive(Drop)]
pub struct Status {
    first: Option<Note>,
}

impl Model for Status {
    ghost use Rattle.lf_model.specs.Bus.Status.{AhbStatus};

    ghost Value = { AhbStatus };

    ghost use Rattle.ahb_status.specs.Seen.{seen};

    ghost view = { seen };
}

impl Status {
    /// The registers as at reset: both are 0.
    pub fn new() -> Status
        ensures { result ≡ status_start }
    {
        Status { first: None }
    }

    /// Notes a word that was read not clean, unless one is noted already (NE is 1): its address, the size of the access, the
    /// master (the core's number, or 8 for the scrubber), whether the access was a write, and whether the word was corrected.
    pub fn note(&mut self, addr: u32, size: Size, master: u32, write: bool, fixable: bool)
        requires { master < 9 }
        ensures { self.new ≡ first_of self.old (note_with addr (hsize size) master write fixable) }
    {
        if self.first.is_none() {
            self.first = Some(Note {
                addr,
                size,
                master,
                write,
                fixable,
            });
        }
    }

    /// Sets both registers to 0 if they name the word at this address: the scrubber read it again, and it was clean or corrected.
    pub fn cleared(&mut self, addr: u32)
        ensures { self.new ≡ (if self.old.addr == addr then status_start else self.old) }
    {
        if self.first.is_some_and(|note| note.addr == addr) {
            self.first = None;
        }
    }

    /// The failing address and the status word: HSIZE in bits 2:0, HMASTER 6:3, HWRITE 7, NE 8, CE 9.
    pub fn read(&self) -> (u32, u32)
        ensures address { result.0 ≡ self.now.addr }
        ensures status { result.1 ≡ self.now.status }
    {
        match &self.first {
            Some(note) => (note.addr, note.status()),
            None => (0, 0),
        }
    }
}
