ghost use Rattle.std.specs.Prelude.{◌≡◌, ℕ, ◌+◌, ◌*◌, ◌^◌, ◌<◌, ◌≤◌, ◌++◌, ◌∷◌, [], slice_set, is_ok, is_err, false};
ghost use Rattle.lf_model.specs.Start.{is_in_ram, touches_text};
ghost use Rattle.lf_model.specs.Step.{reading, after_look, after_store};
ghost use Rattle.lf_model.specs.declared.touch.Touch.TheVariants.{ReadCell, WriteCell, LookData, FlushCaches};
ghost use Rattle.v8_exec.specs.Reading.{FitsLook, IsAccess};
ghost use Rattle.v8_exec.specs.Calls.{after_push, spent_by_look, spent_by_store};

use lf_model::step::{Full, Look, RegBad};

/// The parts of a core that an instruction works on: its register cells, data cache, store buffer and output,
/// and what its addresses mean. None of these calls takes memory.
///
/// Each call says which touch it made of the state of the arrays, and so leaves all other parts of it as they were.
pub trait Ports {
    ghost use Rattle.std.specs.Prelude.{ℕ};
    ghost use Rattle.lf_model.specs.Step.{Seen, Parts};
    ghost use Rattle.lf_model.specs.declared.touch.Touch.{Touch};

    /// The state of the arrays: register cells and caches with what flips left in them, and the stores that wait.
    ghost State: { Type 0 };

    /// The state of the arrays of these ports.
    ghost state: { Self → State };

    /// The state after a touch.
    ghost touch: { State → Touch → State };

    /// What the parts answer in a state.
    ghost answers: { State → Parts };

    /// What the core shows an instruction.
    ghost seen: { Self → Seen };

    /// How many more operations and bytes of output can be recorded.
    ghost room: { Self → ℕ };

    /// Reads a register cell. One that reads bad is answered with its syndrome.
    fn reg(&mut self, cell: usize) -> Result<u32, RegBad>
        requires { cell < 136 }
        ensures answer { result ≡ reading (answers (state self.old)) (seen self.old).cells cell }
        ensures touches { state self.new ≡ touch (state self.old) (ReadCell cell) }
        ensures parts { answers (state self.new) ≡ answers (state self.old) }
        ensures seen { seen self.new ≡ seen self.old }
        ensures room { room self.old ≤ room self.new };

    /// Writes a register cell, which then reads well.
    fn set_reg(&mut self, cell: usize, v: u32)
        requires { cell < 136 }
        ensures touches { state self.new ≡ touch (state self.old) (WriteCell cell) }
        ensures seen { seen self.new ≡ record (seen self.old) { cells = slice_set (seen self.old).cells cell v } }
        ensures room { room self.old ≤ room self.new };

    /// Looks an address up in the data cache. A hit is a load, and is recorded; a miss records nothing.
    fn load(&mut self, addr: u32, len: u8) -> Look
        requires access { IsAccess (seen self.old).site addr len }
        requires room { 0 < room self.old }
        ensures answer { result ≡ (answers (state self.old)).look addr len }
        ensures fits { FitsLook len result }
        ensures touches { state self.new ≡ touch (state self.old) (LookData addr len) }
        ensures seen { seen self.new ≡ after_look addr len result (seen self.old) }
        ensures room { room self.old ≤ room self.new + spent_by_look result };

    /// Updates the data cache with a store, puts it into the store buffer and records it. Where the buffer is full it does nothing.
    fn store(&mut self, addr: u32, len: u8, value: u64) -> Result<(), Full>
        requires access { IsAccess (seen self.old).site addr len }
        requires room { 0 < room self.old }
        requires text { touches_text (seen self.old).site.image.text addr len ≡ false }
        requires value { value < 2 ^ (8 * len) }
        ensures full { is_err result ≡ (answers (state self.old)).full }
        ensures touches { state self.new ≡ after_push touch addr len value (is_ok result) (state self.old) }
        ensures seen { seen self.new ≡ after_store addr len value (is_ok result) (seen self.old) }
        ensures room { room self.old ≤ room self.new + spent_by_store (is_ok result) };

    /// A store waits in the store buffer.
    fn waiting(&self) -> bool
        ensures { result ≡ (answers (state self.now)).waiting };

    /// One of these bytes is a text byte.
    fn is_text(&self, addr: u32, len: u8) -> bool
        ensures { result ≡ touches_text (seen self.now).site.image.text addr len };

    /// All these bytes are in RAM.
    fn in_ram(&self, addr: u32, len: u8) -> bool
        ensures { result ≡ is_in_ram (seen self.now).site.ram addr len };

    /// Appends a byte to the core's output.
    fn out(&mut self, byte: u8)
        requires { 0 < room self.old }
        ensures touches { state self.new ≡ state self.old }
        ensures seen { seen self.new ≡ record (seen self.old) { out = (seen self.old).out ++ byte ∷ [] } }
        ensures room { room self.old ≤ room self.new + 1 };

    /// Empties both caches.
    fn flush(&mut self)
        ensures touches { state self.new ≡ touch (state self.old) FlushCaches }
        ensures seen { seen self.new ≡ seen self.old }
        ensures room { room self.old ≤ room self.new };
}
