ghost use Rattle.std.specs.Prelude.{◌≡◌, ◌<◌, ◌≤◌, ◌+◌, ℕ, All};
ghost use Rattle.lf_model.specs.Caches.Look.{look};
ghost use Rattle.lf_model.specs.Course.Arrays.{register_cells, read_cells};
ghost use Rattle.replay_effects.specs.Attempts.{look_up_of};

use lf_model::bus::Why;

/// A look-up of a cache: it hits in a slot, or misses with a cause.
#[derive(Clone, Copy, Debug)]
pub enum LookUp {
    Hit(usize),
    Miss(Why),
}

/// The arrays of a core, which an instruction that is tried reads and looks up. None of these calls takes memory.
pub trait LookUps {
    ghost use Rattle.std.specs.Prelude.{ℕ};
    ghost use Rattle.lf_model.specs.Course.Arrays.{Arrays};

    /// The histories of the register cells, and the caches.
    ghost arrays: { Self → Arrays };

    /// How many more look-ups can be made.
    ghost left: { Self → ℕ };

    /// All else that it has, which no call changes.
    ghost Rest: { Type 0 };

    ghost rest: { Self → Rest };

    /// Looks a word of text up in the fetch cache.
    fn look_fetch(&mut self, addr: u32) -> LookUp
        requires { 0 < left self.old }
        ensures answer { look_up_of result ≡ (look addr 4 (arrays self.old).fetch_cache).answer }
        ensures arrays { arrays self.new ≡ record (arrays self.old) { fetch_cache = (look addr 4 (arrays self.old).fetch_cache).cache } }
        ensures left { left self.old ≤ left self.new + 1 }
        ensures rest { rest self.new ≡ rest self.old };

    /// Reads these register cells, in order, up to and with the first bad one, which is given.
    fn read(&mut self, cells: &[u8]) -> Option<u8>
        requires { All (λ cell. cell < register_cells) cells.now }
        ensures bad { result ≡ (read_cells cells.now (arrays self.old).cells).bad }
        ensures arrays { arrays self.new ≡ record (arrays self.old) { cells = (read_cells cells.now (arrays self.old).cells).cells } }
        ensures left { left self.old ≤ left self.new }
        ensures rest { rest self.new ≡ rest self.old };

    /// Looks the bytes of a load up in the data cache.
    fn look_data(&mut self, addr: u32, len: u8) -> LookUp
        requires { 0 < left self.old }
        ensures answer { look_up_of result ≡ (look addr len (arrays self.old).data_cache).answer }
        ensures arrays { arrays self.new ≡ record (arrays self.old) { data_cache = (look addr len (arrays self.old).data_cache).cache } }
        ensures left { left self.old ≤ left self.new + 1 }
        ensures rest { rest self.new ≡ rest self.old };
}
