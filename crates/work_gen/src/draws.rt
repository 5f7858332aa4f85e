ghost use Rattle.std.specs.Prelude.{◌≡◌, ◌<◌, ◌^◌};
ghost use Rattle.work_gen.specs.Draws.{next_state, drawn};

/// The factor of the linear congruential sequence.
const FACTOR: u64 = 6_364_136_223_846_793_005;

/// What is added at each of its steps.
const INCREMENT: u64 = 1_442_695_040_888_963_407;

/// A sequence of pseudo-random numbers.
#[derive(Clone, Copy, Debug)]
pub struct Draws {
    state: u64,
}

impl Draws {
    /// The sequence from a start.
    pub fn new(start: u64) -> Draws
        ensures { result.state ≡ start }
    {
        Draws { state: start }
    }

    /// The next number, of 31 bits.
    #[tactic(auto, unfolding(crate::specs::Draws::next_state))]
    pub fn draw(&mut self) -> u32
        ensures number { result ≡ drawn (next_state self.old.state) }
        ensures next { self.new.state ≡ next_state self.old.state }
    {
        self.state = self.state.wrapping_mul(FACTOR).wrapping_add(INCREMENT);
        (self.state >> 33) as u32
    }
}
