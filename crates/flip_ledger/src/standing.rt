ghost use Rattle.std.specs.Prelude.{◌≡◌, ◌<◌, ◌∷◌, length};
ghost use Rattle.flip_ledger.specs.Standing.{numbers_of};

/// The flips that stand in a unit, by their numbers in the script.
#[derive(Clone, Copy, Debug)]
pub enum Standing {
    Empty,
    One(u32),
    Two { older: u32, newer: u32 },
}

impl Standing {
    /// The same with one more flip; a unit takes no third.
    pub fn with(self, number: u32) -> Standing
        requires { length (numbers_of self) < 2 }
        ensures { numbers_of result ≡ number ∷ numbers_of self }
    {
        match self {
            Standing::Empty => Standing::One(number),
            Standing::One(older) => Standing::Two {
                older,
                newer: number,
            },
            Standing::Two { .. } => unreachable!(),
        }
    }
}
