ghost use Rattle.std.specs.Prelude.{◌≡◌, ◌<◌};
ghost use Rattle.replay_caches.specs.Part.{size_of, unit_in, most_slots};

/// The units of each slot: its four tag bytes, and the 32 bytes of its line.
pub(crate) const SLOT_UNITS: usize = 36;

/// The bytes of a slot that flips strike.
#[derive(Clone, Copy, Debug)]
pub(crate) enum Part {
    Tag,
    Line,
}

impl Part {
    /// How many bytes it has.
    pub(crate) fn size(self) -> usize
        ensures { result ≡ size_of self }
    {
        match self {
            Part::Tag => 4,
            Part::Line => 32,
        }
    }

    /// The unit of a byte of it, in a slot.
    pub(crate) fn unit(self, slot: usize, byte: usize) -> usize
        requires slot { slot < most_slots }
        requires byte { byte < size_of self }
        ensures { result ≡ unit_in self slot byte }
    {
        match self {
            Part::Tag => SLOT_UNITS * slot + byte,
            Part::Line => SLOT_UNITS * slot + 4 + byte,
        }
    }
}
