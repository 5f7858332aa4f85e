use crate::config::Config;
use crate::flip::Flips;
use crate::image::Image;

/// All that a run starts from, but for the order of its events.
#[derive(Debug, Drop)]
pub struct Setup {
    pub image: Image,
    pub config: Config,
    pub flips: Flips,
}

/// Who makes an event of a schedule.
#[derive(Clone, Copy, Debug)]
pub enum Actor {
    /// A core: its next step, or its next drain after the last.
    Core,
    /// A core, the drain of a waiting store.
    Drain,
    /// The scrubber, its next turn.
    Scrub,
}

/// `count` events of one actor, one after the other.
#[derive(Clone, Copy, Debug)]
pub struct Event {
    pub actor: Actor,
    /// The number of the core; of no meaning for the scrubber.
    pub core: u32,
    pub count: u32,
}
