//! Files, sinks and gates: the edge at which the simulator reads its inputs, writes its report and
//! lets its threads be held up. A fault of a file or a sink is told by a count that rises.
#![tactic(auto)]

mod calls;
mod clean;
mod failed;
mod files;
mod gate;
mod mem_files;
mod mem_sink;
mod put;
mod read;
mod real;
mod sink;
mod stored;

pub use clean::{CleanFiles, CleanSink};
pub use failed::Failed;
pub use files::Files;
pub use gate::{Gate, NoGate};
pub use mem_files::MemFiles;
pub use mem_sink::MemSink;
pub use put::put_all;
pub use read::{ReadErr, read_whole};
pub use real::{RealFiles, RealSink};
pub use sink::Sink;
