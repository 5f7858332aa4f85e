//! The audit of a trace: which of the rules of its promise fails first, and where.
//!
//! `audit` tries all of them but the ledger. Each rule is a call of its own too, over the definitions that say what a run means, with
//! nothing of the machine:
//!
//! | call | rule |
//! |---|---|
//! | `once` | how operations are numbered, and that the parts of the trace are those of the setup |
//! | `load_op`, `store_store` | in which order a core's operations may stand |
//! | `thread` | what each core's instructions make |
//! | `results`, `watched_words` | what is shown of each core at its end, and of the watched words |
//! | `value` | what loads and atomics may read |
#![tactic(auto)]

mod parts;
mod reading;
mod rules;
mod sequence;
mod threads;
mod verdict;
mod watched;

pub use parts::once;
pub use reading::value;
pub use rules::audit;
pub use sequence::{load_op, store_store};
pub use threads::{results, thread};
pub use verdict::{Rule, Verdict};
pub use watched::watched_words;
