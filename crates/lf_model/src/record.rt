use crate::config::Words;
use crate::trace::{CoreResult, Fates, Ops, Words2};

/// What one core leaves of its run.
#[derive(Debug, Drop)]
pub struct CoreRecord {
    pub result: CoreResult,
    /// Its memory operations, in program order.
    pub ops: Ops,
    /// For each of them, how many entries of the log the core had seen as it retired.
    pub seen: Words,
    /// The address of the word that a stop of type 01, 09 or 2B names, with the number of its transfer as the value;
    /// without such a stop none.
    pub named: Words2,
    /// One fate per flip of the script, `Late` for the flips of others.
    pub fates: Fates,
}
