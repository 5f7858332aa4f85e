use lf_model::place::Place;

/// A rule about a trace. An audit tries them in this order.
#[derive(Clone, Copy, Debug, PartialEq, Eq)]
pub enum Rule {
    /// Each operation of a core stands in the order once, and each part of the trace is of the setup.
    Once,
    /// Before a load or an atomic stands no later operation of its core (SPARC V8, appendix K, LoadOp).
    LoadOp,
    /// Before a store or an atomic stands no later store or atomic of its core (SPARC V8, appendix K, StoreStore).
    StoreStore,
    /// The operations of a core are those that its instructions make.
    Thread,
    /// The results of a core and the watched words are those that its instructions leave.
    Result,
    /// Each byte read is that of the last store or atomic before (SPARC V8, appendix K, Value).
    Value,
    /// All flips, transfers and counters account for each other.
    Ledger,
}

/// What an audit answers of a trace.
#[derive(Clone, Copy, Debug, PartialEq, Eq)]
pub enum Verdict {
    /// All rules hold.
    Yes,
    /// The first rule that fails, and the first place at which it does.
    No(Rule, Place),
}
