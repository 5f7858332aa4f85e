use lf_model::listed::Listed;
use lf_model::record::CoreRecord;

/// The records of all cores, in the order of their numbers.
pub type Records = Listed<CoreRecord>;
