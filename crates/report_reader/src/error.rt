/// Why a report is not read.
#[derive(Clone, Copy, Debug, PartialEq, Eq)]
pub enum ReportErr {
    /// The text is no report. `line` is the number, from 1, of the first line that does not fit, or where all lines
    /// fit, of the first transfer whose dashes are not those of its entry in the order. A missing line has the number
    /// after the last.
    At { line: u64 },
    /// Want of memory.
    Memory,
}
