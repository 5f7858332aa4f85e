use std::error::Error;
use std::fmt;

/// A fault of a file or a sink, which its object has counted.
#[derive(Clone, Copy, Debug, PartialEq, Eq, Hash)]
pub struct Failed;

impl fmt::Display for Failed {
    fn fmt<W: fmt::Write>(&self, f: &mut fmt::Formatter<W>) -> fmt::Result {
        f.write_str("a file or a sink failed")
    }
}

impl Error for Failed {}
