ghost use Rattle.std.specs.Prelude.{◌≡◌};
ghost use Rattle.run_texts.specs.Faults.{word_of};

use std::alloc::AllocError;
use std::error::Error;
use std::fmt;

/// What is wrong with a line of a text, the fault that is told first at the head.
#[derive(Clone, Copy, Debug, PartialEq, Eq)]
pub enum TextWhy {
    /// The first field is not known.
    Word,
    /// The line would give one flip more than the 65,536 that a script may have.
    Many,
    /// There are too few or too many fields.
    Count,
    /// A field is not of its form: a number of 1 to 10 decimal digits, or an address of 8 hexadecimal digits.
    Number,
    /// The value of a field is out of its range.
    Range,
}

impl TextWhy {
    /// The word that tells the fault.
    pub fn word(self) -> &'static str
        ensures { result.now ≡ word_of self }
    {
        match self {
            TextWhy::Word => "word",
            TextWhy::Many => "many",
            TextWhy::Count => "count",
            TextWhy::Number => "number",
            TextWhy::Range => "range",
        }
    }
}

impl fmt::Display for TextWhy {
    fn fmt<W: fmt::Write>(&self, f: &mut fmt::Formatter<W>) -> fmt::Result {
        f.write_str(match self {
            TextWhy::Word => "the first field is not known",
            TextWhy::Many => "there are too many flips",
            TextWhy::Count => "there are too few or too many fields",
            TextWhy::Number => "a field is not of its form",
            TextWhy::Range => "a value is out of its range",
        })
    }
}

/// Why a text was not read.
#[derive(Clone, Copy, Debug, PartialEq, Eq)]
pub enum TextErr {
    /// A line is faulty, and no line before it is.
    At {
        /// The number of the line. The first line of the text is 1, and each line counts.
        line: u64,
        /// The first fault of this line.
        why: TextWhy,
    },
    /// Memory ran out.
    Memory,
}

impl fmt::Display for TextErr {
    fn fmt<W: fmt::Write>(&self, f: &mut fmt::Formatter<W>) -> fmt::Result {
        match self {
            TextErr::At { line, why } => write!(f, "line {line}: {why}"),
            TextErr::Memory => f.write_str("no memory is left"),
        }
    }
}

impl Error for TextErr {}

impl From<AllocError> for TextErr {
    ghost use Rattle.std.specs.Prelude.{◌≡◌};
    ghost use Rattle.run_texts.specs.declared.error.TextErr.TheVariants.{Memory};

    ghost from_gives = { λ _ e. e ≡ Memory };

    fn from(_error: AllocError) -> TextErr {
        TextErr::Memory
    }
}
