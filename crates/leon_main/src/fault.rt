ghost use Rattle.std.specs.Prelude.{◌≡◌, ◌≤◌, ◌++◌, codes, length};
ghost use Rattle.elf_image.specs.Names.{refusal_name};
ghost use Rattle.lf_model.specs.Texts.{number, space, line_feed};
ghost use Rattle.run_texts.specs.Faults.{word_of};
ghost use Rattle.run_texts.specs.Keys.{row};
ghost use Rattle.leon_main.specs.Faults.{read_fault, script_fault, schedule_fault};

use crate::run_file::RunFile;
use elf_image::{ImageErr, refusal_name};
use lf_io::ReadErr;
use report_text::ReportErr;
use report_text::fields::{LINE_FEED, Piece, SPACE, put, put_number};
use run_texts::{ConfigErr, Key, TextErr, TextWhy};
use std::alloc::AllocError;

/// Why a call has no result.
#[derive(Clone, Copy, Debug, PartialEq, Eq)]
pub enum Fault {
    /// The words of the call are not taken.
    Usage,
    /// A file could not be read.
    Unread(RunFile),
    /// A file has more bytes than its limit.
    TooLong(RunFile),
    /// The configuration is no TOML document.
    NotToml,
    /// The configuration has a key that no configuration has.
    UnknownKey,
    /// The configuration has a value of another kind at this key.
    WrongKind(Key),
    /// The configuration has a value out of range at this key.
    OutOfRange(Key),
    /// The image is refused.
    BadImage {
        /// The number of the refusal, from 1 to 14.
        number: u8,
        /// The place in the file that it tells, in bytes.
        offset: u32,
    },
    /// A line of the script is faulty, and none before it is.
    BadScript {
        /// The number of the line, from 1 on.
        line: u64,
        why: TextWhy,
    },
    /// A line of the schedule is faulty, and none before it is.
    BadSchedule {
        /// The number of the line, from 1 on.
        line: u64,
        why: TextWhy,
    },
    /// The report is none: this is its first line that does not fit.
    BadReport {
        /// The number of the line, from 1 on. A missing line has the number after the last.
        line: u64,
    },
    /// There is no memory left.
    Memory,
}

impl From<AllocError> for Fault {
    ghost use Rattle.std.specs.Prelude.{◌≡◌};
    ghost use Rattle.leon_main.specs.declared.fault.Fault.TheVariants.{Memory};

    ghost from_gives = { λ _ fault. fault ≡ Memory };

    fn from(_error: AllocError) -> Fault {
        Fault::Memory
    }
}

impl From<ConfigErr> for Fault {
    ghost use Rattle.std.specs.Prelude.{◌≡◌};
    ghost use Rattle.leon_main.specs.Faults.{configuration_fault};

    ghost from_gives = { λ error fault. fault ≡ configuration_fault error };

    fn from(error: ConfigErr) -> Fault {
        match error {
            ConfigErr::Text => Fault::NotToml,
            ConfigErr::Key => Fault::UnknownKey,
            ConfigErr::Kind(key) => Fault::WrongKind(key),
            ConfigErr::Range(key) => Fault::OutOfRange(key),
            ConfigErr::Memory => Fault::Memory,
        }
    }
}

impl From<ImageErr> for Fault {
    ghost use Rattle.std.specs.Prelude.{◌≡◌};
    ghost use Rattle.leon_main.specs.Faults.{image_fault};

    ghost from_gives = { λ error fault. fault ≡ image_fault error };

    fn from(error: ImageErr) -> Fault {
        match error {
            ImageErr::Refused { number, offset } => Fault::BadImage { number, offset },
            ImageErr::Memory => Fault::Memory,
        }
    }
}

impl From<ReportErr> for Fault {
    ghost use Rattle.std.specs.Prelude.{◌≡◌};
    ghost use Rattle.leon_main.specs.Faults.{report_fault};

    ghost from_gives = { λ error fault. fault ≡ report_fault error };

    fn from(error: ReportErr) -> Fault {
        match error {
            ReportErr::At { line } => Fault::BadReport { line },
            ReportErr::Memory => Fault::Memory,
        }
    }
}

/// The word for a fault of a line.
#[tactic(auto, using(crate::proofs::LineLengths::why_short))]
fn why_text(why: TextWhy) -> &'static [u8]
    ensures word { result.now ≡ word_of why }
    ensures short { length result.now ≤ 20 }
{
    why.word().as_bytes()
}

/// The name of a key, as `machine.cores`.
#[tactic(auto, using(crate::proofs::LineLengths::key_short))]
fn key_text(key: Key) -> &'static [u8]
    ensures name { result.now ≡ (row key).path }
    ensures short { length result.now ≤ 20 }
{
    key.name().as_bytes()
}

/// The name of a refusal of an image.
#[tactic(auto, using(crate::proofs::LineLengths::refusal_short))]
fn refusal_text(number: u8) -> &'static [u8]
    ensures name { result.now ≡ refusal_name number }
    ensures short { length result.now ≤ 20 }
{
    refusal_name(number).as_bytes()
}

/// A line of these bytes.
pub fn piece_of(bytes: &[u8]) -> Piece
    requires { length bytes.now ≤ 100 }
    ensures text { result.items ≡ bytes.now }
{
    let mut piece = Piece::new();
    put(&mut piece, bytes);
    piece
}

/// A line that ends with the number of a line of a text and its fault.
fn text_line(head: &[u8], line: u64, why: TextWhy) -> Piece
    requires { length head.now ≤ 20 }
    ensures text { result.items ≡ head.now ++ number space line ++ word_of why ++ codes "\n" }
{
    let mut piece = piece_of(head);
    put_number(&mut piece, SPACE, line);
    put(&mut piece, why_text(why));
    put(&mut piece, b"\n");
    piece
}

/// A line that ends with a word.
fn word_line(head: &[u8], word: &[u8]) -> Piece
    requires head_short { length head.now ≤ 20 }
    requires word_short { length word.now ≤ 20 }
    ensures text { result.items ≡ head.now ++ word.now ++ codes "\n" }
{
    let mut piece = piece_of(head);
    put(&mut piece, word);
    put(&mut piece, b"\n");
    piece
}

/// A line that ends with a word and a number.
fn number_line(head: &[u8], word: &[u8], n: u64) -> Piece
    requires head_short { length head.now ≤ 20 }
    requires word_short { length word.now ≤ 20 }
    ensures text { result.items ≡ head.now ++ word.now ++ codes " " ++ number 10 n }
{
    let mut piece = piece_of(head);
    put(&mut piece, word);
    put(&mut piece, b" ");
    put_number(&mut piece, LINE_FEED, n);
    piece
}

/// The line that tells where a report does not fit.
fn report_line(line: u64) -> Piece
    ensures text { result.items ≡ codes "error 9 " ++ number line_feed line }
{
    let mut piece = piece_of(b"error 9 ");
    put_number(&mut piece, LINE_FEED, line);
    piece
}

impl Fault {
    ghost use Rattle.leon_main.specs.Faults.{status_of, line_of};

    /// The fault that an error in reading a file is.
    pub fn of_reading(file: RunFile, error: ReadErr) -> Fault
        ensures { result ≡ read_fault file error }
    {
        match error {
            ReadErr::Fault => Fault::Unread(file),
            ReadErr::TooLong(_) => Fault::TooLong(file),
            ReadErr::Memory => Fault::Memory,
        }
    }

    /// The fault that an error of a script is.
    pub fn of_script(error: TextErr) -> Fault
        ensures { result ≡ script_fault error }
    {
        match error {
            TextErr::At { line, why } => Fault::BadScript { line, why },
            TextErr::Memory => Fault::Memory,
        }
    }

    /// The fault that an error of a schedule is.
    pub fn of_schedule(error: TextErr) -> Fault
        ensures { result ≡ schedule_fault error }
    {
        match error {
            TextErr::At { line, why } => Fault::BadSchedule { line, why },
            TextErr::Memory => Fault::Memory,
        }
    }

    /// The exit status.
    pub fn status(self) -> u8
        ensures { result ≡ status_of self }
    {
        match self {
            Fault::Usage => 2,
            Fault::Unread(_) => 3,
            Fault::BadImage { .. } => 4,
            Fault::BadScript { .. } | Fault::BadSchedule { .. } => 5,
            Fault::NotToml | Fault::UnknownKey | Fault::WrongKind(_) | Fault::OutOfRange(_) => 6,
            Fault::Memory => 7,
            Fault::BadReport { .. } => 9,
            Fault::TooLong(_) => 12,
        }
    }

    /// The line that tells the fault.
    #[tactic(auto, unfolding(crate::specs::Faults::line_of))]
    pub fn line(self) -> Piece
        ensures { result.items ≡ line_of self }
    {
        match self {
            Fault::Usage => piece_of(b"error 2 usage\n"),
            Fault::Unread(file) => word_line(b"error 3 ", file.word()),
            Fault::TooLong(file) => number_line(b"error 12 ", file.word(), file.limit()),
            Fault::NotToml => piece_of(b"error 6 text -\n"),
            Fault::UnknownKey => piece_of(b"error 6 key -\n"),
            Fault::WrongKind(key) => word_line(b"error 6 kind ", key_text(key)),
            Fault::OutOfRange(key) => word_line(b"error 6 range ", key_text(key)),
            Fault::BadImage { number, offset } => {
                number_line(b"error 4 ", refusal_text(number), u64::from(offset))
            }
            Fault::BadScript { line, why } => text_line(b"error 5 script ", line, why),
            Fault::BadSchedule { line, why } => text_line(b"error 5 schedule ", line, why),
            Fault::BadReport { line } => report_line(line),
            Fault::Memory => piece_of(b"error 7 memory\n"),
        }
    }
}
