ghost use Rattle.std.specs.Prelude.{◌≡◌, ◌≤◌, map, option_map, string_bytes, codes, IfSome};
ghost use Rattle.std.specs.Char.{is_digit};
ghost use Rattle.std.specs.List.{list_all};
ghost use Rattle.run_texts.specs.Text.{numeral, hexadecimal};
ghost use Rattle.leon_main.specs.Words.{is_text, is_dashed, undashed, number, size, run_request, generate_request, codes_request, request_of, told, asked, SizeFits};

use std::alloc::AllocError;
use std::io;
use std::io::ErrorKind;

/// Why the words of a call are not known.
#[derive(Clone, Copy, Debug, PartialEq, Eq)]
pub enum WordsErr {
    /// A word is no text in UTF-8.
    NotText,
    /// There is no memory left.
    Memory,
}

impl WordsErr {
    ghost use Rattle.std.specs.Prelude.{◌≡◌, ◌≢◌};
    ghost use Rattle.std.specs.IoError.{error_kind};

    /// What an error of the system says of the words.
    pub fn of_system(error: io::Error) -> WordsErr
        ensures not_text { error_kind error ≡ ErrorKind.InvalidData → result ≡ WordsErr.NotText }
        ensures memory { error_kind error ≢ ErrorKind.InvalidData → result ≡ WordsErr.Memory }
    {
        if error.kind() == ErrorKind::InvalidData {
            WordsErr::NotText
        } else {
            WordsErr::Memory
        }
    }
}

impl From<AllocError> for WordsErr {
    ghost use Rattle.std.specs.Prelude.{◌≡◌};
    ghost use Rattle.leon_main.specs.declared.words.WordsErr.TheVariants.{Memory};

    ghost from_gives = { λ _ e. e ≡ Memory };

    fn from(_error: AllocError) -> WordsErr {
        WordsErr::Memory
    }
}

/// What the words of a call ask for.
#[derive(Clone, Copy)]
pub enum Command<'a> {
    /// A run of the image, for a configuration, a script of flips and a schedule.
    Play(Names<'a>),
    /// The audit of a report, for an image, a configuration and a script of flips.
    Audit(Names<'a>),
    /// The image of a generated program.
    Generate {
        /// The number from which its pseudo-random numbers are made.
        start: u64,
        /// The number of its instructions between start-up code and end, from 16 to 100,000.
        size: u32,
    },
    /// The check bits of a word.
    Codes(u32),
}

/// The names of the files of a run.
#[derive(Clone, Copy)]
pub struct Names<'a> {
    pub image: &'a str,
    pub configuration: &'a str,
    pub script: &'a str,
    /// The schedule by which the run is played, or the report of it that is audited.
    pub last: &'a str,
}

/// The word is `play`.
fn is_play(word: &str) -> bool
    ensures { result ≡ is_text (codes "play") word.now }
{
    word == "play"
}

/// The word is `audit`.
fn is_audit(word: &str) -> bool
    ensures { result ≡ is_text (codes "audit") word.now }
{
    word == "audit"
}

/// The word is `gen`.
fn is_gen(word: &str) -> bool
    ensures { result ≡ is_text (codes "gen") word.now }
{
    word == "gen"
}

/// The word is `codes`.
fn is_codes(word: &str) -> bool
    ensures { result ≡ is_text (codes "codes") word.now }
{
    word == "codes"
}

/// The word begins with a dash.
fn is_dashed(word: &str) -> bool
    ensures { result ≡ is_dashed word.now }
{
    word.starts_with("-")
}

/// The names, where none of them begins with a dash.
fn undashed(names: Names<'_>) -> Option<Names<'_>>
    ensures { option_map told result ≡ undashed (told names.entry) }
{
    if is_dashed(names.image)
        || is_dashed(names.configuration)
        || is_dashed(names.script)
        || is_dashed(names.last)
    {
        None
    } else {
        Some(names)
    }
}

/// A run of these files or the audit of one, `None` where the words are not taken.
#[tactic(auto, unfolding(crate::specs::Words::run_request))]
fn run_of<'a>(command: &str, names: Names<'a>) -> Option<Command<'a>>
    ensures request { option_map asked result ≡ run_request command.now (told names.entry) }
    ensures fits { IfSome result SizeFits }
{
    if is_play(command) {
        Some(Command::Play(undashed(names)?))
    } else if is_audit(command) {
        Some(Command::Audit(undashed(names)?))
    } else {
        None
    }
}

/// The image of a program, `None` where the words are not taken.
fn generate_of(command: &str, start: &str, size: &str) -> Option<Command<'static>>
    ensures request { option_map asked result ≡ generate_request command.now start.now size.now }
    ensures fits { IfSome result SizeFits }
{
    if is_gen(command) {
        Some(Command::Generate {
            start: number(start)?,
            size: size_of(size)?,
        })
    } else {
        None
    }
}

/// The check bits of a word, `None` where the words are not taken.
fn codes_of(command: &str, word: &str) -> Option<Command<'static>>
    ensures { option_map asked result ≡ codes_request command.now word.now }
{
    if is_codes(command) {
        Some(Command::Codes(code_word(word)?))
    } else {
        None
    }
}

/// What the words of a call ask for, `None` where they are not taken.
#[tactic(auto, unfolding(crate::specs::Words::request_of))]
pub fn command_of(words: &[String]) -> Option<Command<'_>>
    ensures request { option_map asked result ≡ request_of (map string_bytes words.now) }
    ensures fits { IfSome result SizeFits }
{
    match words {
        [_, command, image, configuration, script, last] => {
            let names = Names {
                image: image.as_str(),
                configuration: configuration.as_str(),
                script: script.as_str(),
                last: last.as_str(),
            };
            run_of(command.as_str(), names)
        }
        [_, command, start, size] => generate_of(command.as_str(), start.as_str(), size.as_str()),
        [_, command, word] => codes_of(command.as_str(), word.as_str()),
        _ => None,
    }
}

/// All bytes of the word are decimal digits.
fn has_digits_alone(word: &str) -> bool
    ensures { result ≡ list_all (λ byte. is_digit byte 10) word.now }
{
    word.as_bytes()
        .iter()
        .all(|byte| char::from(*byte).is_digit(10))
}

/// The number that 1 to 20 decimal digits write, `None` where the word is not of this form or the number is not below 2^64.
fn number(word: &str) -> Option<u64>
    ensures { result ≡ number word.now }
{
    if word.len() <= 20 && has_digits_alone(word) {
        word.parse().ok()
    } else {
        None
    }
}

/// The size of a program, `None` where the word is no number from 16 to 100,000.
#[tactic(auto, unfolding(crate::specs::Words::size))]
fn size_of(word: &str) -> Option<u32>
    ensures size { result ≡ size word.now }
    ensures fits { IfSome result (λ size. (16 ≤ size) × (size ≤ 100000)) }
{
    let size = number(word)?;
    if 16 <= size && size <= 100_000 {
        Some(size as u32)
    } else {
        None
    }
}

/// The number that 8 hexadecimal digits of either case write, `None` where the word is not of this form.
#[tactic(auto, unfolding(run_texts::specs::Text::hexadecimal))]
fn code_word(word: &str) -> Option<u32>
    ensures { result ≡ hexadecimal word.now }
{
    if word.len() != 8 {
        return None;
    }
    let mut value = 0;
    for digit in word.as_bytes() {
        let digit = char::from(*digit).to_digit(16)?;
        value = value * 16 + digit;
    }
    Some(value)
}
