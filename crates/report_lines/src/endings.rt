ghost use Rattle.std.specs.Prelude.{◌≡◌, ℕ};
ghost use Rattle.std.specs.Option.{option_map};
ghost use Rattle.report_fields.specs.Reading.{word_at};
ghost use Rattle.report_lines.specs.CoreLines.{end_word, end_words, few_steps, fields_at, ending_at};

use lf_model::trace::CoreEnd;
use report_fields::{Word, any_word, byte, literal, number, own_number};

/// The most steps of all cores.
const STEPS: u64 = 4_000_000;

/// The greatest number of a field without a bound of its own.
const ANY: u32 = 0xFFFF_FFFF;

/// The word of a core's end.
#[derive(Clone, Copy, Debug)]
pub enum EndWord {
    Halt,
    Stop,
    Limit,
}

impl Word for EndWord {
    ghost use Rattle.report_lines.specs.CoreLines.{end_word};

    ghost text = { end_word };

    fn text(self) -> &'static [u8] {
        match self {
            EndWord::Halt => b"halt ",
            EndWord::Stop => b"stop ",
            EndWord::Limit => b"limit ",
        }
    }
}

/// How a core ended, and after how many instructions and steps.
#[derive(Clone, Copy, Debug)]
pub struct Ending {
    pub n: u32,
    pub steps: u32,
    pub end: CoreEnd,
}

/// The fields behind the word `halt`.
#[tactic(auto, unfolding(crate::specs::CoreLines::halt_at))]
fn halt(bytes: &[u8]) -> Option<(Ending, &[u8])>
    ensures read { option_map (λ x. (x.0, x.1.now)) result ≡ fields_at EndWord.Halt bytes.now }
{
    let (tt, rest) = byte(b' ', bytes)?;
    let (n, rest) = number(b' ', ANY, rest)?;
    let (steps, rest) = number(b'\n', ANY, rest)?;
    let end = CoreEnd::Halt(tt);
    Some((Ending { n, steps, end }, rest))
}

/// The fields behind the word `stop`.
#[tactic(auto, unfolding(crate::specs::CoreLines::stop_at))]
fn stop(bytes: &[u8]) -> Option<(Ending, &[u8])>
    ensures read { option_map (λ x. (x.0, x.1.now)) result ≡ fields_at EndWord.Stop bytes.now }
{
    let (tt, rest) = byte(b' ', bytes)?;
    let (n, rest) = number(b' ', ANY, rest)?;
    let (steps, rest) = number(b' ', ANY, rest)?;
    let (place, rest) = number(b' ', ANY, rest)?;
    let (syn, rest) = byte(b'\n', rest)?;
    let end = CoreEnd::Stop { tt, place, syn };
    Some((Ending { n, steps, end }, rest))
}

/// The fields behind the word `limit`.
#[tactic(auto, unfolding(crate::specs::CoreLines::limit_at))]
fn limit(bytes: &[u8]) -> Option<(Ending, &[u8])>
    ensures read { option_map (λ x. (x.0, x.1.now)) result ≡ fields_at EndWord.Limit bytes.now }
{
    let (n, rest) = number(b' ', ANY, bytes)?;
    let (steps, rest) = number(b'\n', ANY, rest)?;
    let end = CoreEnd::Limit;
    Some((Ending { n, steps, end }, rest))
}

/// The fields behind the word of a core's end.
fn fields(word: EndWord, bytes: &[u8]) -> Option<(Ending, &[u8])>
    ensures read { option_map (λ x. (x.0, x.1.now)) result ≡ fields_at word bytes.now }
{
    match word {
        EndWord::Halt => halt(bytes),
        EndWord::Stop => stop(bytes),
        EndWord::Limit => limit(bytes),
    }
}

/// The word of a core's end.
fn end_word(bytes: &[u8]) -> Option<(EndWord, &[u8])>
    ensures word { option_map (λ x. (x.0, x.1.now)) result ≡ word_at end_word end_words bytes.now }
{
    any_word(&[EndWord::Halt, EndWord::Stop, EndWord::Limit], bytes)
}

/// The line that says how core `k` of `cores` ended.
#[tactic(auto, unfolding(crate::specs::CoreLines::ending_at))]
pub fn end_line(cores: u32, k: u32, bytes: &[u8]) -> Option<(Ending, &[u8])>
    ensures read { option_map (λ x. (x.0, x.1.now)) result ≡ ending_at cores k bytes.now }
{
    let rest = literal(b"core ", bytes)?;
    let rest = own_number(b' ', k, rest)?;
    let (word, rest) = end_word(rest)?;
    let (ending, rest) = fields(word, rest)?;
    if u64::from(cores) * u64::from(ending.steps) > STEPS {
        return None;
    }
    Some((ending, rest))
}
