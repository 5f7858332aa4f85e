ghost use Rattle.std.specs.Prelude.{◌≡◌, ◌≢◌, ◌≤◌, ◌<◌, ◌^◌, ◌⊎◌, ℕ, List, map, string_bytes, Some, Err, IfOk, IfErr, IfSome};
ghost use Rattle.std.specs.Process.{exit_status};
ghost use Rattle.edac_code.specs.Code.{check_bits};
ghost use Rattle.lf_io.specs.Count.{Rose};
ghost use Rattle.lf_io.specs.Held.{FileMap};
ghost use Rattle.lf_io.specs.Taken.{Takes, TakesPrefix};
ghost use Rattle.lf_model.specs.Promise.NeverStops.{NeverTwoTurned, NeverStops};
ghost use Rattle.lf_model.specs.Promise.Played.{IsPlayedBy};
ghost use Rattle.lf_model.specs.Promise.Regular.{IsRegular};
ghost use Rattle.lf_model.specs.declared.setup.Event.{Event};
ghost use Rattle.lf_model.specs.declared.setup.Setup.{Setup};
ghost use Rattle.lf_model.specs.declared.trace.Trace.{Trace};
ghost use Rattle.machine_play.specs.Playable.{IsPlayable};
ghost use Rattle.tso_audit.specs.Audit.{IsVerdict};
ghost use Rattle.leon_main.specs.Accepted.{SpellSetup, AreParts};
ghost use Rattle.leon_main.specs.Call.{generated_file, IsOutcome, IsAnswered, IsCutOff, IsFaultless, Tells, Decides, IsSettled, HasOneVerdict, status_of, text_of};
ghost use Rattle.leon_main.specs.Faults.{line_of};
ghost use Rattle.leon_main.specs.Given.{AnswersGiven};
ghost use Rattle.leon_main.specs.Reading.{IsCause};
ghost use Rattle.leon_main.specs.Words.{Task, Play, Audit, FileNames, told};

use crate::answer::{Answer, status_of, write_text};
use crate::fault::Fault;
use crate::reading;
use crate::words::{Command, Names, WordsErr, command_of};
use lf_io::{Files, Sink};
use lf_model::image::Bytes;
use lf_model::setup::{Event, Setup};
use lf_model::trace::Trace;
use std::alloc::{AllocError, Global};
use std::process::ExitCode;
use tso_audit::Verdict;

/// What the files of a run spell: the machine with all that happens to it, and the order in which its actors move.
#[derive(Drop)]
struct Run {
    setup: Setup,
    events: Vec<Event>,
}

/// What the files of an audit spell: the machine with all that happens to it, and the trace of a report.
#[derive(Drop)]
struct Reported {
    setup: Setup,
    trace: Trace,
}

/// The setup that configuration, image and script spell.
fn setup_of<F: Files>(alloc: Global, files: &mut F, names: Names) -> Result<Setup, Fault>
    ensures spelled { IfOk result (λ setup. IfSome (F.held files.old)
        (λ held. SpellSetup (told names.entry) held setup)) }
    ensures playable { IfOk result IsPlayable }
    ensures cause { IfErr result (λ fault. (task : Task)
        → IsCause task (told names.entry) (F.held files.old) (F.faults files.old) (F.faults files.new) fault) }
    ensures kept { F.held files.new ≡ F.held files.old }
    ensures never_falls { (other : List ℕ) → F.faults files.old other ≤ F.faults files.new other }
{
    let config = reading::configuration(alloc, files, names.configuration)?;
    let image = reading::image(alloc, files, names.image, &config)?;
    let flips = reading::script(alloc, files, names.script, &config)?;
    Ok(Setup {
        image,
        config,
        flips,
    })
}

/// The setup and the schedule that the files of a run spell.
fn run_of<F: Files>(alloc: Global, files: &mut F, names: Names) -> Result<Run, Fault>
    ensures parts { IfOk result (λ run. IfSome (F.held files.old)
        (λ held. AreParts Play (told names.entry) held run.setup run.events.items)) }
    ensures playable { IfOk result (λ run. IsPlayable run.setup) }
    ensures cause { IfErr result
        (IsCause Play (told names.entry) (F.held files.old) (F.faults files.old) (F.faults files.new)) }
{
    let setup = setup_of(alloc, files, names)?;
    let events = reading::schedule(alloc, files, names.last, &setup.config)?;
    Ok(Run { setup, events })
}

/// The setup and the trace that the files of an audit spell.
fn reported_of<F: Files>(alloc: Global, files: &mut F, names: Names) -> Result<Reported, Fault>
    ensures parts { IfOk result (λ reported. IfSome (F.held files.old)
        (λ held. AreParts Audit (told names.entry) held reported.setup reported.trace)) }
    ensures playable { IfOk result (λ reported. IsPlayable reported.setup) }
    ensures regular { IfOk result (λ reported. IsRegular reported.trace) }
    ensures cause { IfErr result
        (IsCause Audit (told names.entry) (F.held files.old) (F.faults files.old) (F.faults files.new)) }
{
    let setup = setup_of(alloc, files, names)?;
    let trace = reading::report(alloc, files, names.last)?;
    Ok(Reported { setup, trace })
}

/// What the rules say of the trace of a report.
fn verdict_of(alloc: Global, reported: &Reported) -> Result<Verdict, AllocError>
    requires playable { IsPlayable reported.now.setup }
    requires regular { IsRegular reported.now.trace }
    ensures { IfOk result (IsVerdict reported.now.setup reported.now.trace) }
{
    tso_audit::audit(alloc, &reported.setup, &reported.trace)
}

/// The file of the image of a generated program.
fn image_file(alloc: Global, start: u64, size: u32) -> Result<Bytes, AllocError>
    requires least { 16 ≤ size }
    requires most { size ≤ 100000 }
    ensures { IfOk result (λ file. file ≡ generated_file start size) }
{
    let image = work_gen::make(alloc, start, size)?;
    let file = elf_image::write_image(alloc, &image)?;
    Ok(Bytes::from_vec(file))
}

/// The check bits of a word.
fn check_bits(word: u32) -> u8
    ensures { result ≡ check_bits word }
{
    (edac_code::encode39(word) >> 32) as u8
}

/// What a call comes to.
fn outcome_of<F: Files>(alloc: Global, words: &[String], files: &mut F) -> Result<Answer, Fault>
    ensures { IsOutcome (map string_bytes words.now) (F.held files.old) (F.faults files.old)
        (F.faults files.new) result }
{
    match command_of(words) {
        Some(Command::Play(names)) => {
            let run = run_of(alloc, files, names)?;
            let trace = machine_play::play(alloc, &run.setup, &run.events)?;
            Ok(Answer::Report(trace))
        }
        Some(Command::Audit(names)) => {
            let reported = reported_of(alloc, files, names)?;
            Ok(Answer::Audited(verdict_of(alloc, &reported)?))
        }
        Some(Command::Generate { start, size }) => {
            let file = image_file(alloc, start, size)?;
            Ok(Answer::ImageFile(file))
        }
        Some(Command::Codes(word)) => Ok(Answer::CheckBits(check_bits(word))),
        None => Err(Fault::Usage),
    }
}

/// Writes the text of an outcome, and gives the status.
fn tell<K: Sink>(outcome: &Result<Answer, Fault>, out: &mut K) -> u8
    ensures told { result ≢ 8
        → (result ≡ status_of outcome.now) × Takes (K.taken out.old) (K.taken out.new) (text_of outcome.now) }
    ensures cut { result ≡ 8 → Rose (K.faults out.old) (K.faults out.new) }
    ensures part { result ≡ 8 → TakesPrefix (K.taken out.old) (K.taken out.new) (text_of outcome.now) }
{
    match write_text(outcome, out) {
        Ok(()) => status_of(outcome),
        Err(_) => 8,
    }
}

/// Writes that there was no memory.
#[tactic(auto, unfolding(crate::specs::Faults::line_of))]
fn tell_memory<K: Sink>(out: &mut K) -> u8
    ensures memory { result ≡ 7 → Takes (K.taken out.old) (K.taken out.new) (line_of Fault.Memory) }
    ensures cut { result ≡ 8 → Rose (K.faults out.old) (K.faults out.new) }
    ensures part { result ≡ 8 → TakesPrefix (K.taken out.old) (K.taken out.new) (line_of Fault.Memory) }
    ensures only { (result ≡ 7) ⊎ (result ≡ 8) }
{
    match lf_io::put_all(out, b"error 7 memory\n") {
        Ok(()) => 7,
        Err(_) => 8,
    }
}

/// Does what the words of a call say, and answers the exit status.
///
/// `play IMAGE CONFIG SCRIPT SCHEDULE` runs an image by a schedule and writes its report; `audit IMAGE CONFIG SCRIPT REPORT` judges a
/// report by the rules of total store order and writes `audit yes`, or `audit no RULE KIND N` for the first rule that fails and
/// its first place; `gen START SIZE` writes the image of a program of SIZE pseudo-random instructions that are made from the
/// number START; `codes WORD` writes the check bits of a word of 8 hexadecimal digits. A line that begins with `error` tells why
/// there is no result. Nothing is written after the sink failed.
///
/// An audit does not try the rule Ledger yet: flips, transfers, counters and AHBSTAT of a report are not compared with anything.
pub fn plain_call<F: Files, K: Sink>(
    alloc: Global,
    words: &[String],
    files: &mut F,
    out: &mut K,
) -> u8
    // A status other than 8 comes with its cause, and its whole text was taken. The text of a run is the report of a
    // trace that is a total-store-order execution of the image's code, with that execution's results; that gives account
    // of each flip, fill, cached load and transfer; and whose transfers come in the order of the schedule. The text of an
    // audit is the line of the first rule that fails of the trace of which the report is, or of none.
    ensures answered { result ≢ 8
        → IsAnswered (map string_bytes words.now) (F.held files.old) (F.faults files.old) (F.faults files.new)
        (K.taken out.old) (K.taken out.new) result }

    // 7 is want of memory in reading the files of a run, in the run, in an audit or in making an image, and its line was taken.
    ensures memory { result ≡ 7 → Takes (K.taken out.old) (K.taken out.new) (line_of Fault.Memory) }

    // 8 is a fault of the sink, which took a part of the text and nothing more.
    ensures fault { result ≡ 8 → Rose (K.faults out.old) (K.faults out.new) }
    ensures cut_off { result ≡ 8
        → IsCutOff (map string_bytes words.now) (F.held files.old) (F.faults files.old) (F.faults files.new)
        (K.taken out.old) (K.taken out.new) }

    // Where the files tell what they hold and none of their faults was counted, words and files decide the answer: words
    // that are not taken, a start and a size for an image, a word for its check bits, the first refusal of the files, the
    // setup and the schedule that they spell, or the setup and the trace.
    ensures decides { (held : FileMap) → F.held files.old ≡ Some held
        → IsFaultless (map string_bytes words.now) (F.faults files.old) (F.faults files.new)
        → Decides (map string_bytes words.now) held (K.taken out.old) (K.taken out.new) result }

    // A run in which no word of memory and no register cell ever has two turned bits has no core that an error trap stops.
    ensures never_stops { (setup : Setup) (events : List Event) (trace : Trace) → IsPlayedBy setup events trace
        → NeverTwoTurned setup trace → NeverStops setup trace }

    // Files either spell one setup and one schedule, or one setup and one trace, or have one first refusal.
    ensures settled { (task : Task) (names : FileNames) (held : FileMap) → IsSettled task names held }

    // A trace has one verdict.
    ensures one_verdict { (setup : Setup) (trace : Trace) → HasOneVerdict setup trace }
{
    let outcome = outcome_of(alloc, words, files);
    tell(&outcome, out)
}

/// Does what the words of a call say, as far as they are known, and answers the program's exit code.
///
/// Words that are not text are no words of the program.
pub fn exit_code_of<F: Files, K: Sink>(
    alloc: Global,
    words: Result<Vec<String>, WordsErr>,
    files: &mut F,
    out: &mut K,
) -> ExitCode
    // The code is the status that the words have as a call; without memory for them, that of want of memory.
    ensures answered { AnswersGiven words (F.held files.old) (F.faults files.old) (F.faults files.new)
        (K.taken out.old) (K.taken out.new) (exit_status result) }

    // Words that are not text are answered by `error 2 usage`, unless the sink fails.
    ensures not_text { words ≡ Err WordsErr.NotText
        → Tells (exit_status result) (K.taken out.old) (K.taken out.new) 2 (line_of Fault.Usage) }

    // 8 is a fault of the sink.
    ensures fault { exit_status result ≡ 8 → Rose (K.faults out.old) (K.faults out.new) }
{
    match words {
        Ok(words) => ExitCode::from(plain_call(alloc, &words, files, out)),
        Err(WordsErr::NotText) => ExitCode::from(plain_call(alloc, &[], files, out)),
        Err(WordsErr::Memory) => ExitCode::from(tell_memory(out)),
    }
}
