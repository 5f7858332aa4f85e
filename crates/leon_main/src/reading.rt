ghost use Rattle.std.specs.Prelude.{◌≡◌, ◌≤◌, ℕ, List, All, length, IfOk, IfErr, IfSome};
ghost use Rattle.lf_io.specs.Answers.{IsWhole};
ghost use Rattle.lf_io.specs.Held.{content};
ghost use Rattle.lf_model.specs.declared.config.Config.{Config};
ghost use Rattle.lf_model.specs.Promise.Regular.{IsRegular};
ghost use Rattle.lf_model.specs.Start.{IsLoadable};
ghost use Rattle.run_texts.specs.Keys.{IsOfTable};
ghost use Rattle.run_texts.specs.FlipLine.{most_flips, IsOfMachine};
ghost use Rattle.leon_main.specs.Accepted.{SpellsConfiguration, SpellsImage, SpellsScript, SpellsSchedule, SpellsReport};
ghost use Rattle.leon_main.specs.Files.{limit_of};
ghost use Rattle.leon_main.specs.Reading.{IsFileCause};

use crate::fault::Fault;
use crate::run_file::RunFile;
use lf_io::Files;
use lf_model::config::Config;
use lf_model::flip::Flips;
use lf_model::image::Image;
use lf_model::setup::Event;
use lf_model::trace::Trace;
use std::alloc::Global;

/// The bytes of a file, which are within its limit.
fn bytes_of<F: Files>(
    alloc: Global,
    files: &mut F,
    file: RunFile,
    name: &str,
) -> Result<Vec<u8>, Fault>
    ensures whole { IfOk result (λ bytes.
        IsWhole (content (F.held files.old) name.now) (limit_of file) bytes.items) }
    ensures cause { IfErr result (λ fault. (config : Config)
        → IsFileCause file config (content (F.held files.old) name.now) (F.faults files.old name.now)
        (F.faults files.new name.now) fault) }
    ensures kept { F.held files.new ≡ F.held files.old }
    ensures never_falls { (other : List ℕ) → F.faults files.old other ≤ F.faults files.new other }
{
    match lf_io::read_whole(alloc, files, name, file.limit()) {
        Ok(bytes) => Ok(bytes),
        Err(error) => Err(Fault::of_reading(file, error)),
    }
}

/// The configuration that a file spells.
pub fn configuration<F: Files>(alloc: Global, files: &mut F, name: &str) -> Result<Config, Fault>
    ensures spelled { IfOk result (λ config. IfSome (content (F.held files.old) name.now)
        (λ bytes. SpellsConfiguration bytes config)) }
    ensures of_table { IfOk result IsOfTable }
    ensures cause { IfErr result (λ fault. (config : Config)
        → IsFileCause RunFile.Configuration config (content (F.held files.old) name.now)
        (F.faults files.old name.now) (F.faults files.new name.now) fault) }
    ensures kept { F.held files.new ≡ F.held files.old }
    ensures never_falls { (other : List ℕ) → F.faults files.old other ≤ F.faults files.new other }
{
    let bytes = bytes_of(alloc, files, RunFile::Configuration, name)?;
    Ok(run_texts::read_config(alloc, &bytes)?)
}

/// The image that a file spells, for the machine of a configuration.
pub fn image<F: Files>(
    alloc: Global,
    files: &mut F,
    name: &str,
    config: &Config,
) -> Result<Image, Fault>
    ensures spelled { IfOk result (λ image. IfSome (content (F.held files.old) name.now)
        (λ bytes. SpellsImage config.now bytes image)) }
    ensures loadable { IfOk result (IsLoadable config.now.ram) }
    ensures cause { IfErr result
        (IsFileCause RunFile.Image config.now (content (F.held files.old) name.now)
        (F.faults files.old name.now) (F.faults files.new name.now)) }
    ensures kept { F.held files.new ≡ F.held files.old }
    ensures never_falls { (other : List ℕ) → F.faults files.old other ≤ F.faults files.new other }
{
    let bytes = bytes_of(alloc, files, RunFile::Image, name)?;
    Ok(elf_image::read_image(alloc, &bytes, config.ram)?)
}

/// The flips that a script spells, for the machine of a configuration.
pub fn script<F: Files>(
    alloc: Global,
    files: &mut F,
    name: &str,
    config: &Config,
) -> Result<Flips, Fault>
    requires of_table { IsOfTable config.now }
    ensures spelled { IfOk result (λ flips. IfSome (content (F.held files.old) name.now)
        (λ bytes. SpellsScript config.now bytes flips)) }
    ensures few { IfOk result (λ flips. length flips ≤ most_flips) }
    ensures of_machine { IfOk result (All (IsOfMachine config.now)) }
    ensures cause { IfErr result
        (IsFileCause RunFile.Script config.now (content (F.held files.old) name.now)
        (F.faults files.old name.now) (F.faults files.new name.now)) }
    ensures kept { F.held files.new ≡ F.held files.old }
    ensures never_falls { (other : List ℕ) → F.faults files.old other ≤ F.faults files.new other }
{
    let bytes = bytes_of(alloc, files, RunFile::Script, name)?;
    match run_texts::read_script(alloc, &bytes, config) {
        Ok(flips) => Ok(flips),
        Err(error) => Err(Fault::of_script(error)),
    }
}

/// The events that a schedule spells, for the machine of a configuration.
pub fn schedule<F: Files>(
    alloc: Global,
    files: &mut F,
    name: &str,
    config: &Config,
) -> Result<Vec<Event>, Fault>
    ensures spelled { IfOk result (λ events. IfSome (content (F.held files.old) name.now)
        (λ bytes. SpellsSchedule config.now bytes events.items)) }
    ensures cause { IfErr result
        (IsFileCause RunFile.Schedule config.now (content (F.held files.old) name.now)
        (F.faults files.old name.now) (F.faults files.new name.now)) }
    ensures kept { F.held files.new ≡ F.held files.old }
    ensures never_falls { (other : List ℕ) → F.faults files.old other ≤ F.faults files.new other }
{
    let bytes = bytes_of(alloc, files, RunFile::Schedule, name)?;
    match run_texts::read_schedule(alloc, &bytes, config) {
        Ok(events) => Ok(events),
        Err(error) => Err(Fault::of_schedule(error)),
    }
}

/// The trace whose report a file is.
pub fn report<F: Files>(alloc: Global, files: &mut F, name: &str) -> Result<Trace, Fault>
    ensures spelled { IfOk result (λ trace. IfSome (content (F.held files.old) name.now)
        (λ bytes. SpellsReport bytes trace)) }
    ensures regular { IfOk result IsRegular }
    ensures cause { IfErr result (λ fault. (config : Config)
        → IsFileCause RunFile.Report config (content (F.held files.old) name.now)
        (F.faults files.old name.now) (F.faults files.new name.now) fault) }
    ensures kept { F.held files.new ≡ F.held files.old }
    ensures never_falls { (other : List ℕ) → F.faults files.old other ≤ F.faults files.new other }
{
    let bytes = bytes_of(alloc, files, RunFile::Report, name)?;
    Ok(report_text::read_report(alloc, &bytes)?)
}
