ghost use Rattle.std.specs.Prelude.{◌≡◌, ℕ, List, All, IfOk, IfErr, Ok, Err, length, count_by};
ghost use Rattle.lf_model.specs.declared.setup.Event.{Event};
ghost use Rattle.run_texts.specs.declared.error.TextWhy.{TextWhy};
ghost use Rattle.run_texts.specs.Text.{rows, is_statement};
ghost use Rattle.run_texts.specs.EventLine.{IsEventOf};
ghost use Rattle.run_texts.specs.Grammar.{IsFirstFault, IsCause};
ghost use Rattle.run_texts.specs.Schedule.{event_lines, IsSchedule};
ghost use Rattle.run_texts.specs.Answer.{IsUnlessMemory};

use crate::error::TextErr;
use crate::event_line::read_event;
use crate::lines::Lines;
use lf_model::config::Config;
use lf_model::listed::Listed;
use lf_model::setup::Event;
use std::alloc::Global;

/// Reads a schedule, for the machine of a configuration.
///
/// A text is read where none of its lines is faulty. Else its first faulty line is told, with the first of its faults.
pub fn read_schedule(alloc: Global, text: &[u8], config: &Config) -> Result<Vec<Event>, TextErr>
    // Where the text is read, no line is faulty, and the events are those that its lines spell.
    ensures read { IfOk result (λ events. IsSchedule config.now text.now events.items) }

    // Else its first faulty line is told, or memory ran out.
    ensures refused { IfErr result (IsCause (event_lines config.now) text.now) }

    // And the other way round.
    ensures schedule { (events : List Event) → IsSchedule config.now text.now events
        → IfErr result (λ err. err ≡ TextErr.Memory) }
    ensures fault { (line : ℕ) (why : TextWhy) → IsFirstFault (event_lines config.now) text.now line why
        → IsUnlessMemory TextErr.Memory (Err (TextErr.At line why)) result }

    // Each line that is neither empty nor a comment spells one event, of an actor of the machine.
    ensures each { IfOk result (λ events. length events.items ≡ count_by is_statement (rows text.now)) }
    ensures of_machine { IfOk result (λ events. All (IsEventOf config.now) events.items) }
{
    let mut events: Listed<Event> = Listed::new(alloc);
    let mut number = 0;
    for line in Lines::new(text) {
        number += 1;
        match read_event(line, config) {
            Ok(None) => {}
            Ok(Some(event)) => events.push(event)?,
            Err(why) => return Err(TextErr::At { line: number, why }),
        }
    }
    Ok(events.into_vec())
}
