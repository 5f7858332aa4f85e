ghost use Rattle.std.specs.Prelude.{◌≡◌, ◌≢◌};
ghost use Rattle.lf_model.specs.declared.setup.Actor.TheVariants.{Scrub};
ghost use Rattle.run_texts.specs.Text.{fields};
ghost use Rattle.run_texts.specs.EventLine.{actor_of, times};
ghost use Rattle.run_texts.specs.Answer.{IsEventOrFault};
ghost use Rattle.run_texts.specs.Grammar.{IsLineAnswer};
ghost use Rattle.run_texts.specs.Schedule.{event_lines, IsEventBehind};

use crate::error::TextWhy;
use crate::fields::{Fields, is_comment};
use crate::numbers::decimal;
use lf_model::config::Config;
use lf_model::setup::{Actor, Event};

/// The count of a line that has none.
const ONCE: &[u8] = b"1";

/// The most times that an event of one line comes.
const MOST_TIMES: u64 = 8_000_000;

/// The actor that the first field of a line names.
#[tactic(auto, unfolding(crate::specs::EventLine::actor_of))]
fn actor_of(word: &[u8]) -> Option<Actor>
    ensures { result ≡ actor_of word.now }
{
    match word {
        b"core" => Some(Actor::Core),
        b"drain" => Some(Actor::Drain),
        b"scrub" => Some(Actor::Scrub),
        _ => None,
    }
}

/// Whether an event may come so often.
fn is_count(count: u64) -> bool
    ensures { result ≡ times.is_in_range count }
{
    1 <= count && count <= MOST_TIMES
}

/// The step or drain of a core that the fields behind `core` or `drain` spell, or else their first fault.
fn core_event(mut fields: Fields, config: &Config, actor: Actor) -> Result<Event, TextWhy>
    requires of_core { actor ≢ Scrub }
    ensures { IsEventOrFault config.now actor fields.entry result }
{
    let core = fields.next().ok_or(TextWhy::Count)?;
    let count = fields.next().unwrap_or(ONCE);
    if fields.next().is_some() {
        return Err(TextWhy::Count);
    }
    let core = decimal(core).ok_or(TextWhy::Number)?;
    let count = decimal(count).ok_or(TextWhy::Number)?;
    if core >= u64::from(config.cores) || !is_count(count) {
        return Err(TextWhy::Range);
    }
    Ok(Event {
        actor,
        core: core as u32,
        count: count as u32,
    })
}

/// The turns of the scrubber that the fields behind `scrub` spell, or else their first fault.
fn scrubber_event(mut fields: Fields, config: &Config) -> Result<Event, TextWhy>
    ensures { IsEventOrFault config.now Scrub fields.entry result }
{
    let count = fields.next().unwrap_or(ONCE);
    if fields.next().is_some() {
        return Err(TextWhy::Count);
    }
    let count = decimal(count).ok_or(TextWhy::Number)?;
    if !is_count(count) {
        return Err(TextWhy::Range);
    }
    Ok(Event {
        actor: Actor::Scrub,
        core: 0,
        count: count as u32,
    })
}

/// The event of an actor that the fields behind the first one spell, or else their first fault.
fn event(actor: Actor, fields: Fields, config: &Config) -> Result<Event, TextWhy>
    ensures { IsEventOrFault config.now actor fields.entry result }
{
    match actor {
        Actor::Core | Actor::Drain => core_event(fields, config, actor),
        Actor::Scrub => scrubber_event(fields, config),
    }
}

/// The event that a line spells, `None` where the line is empty or a comment, or else its first fault.
#[tactic(auto, unfolding(crate::specs::EventLine::fault_of, crate::specs::EventLine::event_of))]
pub fn read_event(line: &[u8], config: &Config) -> Result<Option<Event>, TextWhy>
    ensures { IsLineAnswer (event_lines config.now) (IsEventBehind config.now) 0 (fields line.now) result }
{
    let mut fields = Fields::new(line);
    let Some(first) = fields.next() else {
        return Ok(None);
    };
    if is_comment(first) {
        return Ok(None);
    }
    let actor = actor_of(first).ok_or(TextWhy::Word)?;
    let event = event(actor, fields, config)?;
    Ok(Some(event))
}
