ghost use Rattle.std.specs.Prelude.{◌≡◌, ◌≢◌, Err, IfOk};
ghost use Rattle.std.specs.List.{flat_map};
ghost use Rattle.toml.specs.View.{table_view};
ghost use Rattle.run_texts.specs.declared.config_error.ConfigErr.TheVariants.{Memory};
ghost use Rattle.run_texts.specs.Columns.{first_fault};
ghost use Rattle.run_texts.specs.Document.{number_at, numbers_at, config_of};
ghost use Rattle.run_texts.specs.Keys.{IsOfTable};
ghost use Rattle.run_texts.specs.Configuration.{key_faults, fault_of, config_answer};
ghost use Rattle.run_texts.specs.Answer.{IsUnlessMemory};

use crate::config_error::ConfigErr;
use crate::document::{document, has_known_keys, is_misplaced, value_at};
use crate::keys::Key;
use crate::values::{elements, is_of_kind, is_within, number, numbers};
use lf_model::config::{Config, Shape, Words};
use lf_model::image::Range;
use std::alloc::{AllocError, Global};
use toml::Table;

/// The number at a key, or else its default.
#[tactic(auto, unfolding(crate::specs::Document::number_at))]
fn number_at(document: &Table, key: Key) -> u32
    ensures { result ≡ number_at (table_view document.now) key }
{
    value_at(document, key)
        .and_then(number)
        .unwrap_or(key.default())
}

/// The numbers of the array at a key.
#[tactic(auto, unfolding(crate::specs::Document::numbers_at))]
fn numbers_at(alloc: Global, document: &Table, key: Key) -> Result<Vec<u32>, AllocError>
    ensures { IfOk result (λ numbers. numbers.items ≡ numbers_at (table_view document.now) key) }
{
    match value_at(document, key) {
        Some(value) => numbers(alloc, elements(value)),
        None => Ok(Vec::new(alloc)),
    }
}

/// The configuration that a document says.
#[tactic(auto, unfolding(crate::specs::Document::config_of))]
fn config_of(alloc: Global, document: &Table) -> Result<Config, AllocError>
    ensures { IfOk result (λ config. config ≡ config_of (table_view document.now)) }
{
    let watch = numbers_at(alloc, document, Key::Watch)?;
    Ok(Config {
        cores: number_at(document, Key::Cores),
        ram: number_at(document, Key::Ram),
        steps: number_at(document, Key::Steps),
        window: number_at(document, Key::Window),
        buffer: number_at(document, Key::Buffer),
        fetch_cache: Shape {
            ways: number_at(document, Key::FetchWays),
            sets: number_at(document, Key::FetchSets),
        },
        load_cache: Shape {
            ways: number_at(document, Key::LoadWays),
            sets: number_at(document, Key::LoadSets),
        },
        scrub: Range {
            first: number_at(document, Key::ScrubFirst),
            length: number_at(document, Key::ScrubLength),
        },
        scrub_turns: number_at(document, Key::ScrubTurns),
        watch: Words::from_vec(watch),
    })
}

/// The first fault of a document at a key, where the keys before it have the values of this configuration.
fn key_fault(document: &Table, config: &Config, key: Key) -> Option<ConfigErr>
    ensures { result ≡ first_fault (key_faults (table_view document.now) config.now key) }
{
    if is_misplaced(document, key) {
        return Some(ConfigErr::Kind(key));
    }
    let value = value_at(document, key)?;
    if !is_of_kind(key.kind(), value) {
        Some(ConfigErr::Kind(key))
    } else if !is_within(key, config, value) {
        Some(ConfigErr::Range(key))
    } else {
        None
    }
}

/// The first fault of a document at some keys, likewise.
fn first_fault(document: &Table, config: &Config, keys: &[Key]) -> Option<ConfigErr>
    ensures { result ≡ first_fault (flat_map (key_faults (table_view document.now) config.now) keys.now) }
{
    for key in keys {
        if let Some(fault) = key_fault(document, config, *key) {
            return Some(fault);
        }
    }
    None
}

/// The first fault of a document that says this configuration.
#[tactic(auto, unfolding(crate::specs::Configuration::fault_of))]
fn fault_of(document: &Table, config: &Config) -> Option<ConfigErr>
    ensures { result ≡ fault_of (table_view document.now) config.now }
{
    if has_known_keys(document) {
        first_fault(document, config, &Key::ALL)
    } else {
        Some(ConfigErr::Key)
    }
}

/// Reads a configuration: a TOML document in which each key of a table is optional.
///
/// What TOML is, and the value that a text spells, is what the crate `toml` reads. Where the document has a fault the
/// first is told: an unknown key first, then key by key in the order of the table another kind of value, then a value
/// out of range.
#[tactic(auto, unfolding(crate::specs::Configuration::config_answer))]
pub fn read_config(alloc: Global, text: &[u8]) -> Result<Config, ConfigErr>
    // The configuration that the text says at the keys, where it has no fault, or else its first fault.
    ensures answer { IsUnlessMemory Memory (config_answer text.now) result }

    // Want of memory is no fault of a text.
    ensures of_text { config_answer text.now ≢ Err Memory }

    // A configuration is one that the table of keys takes.
    ensures of_table { IfOk result IsOfTable }
{
    let document = document(alloc, text)?;
    let config = config_of(alloc, &document)?;
    match fault_of(&document, &config) {
        Some(fault) => Err(fault),
        None => Ok(config),
    }
}
