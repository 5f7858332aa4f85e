//! What a value of TOML is: an integer, a number, or an array of these.
ghost use Rattle.std.specs.Prelude.{◌≡◌, map, IfOk};
ghost use Rattle.std.specs.List.{list_all, filter_map};
ghost use Rattle.toml.specs.View.{view};
ghost use Rattle.run_texts.specs.Keys.{row};
ghost use Rattle.run_texts.specs.Document.{elements, number};
ghost use Rattle.run_texts.specs.Configuration.{is_integer, is_of_kind, is_number, is_within};

use crate::keys::{Key, Kind};
use lf_model::config::Config;
use std::alloc::{AllocError, Global};
use toml::Value;

/// The number that a value is, where it is an integer below 2^32.
pub fn number(value: &Value) -> Option<u32>
    ensures { result ≡ number (view value.now) }
{
    let integer = value.as_integer()?;
    u32::try_from(integer).ok()
}

/// The values of an array, and of any other value none.
pub fn elements(value: &Value) -> &[Value]
    ensures { map view result.now ≡ elements (view value.now) }
{
    match value.as_array() {
        Some(array) => array.as_slice(),
        None => &[],
    }
}

/// The numbers among values.
pub fn numbers(alloc: Global, values: &[Value]) -> Result<Vec<u32>, AllocError>
    ensures { IfOk result (λ numbers. numbers.items ≡ filter_map (λ value. number (view value)) values.now) }
{
    values.iter().filter_map(number).collect(alloc)
}

/// Whether a value is an integer, of whatever size.
fn is_integer(value: &Value) -> bool
    ensures { result ≡ is_integer (view value.now) }
{
    value.as_integer().is_some()
}

/// Whether all values are integers.
fn are_integers(values: &[Value]) -> bool
    ensures { result ≡ list_all (λ value. is_integer (view value)) values.now }
{
    values.iter().all(is_integer)
}

/// Whether a value is of a kind.
pub fn is_of_kind(kind: Kind, value: &Value) -> bool
    ensures { result ≡ is_of_kind kind (view value.now) }
{
    match kind {
        Kind::Integer { .. } => is_integer(value),
        Kind::Integers { .. } => value.as_array().is_some() && are_integers(elements(value)),
    }
}

/// Whether a value is a number in the range of a key, where the keys before it have the values of this configuration.
fn is_in_range(key: Key, config: &Config, value: &Value) -> bool
    ensures { result ≡ is_number ((row key).is_in_range config.now) (view value.now) }
{
    match number(value) {
        Some(number) => key.is_in_range(number, config),
        None => false,
    }
}

/// Whether all values are such numbers.
fn are_in_range(key: Key, config: &Config, values: &[Value]) -> bool
    ensures { result ≡ list_all (λ value. is_number ((row key).is_in_range config.now) (view value)) values.now }
{
    values.iter().all(|value| is_in_range(key, config, value))
}

/// Whether a value of the kind of a key is in its range, where the keys before it have the values of this
/// configuration.
pub fn is_within(key: Key, config: &Config, value: &Value) -> bool
    ensures { result ≡ is_within (row key).kind ((row key).is_in_range config.now) (view value.now) }
{
    match key.kind() {
        Kind::Integer { .. } => is_in_range(key, config, value),
        Kind::Integers { most } => {
            let values = elements(value);
            values.len() <= most && are_in_range(key, config, values)
        }
    }
}
