//! What a document of TOML has at the keys of a configuration.
ghost use Rattle.std.specs.Prelude.{◌≡◌, Some, None, option_map, string_bytes, IfOk, IfErr, ◌⊎◌};
ghost use Rattle.std.specs.List.{list_all};
ghost use Rattle.std.specs.BTreeMap.{keys};
ghost use Rattle.toml.specs.Data.{get_member};
ghost use Rattle.toml.specs.View.{view, table_view};
ghost use Rattle.run_texts.specs.declared.config_error.ConfigErr.TheVariants.{Text, Memory};
ghost use Rattle.run_texts.specs.Document.{document_of, is_section, is_key, is_known, has_known_keys, entries_of, is_misplaced, value_at};

use crate::config_error::ConfigErr;
use crate::keys::Key;
use std::alloc::Global;
use toml::{Table, Value};

/// The document that a text spells.
#[tactic(auto, unfolding(crate::specs::Document::document_of))]
pub fn document(alloc: Global, text: &[u8]) -> Result<Table, ConfigErr>
    ensures read { IfOk result (λ document. document_of text.now ≡ Some (table_view document)) }
    ensures refused { IfErr result (λ err. (err ≡ Memory) ⊎ ((err ≡ Text) × (document_of text.now ≡ None))) }
{
    match toml::table_from_slice(alloc, text) {
        Ok(document) => Ok(document),
        Err(error) => {
            if error.is_memory() {
                Err(ConfigErr::Memory)
            } else {
                Err(ConfigErr::Text)
            }
        }
    }
}

/// The value of a name in a table.
fn get<'a>(table: &'a Table, name: &str) -> Option<&'a Value>
    ensures { option_map (λ value. view value.now) result ≡ get_member name.now (table_view table.now) }
{
    table.get(name)
}

/// Whether another value than a table is named as the section of a key.
#[tactic(auto, unfolding(crate::specs::Document::is_misplaced))]
pub fn is_misplaced(document: &Table, key: Key) -> bool
    ensures { result ≡ is_misplaced (table_view document.now) key }
{
    let (section, _) = key.place();
    match get(document, section) {
        Some(value) => value.as_table().is_none(),
        None => false,
    }
}

/// The value at a key.
#[tactic(auto, unfolding(crate::specs::Document::value_at))]
pub fn value_at(document: &Table, key: Key) -> Option<&Value>
    ensures { option_map (λ value. view value.now) result ≡ value_at (table_view document.now) key }
{
    let (section, name) = key.place();
    let section = get(document, section)?.as_table()?;
    get(section, name)
}

/// Whether some key has this section.
fn is_section(section: &str) -> bool
    ensures { result ≡ is_section section.now }
{
    Key::ALL.iter().any(|key| key.place().0 == section)
}

/// Whether some key has this section and this name.
fn is_key(section: &str, name: &str) -> bool
    ensures { result ≡ is_key section.now name.now }
{
    Key::ALL.iter().any(|key| key.place() == (section, name))
}

/// Whether all keys of a table are those of a section.
fn are_keys(section: &str, table: &Table) -> bool
    ensures { result ≡ list_all (λ name. is_key section.now (string_bytes name)) (keys table.now) }
{
    table.keys().all(|name| is_key(section, name.as_str()))
}

/// Whether a member of the document is named as a section and, where it is a table, has only keys of that section.
fn is_known(section: &str, value: &Value) -> bool
    ensures { result ≡ is_known (section.now, view value.now) }
{
    is_section(section)
        && match value.as_table() {
            Some(table) => are_keys(section, table),
            None => true,
        }
}

/// Whether the document has no key that the table of keys lacks.
#[tactic(auto, unfolding(crate::specs::Document::has_known_keys))]
pub fn has_known_keys(document: &Table) -> bool
    ensures { result ≡ has_known_keys (table_view document.now) }
{
    for (section, value) in document {
        if !is_known(section.as_str(), value) {
            return false;
        }
    }
    true
}
