//! A file of settings that was read.

ghost use Rattle.std.specs.Prelude.{◌≡◌, Some, None, map, option_map, option_and_then, IfOk, IfErr};
ghost use Rattle.toml.specs.Data.{no_members, as_str, get_member};
ghost use Rattle.toml.specs.Parse.{parse_document};
ghost use Rattle.toml.specs.View.{view, table_view, items_view};
ghost use Rattle.cli_files.specs.Settings.{first_wrong, number_of, flag_at, texts_of, texts_at, IsRefused};
ghost use Rattle.cli_files.specs.Files.{settings_of};

use crate::kinds::{is_setting, kind_of, number_of};
use crate::lines::{line_at, line_of};
use crate::settings_fault::FileFault;
use std::alloc::{AllocError, Global};
use toml::{Table, Value, table_from_slice};

/// The settings of a file. Each key names a setting, and its value is one that the setting takes.
#[derive(Drop)]
pub struct NodeFile {
    table: Table,
}

/// The first key, in the order of the keys' bytes, that names no setting or has a value that it doesn't take.
fn first_wrong(table: &Table) -> Option<&str>
    ensures { option_map (λ k. k.now) result ≡ first_wrong (table_view table.now) }
{
    'keys: for (key, value) in table.iter() {
        if !is_setting(key.as_str(), value) {
            return Some(key.as_str());
        }
    }
    None
}

impl NodeFile {
    /// A file without any setting.
    pub fn empty(alloc: Global) -> NodeFile
        ensures { settings_of result ≡ no_members }
    {
        let table = Table::new(alloc);
        NodeFile { table }
    }

    /// The settings that a string has, which is TOML in UTF-8. `Syntax` where it isn't, `Unknown` of a key that names
    /// no setting, `Value` of one whose value the setting doesn't take; of these the first key by its bytes.
    pub fn read(alloc: Global, text: &[u8]) -> Result<NodeFile, FileFault>
        ensures settings { IfOk result (λ f. parse_document text.now ≡ Some (settings_of f)) }
        ensures all { IfOk result (λ f. first_wrong (settings_of f) ≡ None) }
        ensures refused { IfErr result (λ fault. IsRefused fault text.now) }
    {
        let table = table_from_slice(alloc, text).map_err(|error| match error.span() {
            Some(span) => FileFault::Syntax(line_at(text, span.start)),
            None => FileFault::Memory,
        })?;
        let Some(key) = first_wrong(&table) else {
            return Ok(NodeFile { table });
        };
        let line = line_of(text, key);
        Err(kind_of(key).map_or(FileFault::Unknown(line), |_| FileFault::Value(line)))
    }

    /// The text of a setting, if the file has one.
    pub fn text(&self, name: &str) -> Option<&str>
        ensures { option_map (λ s. s.now) result ≡ option_and_then as_str (get_member name.now (settings_of self.now)) }
    {
        value_at(&self.table, name)?.as_str()
    }

    /// The number of a setting, if the file has one.
    pub fn number(&self, name: &str) -> Option<u64>
        ensures { result ≡ option_and_then number_of (get_member name.now (settings_of self.now)) }
    {
        number_of(value_at(&self.table, name)?)
    }

    /// Whether a setting is `true`.
    pub fn flag(&self, name: &str) -> bool
        ensures { result ≡ flag_at (get_member name.now (settings_of self.now)) }
    {
        value_at(&self.table, name).is_some_and(|value| matches!(value.as_bool(), Some(true)))
    }

    /// The strings of a setting's list; none where the file doesn't have it.
    pub fn texts(&self, alloc: Global, name: &str) -> Result<Vec<&str>, AllocError>
        ensures { IfOk result (λ v. map (λ s. s.now) v.items ≡ texts_at (get_member name.now (settings_of self.now))) }
    {
        let values = value_at(&self.table, name).and_then(|value| value.as_array());
        texts_in(alloc, values.map_or(&[], |values| values.as_slice()))
    }
}

/// The strings among values.
fn texts_in(alloc: Global, values: &[Value]) -> Result<Vec<&str>, AllocError>
    ensures { IfOk result (λ v. map (λ s. s.now) v.items ≡ texts_of (items_view values.now)) }
{
    let mut texts = Vec::new(alloc);
    for value in values {
        if let Value::String(text) = value {
            texts.push(text.as_str())?;
        }
    }
    Ok(texts)
}

/// The value of a key.
fn value_at<'t>(table: &'t Table, key: &str) -> Option<&'t Value>
    ensures { option_map (λ v. view v.now) result ≡ get_member key.now (table_view table.now) }
{
    table.get(key)
}
