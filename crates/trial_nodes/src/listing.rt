//! A whole configuration as text.

use pf_config::{Config, Table};
use pf_rules::{Name, TableEntry};
use pf_show::show_items;
use std::alloc::{AllocError, Global};

/// A table's entry.
fn push_entry(out: &mut String, entry: &TableEntry) -> Result<(), AllocError> {
    let negation = if entry.negated { "!" } else { "" };
    write!(out, " {negation}{}", entry.prefix)
}

/// A table's entries.
fn push_entries(out: &mut String, entries: &[TableEntry]) -> Result<(), AllocError> {
    for entry in entries {
        push_entry(out, entry)?;
    }
    out.push('\n')
}

/// A table's flags and entries. Whether there was memory for them.
fn push_table(alloc: Global, out: &mut String, table: &Table) -> bool {
    let (persist, is_const) = (table.persist(), table.is_const());
    let Ok(entries) = table.gathered(alloc) else {
        return false;
    };
    write!(out, " {persist} {is_const}").is_ok() && push_entries(out, &entries).is_ok()
}

/// The tables at a path, a line each. Whether there was memory for them.
fn push_tables(alloc: Global, out: &mut String, config: &Config, path: &[Name]) -> bool {
    let Ok(names) = config.table_names(path) else {
        return false;
    };
    for name in &names {
        let is_pushed = match config.table(path, name) {
            Some(table) => out.push_str(name).is_ok() && push_table(alloc, out, table),
            None => false,
        };
        if !is_pushed {
            return false;
        }
    }
    true
}

/// A path's rules, a line each. Whether there was memory for them.
fn push_rules(alloc: Global, out: &mut String, config: &Config, path: &[Name]) -> bool {
    match show_items(alloc, config.items(path)) {
        Ok(rules) => out.push_str(rules.as_str()).is_ok(),
        Err(_) => false,
    }
}

/// A path by its names, each behind a slash.
fn push_path(out: &mut String, path: &[Name]) -> Result<(), AllocError> {
    for name in path {
        write!(out, "/{}", name.as_str())?;
    }
    out.push('\n')
}

/// What is at each path. Whether there was memory for that.
fn push_all(alloc: Global, out: &mut String, config: &Config) -> bool {
    let Ok(paths) = config.paths() else {
        return false;
    };
    for path in &paths {
        let is_pushed = push_path(out, path).is_ok()
            && push_rules(alloc, out, config, path)
            && push_tables(alloc, out, config, path);
        if !is_pushed {
            return false;
        }
    }
    true
}

/// The interfaces that are skipped, in a line.
fn push_skip(out: &mut String, config: &Config) -> Result<(), AllocError> {
    for interface in config.skip() {
        write!(out, "{} ", interface.as_str())?;
    }
    out.push('\n')
}

/// What is at each path of a configuration: its names, its rules, its tables; and first the interfaces that are
/// skipped. Two configurations with one text are equal. None where memory is out.
fn listing(alloc: Global, config: &Config) -> Option<String> {
    let mut out = String::new(alloc);
    if push_skip(&mut out, config).is_ok() && push_all(alloc, &mut out, config) {
        Some(out)
    } else {
        None
    }
}

/// Whether two configurations have one text.
pub(crate) fn are_equal(alloc: Global, one: &Config, other: &Config) -> bool {
    let Some(one) = listing(alloc, one) else {
        return false;
    };
    match listing(alloc, other) {
        Some(other) => one.as_str() == other.as_str(),
        None => false,
    }
}
