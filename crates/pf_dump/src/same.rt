//! Whether two configurations are the same.

ghost use Rattle.std.specs.Prelude.{◌≡◌, true, IfOk, map};
ghost use Rattle.std.specs.Option.{option_copied};
ghost use Rattle.pf_dump.specs.Contents.{tables_named, tables_of, content_at, IsSame};

use crate::Made;
use crate::same_rules::{same_interfaces, same_items};
use pf_config::{Config, Table};
use pf_rules::{Name, TableEntry};
use std::alloc::{AllocError, Global};

/// Whether two lists have the same entries in one order.
fn same_entries(a: &[TableEntry], b: &[TableEntry]) -> bool
    ensures same { result ≡ true → a.now ≡ b.now }
    ensures back { a.now ≡ b.now → result ≡ true }
{
    let mut left = a;
    let mut right = b;
    while let [x, xs @ ..] = left {
        let [y, ys @ ..] = right else {
            return false;
        };
        if *x != *y {
            return false;
        }
        left = xs;
        right = ys;
    }
    right.is_empty()
}

/// Whether two tables have the same flags and entries.
fn same_table(alloc: Global, a: &Table, b: &Table) -> Made<bool>
    ensures same { IfOk result (λ s. s ≡ true → a.now ≡ b.now) }
    ensures back { IfOk result (λ s. a.now ≡ b.now → s ≡ true) }
{
    if a.persist() != b.persist() || a.is_const() != b.is_const() {
        return Ok(false);
    }
    let own = a.gathered(alloc)?;
    let others = b.gathered(alloc)?;
    Ok(same_entries(&own, &others))
}

/// The same where there may be none.
fn same_table_if(alloc: Global, a: Option<&Table>, b: Option<&Table>) -> Made<bool>
    ensures same { IfOk result (λ s. s ≡ true → option_copied a.entry ≡ option_copied b.entry) }
    ensures back { IfOk result (λ s. option_copied a.entry ≡ option_copied b.entry → s ≡ true) }
{
    match (a, b) {
        (None, None) => Ok(true),
        (Some(a), Some(b)) => same_table(alloc, a, b),
        _ => Ok(false),
    }
}

/// Whether two lists of strings are the same.
fn same_texts(a: &[&str], b: &[&str]) -> bool
    ensures same { result ≡ true → map (λ x. x.now) a.now ≡ map (λ x. x.now) b.now }
    ensures back { map (λ x. x.now) a.now ≡ map (λ x. x.now) b.now → result ≡ true }
{
    a == b
}

/// Whether the tables of these names are the same at a path.
fn same_named(alloc: Global, a: &Config, b: &Config, path: &[Name], names: &[&str]) -> Made<bool>
    ensures same { IfOk result (λ s. s ≡ true → tables_named a.now path.now (map (λ x. x.now) names.now)
        ≡ tables_named b.now path.now (map (λ x. x.now) names.now)) }
    ensures back { IfOk result (λ s. tables_named a.now path.now (map (λ x. x.now) names.now)
        ≡ tables_named b.now path.now (map (λ x. x.now) names.now) → s ≡ true) }
{
    for name in names {
        if !same_table_if(alloc, a.table(path, name), b.table(path, name))? {
            return Ok(false);
        }
    }
    Ok(true)
}

/// Whether the same tables are at a path.
#[tactic(auto, using(crate::proofs::Contents::names_same))]
fn same_tables(alloc: Global, a: &Config, b: &Config, path: &[Name]) -> Made<bool>
    ensures same { IfOk result (λ s. s ≡ true → tables_of a.now path.now ≡ tables_of b.now path.now) }
    ensures back { IfOk result (λ s. tables_of a.now path.now ≡ tables_of b.now path.now → s ≡ true) }
{
    let names = a.table_names(path)?;
    let others = b.table_names(path)?;
    if !same_texts(&names, &others) {
        return Ok(false);
    }
    same_named(alloc, a, b, path, &names)
}

/// Whether two lists of paths are the same.
fn same_paths(a: &[&[Name]], b: &[&[Name]]) -> bool
    ensures same { result ≡ true → map (λ x. x.now) a.now ≡ map (λ x. x.now) b.now }
    ensures back { map (λ x. x.now) a.now ≡ map (λ x. x.now) b.now → result ≡ true }
{
    a == b
}

/// Whether the same is at each of these paths.
fn same_at_all(alloc: Global, a: &Config, b: &Config, paths: &[&[Name]]) -> Made<bool>
    ensures same { IfOk result (λ s. s ≡ true → map (content_at a.now) (map (λ x. x.now) paths.now)
        ≡ map (content_at b.now) (map (λ x. x.now) paths.now)) }
    ensures back { IfOk result (λ s. map (content_at a.now) (map (λ x. x.now) paths.now)
        ≡ map (content_at b.now) (map (λ x. x.now) paths.now) → s ≡ true) }
{
    for path in paths {
        if !same_items(a.items(path), b.items(path)) || !same_tables(alloc, a, b, path)? {
            return Ok(false);
        }
    }
    Ok(true)
}

/// Whether two configurations skip the same interfaces, and have the same rules and tables at the same paths.
#[tactic(auto, using(crate::proofs::Contents::paths_same))]
pub fn is_same(alloc: Global, a: &Config, b: &Config) -> Result<bool, AllocError>
    ensures same { IfOk result (λ s. s ≡ true → IsSame a.now b.now) }
    ensures back { IfOk result (λ s. IsSame a.now b.now → s ≡ true) }
{
    if !same_interfaces(a.skip(), b.skip()) {
        return Ok(false);
    }
    let paths = a.paths()?;
    let others = b.paths()?;
    if !same_paths(&paths, &others) {
        return Ok(false);
    }
    same_at_all(alloc, a, b, &paths)
}
