//! What a command on a table counts.

ghost use Rattle.std.specs.Prelude.{◌≡◌, length, IfOk};
ghost use Rattle.pf_tables.specs.Contents.{contents_of};
ghost use Rattle.pf_command.specs.Effect.{contents_at};
ghost use Rattle.pf_command.specs.inner.Answers.{Counts};

use crate::commands::Applied;
use pf_config::{Config, Table};
use pf_rules::{Name, TableEntry, TableName};
use std::alloc::{AllocError, Global};

/// How many entries the path's table has: none where there is no such table.
pub(crate) fn entry_count(config: &Config, path: &[Name], name: &TableName) -> usize
    ensures { result ≡ length (contents_at config.now path.now name.now) }
{
    let table = config.table(path, name.as_str());
    table.map_or(0, |table| table.entry_count())
}

/// What a list in place of the contents of the path's table counts: made before the change, so that a refused growth
/// changes nothing.
#[tactic(auto, using(crate::proofs::Contents::counts_new))]
pub(crate) fn replaced(
    alloc: Global,
    config: &Config,
    path: &[Name],
    name: &TableName,
    list: &[TableEntry],
) -> Result<Applied, AllocError>
    ensures { IfOk result (λ n. Counts n (contents_at config.now path.now name.now) (contents_of list.now)) }
{
    let new = Table::of(alloc, true, false, list)?;
    match config.table(path, name.as_str()) {
        Some(old) => {
            let added = new.count_without(alloc, old)?;
            let removed = old.count_without(alloc, &new)?;
            Ok(Applied { added, removed })
        }
        None => Ok(Applied {
            added: new.entry_count(),
            removed: 0,
        }),
    }
}
