//! Which action of pfctl's the parameters of a listing ask for.

ghost use Rattle.std.specs.Prelude.{◌≡◌, [], IfOk, map, option_map, codes};
ghost use Rattle.pf_arguments.specs.Answers.{Answers};
ghost use Rattle.pf_arguments.specs.Asked.{path_given, table_given, asked};
ghost use Rattle.pf_arguments.specs.inner.Answers.{PathGiven};
ghost use Rattle.node_requests.specs.Routing.{showing, on_table, looked_up};
ghost use Rattle.node_requests.specs.inner.Parameters.{pairs_of};

use crate::query::{Parameter, value_of};
use pf_arguments::{Action, CommandFault, Path, TableName, read_addresses};
use pf_config::{ConfigFault, parse_path};
use std::alloc::{AllocError, Global};

/// The action that a listing asks for, or why it is refused.
type Listed = Result<Action, CommandFault>;

/// The path of `a`, the main ruleset's without it.
fn path_in(alloc: Global, given: &[Parameter]) -> Result<Path, CommandFault>
    ensures { PathGiven result (path_given (showing (pairs_of given.now) [])) }
{
    match parse_path(alloc, value_of("a", given).unwrap_or("")) {
        Ok(path) => Ok(path),
        Err(ConfigFault::Memory) => Err(CommandFault::Memory),
        Err(_) => Err(CommandFault::BadPath),
    }
}

/// The name of `t`, if it is a table's name.
fn table_in(alloc: Global, given: &[Parameter]) -> Result<Option<TableName>, AllocError>
    ensures { IfOk result (λ name. name ≡ table_given (on_table (pairs_of given.now) [] [])) }
{
    match value_of("t", given) {
        Some(text) => TableName::new(alloc, text.as_bytes()),
        None => Ok(None),
    }
}

/// The rules of an anchor.
#[tactic(auto, unfolding(pf_arguments::specs::Asked::asked))]
pub(crate) fn rules(alloc: Global, given: &[Parameter]) -> Listed
    ensures { Answers result (asked (showing (pairs_of given.now) (codes "rules")) []) }
{
    Ok(Action::ShowRules(path_in(alloc, given)?))
}

/// The names of an anchor's tables.
#[tactic(auto, unfolding(pf_arguments::specs::Asked::asked))]
pub(crate) fn tables(alloc: Global, given: &[Parameter]) -> Listed
    ensures { Answers result (asked (showing (pairs_of given.now) (codes "Tables")) []) }
{
    Ok(Action::ShowTables(path_in(alloc, given)?))
}

/// A table's entries.
#[tactic(auto, unfolding(pf_arguments::specs::Asked::asked))]
pub(crate) fn table(alloc: Global, given: &[Parameter]) -> Listed
    ensures { Answers result (asked (on_table (pairs_of given.now) (codes "show") []) []) }
{
    let table = table_in(alloc, given)?.ok_or(CommandFault::Usage)?;
    Ok(Action::TableShow(path_in(alloc, given)?, table))
}

/// The addresses of a line each, looked up in a table. There are no lines where the body isn't UTF-8.
#[tactic(auto, unfolding(pf_arguments::specs::Asked::asked))]
pub(crate) fn table_test(alloc: Global, given: &[Parameter], lines: Option<Vec<&str>>) -> Listed
    ensures { Answers result (looked_up (pairs_of given.now) (option_map (λ v. map (λ w. w.now) v.items) lines.entry)) }
{
    let lines = lines.ok_or(CommandFault::Usage)?;
    let table = table_in(alloc, given)?.ok_or(CommandFault::Usage)?;
    if lines.is_empty() {
        return Err(CommandFault::Usage);
    }
    let path = path_in(alloc, given)?;
    Ok(Action::TableTest(path, table, read_addresses(alloc, &lines)?))
}
