//! What arguments ask for.

use pf_addr::Addr;
use pf_entry::{Command, Path, TableName};

/// What the arguments of pfctl ask for.
#[derive(Drop)]
pub enum Action {
    /// A change of the configuration.
    Change(Command),
    /// A ruleset is read for this path and not loaded.
    CheckOnly(Path),
    /// The rules at a path are listed.
    ShowRules(Path),
    /// The names of the tables at a path are listed.
    ShowTables(Path),
    /// The paths of all anchors are listed.
    ShowAnchors,
    /// The entries of a path's own table are listed.
    TableShow(Path, TableName),
    /// Addresses are looked up in a path's own table.
    TableTest(Path, TableName, Vec<Addr>),
}
