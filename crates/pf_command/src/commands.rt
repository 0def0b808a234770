//! A command changes a configuration.

ghost use Rattle.std.specs.Prelude.{◌≡◌, IfOk};
ghost use Rattle.pf_config.specs.Changes as change;
ghost use Rattle.pf_grammar.specs.Reading.{reading};
ghost use Rattle.pf_entry.specs.Seen.{addresses_of, command_of};
ghost use Rattle.pf_command.specs.Effect.{effect, entries_of, place_at, loaded, counted, after_command};
ghost use Rattle.pf_command.specs.Answers.{Applies, Leaves};
ghost use Rattle.pf_command.specs.inner.Answers.{answer_of};

use crate::counts::{entry_count, replaced};
use crate::fault::ApplyFault;
use pf_config::{Config, ConfigFault};
use pf_entry::{Addresses, CommandView, addresses_owned, path_owned, table_owned};
use pf_grammar::{ParseFault, Place, parse};
use pf_rules::{Name, Path, Profile, TableEntry, TableName};
use std::alloc::{AllocError, Global};

/// What a command did, or why it did nothing.
type Done = Result<Applied, ApplyFault>;

/// How many entries, with their signs, were added to a command's table and removed from it; 0 and 0 for loads and for
/// flushes of rules or of all tables.
#[derive(Clone, Copy, PartialEq, Eq)]
pub struct Applied {
    /// How many entries the table has that it didn't have.
    pub added: usize,
    /// How many entries the table had that it hasn't any more.
    pub removed: usize,
}

/// What a command counts that isn't on one table.
const NOTHING: Applied = Applied {
    added: 0,
    removed: 0,
};

/// The answer of a command whose change is made, or refused.
fn answered(changed: Result<(), ConfigFault>, counts: Applied) -> Done
    ensures { result ≡ answer_of changed counts }
{
    changed.map_err(|fault| ApplyFault::of_change(fault))?;
    Ok(counts)
}

/// Where a ruleset for this path is loaded.
pub fn place_at(path: &[Name]) -> Place
    ensures { result ≡ place_at path.now }
{
    if path.is_empty() {
        Place::Main
    } else {
        Place::Anchor
    }
}

/// Loads a ruleset.
#[tactic(auto, using(crate::proofs::Applying::uncounted_applies))]
fn load_text(alloc: Global, config: &mut Config, path: &Path, profile: Profile, text: &[u8]) -> Done
    ensures { Applies result config.old config.new
        (loaded config.old path.now (reading (place_at path.now) profile text.now)) }
{
    match parse(alloc, text, place_at(path.names()), profile) {
        Ok(rules) => answered(config.load(path, rules), NOTHING),
        Err(ParseFault::Memory) => Err(ApplyFault::Memory),
        Err(ParseFault::Refused(refusal)) => Err(ApplyFault::of_text(refusal)),
    }
}

/// Puts entries into a table.
#[tactic(auto, using(crate::proofs::Applying::add_applies))]
fn add(config: &mut Config, path: &Path, name: &TableName, list: &[TableEntry]) -> Done
    ensures { Applies result config.old config.new
        (counted config.old path.now name.now (change.add config.old path.now name.now list.now)) }
{
    let before = entry_count(config, path.names(), name);
    let changed = config.add(path, name, list);
    let added = entry_count(config, path.names(), name).saturating_sub(before);
    answered(changed, Applied { added, removed: 0 })
}

/// Takes entries out of a table.
#[tactic(auto, using(crate::proofs::Applying::delete_applies))]
fn delete(config: &mut Config, path: &Path, name: &TableName, list: &[TableEntry]) -> Done
    ensures { Applies result config.old config.new
        (counted config.old path.now name.now (change.delete config.old path.now name.now list.now)) }
{
    let before = entry_count(config, path.names(), name);
    let changed = config.delete(path, name, list);
    let removed = before.saturating_sub(entry_count(config, path.names(), name));
    answered(changed, Applied { added: 0, removed })
}

/// Makes a list the contents of a table.
#[tactic(auto, using(crate::proofs::Applying::replace_applies))]
fn replace(
    alloc: Global,
    config: &mut Config,
    path: &Path,
    name: &TableName,
    list: &[TableEntry],
) -> Done
    ensures { Applies result config.old config.new
        (counted config.old path.now name.now (change.replace config.old path.now name.now list.now)) }
{
    let counts = replaced(alloc, config, path.names(), name, list)?;
    answered(config.replace(path, name, list), counts)
}

/// Empties a table.
#[tactic(auto, using(crate::proofs::Applying::flush_applies))]
fn flush_table(config: &mut Config, path: &Path, name: &TableName) -> Done
    ensures { Applies result config.old config.new
        (counted config.old path.now name.now (change.flush_table config.old path.now name.now)) }
{
    let removed = entry_count(config, path.names(), name);
    answered(
        config.flush_table(path, name),
        Applied { added: 0, removed },
    )
}

/// Changes the configuration by a command, and answers how many entries were added to its table and removed from it.
///
/// A load reads its text by its profile, for the main ruleset where the path is empty and else for an anchor. A command
/// that is refused, or for which a growth is refused, changes nothing.
#[tactic(auto, using(crate::proofs::Applying::leaves_next, crate::proofs::Applying::uncounted_applies, crate::proofs::Applying::entries_again), unfolding(crate::specs::Effect::effect))]
pub fn apply(
    alloc: Global,
    config: &mut Config,
    command: &CommandView,
) -> Result<Applied, ApplyFault>
    // The counts and the configuration are the effect's, or the refusal is.
    ensures effect { Applies result config.old config.new (effect config.old (command_of command.now)) }
    // The configuration is the one after the command, a refused one too.
    ensures next { Leaves result config.old config.new
        (after_command config.old (command_of command.now)) }
{
    match command {
        CommandView::Load(path, profile, text) => {
            let path = path_owned(alloc, path)?;
            load_text(alloc, config, &path, *profile, text)
        }
        CommandView::FlushRules(path) => {
            let path = path_owned(alloc, path)?;
            answered(config.flush_rules(&path), NOTHING)
        }
        CommandView::FlushTables(path) => {
            let path = path_owned(alloc, path)?;
            answered(config.flush_tables(&path), NOTHING)
        }
        CommandView::FlushAll(path) => {
            let path = path_owned(alloc, path)?;
            answered(config.flush_all(&path), NOTHING)
        }
        CommandView::Add(path, table, addresses) => {
            let path = path_owned(alloc, path)?;
            let table = table_owned(alloc, table)?;
            let list = addresses_owned(alloc, &addresses.items)?;
            add(config, &path, &table, &list)
        }
        CommandView::Delete(path, table, addresses) => {
            let path = path_owned(alloc, path)?;
            let table = table_owned(alloc, table)?;
            let list = addresses_owned(alloc, &addresses.items)?;
            delete(config, &path, &table, &list)
        }
        CommandView::Replace(path, table, addresses) => {
            let path = path_owned(alloc, path)?;
            let table = table_owned(alloc, table)?;
            let list = addresses_owned(alloc, addresses)?;
            replace(alloc, config, &path, &table, &list)
        }
        CommandView::FlushTable(path, table) => {
            let path = path_owned(alloc, path)?;
            let table = table_owned(alloc, table)?;
            flush_table(config, &path, &table)
        }
    }
}
