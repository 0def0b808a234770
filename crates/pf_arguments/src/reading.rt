//! From matches to what they ask for.

ghost use Rattle.std.specs.Prelude.{◌≡◌, ◌||◌, Err, IfOk, is_some, map, length, nat_lt, true};
ghost use Rattle.std.specs.Option.{option_copied};
ghost use Rattle.clap.specs.Words.{found_of, rows_of};
ghost use Rattle.pf_entry.specs.Owned.{command_value};
ghost use Rattle.pf_arguments.specs.Asked.{given_in, asked, change, whole_action, table_action, whole_asked};
ghost use Rattle.pf_arguments.specs.Asked.{table_asked};
ghost use Rattle.pf_arguments.specs.Asked.{path_given, table_given, may_have};
ghost use Rattle.pf_arguments.specs.Answers.{Answers, IsShort};
ghost use Rattle.pf_arguments.specs.declared.fault.CommandFault.TheVariants.{Usage};
ghost use Rattle.pf_arguments.specs.inner.Answers.{given_of, PathGiven};

use crate::action::Action;
use crate::addresses::{entries, read_addresses};
use crate::chosen::{AnchorOperation, Operation, TableOperation, operation_of};
use crate::fault::CommandFault;
use crate::given::Given;
use clap::ArgMatches;
use pf_config::{ConfigFault, parse_path};
use pf_entry::{Command, EncodeFault, Path, Profile, SomeAddresses, TableName, encode_asked};
use pf_rules::is_table_name;
use std::alloc::{AllocError, Global};

/// What is asked for, or why it is not understood.
type Answer = Result<Action, CommandFault>;

/// The command, unless no entry of it has a spelling.
fn change(alloc: Global, command: Command) -> Answer
    ensures answer { Answers result (change (command_value command)) }
    ensures short { IfOk result IsShort }
{
    match encode_asked(alloc, 0, 0, &command) {
        Ok(_bytes) => Ok(Action::Change(command)),
        Err(EncodeFault::TooLong) => Err(CommandFault::TooLong),
        Err(EncodeFault::Memory) => Err(CommandFault::Memory),
    }
}

/// The path of `-a`, the main ruleset's without it.
fn path_given(alloc: Global, given: Given<'_, '_>) -> Result<Path, CommandFault>
    ensures { PathGiven result (path_given (given_of given.entry)) }
{
    let text = given.path.unwrap_or("");
    match parse_path(alloc, text) {
        Ok(path) => Ok(path),
        Err(ConfigFault::Memory) => Err(CommandFault::Memory),
        Err(_) => Err(CommandFault::BadPath),
    }
}

/// Whether `-t` gives a table's name.
fn names_table(given: Given<'_, '_>) -> bool
    ensures { result ≡ is_some (table_given (given_of given.entry)) }
{
    given
        .table
        .is_some_and(|text| is_table_name(Profile::One, text.as_bytes()))
}

/// Whether `-t` or addresses are given.
fn concerns_table(given: Given<'_, '_>) -> bool
    ensures { result ≡ (is_some (given_of given.entry).table || nat_lt 0 (length (given_of given.entry).addresses)) }
{
    given.table.is_some() || !given.addresses.is_empty()
}

/// The name of `-t`, if it is a table's name.
fn table_given(alloc: Global, given: Given<'_, '_>) -> Result<Option<TableName>, AllocError>
    ensures { IfOk result (λ name. name ≡ table_given (given_of given.entry)) }
{
    match given.table {
        Some(text) => TableName::new(alloc, text.as_bytes()),
        None => Ok(None),
    }
}

/// What is done with an anchor as a whole.
fn whole_action(alloc: Global, operation: AnchorOperation, path: Path, text: &[u8]) -> Answer
    ensures answer { Answers result (whole_action operation path text.now) }
    ensures short { IfOk result IsShort }
{
    match operation {
        AnchorOperation::Load => {
            let text = Vec::from_slice(alloc, text)?;
            change(alloc, Command::Load(path, Profile::Two, text))
        }
        AnchorOperation::Check => Ok(Action::CheckOnly(path)),
        AnchorOperation::FlushRules => change(alloc, Command::FlushRules(path)),
        AnchorOperation::FlushTables => change(alloc, Command::FlushTables(path)),
        AnchorOperation::FlushAll => change(alloc, Command::FlushAll(path)),
        AnchorOperation::ShowRules => Ok(Action::ShowRules(path)),
        AnchorOperation::ShowTables => Ok(Action::ShowTables(path)),
        AnchorOperation::ShowAnchors => Ok(Action::ShowAnchors),
    }
}

/// What is done with a table.
fn table_action(
    alloc: Global,
    operation: TableOperation,
    path: Path,
    table: TableName,
    addresses: &[&str],
) -> Answer
    requires { may_have operation (length addresses.now) ≡ true }
    ensures answer { Answers result (table_action operation path table (map (λ w. w.now) addresses.now)) }
    ensures short { IfOk result IsShort }
{
    match operation {
        TableOperation::Add => {
            let items = entries(alloc, addresses)?;
            let addresses = SomeAddresses { items };
            change(alloc, Command::Add(path, table, addresses))
        }
        TableOperation::Delete => {
            let items = entries(alloc, addresses)?;
            let addresses = SomeAddresses { items };
            change(alloc, Command::Delete(path, table, addresses))
        }
        TableOperation::Replace => {
            let addresses = entries(alloc, addresses)?;
            change(alloc, Command::Replace(path, table, addresses))
        }
        TableOperation::Flush => change(alloc, Command::FlushTable(path, table)),
        TableOperation::Show => Ok(Action::TableShow(path, table)),
        TableOperation::Test => {
            let list = read_addresses(alloc, addresses)?;
            Ok(Action::TableTest(path, table, list))
        }
    }
}

/// The action of an operation that isn't on a table: neither `-t` nor addresses are given with it.
#[tactic(auto, using(crate::proofs::NeverUsage::never_whole))]
fn whole_asked(
    alloc: Global,
    operation: AnchorOperation,
    given: Given<'_, '_>,
    text: &[u8],
) -> Answer
    ensures answer { Answers result (whole_asked operation (given_of given.entry) text.now) }
    ensures first { whole_asked operation (given_of given.entry) text.now ≡ Err Usage → result ≡ Err Usage }
    ensures short { IfOk result IsShort }
{
    if concerns_table(given) {
        return Err(CommandFault::Usage);
    }
    let path = path_given(alloc, given)?;
    whole_action(alloc, operation, path, text)
}

/// The action of an operation on a table: `-t` names the table, and there are as many addresses as the operation may
/// have.
#[tactic(auto, using(crate::proofs::NeverUsage::never_table))]
fn table_asked(alloc: Global, operation: TableOperation, given: Given<'_, '_>) -> Answer
    ensures answer { Answers result (table_asked operation (table_given (given_of given.entry)) (given_of given.entry)) }
    ensures first { table_asked operation (table_given (given_of given.entry)) (given_of given.entry) ≡ Err Usage →
        result ≡ Err Usage }
    ensures short { IfOk result IsShort }
{
    if !names_table(given) || !operation.may_have(given.addresses.len()) {
        return Err(CommandFault::Usage);
    }
    let Some(table) = table_given(alloc, given)? else {
        return Err(CommandFault::Usage);
    };
    let path = path_given(alloc, given)?;
    table_action(alloc, operation, path, table, given.addresses)
}

/// What the matches of pfctl's arguments ask for; `text` is what the file of `-f` has.
///
/// Faults in this order: 40 of options that don't go together, 24 of a path, 1 to 3 of an address (where several have
/// one, the lowest), 41 of a change that is too long for an entry. A ruleset is loaded by the second profile.
#[tactic(auto, unfolding(crate::specs::Asked::asked))]
pub fn from_matches(
    alloc: Global,
    matches: &ArgMatches<'_>,
    text: &[u8],
) -> Result<Action, CommandFault>
    ensures answer { Answers result (asked (given_in (rows_of (found_of matches.now))) text.now) }
    ensures first { asked (given_in (rows_of (found_of matches.now))) text.now ≡ Err Usage → result ≡ Err Usage }
    ensures short { IfOk result IsShort }
{
    let given = Given::of(matches);
    match operation_of(given) {
        None => Err(CommandFault::Usage),
        Some(Operation::Whole(operation)) => whole_asked(alloc, operation, given, text),
        Some(Operation::OnTable(operation)) => table_asked(alloc, operation, given),
    }
}
