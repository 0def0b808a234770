//! A run of `show`.

ghost use Rattle.std.specs.Prelude.{map};
ghost use Rattle.clap.specs.Words.{found_of, rows_of};
ghost use Rattle.cli_show.specs.Arguments.{given_of};
ghost use Rattle.cli_show.specs.Running.{Asks, Ran, result_of};
ghost use Rattle.cli_show.specs.declared.wanted.Kind.TheVariants as kind;

use crate::arguments::command;
use crate::file::Stores;
use crate::outcome::{Outcome, write_outcome};
use crate::shown::Wanted;
use crate::store::Closed;
use crate::wanted::{Kind, kind_of, rest_of};
use clap::ArgMatches;
use cli_io::{Sources, Status, given_in, misused, number_in, out_of_memory, value_in};
use cli_nft::read_file;
use pf_arguments::{USAGE, from_matches};
use std::alloc::Global;
use std::convert::AsStr;
use std::io::Write;

/// What is shown of a store.
fn shown<RT: Stores>(rt: &RT, alloc: Global, store: &str, wanted: Wanted<'_>) -> Outcome
    ensures { RT.answers rt.now store.now wanted.entry (result_of result) }
{
    match rt.show_at(alloc, store, wanted) {
        Ok(shown) => Outcome::Shown(shown),
        Err(Closed::Memory) => Outcome::Memory,
        Err(Closed::Refused(code)) => Outcome::Refused(code),
    }
}

/// What the arguments give; 40 without packets, and where no file of interfaces is named.
fn outcome_of<RT: Stores + Sources>(rt: &RT, alloc: Global, matches: &ArgMatches<'_>) -> Outcome
    ensures { Asks (RT.answers rt.now) (RT.has rt.now) (rows_of (found_of matches.now)) result }
{
    let Some(kind) = kind_of(matches) else {
        return Outcome::Refused(USAGE);
    };
    let Some(store) = value_in(matches, "store") else {
        return Outcome::Refused(USAGE);
    };
    match kind {
        Kind::Nft => {
            let Some(file) = value_in(matches, "interfaces") else {
                return Outcome::Refused(USAGE);
            };
            let Ok(text) = read_file(rt, alloc, file) else {
                return Outcome::Memory;
            };
            let interfaces = text.as_deref();
            shown(rt, alloc, store, Wanted::Nft { interfaces })
        }
        Kind::Texts => shown(rt, alloc, store, Wanted::Texts),
        Kind::Script => shown(rt, alloc, store, Wanted::Script),
        Kind::Figures => shown(rt, alloc, store, Wanted::Figures),
        Kind::Log => {
            let from = number_in(matches, "from");
            let count = number_in(matches, "count");
            shown(rt, alloc, store, Wanted::Log { from, count })
        }
        Kind::Packets => match rest_of(matches) {
            [_, packets @ ..] => shown(rt, alloc, store, Wanted::Packets(packets)),
            [] => Outcome::Refused(USAGE),
        },
        Kind::Listing => match from_matches(alloc, matches, &[]) {
            Ok(action) => shown(rt, alloc, store, Wanted::Listing(&action)),
            Err(fault) => fault.code().map_or(Outcome::Memory, Outcome::Refused),
        },
    }
}

/// What the subcommand `show` asks for, the program's name first: what a node's store holds, which no node has open and
/// which isn't changed. It is written as `show_store` has it, or `refused CODE`: the numbers of
/// [`Closed`](crate::Closed), or 40 for arguments that don't go together. Other arguments are refused.
pub fn run_show<RT: Stores + Sources, S: AsStr, W: Write>(
    rt: &RT,
    alloc: Global,
    arguments: &[S],
    writer: &mut W,
) -> Status
    ensures { Ran (RT.answers rt.now) (RT.has rt.now) (given_of (map S.text arguments.now)) result
        (W.contents writer.old) (W.contents writer.new) }
{
    let Ok(command) = command(alloc) else {
        return out_of_memory(writer);
    };
    let matches = match command.try_get_matches_from(arguments) {
        Ok(matches) => matches,
        Err(error) => return misused(alloc, &error, writer),
    };
    let Some(inner) = given_in(&matches, "show") else {
        return Status::Usage;
    };
    write_outcome(alloc, outcome_of(rt, alloc, inner), writer)
}
