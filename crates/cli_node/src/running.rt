//! A run of `node`, `ask` or `key`.

ghost use Rattle.std.specs.Prelude.{map, []};
ghost use Rattle.clap.specs.Words.{subcommand_rows_of};
ghost use Rattle.cli_io.specs.Sources.{IsText};
ghost use Rattle.cli_node.specs.Arguments.{given_of};
ghost use Rattle.cli_node.specs.Running.{AskGives, IsOutcome, KeyGives, Ran};
ghost use Rattle.cli_node.specs.Doing.{Adds};
ghost use Rattle.cli_node.specs.Settled.{IsNode};

use crate::ask::{AskArguments, Client, ask_outcome};
use crate::key::{NewFiles, key_outcome};
use crate::options::{command, names_config};
use crate::outcome::{Outcome, write_outcome};
use crate::settings::{Nodes, settled_outcome};
use clap::ArgMatches;
use cli_files::RandomBytes;
use cli_io::{INVALID_ARGUMENTS, Sources, Status, given_in, misused, out_of_memory, value_in};
use std::alloc::Global;
use std::convert::AsStr;
use std::io::{Eprint, Read, Write};

/// What the matches give; none where another subcommand is named.
fn outcome_of<RT: RandomBytes + Eprint + Sources, N: Nodes, C: Client, F: NewFiles, R: Read>(
    rt: &RT,
    nodes: &mut N,
    client: &mut C,
    files: &mut F,
    alloc: Global,
    matches: &ArgMatches<'_>,
    reader: &mut R,
) -> Option<Outcome>
    ensures { IsOutcome (Adds (N.did nodes.old) (N.did nodes.new) []) (Adds (C.went client.old) (C.went client.new) [])
        (Adds (F.made files.old) (F.made files.new) [])
        (IsNode (Adds (N.did nodes.old) (N.did nodes.new)) (RT.has rt.now))
        (KeyGives (RT.gives rt.now) (Adds (F.made files.old) (F.made files.new)))
        (AskGives C.Wire.traffic (C.reaches client.old) (C.is_unreached client.old)
        (Adds (C.went client.old) (C.went client.new)) (IsText (RT.has rt.now) (R.remaining reader.old)))
        (subcommand_rows_of matches.now) result }
{
    if let Some(inner) = given_in(matches, "node") {
        return Some(settled_outcome(rt, nodes, alloc, inner));
    }
    if let Some(inner) = given_in(matches, "key") {
        return Some(key_outcome(rt, files, alloc, value_in(inner, "file")));
    }
    let inner = given_in(matches, "ask")?;
    let Some(arguments) = AskArguments::of(inner) else {
        return Some(Outcome::Refused(INVALID_ARGUMENTS));
    };
    match ask_outcome(rt, client, alloc, arguments, inner, reader) {
        Ok(outcome) | Err(outcome) => Some(outcome),
    }
}

/// What the subcommands `node`, `ask` and `key` ask for, the program's name first, with the input and the output that
/// are lent. `nodes` runs a node, `client` makes the wire over which one is asked, `files` a key's file: for the system
/// each is its handle.
///
/// `node` makes turns of a node over UDP, and writes `front F applied A`, or `refused CODE`; with `--check` it makes
/// none, and writes `ok` where nothing is to be refused. `ask` asks a node to accept a command of pfctl's arguments,
/// and writes `asked N.NUMBER`, `refused CODE` or `no answer`. `key` writes a new key's 64 digits, into a file where
/// one is named. Other arguments are refused. What is printed for people beside that goes to standard error.
pub fn run_net<
    RT: RandomBytes + Eprint + Sources,
    N: Nodes,
    C: Client,
    F: NewFiles,
    S: AsStr,
    R: Read,
    W: Write,
>(
    rt: &RT,
    nodes: &mut N,
    client: &mut C,
    files: &mut F,
    alloc: Global,
    arguments: &[S],
    reader: &mut R,
    writer: &mut W,
) -> Status
    ensures { Ran (Adds (N.did nodes.old) (N.did nodes.new) []) (Adds (C.went client.old) (C.went client.new) [])
        (Adds (F.made files.old) (F.made files.new) [])
        (IsNode (Adds (N.did nodes.old) (N.did nodes.new)) (RT.has rt.now))
        (KeyGives (RT.gives rt.now) (Adds (F.made files.old) (F.made files.new)))
        (AskGives C.Wire.traffic (C.reaches client.old) (C.is_unreached client.old)
        (Adds (C.went client.old) (C.went client.new)) (IsText (RT.has rt.now) (R.remaining reader.old)))
        (given_of (map S.text arguments.now)) result (W.contents writer.old) (W.contents writer.new) }
{
    let Ok(command) = command(alloc, !names_config(arguments)) else {
        return out_of_memory(writer);
    };
    let matches = match command.try_get_matches_from(arguments) {
        Ok(matches) => matches,
        Err(error) => return misused(alloc, &error, writer),
    };
    match outcome_of(rt, nodes, client, files, alloc, &matches, reader) {
        Some(outcome) => write_outcome(alloc, outcome, writer),
        None => Status::Usage,
    }
}
