//! A run of `check --nft`.

ghost use Rattle.std.specs.Prelude.{◌≡◌, IfOk, IfSome, map, option_map, bytes_eq, codes};
ghost use Rattle.std.specs.List.{list_any};
ghost use Rattle.clap.specs.Words.{found_of, rows_of, first_of};
ghost use Rattle.cli_io.specs.Sources.{IsAt};
ghost use Rattle.cli_nft.specs.Options.{given_of};
ghost use Rattle.cli_nft.specs.Running.{asks_nft, Ran};

use crate::members::members_in;
use crate::options::command;
use crate::outputs::nft_output;
use clap::ArgMatches;
use cli_io::{
    InputFault, Sources, Status, given_in, misused, number_in, out_of_memory, read_all, value_in,
    values_in, write_bytes,
};
use std::alloc::{AllocError, Global};
use std::convert::AsStr;
use std::io::{Read, Write};

/// Whether one of these arguments is `--nft`.
fn has_nft<S: AsStr>(arguments: &[S]) -> bool
    ensures { result ≡ list_any (λ w. bytes_eq w (codes "--nft")) (map S.text arguments.now) }
{
    arguments.iter().any(|it| it.as_str() == "--nft")
}

/// Whether the arguments, the program's name first, are `check` with `--nft` among what follows.
pub fn asks_nft<S: AsStr>(arguments: &[S]) -> bool
    ensures { result ≡ asks_nft (map S.text arguments.now) }
{
    matches!(arguments, [_, first, rest @ ..] if first.as_str() == "check" && has_nft(rest))
}

/// What a file has, none where it can't be read; an error where it is out of memory.
pub type Contents = Result<Option<Vec<u8>>, AllocError>;

/// The text of the file of interfaces, none where it can't be read.
fn interfaces_in<T: Sources>(sources: &T, alloc: Global, inner: &ArgMatches<'_>) -> Contents
    ensures { IfOk result (λ text. IsAt (T.has sources.now)
        (first_of (codes "interfaces") (rows_of (found_of inner.now))) (option_map (λ v. v.items) text)) }
{
    match value_in(inner, "interfaces") {
        Some(path) => read_file(sources, alloc, path),
        None => Ok(None),
    }
}

/// The text at a path, none where it can't be read or is longer than an input may be.
pub fn read_file<T: Sources>(sources: &T, alloc: Global, path: &str) -> Contents
    ensures { IfOk result (λ o. IfSome o (λ text. T.has sources.now path.now text.items)) }
{
    match sources.source_at(alloc, path) {
        Ok(text) => Ok(Some(text)),
        Err(InputFault::Memory) => Err(AllocError),
        Err(InputFault::Failed | InputFault::TooLong) => Ok(None),
    }
}

/// What the arguments `check --nft --interfaces FILE [--members ADDRESS:PORT..] [--position N]` ask for, the program's
/// name first, over this input and output: the ruleset's rules behind the guard of these members as three lines for
/// nft(8), or a refusal. Other arguments are refused.
pub fn run_nft<T: Sources, S: AsStr, R: Read, W: Write>(
    sources: &T,
    alloc: Global,
    arguments: &[S],
    reader: &mut R,
    writer: &mut W,
) -> Status
    ensures { Ran (T.has sources.now) (given_of (map S.text arguments.now)) result (R.remaining reader.old)
        (W.contents writer.old) (W.contents writer.new) }
{
    let Ok(command) = command(alloc) else {
        return out_of_memory(writer);
    };
    let matches = match command.try_get_matches_from(arguments) {
        Ok(matches) => matches,
        Err(error) => return misused(alloc, &error, writer),
    };
    let Some(inner) = given_in(&matches, "check") else {
        return Status::Usage;
    };
    let Ok(members) = members_in(alloc, values_in(inner, "members")) else {
        return out_of_memory(writer);
    };
    let Ok(file) = interfaces_in(sources, alloc, inner) else {
        return out_of_memory(writer);
    };
    let position = number_in(inner, "position").unwrap_or(0);
    let (file, members) = (file.as_deref(), members.as_deref());
    let input = match read_all(alloc, reader) {
        Ok(input) => input,
        Err(InputFault::Memory) => return out_of_memory(writer),
        Err(InputFault::Failed | InputFault::TooLong) => return Status::Failed,
    };
    let Ok(output) = nft_output(alloc, file, members, position, &input) else {
        return out_of_memory(writer);
    };
    match write_bytes(writer, output.text.as_bytes()) {
        Ok(()) if output.refused => Status::Refused,
        Ok(()) => Status::Done,
        Err(_) => Status::Failed,
    }
}
