//! The subcommand `batch`: the command lines of a file, one after another, each with its input.
//!
//! A line that begins with `==` is a command line: behind a blank it has the subcommand and its arguments, between
//! tabs. The lines up to the next one are its input, without the last newline. Before the subcommand may be the marks
//! `!`, where it must fail, and then `|`, where its input begins with what the last `show` wrote. An argument `*`
//! stands for the lines before the first command line, but for empty ones and those that begin with `#`; one that
//! begins with `#` begins a comment. `chmod MODE FILE..` sets the mode of files. Of each command line the output has
//! the same line, what it writes, each line of its standard error behind `! `, and `-- STATUS`.

ghost use Rattle.std.specs.Prelude.{◌≡◌, ◌⊎◌, ◌∷◌, [], Some, IfOk, IfErr};
ghost use Rattle.cli_follow.specs.Exchanges.{Adds};
ghost use Rattle.pfx.specs.Batches.{EndsAsRun, RanBatch, RanLine, RanLines, is_good, lines_of};
ghost use Rattle.pfx.specs.Runs.{RunEvent};

use crate::kind::{is_batch, subcommand_of};
use crate::line::{BEGIN, Line, LineFault, arguments_of, line_of, mode_of, must_fail};
use crate::running::Runner;
use bstr::ByteSlice;
use clap::{Arg, ArgAction, Command};
use cli_io::{INVALID_ARGUMENTS, InputFault, Status, UNREADABLE, misused, out_of_memory, read_all};
use cli_nft::read_file;
use std::alloc::{AllocError, Global};
use std::fs::{self, Permissions};
use std::io::{self, Read, Write};
use std::os::unix::fs::PermissionsExt;
use std::rt::Files;

const FILE: &str = "The file of command lines; - or none is standard input";

const BELOW: &str =
    "A line that begins with == is a command line, its arguments separated by tabs. The lines up to the next are its input:
  == check\t--anchor\t# a comment
  block all
  == !\tcheck
  bogus
Before the subcommand may be ! (it must fail) and then | (its input begins with the output of the last show). An argument
* is replaced by the lines before the first command line, without empty ones and those that begin with #. chmod MODE
FILE.. sets the mode of files, in octal digits.

Each is printed with its output, each line of its standard error after !, and -- STATUS. A command line that isn't run,
as a batch in a batch, is refused 40; a file that can't be read, or whose mode can't be set, is refused 90.

Exit status: 0 if each ended with 0, or with another status if it must fail; else 1, and standard error has those that
didn't.";

/// The modes that `chmod` takes.
const BAD_MODE: LineFault = LineFault::Refused(
    INVALID_ARGUMENTS,
    "chmod needs a mode of octal digits, 0 to 7777, and files",
);

/// `batch [FILE]`
fn command<'a>(alloc: Global) -> Result<Command<'a>, AllocError> {
    let file = Arg::new(alloc, "file").action(ArgAction::Set).help(FILE);
    let batch = Command::new(alloc, "batch")
        .about("Runs the command lines of a file, each with its input")
        .after_help(BELOW)
        .arg(file)?;
    let command = Command::new(alloc, "pfx").subcommand(batch)?;
    Ok(command.subcommand_required(true))
}

/// The status of a run behind which this was written.
fn after(written: io::Result<()>, status: Status) -> Status
    ensures { (result ≡ status) ⊎ (result ≡ Status.Failed) }
{
    written.map_or(Status::Failed, |()| status)
}

/// Writes a line behind its mark.
fn write_line<W: Write>(writer: &mut W, mark: &[u8], line: &[u8]) -> io::Result<()> {
    writer.write_all(mark)?;
    writer.write_all(line)?;
    writer.write_all(b"\n")
}

/// Sets the mode of files.
fn set_modes<F: Files>(files: &F, arguments: &[&str]) -> Result<Status, LineFault> {
    let [_, _, digits, paths @ ..] = arguments else {
        return Err(BAD_MODE);
    };
    let mode = mode_of(digits).ok_or(BAD_MODE)?;
    if paths.is_empty() {
        return Err(BAD_MODE);
    }
    for path in paths {
        fs::set_permissions(files, *path, Permissions::from_mode(mode)).map_err(
            |_| LineFault::Refused(UNREADABLE, "a mode that can't be set"),
        )?;
    }
    Ok(Status::Done)
}

/// Writes what a store shows, and keeps it.
fn run_kept<T: Runner, W: Write>(
    runner: &mut T,
    arguments: &[&str],
    kept: &mut Vec<u8>,
    writer: &mut W,
    errors: &mut Vec<u8>,
) -> Status
    ensures { (run : RunEvent) × Adds (T.did runner.old) (T.did runner.new) (run ∷ []) × EndsAsRun (Some run) result }
{
    kept.clear();
    match runner.run(arguments, &mut b"".as_slice(), kept, errors, false) {
        // a growth of what is kept was refused
        Status::Failed => {
            kept.clear();
            out_of_memory(writer)
        }
        status => after(writer.write_all(kept.as_slice()), status),
    }
}

/// The input of a command line.
fn input_of(alloc: Global, line: Line<'_>, kept: &[u8]) -> Result<Vec<u8>, AllocError> {
    let mut input = Vec::new(alloc);
    if line.is_piped {
        input.extend_from_slice(kept)?;
    }
    input.extend_from_slice(line.text)?;
    Ok(input)
}

/// Does what a command line asks for.
fn status_of<F: Files, T: Runner, W: Write>(
    files: &F,
    runner: &mut T,
    alloc: Global,
    shared: &[u8],
    line: Line<'_>,
    kept: &mut Vec<u8>,
    writer: &mut W,
    errors: &mut Vec<u8>,
) -> Result<Status, LineFault>
    ensures run { IfOk result (RanLine (T.did runner.old) (T.did runner.new)) }
    ensures none { IfErr result (λ _. Adds (T.did runner.old) (T.did runner.new) []) }
{
    let arguments = arguments_of(alloc, shared, line.arguments)?;
    let arguments = arguments.as_slice();
    if is_batch(arguments) {
        return Err(LineFault::Refused(INVALID_ARGUMENTS, "a batch in a batch"));
    }
    match subcommand_of(arguments) {
        "" => Err(LineFault::Refused(INVALID_ARGUMENTS, "no subcommand")),
        "chmod" => set_modes(files, arguments),
        "show" => Ok(run_kept(runner, arguments, kept, writer, errors)),
        _ => {
            let input = input_of(alloc, line, kept.as_slice()).map_err(|_| LineFault::Memory)?;
            let reader = &mut input.as_slice();
            Ok(runner.run(arguments, reader, writer, errors, false))
        }
    }
}

/// Runs a command line, and writes it with its output, its standard error and its status.
fn run_one<F: Files, T: Runner, W: Write>(
    files: &F,
    runner: &mut T,
    alloc: Global,
    shared: &[u8],
    line: Line<'_>,
    kept: &mut Vec<u8>,
    writer: &mut W,
) -> io::Result<Status>
    ensures { IfOk result (RanLine (T.did runner.old) (T.did runner.new)) }
{
    write_line(writer, b"==", line.header)?;
    let errors = &mut Vec::new(alloc);
    let status = match status_of(files, runner, alloc, shared, line, kept, writer, errors) {
        Ok(status) => status,
        Err(LineFault::Memory) => out_of_memory(writer),
        Err(LineFault::Refused(code, why)) => {
            // a message that can't be written changes nothing
            let _written = errors.extend_from_slice(why.as_bytes());
            after(writeln!(writer, "refused {code}"), Status::Refused)
        }
    };
    for error in errors.as_slice().lines() {
        write_line(writer, b"! ", error)?;
    }
    writeln!(writer, "-- {}", status.code())?;
    Ok(status)
}

/// Whether a command line ended as it is marked.
fn is_good(part: &[u8], status: Status) -> bool
    ensures { result ≡ is_good part.now status }
{
    must_fail(part) != (status == Status::Done)
}

/// Runs the command lines of a batch: refused where one didn't end as it is marked.
fn run_all<F: Files, T: Runner, W: Write, E: Write>(
    files: &F,
    runner: &mut T,
    alloc: Global,
    batch: &[u8],
    writer: &mut W,
    errors: &mut E,
) -> io::Result<Status>
    ensures { IfOk result (RanLines (T.did runner.old) (T.did runner.new) (lines_of batch.now)) }
{
    let mut parts = batch.split_str(BEGIN);
    let shared = parts.next().unwrap_or(b"");
    let mut kept = Vec::new(alloc);
    let mut are_good = true;
    for part in parts {
        let line = line_of(part);
        let status = run_one(files, runner, alloc, shared, line, &mut kept, writer)?;
        if !is_good(part, status) {
            are_good = false;
            // a message that can't be written changes nothing
            let _written = write_line(errors, b"pfx: not as marked: ==", line.header);
        }
    }
    let done = are_good.then_some(Status::Done);
    Ok(done.unwrap_or(Status::Refused))
}

/// The batch without its last newline, behind one more, so that its first line may be a command line; none where the
/// file can't be read.
fn read_batch<F: Files, R: Read>(
    files: &F,
    alloc: Global,
    file: Option<&str>,
    reader: &mut R,
) -> Result<Option<Vec<u8>>, InputFault> {
    let mut batch = match file {
        None | Some("-") => read_all(alloc, reader)?,
        Some(path) => match read_file(files, alloc, path).map_err(|_| InputFault::Memory)? {
            Some(read) => read,
            None => return Ok(None),
        },
    };
    if batch.ends_with(b"\n") {
        let _newline = batch.pop();
    }
    batch.insert(0, b'\n').map_err(|_| InputFault::Memory)?;
    Ok(Some(batch))
}

/// What the arguments `batch [FILE]` ask for, the program's name first: each command line is run by `runner`.
pub(crate) fn run_batch<F: Files, T: Runner, R: Read, W: Write, E: Write>(
    files: &F,
    runner: &mut T,
    alloc: Global,
    arguments: &[&str],
    reader: &mut R,
    writer: &mut W,
    errors: &mut E,
) -> Status
    ensures { result ≡ Status.Done → RanBatch (T.did runner.old) (T.did runner.new) }
{
    let Ok(command) = command(alloc) else {
        return out_of_memory(writer);
    };
    let matches = match command.try_get_matches_from(arguments) {
        Ok(matches) => matches,
        Err(error) => return misused(alloc, &error, writer),
    };
    let Some(inner) = matches.subcommand_matches("batch") else {
        return Status::Usage;
    };
    match read_batch(files, alloc, inner.get_str("file"), reader) {
        Ok(Some(batch)) => match run_all(files, runner, alloc, batch.as_slice(), writer, errors) {
            Ok(status) => status,
            Err(_) => Status::Failed,
        },
        Ok(None) => after(writeln!(writer, "refused {UNREADABLE}"), Status::Refused),
        Err(InputFault::Memory) => out_of_memory(writer),
        Err(InputFault::Failed | InputFault::TooLong) => Status::Failed,
    }
}
