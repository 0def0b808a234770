//! A run of the program.

ghost use Rattle.std.specs.Prelude.{◌≡◌, ◌⊎◌, [], true, map, Some};
ghost use Rattle.std.specs.Io.KnownBytes.{Appends};
ghost use Rattle.clap.specs.Words.{subcommand_of};
ghost use Rattle.pf_tool.specs.Messages.{is_verbose, level_of};
ghost use Rattle.pf_tool.specs.Options.{call_of, names_other, pfx_app};
ghost use Rattle.pf_tool.specs.Tool.{Ran, Reported};
ghost use Rattle.pf_tool.specs.inner.Calls.{asked};

use crate::call::{Call, call_in, is_verbose, names_other};
use crate::options::command;
use crate::output::Ending;
use crate::reporting::{Reporter, level_of, report};
use crate::source::Runner;
use clap::ArgMatches;
use cli_io::{Explanation, InputFault, Sources, Status, misused, out_of_memory, write_bytes};
use std::convert::AsStr;
use std::io::{Read, Write};

/// Does what is asked for, and writes the output and the messages.
#[tactic(auto, using(cli_io::proofs::Fronts::nothing_written))]
fn answer<T: Sources, R: Read, W: Write, E: Write>(
    runner: &Runner<'_, T>,
    call: &Call<'_, '_>,
    reader: &mut R,
    writer: &mut W,
    errors: &mut E,
) -> Status
    ensures ran { Ran (T.has runner.now.sources.now) runner.now.reporter.table.now result (Some (asked call.now))
        (R.remaining reader.old) (W.contents writer.old) (W.contents writer.new) }
    ensures reported { Reported (T.has runner.now.sources.now) runner.now.reporter.table.now runner.now.reporter.level
        result (Some (asked call.now)) (R.remaining reader.old) (W.contents writer.old) (W.contents writer.new)
        (E.contents errors.old) (E.contents errors.new) }
{
    let output = match runner.output_for(call, reader) {
        Ok(output) => output,
        Err(InputFault::Memory) => return out_of_memory(writer),
        Err(InputFault::Failed | InputFault::TooLong) => return Status::Failed,
    };
    if write_bytes(writer, output.text.as_bytes()).is_err() {
        return Status::Failed;
    }
    report(output.messages.as_str(), errors);
    match output.ending {
        Ending::Done => Status::Done,
        Ending::Refused => Status::Refused,
    }
}

/// Writes what is wrong with arguments that `clap` accepts and that ask for nothing.
fn misnamed<W: Write>(matches: &ArgMatches<'_>, writer: &mut W) -> Status
    ensures { (result ≡ Status.Usage) ⊎ (result ≡ Status.Failed) }
{
    let text = match matches.subcommand_name() {
        Some("test") =>
            "error: no packet is given\n\nFor more information, try 'pfx test --help'.\n",
        Some("explain") => "error: no refusal has this number; pfx explain shows all\n",
        _ => "",
    };
    writer
        .write_all(text.as_bytes())
        .map_or(Status::Failed, |()| Status::Usage)
}

/// Runs what the arguments ask for, the program's name first, with the table of refusals, the input, the output and
/// standard error that are lent; `is_terminal` is whether standard error is a terminal.
///
/// `test PACKET..` reads the text of a ruleset and writes a verdict line for each packet text in turn. A refused text
/// gives `refused CAUSE line L` instead, and a line that is no packet `refused 30`, which ends the run. `check` writes
/// the ruleset that the text gives, in its expanded form, or its refusal; with `--anchor` the text is one for an
/// anchor. Both read files where their arguments name some; one that can't be read gives `refused 90`. All that is
/// written goes to the writer at once; an input, and a file, is 16,777,216 bytes at most. Behind it the messages go to
/// standard error: with `-v` a line for each refusal and for the rule that decides each packet, else, on a terminal, a
/// line for each refusal. They change nothing of what is written, nor of the status, and one that can't be written ends
/// them. `explain` writes the table's paragraph of a number, or all of them, and reads nothing. With the subcommand of
/// another crate nothing is written.
pub fn run<T: AllocGlobal + Sources, S: AsStr, R: Read, W: Write, E: Write>(
    rt: &T,
    table: &[Explanation],
    arguments: &[S],
    reader: &mut R,
    writer: &mut W,
    errors: &mut E,
    is_terminal: bool,
) -> Status
    ensures ran { Ran (T.has rt.now) table.now result (call_of table.now (map S.text arguments.now))
        (R.remaining reader.old) (W.contents writer.old) (W.contents writer.new) }
    ensures reported { Reported (T.has rt.now) table.now
        (level_of (is_verbose (subcommand_of pfx_app (map S.text arguments.now))) is_terminal) result
        (call_of table.now (map S.text arguments.now)) (R.remaining reader.old) (W.contents writer.old)
        (W.contents writer.new) (E.contents errors.old) (E.contents errors.new) }
    ensures other { names_other (map S.text arguments.now) ≡ true →
        (result ≡ Status.Usage) × Appends (W.contents writer.old) (W.contents writer.new) [] }
{
    if names_other(arguments) {
        return Status::Usage;
    }
    let alloc = rt.alloc();
    let Ok(command) = command(alloc) else {
        return out_of_memory(writer);
    };
    let matches = match command.try_get_matches_from(arguments) {
        Ok(matches) => matches,
        Err(error) => return misused(alloc, &error, writer),
    };
    match call_in(table, &matches) {
        Some(call) => {
            let level = level_of(is_verbose(&matches), is_terminal);
            let runner = Runner {
                sources: rt,
                reporter: Reporter {
                    alloc,
                    table,
                    level,
                },
            };
            answer(&runner, &call, reader, writer, errors)
        }
        None => misnamed(&matches, writer),
    }
}
