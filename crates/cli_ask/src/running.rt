//! A run of `ask` with `--control`.

ghost use Rattle.std.specs.Prelude.{◌≡◌, IfOk, IfErr, codes, map, option_map, unwrap_or};
ghost use Rattle.clap.specs.Words.{found_of, rows_of};
ghost use Rattle.cli_ask.specs.Arguments.{given_of};
ghost use Rattle.cli_io.specs.Numbers.{number_at};
ghost use Rattle.cli_io.specs.Sources.{IsText, IsNamed};
ghost use Rattle.cli_ask.specs.Outcomes.{HasNoText};
ghost use Rattle.cli_ask.specs.Outcomes.{Asks, Runs};
ghost use Rattle.cli_ask.specs.Outcomes.{has_others, IsScript, IsNoScript};
ghost use Rattle.cli_ask.specs.Running.{Ran};

use crate::arguments::has_option;
use crate::asking::{Pauses, ask_at};
use crate::commands::is_command;
use crate::control::{Control, Direct};
use crate::exchange::Answered;
use crate::options::command;
use crate::outcome::{Outcome, refused, write_outcome};
use crate::reporting::report_left;
use crate::script::check_script;
use crate::scripting::ScriptRequest;
use crate::target::Given;
use clap::ArgMatches;
use cli_io::{
    InputFault, Sources, Status, UNREADABLE, given_in, has_flag, misused, number_in, out_of_memory,
    source_named, value_in, values_in,
};
use pf_arguments::USAGE;
use std::alloc::Global;
use std::convert::AsStr;
use std::io::{Read, Write};
use std::time::Clock;

/// Whether arguments are there beside a script that are none of it.
fn has_others(matches: &ArgMatches<'_>) -> bool
    ensures { result ≡ has_others (rows_of (found_of matches.now)) }
{
    has_option(matches)
        || !values_in(matches, "address").is_empty()
        || number_in(matches, "at").is_some()
}

/// A run over what is lent to it.
#[derive(Clone, Copy)]
struct Run<'r, 'm, 'a, RT> {
    rt: &'r RT,
    alloc: Global,
    matches: &'m ArgMatches<'a>,
    is_terminal: bool,
}

impl<RT: Pauses + Clock + Sources> Run<'_, '_, '_, RT> {
    /// The text that an option names; none without it. A file that can't be read gives 90.
    fn text_for<R: Read>(&self, named: Option<&str>, reader: &mut R) -> Result<Vec<u8>, Outcome>
        ensures text { IfOk result (λ text. IsNamed (option_map (λ n. n.now) named.entry)
            (IsText (RT.has self.now.rt.now) (R.remaining reader.old)) text.items) }
        ensures none { IfErr result (λ outcome. HasNoText (option_map (λ n. n.now) named.entry) outcome) }
    {
        let Some(name) = named else {
            return Ok(Vec::new(self.alloc));
        };
        source_named(self.rt, self.alloc, name, reader).map_err(|fault| match fault {
            InputFault::Memory => Outcome::Memory,
            _ if name == "-" => Outcome::Unread,
            _ => refused(UNREADABLE),
        })
    }

    /// What the arguments give at a control socket. For a command the number of positions left is written, once the log
    /// nears its end.
    fn outcome_of<C: Control, R: Read, E: Write>(
        &self,
        control: &mut C,
        reader: &mut R,
        errors: &mut E,
    ) -> Outcome
        ensures { Asks (C.exchanged control.old) (C.exchanged control.new) (rows_of (found_of self.now.matches.now))
            (IsText (RT.has self.now.rt.now) (R.remaining reader.old)) result }
    {
        if number_in(self.matches, "from").is_some() {
            return refused(USAGE);
        }
        let text = match self.text_for(value_in(self.matches, "file"), reader) {
            Ok(text) => text,
            Err(outcome) => return outcome,
        };
        let (alloc, matches) = (self.alloc, self.matches);
        let at = number_in(matches, "at").unwrap_or(0);
        let call = match (Given { alloc, matches, at }).call(text.as_slice()) {
            Ok(call) => call,
            Err(outcome) => return outcome,
        };
        let seconds = number_in(matches, "wait").unwrap_or(0);
        match ask_at(self.rt, alloc, control, &call, seconds) {
            Ok(reply) => {
                if is_command(call.kind) {
                    let _logged = report_left(reply.front, errors);
                }
                Outcome::Answered(call.kind, reply)
            }
            Err(fault) => fault.code().map_or(Outcome::Memory, |code| refused(code)),
        }
    }

    /// The first line of a script that is asked.
    fn from(&self) -> u64
        ensures { result ≡ unwrap_or (number_at (rows_of (found_of self.now.matches.now)) (codes "from")) 1 }
    {
        u64::from(number_in(self.matches, "from").unwrap_or(1))
    }

    /// The script that is asked, or why none is: it may be refused before a node is asked, unless `--unchecked` is
    /// given.
    fn script_in<R: Read>(&self, file: &str, reader: &mut R) -> Result<Vec<u8>, Outcome>
        ensures script { IfOk result (λ script. IsScript (rows_of (found_of self.now.matches.now)) file.now
            (IsText (RT.has self.now.rt.now) (R.remaining reader.old)) script.items) }
        ensures none { IfErr result (λ outcome. IsNoScript (rows_of (found_of self.now.matches.now)) file.now
            (IsText (RT.has self.now.rt.now) (R.remaining reader.old)) outcome) }
    {
        if has_others(self.matches) {
            return Err(refused(USAGE));
        }
        let script = self.text_for(Some(file), reader)?;
        if !has_flag(self.matches, "unchecked") {
            check_script(self.alloc, script.as_slice(), self.from())?;
        }
        Ok(script)
    }

    /// Asks at a control socket what the arguments ask for, or the changes of a script, and writes what that gives.
    fn run<C: Control, R: Read, W: Write, E: Write>(
        &self,
        control: &mut C,
        reader: &mut R,
        writer: &mut W,
        errors: &mut E,
    ) -> Status
        ensures { Runs (C.exchanged control.old) (C.exchanged control.new) (rows_of (found_of self.now.matches.now))
            (IsText (RT.has self.now.rt.now) (R.remaining reader.old)) result
            (W.contents writer.old) (W.contents writer.new) }
    {
        let Some(file) = value_in(self.matches, "script") else {
            let outcome = self.outcome_of(control, reader, errors);
            return write_outcome(self.alloc, outcome, writer);
        };
        let script = match self.script_in(file, reader) {
            Ok(script) => script,
            Err(outcome) => return write_outcome(self.alloc, outcome, writer),
        };
        let request = ScriptRequest {
            rt: self.rt,
            alloc: self.alloc,
            script: script.as_slice(),
            from: self.from(),
            seconds: number_in(self.matches, "wait").map_or(60, |seconds| seconds.max(1)),
            is_terminal: self.is_terminal,
        };
        request.ask(control, writer, errors)
    }
}

/// What the subcommand `ask` with `--control` asks for, the program's name first: a request at a node's control socket,
/// whose answer is written; with `--script` each change of a script, one after the other. A change is sent as the bytes
/// of its entry. Before a node is asked, arguments are refused that ask for nothing (40, 24, 1 to 3, 41), as is an
/// argument with a control character (40), and, unless `--unchecked` is given, a ruleset that the grammar refuses (10
/// to 19). The changes of a script are refused so before the first of them is sent; with `--unchecked` each is refused
/// for its arguments when its turn comes. 85 where nobody answers at the socket, 86 where the answer is cut short or
/// none. `peer` is directed to the path of `--control`, and is asked nothing else.
///
/// The status is 1 where a change was refused or its outcome isn't known in time, where not all addresses of `-T test`
/// match, and of every refusal. Messages on `errors` are how many positions are left once few are, and, where that
/// is a terminal, at which line a script is.
pub fn run_control_ask<
    'a,
    RT: Pauses + Clock + Sources,
    C: Direct<'a>,
    S: AsStr,
    R: Read,
    W: Write,
    E: Write,
>(
    rt: &RT,
    peer: &mut C,
    alloc: Global,
    arguments: &'a [S],
    reader: &mut R,
    writer: &mut W,
    errors: &mut E,
    is_terminal: bool,
) -> Status
    ensures { Ran C.answers_at C.exchanged peer.old peer.new (given_of (map S.text arguments.now))
        (IsText (RT.has rt.now) (R.remaining reader.old)) result (W.contents writer.old) (W.contents writer.new) }
{
    let Ok(command) = command(alloc) else {
        return out_of_memory(writer);
    };
    let matches = match command.try_get_matches_from(arguments) {
        Ok(matches) => matches,
        Err(error) => return misused(alloc, &error, writer),
    };
    let Some(inner) = given_in(&matches, "ask") else {
        return Status::Usage;
    };
    let Some(path) = value_in(inner, "control") else {
        return write_outcome(alloc, refused(USAGE), writer);
    };
    peer.direct(path);
    let run = Run {
        rt,
        alloc,
        matches: inner,
        is_terminal,
    };
    run.run(peer, reader, writer, errors)
}
