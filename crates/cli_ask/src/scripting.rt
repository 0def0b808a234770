//! A script's changes are asked at a control socket, one after the other.

ghost use Rattle.cli_ask.specs.Scripts.{change_value, items_in};
ghost use Rattle.cli_ask.specs.Scripting.{call_for, printed, went_value, Makes};
ghost use Rattle.cli_ask.specs.Scripting.{end_text, Ended, AskedOne, AskedAll};

use crate::answers::behind_line;
use crate::asking::{Pauses, ask_at};
use crate::checking::Refused;
use crate::commands::ASKED;
use crate::control::Control;
use crate::exchange::AskFault;
use crate::outcome::{Outcome, refusal_line};
use crate::reporting::report_left;
use crate::script::{Change, Left, next_change};
use cli_io::{Status, out_of_memory, write_bytes};
use pf_scripts::ChangeFault;
use std::alloc::Global;
use std::io::Write;
use std::time::Clock;

/// What is asked.
#[derive(Clone, Copy)]
pub(crate) struct ScriptRequest<'a, RT> {
    pub(crate) rt: &'a RT,
    pub(crate) alloc: Global,
    pub(crate) script: &'a [u8],
    /// The first line that is asked.
    pub(crate) from: u64,
    /// For how many seconds it is waited for what comes of a change.
    pub(crate) seconds: u32,
    /// Whether people read on standard error how far it is.
    pub(crate) is_terminal: bool,
}

/// How a change went.
#[derive(Drop)]
enum Went {
    /// It was made: what is printed.
    Made(Vec<u8>),
    /// It wasn't, or nobody knows: what is printed.
    Stopped(Vec<u8>),
}

/// Writes what ends a script, and the line at which it ended.
fn write_end<W: Write>(alloc: Global, said: &[u8], line: u64, writer: &mut W) -> Status
    ensures { Ended (end_text said.now line) result (W.contents writer.old) (W.contents writer.new) }
{
    let Ok(below) = format!(in alloc; "line {line}\n") else {
        return out_of_memory(writer);
    };
    match write_bytes(writer, said) {
        Ok(()) => match write_bytes(writer, below.as_bytes()) {
            Ok(()) => Status::Refused,
            Err(_) => Status::Failed,
        },
        Err(_) => Status::Failed,
    }
}

impl<RT: Pauses + Clock> ScriptRequest<'_, RT> {
    /// Asks one change, and waits for what comes of it: it was made where the outcome begins with `ok`. With
    /// `--unchecked` its arguments may be refused here.
    fn make<C: Control, E: Write>(
        &self,
        control: &mut C,
        change: &Change<'_>,
        errors: &mut E,
    ) -> Result<Went, AskFault>
        ensures { Makes (C.exchanged control.old) (C.exchanged control.new)
            (call_for (change_value change.now)) self.now.seconds (went_value result) }
    {
        let call = match change.call(self.alloc) {
            Ok(call) => call,
            Err(ChangeFault::Refused(code)) => {
                let line = refusal_line(self.alloc, Refused { code, line: 0 })?;
                return Ok(Went::Stopped(line.into_bytes()));
            }
            Err(ChangeFault::Memory) => return Err(AskFault::Memory),
        };
        let reply = ask_at(self.rt, self.alloc, control, &call, self.seconds)?;
        let _logged = report_left(reply.front, errors);
        let outcome = behind_line(reply.body.as_slice(), ASKED);
        if outcome.starts_with(b"ok") {
            return Ok(Went::Made(Vec::from_slice(self.alloc, outcome)?));
        }
        Ok(Went::Stopped(reply.body))
    }

    /// Asks one change and writes what came of it; none where it was made, else how the script ends.
    fn ask_one<C: Control, W: Write, E: Write>(
        &self,
        control: &mut C,
        change: &Change<'_>,
        writer: &mut W,
        errors: &mut E,
    ) -> Option<Status>
        ensures { AskedOne (C.exchanged control.old) (C.exchanged control.new) (change_value change.now)
            self.now.seconds result (W.contents writer.old) (W.contents writer.new) }
    {
        let (alloc, line) = (self.alloc, change.line);
        match self.make(control, change, errors) {
            Ok(Went::Made(said)) => match write_bytes(writer, &said) {
                Ok(()) => None,
                Err(_) => Some(Status::Failed),
            },
            Ok(Went::Stopped(said)) => Some(write_end(alloc, &said, line, writer)),
            Err(AskFault::Memory) => Some(out_of_memory(writer)),
            Err(AskFault::NoAnswer) => Some(write_end(alloc, b"refused 85\n", line, writer)),
            Err(AskFault::BadAnswer) => Some(write_end(alloc, b"refused 86\n", line, writer)),
        }
    }

    /// Asks the script's changes, each once what came of the one before it is known, and writes a line of each. It ends
    /// at the first that isn't made, or of which nobody knows, with the number of its line.
    pub(crate) fn ask<C: Control, W: Write, E: Write>(
        &self,
        control: &mut C,
        writer: &mut W,
        errors: &mut E,
    ) -> Status
        ensures { AskedAll (C.exchanged control.old) (C.exchanged control.new) self.now.from self.now.seconds
            (items_in self.now.script.now) result (W.contents writer.old) (W.contents writer.new) }
    {
        let bytes = self.script;
        let mut left = Left { bytes, line: 1 };
        loop {
            let change = match next_change(self.alloc, &mut left) {
                Ok(Some(change)) => change,
                Ok(None) => return Status::Done,
                Err(Outcome::Refused(bad)) => {
                    return write_end(self.alloc, b"refused 40\n", bad.line, writer);
                }
                Err(_) => return out_of_memory(writer),
            };
            if change.line >= self.from {
                if self.is_terminal {
                    let _logged = write!(errors, "\rline {}: ", change.line);
                }
                if let Some(status) = self.ask_one(control, &change, writer, errors) {
                    return status;
                }
            }
        }
    }
}
