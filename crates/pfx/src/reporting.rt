//! One command line, and the message on a refusal of which an argument's crate prints only the number.

ghost use Rattle.std.specs.Prelude.{◌≡◌, ◌∷◌, [], true, false, map};
ghost use Rattle.cli_follow.specs.Exchanges.{Adds};
ghost use Rattle.pfx.specs.Arguments.{is_batch};
ghost use Rattle.pfx.specs.Batches.{RanBatch};
ghost use Rattle.pfx.specs.Runs.{Ran};

use crate::batch::run_batch;
use crate::kind::{is_batch, subcommand_of};
use crate::running::Runner;
use cli_io::{NOBODY_ANSWERS, REFUSALS, Shown, Status, explanation, knock};
use std::alloc::Global;
use std::io::{self, Read, Write};
use std::net::Net;
use std::rt::Files;

/// The output, with the number of the refusal that was written last.
#[derive(Drop)]
pub(crate) struct Output<W> {
    inner: W,
    refusal: Option<u8>,
}

/// The number of the refusal that a printed line is.
fn refusal_in(printed: &[u8]) -> Option<u8> {
    let behind = printed.strip_prefix(b"refused ")?;
    let behind = std::str::from_utf8(behind).ok()?;
    let digits = behind
        .split_once(' ')
        .map_or(behind.trim_end(), |(digits, _)| digits);
    digits.parse::<u8>().ok()
}

impl<W> Output<W> {
    /// An output to which nothing was written yet.
    pub(crate) fn new(inner: W) -> Output<W>
        ensures { result.inner ≡ inner }
    {
        let refusal = None;
        Output { inner, refusal }
    }
}

impl<W: Write> Write for Output<W> {
    ghost contents = { λ output. W.contents output.inner };

    fn write(&mut self, bytes: &[u8]) -> io::Result<usize> {
        self.refusal = refusal_in(bytes).or(self.refusal);
        self.inner.write(bytes)
    }

    fn flush(&mut self) -> io::Result<()> {
        self.inner.flush()
    }
}

/// The value of an option, where it is given.
fn value_of<'s>(arguments: &[&'s str], option: &str) -> Option<&'s str> {
    let mut is_next = false;
    for argument in arguments {
        if is_next {
            return Some(argument);
        }
        if let Some(behind) = argument.strip_prefix(option) {
            match behind.strip_prefix('=') {
                Some(value) => return Some(value),
                None => is_next = behind.is_empty(),
            }
        }
    }
    None
}

/// Writes what a refusal means, and of a control socket at which nobody answers the system's error.
fn report<RT: Net, E: Write>(rt: &RT, arguments: &[&str], code: u8, errors: &mut E) {
    // a message that can't be written changes nothing
    if code == NOBODY_ANSWERS {
        if let Some(path) = value_of(arguments, "--control") {
            if let Err(error) = knock(rt, path) {
                let _written = writeln!(errors, "pfx: {}: {error}", Shown(path));
            }
        }
    }
    if let Some(row) = explanation(&REFUSALS, code) {
        let _written = writeln!(errors, "pfx: {} ({code}), see pfx explain {code}", row.name);
    }
}

/// Does what the arguments ask for, the program's name first; where `errors` is a terminal, what a refusal means is
/// written there, too.
pub(crate) fn run_line<RT: Files + Net, T: Runner, R: Read, W: Write, E: Write>(
    rt: &RT,
    runner: &mut T,
    alloc: Global,
    arguments: &[&str],
    reader: &mut R,
    output: &mut Output<W>,
    errors: &mut E,
    is_terminal: bool,
) -> Status
    ensures run { is_batch (map (λ a. a.now) arguments.now) ≡ false →
        Adds (T.did runner.old) (T.did runner.new) (Ran (map (λ a. a.now) arguments.now) (R.remaining reader.old)
        (W.contents output.old.inner) (W.contents output.new.inner) is_terminal result ∷ []) }
    ensures batch { is_batch (map (λ a. a.now) arguments.now) ≡ true → result ≡ Status.Done →
        RanBatch (T.did runner.old) (T.did runner.new) }
{
    if is_batch(arguments) {
        return run_batch(rt, runner, alloc, arguments, reader, output, errors);
    }
    let status = runner.run(arguments, reader, output, errors, is_terminal);
    let is_reported = is_terminal && matches!(subcommand_of(arguments), "ask" | "show");
    if is_reported && status == Status::Refused {
        if let Some(code) = output.refusal {
            report(rt, arguments, code, errors);
        }
    }
    status
}
