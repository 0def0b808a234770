//! What the program does with the arguments that it is given, and how it ends.

ghost use Rattle.std.specs.Prelude.{◌≡◌, ◌<◌, ⊤, ℕ, true, false, List, [], ◌∷◌, Option, IfOk, OnErr, map, option_map};
ghost use Rattle.std.specs.Prelude.{string_bytes};
ghost use Rattle.std.specs.List.{list_any};
ghost use Rattle.std.specs.Process.{exit_status};
ghost use Rattle.cli_io.specs.Status.{code_of};
ghost use Rattle.cli_follow.specs.Exchanges.{Adds};
ghost use Rattle.pfx.specs.Arguments.{excludes_control, has_help, helped, is_batch, lacks_control, program_arguments};
ghost use Rattle.pfx.specs.Arguments.{with_control};
ghost use Rattle.pfx.specs.Batches.{RanBatch};
ghost use Rattle.pfx.specs.Runs.{IsProgram, Ran};

use crate::kind::{is_help, names_control, names_node, subcommand_of};
use crate::reporting::{Output, run_line};
use crate::running::Runner;
use cli_io::{Status, out_of_memory};
use std::alloc::{AllocError, Global};
use std::env::{self, VarError};
use std::io::{self, Eprint, ErrorKind, Read, Write};
use std::net::Net;
use std::process::{ExitCode, Termination};
use std::rt::Files;

/// How the program ends. It is made here alone, and isn't dropped: `main` ends as its one run did.
pub(crate) struct Ended {
    status: Status,
}

impl Termination for Ended {
    fn report<R: Eprint>(self, _rt: &R) -> ExitCode
        ensures { exit_status result ≡ code_of self.status }
    {
        let Ended { status } = self;
        ExitCode::from(status.code())
    }
}

/// What gives the program its arguments, and its environment.
pub(crate) trait Invocation {
    // these are the arguments, the program's name first
    ghost has_arguments: { Self → List (List ℕ) → Type 0 };

    // the environment names this control socket, or none
    ghost has_control: { Self → Option (List ℕ) → Type 0 };

    /// The arguments, the program's name first.
    fn arguments(&self, alloc: Global) -> io::Result<Vec<String>>
        ensures { IfOk result (λ all. has_arguments self.now (map string_bytes all.items)) };

    /// The control socket that the environment variable `PFX_CONTROL` names, where it is set and not empty.
    fn control(&self) -> io::Result<Option<String>>
        ensures { IfOk result (λ path. has_control self.now (option_map string_bytes path)) };
}

impl Invocation for HostRuntime {
    // no contract states which arguments and which environment the system gives
    ghost has_arguments = { λ _ _. ⊤ };

    ghost has_control = { λ _ _. ⊤ };

    fn arguments(&self, alloc: Global) -> io::Result<Vec<String>> {
        Ok(env::args(self)?.collect(alloc)?)
    }

    fn control(&self) -> io::Result<Option<String>> {
        match env::var(self, "PFX_CONTROL") {
            Ok(path) => Ok(if path.is_empty() { None } else { Some(path) }),
            Err(VarError::OutOfMemory) => Err(io::Error::from(ErrorKind::OutOfMemory)),
            Err(_) => Ok(None),
        }
    }
}

/// Arguments that were made, unless it was out of memory.
type Made<'a> = Result<Vec<&'a str>, AllocError>;

/// The strings as slices.
fn slices_of(alloc: Global, strings: &[String]) -> Made<'_>
    ensures { IfOk result (λ slices. map (λ s. s.now) slices.items ≡ map string_bytes strings.now) }
{
    let mut slices = Vec::new(alloc);
    for string in strings {
        slices.push(string.as_str())?;
    }
    Ok(slices)
}

/// Whether a crate of its own prints the subcommand's help.
fn has_help(subcommand: &str) -> bool
    ensures { result ≡ has_help subcommand.now }
{
    matches!(
        subcommand,
        "node" | "ask" | "key" | "show" | "follow" | "batch"
    )
}

/// The subcommand whose help `help SUBCOMMAND` asks for, where a crate of its own prints it.
fn helped<'a>(arguments: &[&'a str]) -> Option<&'a str>
    ensures { option_map (λ s. s.now) result ≡ helped (map (λ a. a.now) arguments.now) }
{
    match arguments {
        [_, first, subcommand] if *first == "help" && has_help(subcommand) => Some(*subcommand),
        _ => None,
    }
}

/// Whether with an argument the environment names no control socket: it names one, or a node's address, or asks for
/// help.
fn excludes_control(argument: &str) -> bool
    ensures { result ≡ excludes_control argument.now }
{
    names_control(argument) || names_node(argument) || is_help(argument)
}

/// Whether one of these is such an argument.
fn any_excludes_control(arguments: &[&str]) -> bool
    ensures { result ≡ list_any excludes_control (map (λ a. a.now) arguments.now) }
{
    arguments.iter().any(|argument| excludes_control(argument))
}

/// Whether the environment may name the control socket: of `ask` or `follow`, without such an argument.
fn lacks_control(arguments: &[&str]) -> bool
    ensures { result ≡ lacks_control (map (λ a. a.now) arguments.now) }
{
    matches!(subcommand_of(arguments), "ask" | "follow") && !any_excludes_control(arguments)
}

/// The arguments with `--control PATH` behind the subcommand.
fn with_control<'a>(alloc: Global, given: &[&'a str], path: &'a str) -> Made<'a>
    ensures { IfOk result (λ all. map (λ a. a.now) all.items ≡ with_control (map (λ a. a.now) given.now) path.entry.now) }
{
    let [name, subcommand, rest @ ..] = given else {
        return Vec::from_slice(alloc, given);
    };
    let mut all = Vec::from_slice(alloc, &[*name, *subcommand, "--control", path])?;
    all.extend_from_slice(rest)?;
    Ok(all)
}

/// The arguments with which a run is made, of those that the program is given and the control socket that its
/// environment names.
fn program_arguments<'a>(alloc: Global, given: &[&'a str], control: &'a Option<String>) -> Made<'a>
    ensures { IfOk result (λ all. map (λ a. a.now) all.items ≡
        program_arguments (map (λ a. a.now) given.now) (option_map string_bytes control.now)) }
{
    if let Some(subcommand) = helped(given) {
        return Vec::from_slice(alloc, &["pfx", subcommand, "--help"]);
    }
    match control {
        Some(path) if lacks_control(given) => with_control(alloc, given, path.as_str()),
        _ => Vec::from_slice(alloc, given),
    }
}

/// The control socket that the environment names, where these arguments lack one.
fn control_for<I: Invocation>(rt: &I, given: &[&str]) -> io::Result<Option<String>>
    ensures { IfOk result (λ path. lacks_control (map (λ a. a.now) given.now) ≡ true →
        I.has_control rt.now (option_map string_bytes path)) }
{
    if lacks_control(given) {
        rt.control()
    } else {
        Ok(None)
    }
}

/// Does what the program was started for: at the control socket that the environment names, where `ask` or `follow`
/// names none.
pub(crate) fn run_program<I: Invocation + Files + Net, T: Runner, R: Read, W: Write, E: Write>(
    rt: &I,
    runner: &mut T,
    alloc: Global,
    reader: &mut R,
    output: &mut Output<W>,
    errors: &mut E,
    is_terminal: bool,
) -> io::Result<Ended>
    ensures ran { IfOk result (λ ended. IsProgram (I.has_arguments rt.now) (I.has_control rt.now) (λ arguments.
        is_batch arguments ≡ false → Adds (T.did runner.old) (T.did runner.new) (Ran arguments (R.remaining reader.old)
        (W.contents output.old.inner) (W.contents output.new.inner) is_terminal ended.status ∷ []))) }
    ensures batch { IfOk result (λ ended. IsProgram (I.has_arguments rt.now) (I.has_control rt.now) (λ arguments.
        is_batch arguments ≡ true → ended.status ≡ Status.Done → RanBatch (T.did runner.old) (T.did runner.new))) }
    ensures none { OnErr result (Adds (T.did runner.old) (T.did runner.new) []) }
    ensures unwritten { OnErr result (W.contents output.new.inner ≡ W.contents output.old.inner) }
{
    let strings = rt.arguments(alloc)?;
    let given = slices_of(alloc, strings.as_slice())?;
    let control = control_for(rt, given.as_slice())?;
    let arguments = program_arguments(alloc, given.as_slice(), &control)?;
    let status = run_line(
        rt,
        runner,
        alloc,
        arguments.as_slice(),
        reader,
        output,
        errors,
        is_terminal,
    );
    Ok(Ended { status })
}

/// How the program ends where the system doesn't give it its arguments.
pub(crate) fn without_arguments<W: Write>(error: &io::Error, writer: &mut W) -> Ended
    ensures { 0 < code_of result.status }
{
    let status = match error.kind() {
        ErrorKind::OutOfMemory => out_of_memory(writer),
        _ => Status::Usage,
    };
    Ended { status }
}
