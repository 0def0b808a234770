//! A run of `follow`.

ghost use Rattle.std.specs.Prelude.{◌≡◌, ◌+◌, ◌&&◌, ℕ, Err, IfOk, IfErr, OnOk, OnErr, codes, map, option_map};
ghost use Rattle.clap.specs.Words.{found_of, rows_of, one_of};
ghost use Rattle.clap.specs.declared.error.kind.ErrorKind.TheVariants.{OutOfMemory};
ghost use Rattle.cli_follow.specs.Arguments.{given_of};
ghost use Rattle.nft_rules.specs.Seen.{machine_of};
ghost use Rattle.cli_follow.specs.Files.{Acted, FilesWritten, FilesWrittenIf, FilesLeft, are_behind};
ghost use Rattle.cli_follow.specs.Output.{AsksEntries, wanted, is_again, Went, Stopped, TurnFiled, TurnLeft, Ends};
ghost use Rattle.cli_follow.specs.inner.Seen.{follower_of, wanted_of, due_in, stage_in, stage_if, Leads, Fails};
ghost use Rattle.cli_follow.specs.Output as code;
ghost use Rattle.cli_follow.specs.Places.{AreTurns, IsEnding, IsNoEnding, FollowedBy};
ghost use Rattle.cli_follow.specs.Running.{Ran};

use crate::control::{Control, ControlSockets};
use crate::files::{Folders, Made, TextFiles, are_behind};
use crate::follower::{Due, Follower, WriteFault, is_again};
use crate::options::command;
use crate::places::{Places, places_for};
use clap::ArgMatches;
use clap::error::ErrorKind;
use cli_ask::{AskFault, Pauses};
use cli_io::{INVALID_ARGUMENTS, NOBODY_ANSWERS, Sources, Status, given_in, misused, value_in};
use nft_rules::MachineInterface;
use std::alloc::{AllocError, Global};
use std::convert::AsStr;
use std::fs::Files;
use std::io::Write;

/// How long it waits between two asks, but for entries that weren't all, in milliseconds.
const PAUSE: u64 = 50;

/// What is risked without the guard.
const NO_GUARD: &[u8] =
    b"pfx: no member guard: rules that drop the members' own datagrams cut this node off, and no command mends them\n";

/// Asks for entries after the given number of asks, and for the status where that is needed.
fn ask<C: Control>(alloc: Global, control: &mut C, asks: u64, follower: &mut Follower) -> Made<Due>
    ensures due { IfOk result (λ d. Leads (C.exchanged control.old) (C.exchanged control.new)
        (wanted_of follower.old) (AsksEntries (follower_of asks follower.old))
        (due_in (wanted_of follower.old) (follower_of (asks + 1) follower.new) d)) }
    ensures failed { IfErr result (λ e. Fails (C.exchanged control.old) (C.exchanged control.new)
        (wanted_of follower.old) (AsksEntries (follower_of asks follower.old))) }
    ensures status { IfOk result (λ d. d ≡ Due.Status → ⊥) }
    ensures wanted { wanted_of follower.new ≡ wanted_of follower.old }
{
    let answer = control.entries(alloc, follower.followed.position);
    match follower.entered(alloc, asks, answer)? {
        Due::Status => {
            let answer = control.status(alloc);
            follower.informed(alloc, answer)
        }
        due => Ok(due),
    }
}

/// Writes rulesets for pfctl(8), where they are wanted.
fn write_texts<F: Folders, E: Write>(
    folders: &mut F,
    follower: &Follower,
    files: &mut Option<TextFiles>,
    errors: &mut E,
) -> Result<(), AllocError>
    ensures written { OnOk result (Acted (F.done folders.old) (F.done folders.new) (λ acts.
        FilesWritten follower.now.followed.config files.old acts files.new)) }
    ensures left { OnErr result (Acted (F.done folders.old) (F.done folders.new) (λ acts.
        FilesLeft follower.now.followed.config files.old acts)) }
{
    match files {
        Some(files) => files.write(folders, &follower.followed, errors),
        None => Ok(()),
    }
}

/// Asks once, after the given number of asks, and writes what is to be written; rulesets again where one couldn't be
/// written, in the first of some asks.
fn turn<F: Folders, C: Control, W: Write, E: Write>(
    folders: &mut F,
    alloc: Global,
    control: &mut C,
    asks: u64,
    follower: &mut Follower,
    files: &mut Option<TextFiles>,
    writer: &mut W,
    errors: &mut E,
) -> Result<Due, WriteFault>
    ensures went { IfOk result (λ d. Went (C.exchanged control.old) (C.exchanged control.new)
        (wanted_of follower.old) (AsksEntries (follower_of asks follower.old))
        (stage_in (follower_of (asks + 1) follower.new) d) (W.contents writer.old) (W.contents writer.new)) }
    ensures stopped { IfErr result (λ e. Stopped (C.exchanged control.old) (C.exchanged control.new)
        (wanted_of follower.old) (AsksEntries (follower_of asks follower.old))
        (W.contents writer.old) (W.contents writer.new)) }
    ensures filed { IfOk result (λ d. TurnFiled (C.exchanged control.old) (C.exchanged control.new)
        (F.done folders.old) (F.done folders.new) (wanted_of follower.old) (follower_of asks follower.old)
        (stage_in (follower_of (asks + 1) follower.new) d) files.old files.new) }
    ensures left { IfErr result (λ e. TurnLeft (C.exchanged control.old) (C.exchanged control.new)
        (F.done folders.old) (F.done folders.new) (wanted_of follower.old) (follower_of asks follower.old)
        files.old) }
    ensures again { IfOk result (λ d. d ≡ Due.Rest →
        Acted (F.done folders.old) (F.done folders.new) (λ acts.
        FilesWrittenIf (is_again asks && are_behind files.old) follower.new.followed.config
        files.old acts files.new)) }
    ensures fault { IfErr result (λ e. e ≡ WriteFault.Another → ⊥) }
    ensures status { IfOk result (λ d. d ≡ Due.Status → ⊥) }
    ensures wanted { wanted_of follower.new ≡ wanted_of follower.old }
{
    let due = ask(alloc, control, asks, follower)?;
    match due {
        Due::Write => {
            write_texts(folders, follower, files, errors)?;
            follower.write(writer, errors)?;
            Ok(due)
        }
        Due::Rest if is_again(asks) && are_behind(files) => {
            write_texts(folders, follower, files, errors)?;
            Ok(due)
        }
        // no file is behind, or it isn't time to try again
        Due::Rest => Ok(due),
        _ => Ok(due),
    }
}

/// Whether the log is another than the one that was followed, so that nothing is asked for next.
fn is_another(due: Due) -> bool
    requires status { due ≡ Due.Status → ⊥ }
    ensures { (f : code.Follower) → stage_in f due ≡ stage_if result f }
{
    matches!(due, Due::Another)
}

/// Reports once that there is no answer, and why nobody answers, and waits before it asks for entries again, except for
/// the rest of an answer.
fn rest<RT: Pauses, C: Control, E: Write>(
    rt: &RT,
    control: &C,
    errors: &mut E,
    due: Due,
    said: &mut Option<AskFault>,
) {
    let was = said.take();
    if let Due::Nothing(fault) = due {
        *said = Some(fault);
        if was != *said {
            let code = fault.code().unwrap_or(NOBODY_ANSWERS);
            let _logged = writeln!(errors, "pfx: refused {code}, asked again");
            if fault == AskFault::NoAnswer {
                control.report(errors);
            }
        }
    }
    if !matches!(due, Due::More) {
        rt.pause(PAUSE);
    }
}

/// Follows a node's log until the output is closed, or entries were asked for so often, or another log is there: what
/// nft(8) is to load goes to the writer, for a machine with these interfaces, if there are any, with the members' guard
/// or without; rulesets for pfctl(8) go into files, where they are wanted: for the system's files `folders` is
/// [`SystemFiles`]. Refusals go to `errors`.
pub fn follow<RT: Pauses, F: Folders, C: Control, W: Write, E: Write>(
    rt: &RT,
    folders: &mut F,
    alloc: Global,
    control: &mut C,
    turns: u64,
    interfaces: Option<Vec<MachineInterface>>,
    is_guarded: bool,
    files: Option<TextFiles>,
    writer: &mut W,
    errors: &mut E,
) -> Result<(), WriteFault>
    ensures { Ends (C.exchanged control.old) (C.exchanged control.new)
        (F.done folders.old) (F.done folders.new)
        (wanted (option_map (λ v. machine_of v.items) interfaces) is_guarded) files turns result
        (W.contents writer.old) (W.contents writer.new) }
{
    let mut follower = Follower::new(alloc, interfaces, is_guarded)?;
    let mut files = files;
    let mut said = None;
    for asks in 0..turns {
        let (follower, files) = (&mut follower, &mut files);
        let due = turn(
            folders, alloc, control, asks, follower, files, writer, errors,
        )?;
        if is_another(due) {
            return Err(WriteFault::Another);
        }
        rest(rt, control, errors, due, &mut said);
    }
    Ok(())
}

/// A refusal by its number, logged on standard error, since what is written goes to nft(8).
fn refused<E: Write>(code: u8, errors: &mut E) -> Status
    ensures { IsNoEnding result }
{
    writeln!(errors, "refused {code}").map_or(Status::Failed, |()| Status::Refused)
}

/// Out of memory, logged on standard error.
fn memory<E: Write>(errors: &mut E) -> Status
    ensures { IsEnding (Err WriteFault.Memory) result }
{
    writeln!(errors, "memory").map_or(Status::Failed, |()| Status::Memory)
}

/// How a run ends, logged on standard error.
fn status_of<E: Write>(ended: Result<(), WriteFault>, errors: &mut E) -> Status
    ensures { IsEnding ended result }
{
    match ended {
        Ok(()) => Status::Done,
        Err(WriteFault::Closed) => {
            let _logged = errors.write_all(b"pfx: the output is closed\n");
            Status::Failed
        }
        Err(WriteFault::Another) => errors
            .write_all(b"pfx: the log at the control socket isn't the one followed\n")
            .map_or(Status::Failed, |()| Status::Refused),
        Err(WriteFault::Memory) => memory(errors),
    }
}

/// Follows the log at a control socket as the matches ask for, and logs on standard error how that ended.
fn followed<RT: Files + Pauses + Sources, F: Folders, C: Control, W: Write, E: Write>(
    rt: &RT,
    folders: &mut F,
    alloc: Global,
    matches: &ArgMatches<'_>,
    control: &mut C,
    writer: &mut W,
    errors: &mut E,
) -> Status
    ensures { (turns : ℕ) × (AreTurns (one_of (codes "turns") (rows_of (found_of matches.now))) turns
        × FollowedBy (C.exchanged control.old) (C.exchanged control.new)
        (F.done folders.old) (F.done folders.new) (RT.has rt.now) (rows_of (found_of matches.now))
        turns result (W.contents writer.old) (W.contents writer.new)) }
{
    let turns = matches.get_one::<u64>("turns").unwrap_or(u64::MAX);
    let places = match places_for(rt, alloc, matches, errors) {
        Ok(Ok(places)) => places,
        Ok(Err(code)) => return refused(code, errors),
        Err(_) => return memory(errors),
    };
    let Places {
        interfaces,
        is_guarded,
        files,
    } = places;
    if interfaces.is_some() && !is_guarded {
        let _logged = errors.write_all(NO_GUARD);
    }
    let ended = follow(
        rt, folders, alloc, control, turns, interfaces, is_guarded, files, writer, errors,
    );
    status_of(ended, errors)
}

/// What the subcommand `follow` asks for, the program's name first: the rules of a running node's configuration, whole,
/// once it has applied a command and each time that what it applies changes them; for nft(8) to the writer, for
/// pfctl(8) into files, of `folders`: for the system's files [`SystemFiles`]. Refusals go to `errors`. The node is the
/// one that `sockets` has at the path of `--control`: for the system's control sockets they are `rt`.
pub fn run_follow<
    'a,
    RT: Files + Pauses + Sources,
    C: ControlSockets<'a>,
    F: Folders,
    S: AsStr,
    W: Write,
    E: Write,
>(
    rt: &RT,
    sockets: &'a C,
    folders: &mut F,
    alloc: Global,
    arguments: &'a [S],
    writer: &mut W,
    errors: &mut E,
) -> Status
    ensures { Ran (C.answers_at sockets.now) C.Peer.exchanged
        (F.done folders.old) (F.done folders.new) (RT.has rt.now)
        (given_of (map S.text arguments.now)) result (W.contents writer.old) (W.contents writer.new) }
{
    let Ok(command) = command(alloc) else {
        return memory(errors);
    };
    let matches = match command.try_get_matches_from(arguments) {
        Ok(matches) => matches,
        Err(error) if error.kind() == ErrorKind::OutOfMemory => return memory(errors),
        Err(error) => return misused(alloc, &error, writer),
    };
    let Some(inner) = given_in(&matches, "follow") else {
        return Status::Usage;
    };
    let Some(path) = value_in(inner, "control") else {
        return refused(INVALID_ARGUMENTS, errors);
    };
    let mut peer = sockets.peer_at(path);
    followed(rt, folders, alloc, inner, &mut peer, writer, errors)
}
