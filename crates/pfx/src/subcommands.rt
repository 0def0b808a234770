//! What runs each kind of command lines but a batch, over what is lent to it.

ghost use Rattle.std.specs.Prelude.{◌≡◌, ◌≢◌, false, [], ◌∷◌, map};
ghost use Rattle.std.specs.List.{AllByRecursion};
ghost use Rattle.cli_ask.specs.Arguments as ask;
ghost use Rattle.cli_ask.specs.Running as asking;
ghost use Rattle.cli_follow.specs.Arguments as follow;
ghost use Rattle.cli_follow.specs.Running as following;
ghost use Rattle.cli_io.specs.Sources.{IsText};
ghost use Rattle.cli_nft.specs.Options as nft;
ghost use Rattle.cli_nft.specs.Running as loading;
ghost use Rattle.cli_node.specs.Doing.{Adds};
ghost use Rattle.cli_show.specs.Arguments as show;
ghost use Rattle.cli_show.specs.Running as showing;
ghost use Rattle.pfx.specs.Arguments.{is_asking, is_netting, kind_of};
ghost use Rattle.pfx.specs.Runs.{AreLeft, HelpsAsk, IsToolRun, Ran, RanNet};
ghost use Rattle.pfx.specs.declared.kind.Kind.TheVariants as kind;

use crate::kind::{Kind, kind_of};
use crate::running::Runner;
use crate::version::write_version;
use cli_ask::{Direct, Pauses, run_control_ask};
use cli_files::RandomBytes;
use cli_follow::{ControlSockets, Folders, run_follow};
use cli_io::{Explanation, Sources, Status};
use cli_nft::run_nft;
use cli_node::{Client, NewFiles, Nodes, run_net};
use cli_show::{Stores, run_show};
use pf_tool::run;
use std::alloc::Global;
use std::io::{Eprint, Read, Write};
use std::rt::Files;
use std::time::Clock;

/// What a command line reaches with: who answers at control sockets, runs nodes, makes wires, new files and files of
/// rulesets, and runs what reaches no node.
#[derive(Drop)]
pub(crate) struct Reach<P, N, C, K, D, T> {
    pub(crate) peer: P,
    pub(crate) nodes: N,
    pub(crate) client: C,
    pub(crate) files: K,
    pub(crate) folders: D,
    pub(crate) tool: T,
}

/// What runs the subcommands that reach no node, with the table of refusals.
#[derive(Clone, Copy)]
pub(crate) struct Tool<'t> {
    pub(crate) rt: HostRuntime,
    pub(crate) table: &'t [Explanation],
}

impl Runner for Tool<'_> {
    // each wrote what its arguments ask for, over what the system's files have
    ghost did = { λ tool runs.
        AllByRecursion (IsToolRun (⟦<HostRuntime as Sources>⟧.has tool.rt) tool.table.now) runs };

    fn run<R: Read, W: Write, E: Write>(
        &mut self,
        arguments: &[&str],
        reader: &mut R,
        writer: &mut W,
        errors: &mut E,
        is_terminal: bool,
    ) -> Status {
        let Tool { rt, table } = *self;
        run(&rt, table, arguments, reader, writer, errors, is_terminal)
    }
}

/// Writes the help of `ask`: of the control socket's form, then of the one over UDP.
fn help_ask<
    'x,
    RT: Clock + Eprint + Pauses + RandomBytes + Sources,
    P: Direct<'x>,
    N: Nodes,
    C: Client,
    K: NewFiles,
    D,
    T,
    R: Read,
    W: Write,
    E: Write,
>(
    rt: &RT,
    reach: &mut Reach<P, N, C, K, D, T>,
    alloc: Global,
    arguments: &'x [&'x str],
    reader: &mut R,
    writer: &mut W,
    errors: &mut E,
) -> Status
    ensures help { HelpsAsk (λ ending new. asking.Ran P.answers_at P.exchanged reach.old.peer reach.new.peer
        (ask.given_of (map (λ a. a.now) arguments.now)) (IsText (RT.has rt.now) (R.remaining reader.old)) ending
        (W.contents writer.old) new) (AreLeft reach.old.nodes reach.new.nodes reach.old.client reach.new.client
        reach.old.files reach.new.files)
        (λ input old. RanNet N.did C.went K.made C.Wire.traffic C.reaches C.is_unreached
        (RT.gives rt.now) (RT.has rt.now) reach.old.nodes reach.new.nodes reach.old.client reach.new.client
        reach.old.files reach.new.files (map (λ a. a.now) arguments.now) input result old
        (W.contents writer.new)) result (W.contents writer.new) }
    ensures folders { reach.new.folders ≡ reach.old.folders }
    ensures tool { reach.new.tool ≡ reach.old.tool }
{
    let peer = &mut reach.peer;
    let status = run_control_ask(rt, peer, alloc, arguments, reader, writer, errors, false);
    if status != Status::Usage {
        return status;
    }
    match writer.write_all(b"\nTo a node with neither control socket nor key, over UDP:\n\n") {
        Ok(()) => {
            let nodes = &mut reach.nodes;
            let client = &mut reach.client;
            let files = &mut reach.files;
            run_net(rt, nodes, client, files, alloc, arguments, reader, writer)
        }
        Err(_) => Status::Failed,
    }
}

/// Writes which program this is.
fn print_version<W: Write>(writer: &mut W) -> Status {
    write_version(writer).map_or(Status::Failed, |()| Status::Done)
}

/// Does what the arguments ask for, as the crate of their subcommand has it. All subcommands but `batch`.
pub(crate) fn run_plain<
    'x,
    RT: Clock + Eprint + Files + Pauses + RandomBytes + Sources + Stores,
    P: Direct<'x>,
    N: Nodes,
    C: Client,
    K: NewFiles,
    D: Folders,
    T: Runner,
    S: ControlSockets<'x>,
    R: Read,
    W: Write,
    E: Write,
>(
    rt: &RT,
    reach: &mut Reach<P, N, C, K, D, T>,
    sockets: &'x S,
    alloc: Global,
    arguments: &'x [&'x str],
    reader: &mut R,
    writer: &mut W,
    errors: &mut E,
    is_terminal: bool,
) -> Status
    ensures socket { kind_of (map (λ a. a.now) arguments.now) ≡ kind.Socket →
        asking.Ran P.answers_at P.exchanged reach.old.peer reach.new.peer
        (ask.given_of (map (λ a. a.now) arguments.now)) (IsText (RT.has rt.now) (R.remaining reader.old)) result
        (W.contents writer.old) (W.contents writer.new) }
    ensures help { kind_of (map (λ a. a.now) arguments.now) ≡ kind.AskHelp →
        HelpsAsk (λ ending new. asking.Ran P.answers_at P.exchanged reach.old.peer reach.new.peer
        (ask.given_of (map (λ a. a.now) arguments.now)) (IsText (RT.has rt.now) (R.remaining reader.old)) ending
        (W.contents writer.old) new) (AreLeft reach.old.nodes reach.new.nodes reach.old.client reach.new.client
        reach.old.files reach.new.files)
        (λ input old. RanNet N.did C.went K.made C.Wire.traffic C.reaches C.is_unreached
        (RT.gives rt.now) (RT.has rt.now) reach.old.nodes reach.new.nodes reach.old.client reach.new.client
        reach.old.files reach.new.files (map (λ a. a.now) arguments.now) input result old
        (W.contents writer.new)) result (W.contents writer.new) }
    ensures net { kind_of (map (λ a. a.now) arguments.now) ≡ kind.Net →
        RanNet N.did C.went K.made C.Wire.traffic C.reaches C.is_unreached
        (RT.gives rt.now) (RT.has rt.now) reach.old.nodes reach.new.nodes reach.old.client reach.new.client
        reach.old.files reach.new.files (map (λ a. a.now) arguments.now) (R.remaining reader.old) result
        (W.contents writer.old) (W.contents writer.new) }
    ensures show { kind_of (map (λ a. a.now) arguments.now) ≡ kind.Show →
        showing.Ran (RT.answers rt.now) (RT.has rt.now) (show.given_of (map (λ a. a.now) arguments.now)) result
        (W.contents writer.old) (W.contents writer.new) }
    ensures follow { kind_of (map (λ a. a.now) arguments.now) ≡ kind.Follow → following.Ran (S.answers_at sockets.now)
        S.Peer.exchanged (D.done reach.old.folders) (D.done reach.new.folders) (RT.has rt.now)
        (follow.given_of (map (λ a. a.now) arguments.now)) result (W.contents writer.old) (W.contents writer.new) }
    ensures nft { kind_of (map (λ a. a.now) arguments.now) ≡ kind.Nft → loading.Ran (RT.has rt.now)
        (nft.given_of (map (λ a. a.now) arguments.now)) result (R.remaining reader.old) (W.contents writer.old)
        (W.contents writer.new) }
    ensures tool { kind_of (map (λ a. a.now) arguments.now) ≡ kind.Tool → Adds (T.did reach.old.tool)
        (T.did reach.new.tool) (Ran (map (λ a. a.now) arguments.now) (R.remaining reader.old) (W.contents writer.old)
        (W.contents writer.new) is_terminal result ∷ []) }
    ensures unasked { is_asking (kind_of (map (λ a. a.now) arguments.now)) ≡ false →
        reach.new.peer ≡ reach.old.peer }
    ensures unrun { is_netting (kind_of (map (λ a. a.now) arguments.now)) ≡ false →
        AreLeft reach.old.nodes reach.new.nodes reach.old.client reach.new.client
        reach.old.files reach.new.files }
    ensures unfollowed { kind_of (map (λ a. a.now) arguments.now) ≢ kind.Follow →
        reach.new.folders ≡ reach.old.folders }
    ensures idle { kind_of (map (λ a. a.now) arguments.now) ≢ kind.Tool → reach.new.tool ≡ reach.old.tool }
{
    match kind_of(arguments) {
        Kind::Version => print_version(writer),
        Kind::Socket => run_control_ask(
            rt,
            &mut reach.peer,
            alloc,
            arguments,
            reader,
            writer,
            errors,
            is_terminal,
        ),
        Kind::AskHelp => help_ask(rt, reach, alloc, arguments, reader, writer, errors),
        Kind::Net => {
            let nodes = &mut reach.nodes;
            let client = &mut reach.client;
            let files = &mut reach.files;
            run_net(rt, nodes, client, files, alloc, arguments, reader, writer)
        }
        Kind::Show => run_show(rt, alloc, arguments, writer),
        Kind::Follow => {
            let folders = &mut reach.folders;
            run_follow(rt, sockets, folders, alloc, arguments, writer, errors)
        }
        Kind::Nft => run_nft(rt, alloc, arguments, reader, writer),
        Kind::Tool => {
            let tool = &mut reach.tool;
            tool.run(arguments, reader, writer, errors, is_terminal)
        }
    }
}
