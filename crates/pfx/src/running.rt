//! The subcommands, run by their crates.

ghost use Rattle.std.specs.Prelude.{⊤, List, [], ◌∷◌, map};
ghost use Rattle.cli_follow.specs.Exchanges.{Adds};
ghost use Rattle.pfx.specs.Runs.{Ran, RunEvent};

use crate::subcommands::{Reach, Tool, run_plain};
use cli_ask::Reached;
use cli_follow::SystemFiles;
use cli_io::{REFUSALS, Status};
use std::io::{Read, Write};

/// What runs command lines, each but a batch.
pub(crate) trait Runner {
    // these runs were made so far, in order
    ghost did: { Self → List RunEvent → Type 0 };

    /// Does what the arguments ask for, the program's name first.
    fn run<R: Read, W: Write, E: Write>(
        &mut self,
        arguments: &[&str],
        reader: &mut R,
        writer: &mut W,
        errors: &mut E,
        is_terminal: bool,
    ) -> Status
        ensures { Adds (did self.old) (did self.new) (Ran (map (λ a. a.now) arguments.now) (R.remaining reader.old)
            (W.contents writer.old) (W.contents writer.new) is_terminal result ∷ []) };
}

/// The subcommands in the system: each run is lent values of the system's that are made for it alone.
#[derive(Clone, Copy)]
pub(crate) struct Subcommands {
    pub(crate) rt: HostRuntime,
}

/// Does what the arguments ask for with what the system gives.
fn run_in_system<'x, R: Read, W: Write, E: Write>(
    rt: &'x HostRuntime,
    arguments: &'x [&'x str],
    reader: &mut R,
    writer: &mut W,
    errors: &mut E,
    is_terminal: bool,
) -> Status {
    let mut reach = Reach {
        peer: Reached::new(rt),
        nodes: *rt,
        client: *rt,
        files: *rt,
        folders: SystemFiles { rt },
        tool: Tool {
            rt: *rt,
            table: &REFUSALS,
        },
    };
    run_plain(
        rt,
        &mut reach,
        rt,
        rt.alloc(),
        arguments,
        reader,
        writer,
        errors,
        is_terminal,
    )
}

impl Runner for Subcommands {
    // no contract states what the subcommands do in the system
    ghost did = { λ _ _. ⊤ };

    fn run<R: Read, W: Write, E: Write>(
        &mut self,
        arguments: &[&str],
        reader: &mut R,
        writer: &mut W,
        errors: &mut E,
        is_terminal: bool,
    ) -> Status {
        run_in_system(&self.rt, arguments, reader, writer, errors, is_terminal)
    }
}
