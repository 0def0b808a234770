//! The subcommand `ask` with `--control`, as `clap` reads it.

ghost use Rattle.std.specs.Prelude.{◌≡◌, IfOk};
ghost use Rattle.clap.specs.Words.{app_of};
ghost use Rattle.cli_ask.specs.Arguments.{pfx_app};

use clap::Command;
use cli_io::{Argument, program_with, with_options};
use pf_arguments::pfctl_args;
use std::alloc::{AllocError, Global};

/// The longest wait, in seconds.
const WAIT_MAX: u64 = 3_600;

/// The most positions.
pub(crate) const POSITIONS: u64 = 1_000_000;

/// The last line of a script that can be named.
const LINES: u64 = 4_294_967_295;

/// The help of each option, and the text below the options.
const CONTROL: &str = "The Unix socket at which the node answers operators";

const WAIT: &str = "Seconds to wait for the outcome, 0 to 3600";

const AT: &str = "Waits until the node has applied this many positions, 0 to 1000000";

const UNCHECKED: &str =
    "Sends a ruleset unchecked; by default it is checked before the node is asked";

const SCRIPT: &str =
    "A file (- the input) of changes in the form of ctl's, each sent once the outcome of the one before is known";

const FROM: &str = "With --script: the number of the first line that is sent";

const BELOW: &str = "A change or a listing by pfctl's options; or, without these:
  test PACKET..    the verdicts for packets        request N.NUMBER  the outcome of a request
  log [FROM]       what was learned                status            the node's state
  health           ok, or what is wrong            metrics           metrics for Prometheus
  sync             a change without effect         stop              ends the node
A refusal is refused CODE; 85 nobody answers at the control socket, 86 the answer isn't HTTP, or is cut short.";

/// The program's arguments with a control socket:
/// `ask --control PATH [--wait S] [--at A] [--unchecked] ARGUMENTS`, or with `--script FILE [--from LINE]` in their
/// place.
pub(crate) fn command<'a>(alloc: Global) -> Result<Command<'a>, AllocError>
    ensures { IfOk result (λ c. app_of c ≡ pfx_app) }
{
    let ask = Command::new(alloc, "ask")
        .about("Asks a node at its control socket")
        .after_help(BELOW);
    let arguments = [
        Argument::Needed("control", CONTROL),
        Argument::Number("wait", WAIT, 0, WAIT_MAX),
        Argument::Number("at", AT, 0, POSITIONS),
        Argument::Flag("unchecked", UNCHECKED),
        Argument::Value("script", SCRIPT),
        Argument::Number("from", FROM, 1, LINES),
    ];
    let ask = with_options(alloc, ask, &arguments)?;
    program_with(alloc, pfctl_args(alloc, ask)?)
}
