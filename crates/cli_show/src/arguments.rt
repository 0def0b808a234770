//! The subcommand `show`, as `clap` reads it.

ghost use Rattle.std.specs.Prelude.{◌≡◌, IfOk};
ghost use Rattle.clap.specs.Words.{app_of};
ghost use Rattle.cli_show.specs.Arguments.{pfx_app};

use clap::Command;
use cli_io::{Argument, program_with, with_options};
use pf_arguments::pfctl_args;
use std::alloc::{AllocError, Global};

/// The most positions.
const POSITIONS: u64 = 1_000_000;

/// The help of each option, and the text below the options.
const STORE: &str = "A node's store, which no running node may have open; it isn't changed";

const NFT: &str = "The configuration as nft(8) loads it, three lines";

const INTERFACES: &str =
    "With --nft: the machine's interfaces, a line each: its name, then its groups";

const PF: &str = "The rulesets for pfctl(8), each behind the comment # pfctl -a PATH -f -";

const SCRIPT: &str =
    "A script in the form of ctl's that gives the configuration when it is asked of an empty cluster";

const FROM: &str = "With log: the first position; else the last lines are shown";

const COUNT: &str = "With log: the most lines shown; without --from 20 by default";

const BELOW: &str = "A listing by pfctl's options; or, without these:
  test PACKET..   the verdicts for packets       log   what was learned
Without arguments, the number of positions applied, and of those left in the log.
It shows the configuration after the learned positions up to the first gap.
A refusal is refused CODE: 70 no store, or one in use, 72 a bad row, 73 another format, 40 invalid arguments,
20, 24, 30, 1 to 3 as for ctl, 87 to 89 as for check --nft, 91 no script gives the configuration.";

/// The program's arguments with `show`:
/// `show --store FILE [--nft --interfaces FILE] [--pf] [--script] [--from P] [--count N]`, and pfctl's arguments.
pub(crate) fn command<'a>(alloc: Global) -> Result<Command<'a>, AllocError>
    ensures { IfOk result (λ c. app_of c ≡ pfx_app) }
{
    let show = Command::new(alloc, "show")
        .about("Shows what a node's store holds")
        .after_help(BELOW);
    let arguments = [
        Argument::Needed("store", STORE),
        Argument::Flag("nft", NFT),
        Argument::Value("interfaces", INTERFACES),
        Argument::Flag("pf", PF),
        Argument::Flag("script", SCRIPT),
        Argument::Number("from", FROM, 0, POSITIONS),
        Argument::Number("count", COUNT, 0, POSITIONS),
    ];
    let show = with_options(alloc, show, &arguments)?;
    program_with(alloc, pfctl_args(alloc, show)?)
}
