//! The subcommand `follow`, as `clap` reads it.

ghost use Rattle.std.specs.Prelude.{◌≡◌, IfOk};
ghost use Rattle.clap.specs.Words.{app_of};
ghost use Rattle.cli_follow.specs.Arguments.{pfx_app};

use clap::Command;
use cli_io::{Argument, program_with, with_options};
use std::alloc::{AllocError, Global};

const CONTROL: &str = "The Unix socket at which the node answers operators";

const NFT: &str = "Lines for nft(8) on standard output, a transaction each";

const INTERFACES: &str =
    "With --nft: the machine's interfaces, a line each: its name, then its groups";

const NO_GUARD: &str =
    "With --nft: without the members' guard; rules may then cut the node off from its cluster";

const PF: &str =
    "A folder for rulesets for pfctl(8): main.conf, and anchor+NAME+NAME.conf for each path";

const TURNS: &str = "Ends after this many requests at the control socket; by default never";

const BELOW: &str =
    "Once the node has applied a command, and whenever a command changes the rules, it writes them whole.
With --nft: the sets of the position, all rules in place of those before, and the deletion of the sets and chains of the
position written before. First comes the members' guard: what members send each other from and to their addresses and
ports passes whatever the rules are, with later fragments, and for IPv6 neighbour discovery and packet too big. A
control socket that doesn't answer is asked again. Refusals are reported on standard error: after 87 and 88, as for
check --nft, what was written before remains in force; 89 the file of interfaces and 40 invalid arguments end it.";

/// The program's arguments with `follow`:
/// `follow --control PATH [--nft --interfaces FILE [--no-member-guard]] [--pf DIR] [--turns T]`.
pub(crate) fn command<'a>(alloc: Global) -> Result<Command<'a>, AllocError>
    ensures { IfOk result (λ c. app_of c ≡ pfx_app) }
{
    let follow = Command::new(alloc, "follow")
        .about("Follows what a node applies, as rules for a kernel")
        .after_help(BELOW);
    let arguments = [
        Argument::Needed("control", CONTROL),
        Argument::Flag("nft", NFT),
        Argument::Value("interfaces", INTERFACES),
        Argument::Flag("no-member-guard", NO_GUARD),
        Argument::Value("pf", PF),
        Argument::Number("turns", TURNS, 0, u64::MAX),
    ];
    program_with(alloc, with_options(alloc, follow, &arguments)?)
}
