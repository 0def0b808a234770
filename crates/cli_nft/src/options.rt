//! The arguments `check --nft`, as `clap` reads them.

ghost use Rattle.std.specs.Prelude.{◌≡◌, IfOk};
ghost use Rattle.clap.specs.Words.{app_of};
ghost use Rattle.cli_nft.specs.Options.{nft_app};

use clap::Command;
use cli_io::{Argument, program_with, with_options};
use std::alloc::{AllocError, Global};

const INTERFACES: &str = "The machine's interfaces, a line each: its name, then its groups";

const MEMBERS: &str =
    "The cluster's members, each as ADDRESS:PORT: what they send each other passes whatever the rules are";

const POSITION: &str = "The position of the ruleset, which names contain; 0 by default";

const BELOW: &str =
    "Reads a ruleset from standard input, as check does. Prints three lines, for nft -f one after the other: the \
     sets; all
rules, in place of those loaded before; and, to be kept until another position's rules are loaded, the deletion of these
sets and chains. Never use a position for two rulesets; with another members' guard its sets are the same. Refusals are
those of check, and
  40 a member is no ADDRESS:PORT, or there are more than 15
  87 an anchor contains itself   88 a packet would meet more than 100000 rules   89 the file of interfaces";

/// The program with `check --nft --interfaces FILE [--members ADDRESS:PORT..] [--position N]`.
pub(crate) fn command<'a>(alloc: Global) -> Result<Command<'a>, AllocError>
    ensures { IfOk result (λ c. app_of c ≡ nft_app) }
{
    let check = Command::new(alloc, "check")
        .about("Prints a ruleset as nft(8) loads it on a machine")
        .after_help(BELOW);
    let arguments = [
        Argument::Flag("nft", "As nft(8) loads it"),
        Argument::Needed("interfaces", INTERFACES),
        Argument::Values("members", MEMBERS),
        Argument::U32("position", POSITION, false),
    ];
    program_with(alloc, with_options(alloc, check, &arguments)?)
}
