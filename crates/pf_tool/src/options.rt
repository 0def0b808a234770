//! The command-line arguments of the program, as `clap` reads them.

ghost use Rattle.std.specs.Prelude.{◌≡◌, IfOk, false, map};
ghost use Rattle.clap.specs.Words.{app_of};
ghost use Rattle.clap.specs.declared.builder.command.Command.TheViews.{out-Command};
ghost use Rattle.pf_tool.specs.Options.{check_app, test_app, ctl_app, lab_app, explain_app};
ghost use Rattle.pf_tool.specs.Options.{texts_app, scripts_app, with_named, pfx_app};

use crate::output::Made;
use clap::Command;
use cli_io::{Argument, with_options};
use std::alloc::Global;

/// What help shows below its options.
const BELOW: &str = "pfx SUBCOMMAND --help describes a subcommand; pfx --version prints the version.

Exit status: 0 done; 1 refused, out of memory (prints memory), a failed read or write, or more than 16777216 bytes of
input; 2 invalid arguments.";

const CHECK_BELOW: &str =
    "Reads a ruleset from a file, or standard input, in the language of pf.conf: rules, anchors and
their blocks, tables, macros, set. Several files are shown one after the other.

A refusal is refused CAUSE line L, where L is the line at which the statement begins; refused 90 is a file that can't be
read. pfx explain CAUSE describes each:
  10 unknown character          11 a macro               12 syntax error
  13 ports                      14 no combination        15 a reserved name
  16 defined twice              17 set in an anchor      18 too many                   19 icmp-type

With --nft, --interfaces FILE and --position N it prints what nft loads: see pfx check --nft --help.";

const TEST_BELOW: &str =
    "Reads a ruleset from a file, or standard input, as check does. A packet is one argument, in quotes,
or a line of a file; with -f and no packet, a line of standard input:
  in|out on IF {group IF} proto P from ADDR [port N] to ADDR [port N] [flags LETTERS] [icmp-type N]
as
  'in on em0 proto tcp from 10.1.2.3 port 4000 to 192.0.2.1 port 22 flags S'

Prints a line for each packet: pass, block drop or block return, with the place of the rule that decides (@0 is the
first); pass default if no rule matches; pass skip. A malformed packet gives refused 30 and ends the run.";

const CTL_BELOW: &str = "Reads a script from standard input. A line is one of
  pfctl [-a PATH] -f - [-n]                                      the ruleset follows, up to a line with a dot
  pfctl [-a PATH] -F rules|Tables|all
  pfctl [-a PATH] -t TABLE -T add|delete|replace|flush|show|test ADDRESS..
  pfctl [-a PATH] -s rules|Tables|Anchors
  test PACKET
It prints ok, ok ADDED REMOVED, a listing, a verdict, or refused CODE, after which the script goes on:
  1 to 3 an address     20 no such table    21 a const table     22 a table is full    23 too many paths
  24 a path             30 a packet         40 arguments         41 a change too long";

const LAB_BELOW: &str =
    "Reads a script from standard input. Its first line is members N, 1 to 15. A line is one of
  ask NODE ARGS      pfctl's arguments of a change; with -f - its ruleset follows, up to a line with a dot
  tick NODE          deliver K          run                run delivers what was sent, four times
  stop-before EVENT  stop-after EVENT   restart NODE       an event is an ask, a tick or a delivery
  test NODE PACKET   state              log NODE           sent";

const NAMED_BELOW: &str = "pfx SUBCOMMAND --help, with this subcommand, describes its options.";

/// The subcommands whose options are other crates', and what each does.
const NAMED: [(&str, &str); 6] = [
    ("node", "Runs a node over UDP on its store"),
    (
        "ask",
        "Submits a change to a node, or asks it at its control socket",
    ),
    ("key", "Makes a cluster's key"),
    ("show", "Shows what a node's store holds"),
    (
        "follow",
        "Follows what a node applies, as rules for a kernel",
    ),
    (
        "batch",
        "Runs the command lines of a file, each with its input",
    ),
];

/// The help of each option.
const ANCHOR: &str = "The ruleset is for an anchor: set is refused";

const QUIET: &str = "Prints nothing; the exit status reports the result";

const VERBOSE: &str =
    "Reports on standard error what is refused, and where; the default on a terminal";

const FILES: &str = "Rulesets; standard input by default";

const RULES: &str = "The ruleset; standard input by default";

const PACKETS: &str = "A file of packets, one a line";

const PACKET: &str = "Packets, each as one argument";

const CODE: &str = "The number of a refusal; without one all are explained";

/// `test [-f FILE] [--packets FILE] [-q] [-v] PACKET..`
fn test_command<'a>(alloc: Global) -> Made<Command<'a>>
    ensures app { IfOk result (λ c. app_of c ≡ test_app) }
    ensures local { IfOk result (λ c. (out-Command c).has_globals ≡ false) }
{
    let test = Command::new(alloc, "test")
        .about("Prints the verdicts of a ruleset for packets")
        .after_help(TEST_BELOW);
    let arguments = [
        Argument::ShortValue("file", RULES, 'f'),
        Argument::Value("packets", PACKETS),
        Argument::ShortFlag("quiet", QUIET, 'q'),
        Argument::ShortFlag("verbose", VERBOSE, 'v'),
        Argument::Several("packet", PACKET),
    ];
    with_options(alloc, test, &arguments)
}

/// `check [--anchor] [-q] [-v] FILE..`
fn check_command<'a>(alloc: Global) -> Made<Command<'a>>
    ensures app { IfOk result (λ c. app_of c ≡ check_app) }
    ensures local { IfOk result (λ c. (out-Command c).has_globals ≡ false) }
{
    let check = Command::new(alloc, "check")
        .about("Shows the rules that a ruleset expands to, or why it is refused")
        .after_help(CHECK_BELOW);
    let arguments = [
        Argument::Flag("anchor", ANCHOR),
        Argument::ShortFlag("quiet", QUIET, 'q'),
        Argument::ShortFlag("verbose", VERBOSE, 'v'),
        Argument::Several("file", FILES),
    ];
    with_options(alloc, check, &arguments)
}

/// `ctl [-v]`
fn ctl_command<'a>(alloc: Global) -> Made<Command<'a>>
    ensures app { IfOk result (λ c. app_of c ≡ ctl_app) }
    ensures local { IfOk result (λ c. (out-Command c).has_globals ≡ false) }
{
    let ctl = Command::new(alloc, "ctl")
        .about("Runs a script of pfctl commands over one configuration, empty at first")
        .after_help(CTL_BELOW);
    with_options(alloc, ctl, &[Argument::ShortFlag("verbose", VERBOSE, 'v')])
}

/// `lab`
fn lab_command<'a>(alloc: Global) -> Command<'a>
    ensures app { app_of result ≡ lab_app }
    ensures local { (out-Command result).has_globals ≡ false }
{
    Command::new(alloc, "lab")
        .about("Runs a script of the events of nodes that agree on one log")
        .after_help(LAB_BELOW)
}

/// `explain [CODE]`
fn explain_command<'a>(alloc: Global) -> Made<Command<'a>>
    ensures app { IfOk result (λ c. app_of c ≡ explain_app) }
    ensures local { IfOk result (λ c. (out-Command c).has_globals ≡ false) }
{
    let explain = Command::new(alloc, "explain").about(
        "Explains a refusal: its cause, its effect, and the remedy",
    );
    with_options(alloc, explain, &[Argument::Single("code", CODE)])
}

/// The program with the subcommands that read a ruleset's text.
fn texts_command<'a>(alloc: Global) -> Made<Command<'a>>
    ensures { IfOk result (λ c. app_of c ≡ texts_app) }
{
    let check = check_command(alloc)?;
    let test = test_command(alloc)?;
    Command::new(alloc, "pfx")
        .about("Replicated configuration of packet filters in the language of pf")
        .after_help(BELOW)
        .subcommand(check)?
        .subcommand(test)
}

/// The same with the subcommands that read a script, and the one that reads nothing.
fn scripts_command<'a>(alloc: Global) -> Made<Command<'a>>
    ensures { IfOk result (λ c. app_of c ≡ scripts_app) }
{
    let ctl = ctl_command(alloc)?;
    let explain = explain_command(alloc)?;
    texts_command(alloc)?
        .subcommand(ctl)?
        .subcommand(lab_command(alloc))?
        .subcommand(explain)
}

/// Names subcommands whose options are other crates', so that help lists them.
fn with_named<'a>(
    alloc: Global,
    mut command: Command<'a>,
    subcommands: &[(&'a str, &'a str)],
) -> Made<Command<'a>>
    ensures { IfOk result (λ c. app_of c ≡ with_named (app_of command.entry) (map (λ s. s.0.now) subcommands.entry.now)) }
{
    for subcommand in subcommands {
        let named = Command::new(alloc, subcommand.0)
            .about(subcommand.1)
            .after_help(NAMED_BELOW);
        command = command.subcommand(named)?;
    }
    Ok(command)
}

/// The program with all its subcommands.
pub(crate) fn command<'a>(alloc: Global) -> Made<Command<'a>>
    ensures { IfOk result (λ c. app_of c ≡ pfx_app) }
{
    Ok(with_named(alloc, scripts_command(alloc)?, &NAMED)?.subcommand_required(true))
}
