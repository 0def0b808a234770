//! The options of pfctl, as `clap` reads them.

ghost use Rattle.std.specs.Prelude.{◌≡◌, IfOk, false, codes};
ghost use Rattle.clap.specs.Words.{app_of, rule_of, with_rule};
ghost use Rattle.clap.specs.declared.builder.command.Command.TheViews.{out-Command};
ghost use Rattle.pf_arguments.specs.Options.{value_rule, flag_rule, address_rule, with_anchor, with_table, with_pfctl};

use clap::{Arg, ArgAction, Command};
use std::alloc::{AllocError, Global};

/// The help of each option.
const PATH: &str = "An anchor's path, names between slashes; without it the main ruleset";

const FILE: &str = "Loads a ruleset; - is standard input";

const CHECK: &str = "Parses the ruleset, but doesn't load it";

const FLUSH: &str = "Flushes rules, Tables or all";

const TABLE: &str = "A table of the anchor";

const CHANGE: &str = "A command for the table: add, delete, replace, flush, show or test";

const SHOW: &str = "Lists rules, Tables or Anchors";

const ADDRESS: &str =
    "Addresses and prefixes, negated by a ! directly before them; for test addresses only";

/// An option with a value, written by one letter.
fn valued<'a>(alloc: Global, id: &'a str, letter: char, help: &'a str) -> Arg<'a>
    ensures rule { rule_of result ≡ value_rule id.entry.now letter }
    ensures local { result.global ≡ false }
{
    Arg::new(alloc, id)
        .short(letter)
        .action(ArgAction::Set)
        .help(help)
}

/// An option without a value, written by one letter.
fn flag<'a>(alloc: Global, id: &'a str, letter: char, help: &'a str) -> Arg<'a>
    ensures rule { rule_of result ≡ flag_rule id.entry.now letter }
    ensures local { result.global ≡ false }
{
    Arg::new(alloc, id)
        .short(letter)
        .action(ArgAction::SetTrue)
        .help(help)
}

/// The addresses behind the options.
fn addresses<'a>(alloc: Global) -> Arg<'a>
    ensures rule { rule_of result ≡ address_rule }
    ensures local { result.global ≡ false }
{
    Arg::new(alloc, "address")
        .action(ArgAction::Append)
        .num_args(0..)
        .help(ADDRESS)
}

/// Adds one option.
fn with_option<'a>(command: Command<'a>, arg: Arg<'a>) -> Result<Command<'a>, AllocError>
    requires command { (out-Command command).has_globals ≡ false }
    requires arg { arg.global ≡ false }
    ensures app { IfOk result (λ c. app_of c ≡ with_rule (app_of command.entry) (rule_of arg.entry)) }
    ensures local { IfOk result (λ c. (out-Command c).has_globals ≡ false) }
{
    command.arg(arg)
}

/// Adds what names an anchor and its text.
fn with_anchor<'a>(alloc: Global, command: Command<'a>) -> Result<Command<'a>, AllocError>
    requires { (out-Command command).has_globals ≡ false }
    ensures app { IfOk result (λ c. app_of c ≡ with_anchor (app_of command.entry)) }
    ensures local { IfOk result (λ c. (out-Command c).has_globals ≡ false) }
{
    let command = with_option(command, valued(alloc, "path", 'a', PATH))?;
    let command = with_option(command, valued(alloc, "file", 'f', FILE))?;
    let command = with_option(command, flag(alloc, "check", 'n', CHECK))?;
    with_option(command, valued(alloc, "flush", 'F', FLUSH))
}

/// Adds what names a table and its addresses, and what is listed.
fn with_table<'a>(alloc: Global, command: Command<'a>) -> Result<Command<'a>, AllocError>
    requires { (out-Command command).has_globals ≡ false }
    ensures app { IfOk result (λ c. app_of c ≡ with_table (app_of command.entry)) }
    ensures local { IfOk result (λ c. (out-Command c).has_globals ≡ false) }
{
    let command = with_option(command, valued(alloc, "table", 't', TABLE))?;
    let command = with_option(command, valued(alloc, "change", 'T', CHANGE))?;
    let command = with_option(command, valued(alloc, "show", 's', SHOW))?;
    with_option(command, addresses(alloc))
}

/// Adds pfctl's options to a command: `-a PATH`, `-f FILE`, `-n`, `-F rules|Tables|all`, `-t TABLE`,
/// `-T add|delete|replace|flush|show|test`, `-s rules|Tables|Anchors`, and addresses behind them.
pub fn pfctl_args<'a>(alloc: Global, command: Command<'a>) -> Result<Command<'a>, AllocError>
    requires { (out-Command command).has_globals ≡ false }
    ensures app { IfOk result (λ c. app_of c ≡ with_pfctl (app_of command.entry)) }
    ensures local { IfOk result (λ c. (out-Command c).has_globals ≡ false) }
{
    let command = with_anchor(alloc, command)?;
    with_table(alloc, command)
}
