//! The options of subcommands, as `clap` reads them.

ghost use Rattle.std.specs.Prelude.{◌≡◌, [], IfOk, false, map, option_map, unwrap_or};
ghost use Rattle.clap.specs.Words.{app_of, rule_of, found_of, rows_of, first_of, all_of, subcommand_rows_of};
ghost use Rattle.clap.specs.declared.builder.command.Command.TheViews.{out-Command};
ghost use Rattle.cli_io.specs.Given.{given_in, is_given, program_of};
ghost use Rattle.cli_io.specs.Numbers.{number_at};
ghost use Rattle.cli_io.specs.Options.{long_rule, value_rule, needed_if, rule_by, with_rules};

use clap::ArgAction::{Append, Set, SetTrue};
use clap::builder::ValueParser::{Signed, Unsigned};
use clap::{Arg, ArgAction, ArgMatches, Command};
use std::alloc::{AllocError, Global};

/// An option of a subcommand, or an argument behind the options: its name, its help, and what else it has.
#[derive(Clone, Copy)]
pub enum Argument<'a> {
    /// `--NAME`.
    Flag(&'a str, &'a str),
    /// `-L` or `--NAME`.
    ShortFlag(&'a str, &'a str, char),
    /// `--NAME VALUE`.
    Value(&'a str, &'a str),
    /// `-L VALUE` or `--NAME VALUE`.
    ShortValue(&'a str, &'a str, char),
    /// `--NAME VALUE`, which has to be given.
    Needed(&'a str, &'a str),
    /// `--NAME VALUE`, and whether it has to be given.
    NeededIf(&'a str, &'a str, bool),
    /// `--NAME VALUE..`, once or more often.
    Values(&'a str, &'a str),
    /// `--NAME N`, from one number up to another.
    Number(&'a str, &'a str, u64, u64),
    /// `--NAME N`, a number of 8 bits, and whether it has to be given.
    U8(&'a str, &'a str, bool),
    /// `--NAME N`, a number of 32 bits, and whether it has to be given.
    U32(&'a str, &'a str, bool),
    /// One argument behind the options, or none.
    Single(&'a str, &'a str),
    /// Any number of arguments behind the options.
    Several(&'a str, &'a str),
}

/// `--NAME`, with its help.
fn long<'a>(alloc: Global, name: &'a str, help: &'a str, action: ArgAction) -> Arg<'a>
    ensures rule { rule_of result ≡ long_rule name.entry.now action }
    ensures local { result.global ≡ false }
{
    Arg::new(alloc, name).long(name).action(action).help(help)
}

/// `--NAME VALUE`, and whether it has to be given.
fn set<'a>(alloc: Global, name: &'a str, help: &'a str, needed: bool) -> Arg<'a>
    ensures rule { rule_of result ≡ needed_if needed (value_rule name.entry.now) }
    ensures local { result.global ≡ false }
{
    long(alloc, name, help, Set).required(needed)
}

/// The argument as `clap` has it.
fn arg_of<'a>(alloc: Global, argument: Argument<'a>) -> Arg<'a>
    ensures rule { rule_of result ≡ rule_by argument.entry }
    ensures local { result.global ≡ false }
{
    match argument {
        Argument::Flag(name, help) => long(alloc, name, help, SetTrue),
        Argument::ShortFlag(name, help, letter) => long(alloc, name, help, SetTrue).short(letter),
        Argument::Value(name, help) => set(alloc, name, help, false),
        Argument::ShortValue(name, help, letter) => set(alloc, name, help, false).short(letter),
        Argument::Needed(name, help) => set(alloc, name, help, true),
        Argument::NeededIf(name, help, needed) => set(alloc, name, help, needed),
        Argument::Values(name, help) => long(alloc, name, help, Append).num_args(1..),
        Argument::Number(name, help, least, most) => {
            set(alloc, name, help, false).value_parser(Unsigned(least, most))
        }
        Argument::U8(name, help, needed) => {
            set(alloc, name, help, needed).value_parser(Signed(0, 255))
        }
        Argument::U32(name, help, needed) => {
            set(alloc, name, help, needed).value_parser(Signed(0, 4294967295))
        }
        Argument::Single(name, help) => Arg::new(alloc, name).action(Set).help(help),
        Argument::Several(name, help) => {
            Arg::new(alloc, name)
                .action(Append)
                .num_args(0..)
                .help(help)
        }
    }
}

/// A subcommand with these arguments more, in their order.
pub fn with_options<'a>(
    alloc: Global,
    mut command: Command<'a>,
    arguments: &[Argument<'a>],
) -> Result<Command<'a>, AllocError>
    requires { (out-Command command).has_globals ≡ false }
    ensures app { IfOk result (λ c. app_of c ≡ with_rules (app_of command.entry) (map rule_by arguments.entry.now)) }
    ensures local { IfOk result (λ c. (out-Command c).has_globals ≡ false) }
{
    for argument in arguments {
        command = command.arg(arg_of(alloc, *argument))?;
    }
    Ok(command)
}

/// The program with this subcommand, which has to be given.
pub fn program_with<'a>(alloc: Global, subcommand: Command<'a>) -> Result<Command<'a>, AllocError>
    requires command { (out-Command subcommand).has_globals ≡ false }
    ensures { IfOk result (λ c. app_of c ≡ program_of (app_of subcommand.entry)) }
{
    let command = Command::new(alloc, "pfx").subcommand(subcommand)?;
    Ok(command.subcommand_required(true))
}

/// The values, none where there are none.
fn or_none<'m, 'a>(values: Option<&'m [&'a str]>) -> &'m [&'a str]
    ensures { map (λ w. w.now) result.now
        ≡ unwrap_or (option_map (λ s. map (λ w. w.now) s.now) values.entry) [] }
{
    match values {
        Some(values) => values,
        None => &[],
    }
}

/// The values of an argument that may be given several times, none where it isn't given.
pub fn values_in<'m, 'a>(matches: &'m ArgMatches<'a>, id: &str) -> &'m [&'a str]
    ensures { map (λ w. w.now) result.now ≡ unwrap_or (all_of id.now (rows_of (found_of matches.now))) [] }
{
    or_none(matches.get_strs(id))
}

/// The value of an option.
pub fn value_in<'a>(matches: &ArgMatches<'a>, id: &str) -> Option<&'a str>
    ensures { option_map (λ v. v.now) result ≡ first_of id.now (rows_of (found_of matches.now)) }
{
    matches.get_str(id)
}

/// Whether an option without a value is given.
pub fn has_flag(matches: &ArgMatches<'_>, id: &str) -> bool
    ensures { result ≡ is_given (first_of id.now (rows_of (found_of matches.now))) }
{
    value_in(matches, id).is_some_and(|value| value == "true")
}

/// The number of 32 bits that an option has.
pub fn number_in(matches: &ArgMatches<'_>, id: &str) -> Option<u32>
    ensures { result ≡ number_at (rows_of (found_of matches.now)) id.now }
{
    matches.get_one::<u32>(id)
}

/// What is given with the subcommand of this name.
pub fn given_in<'m, 'a>(matches: &'m ArgMatches<'a>, name: &str) -> Option<&'m ArgMatches<'a>>
    ensures { option_map (λ m. rows_of (found_of m.now)) result ≡ given_in name.now (subcommand_rows_of matches.now) }
{
    let (found, inner) = matches.subcommand()?;
    (found == name).then_some(inner)
}
