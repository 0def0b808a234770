//! What the arguments ask for.

ghost use Rattle.std.specs.Prelude.{◌≡◌, map, option_map};
ghost use Rattle.clap.specs.Words.{found_of, rows_of, subcommand_rows_of};
ghost use Rattle.pf_tool.specs.Options.{check_call, test_call};
ghost use Rattle.pf_tool.specs.Options.{called, is_other, names_other};
ghost use Rattle.pf_tool.specs.Messages.{is_verbose};
ghost use Rattle.pf_tool.specs.inner.Calls.{asked, reads_input};

use clap::ArgMatches;
use cli_io::{Explanation, has_flag, named, value_in, values_in};
use pf_grammar::Place;
use std::convert::AsStr;

/// What the rulesets of files give at a place; without files that of the input.
#[derive(Clone, Copy)]
pub(crate) struct Check<'m, 'a> {
    pub(crate) place: Place,
    pub(crate) quiet: bool,
    pub(crate) files: &'m [&'a str],
}

/// Verdicts for packets given as arguments and in a file, under a file's rules; what no file has is the input's.
#[derive(Clone, Copy)]
pub(crate) struct Test<'m, 'a> {
    /// The ruleset.
    pub(crate) file: Option<&'a str>,
    /// The file of packets.
    pub(crate) more: Option<&'a str>,
    pub(crate) quiet: bool,
    pub(crate) packets: &'m [&'a str],
}

/// What the arguments ask for.
#[derive(Clone, Copy)]
pub(crate) enum Call<'m, 'a> {
    /// What rulesets give at a place.
    Check(Check<'m, 'a>),
    /// Verdicts for packets.
    Test(Test<'m, 'a>),
    /// What a script over one configuration prints.
    Ctl,
    /// What a script of a lab's events prints.
    Lab,
    /// A refusal's paragraph, or all of them.
    Explain(Option<&'m Explanation>),
}

impl Call<'_, '_> {
    /// Whether the input is read.
    pub(crate) fn reads_input(&self) -> bool
        ensures { result ≡ reads_input (asked self.now) }
    {
        match self {
            Call::Check(check) => check.files.is_empty(),
            Call::Test(test) => test.file.is_none()
                || (test.more.is_none() && test.packets.is_empty()),
            Call::Ctl | Call::Lab => true,
            Call::Explain(_) => false,
        }
    }
}

/// What `check` asks for.
fn check_call<'m, 'a>(inner: &'m ArgMatches<'a>) -> Call<'m, 'a>
    ensures { asked result ≡ check_call (rows_of (found_of inner.now)) }
{
    let anchor = has_flag(inner, "anchor");
    Call::Check(Check {
        place: if anchor { Place::Anchor } else { Place::Main },
        quiet: has_flag(inner, "quiet"),
        files: values_in(inner, "file"),
    })
}

/// What `test` asks for, none where it has no packet.
fn test_call<'m, 'a>(inner: &'m ArgMatches<'a>) -> Option<Call<'m, 'a>>
    ensures { option_map asked result ≡ test_call (rows_of (found_of inner.now)) }
{
    let file = value_in(inner, "file");
    let more = value_in(inner, "packets");
    let quiet = has_flag(inner, "quiet");
    let packets = values_in(inner, "packet");
    if file.is_none() && more.is_none() && packets.is_empty() {
        return None;
    }
    Some(Call::Test(Test {
        file,
        more,
        quiet,
        packets,
    }))
}

/// What the matches of the arguments ask for with a table of refusals, none where they ask for nothing.
pub(crate) fn call_in<'m, 'a>(
    table: &'m [Explanation],
    matches: &'m ArgMatches<'a>,
) -> Option<Call<'m, 'a>>
    ensures { option_map asked result ≡ called table.now (subcommand_rows_of matches.now) }
{
    let (subcommand, inner) = matches.subcommand()?;
    if subcommand == "check" {
        return Some(check_call(inner));
    }
    if subcommand == "test" {
        return test_call(inner);
    }
    if subcommand == "ctl" {
        return Some(Call::Ctl);
    }
    if subcommand == "lab" {
        return Some(Call::Lab);
    }
    if subcommand == "explain" {
        return match value_in(inner, "code") {
            None => Some(Call::Explain(None)),
            Some(digits) => Some(Call::Explain(Some(named(table, digits)?))),
        };
    }
    None
}

/// Whether `-v` was given.
pub(crate) fn is_verbose(matches: &ArgMatches<'_>) -> bool
    ensures { result ≡ is_verbose (subcommand_rows_of matches.now) }
{
    matches
        .subcommand()
        .is_some_and(|(_, inner)| has_flag(inner, "verbose"))
}

/// Whether a subcommand's options are another crate's.
fn is_other(subcommand: &str) -> bool
    ensures { result ≡ is_other subcommand.now }
{
    matches!(
        subcommand,
        "node" | "ask" | "key" | "show" | "follow" | "batch"
    )
}

/// Whether the arguments, the program's name first, begin with such a subcommand.
#[tactic(auto, unfolding(crate::specs::Options::names_other))]
pub(crate) fn names_other<S: AsStr>(arguments: &[S]) -> bool
    ensures { result ≡ names_other (map S.text arguments.now) }
{
    matches!(arguments, [_, subcommand, ..] if is_other(subcommand.as_str()))
}
