//! A line of pfctl's arguments, as `clap` reads it.

ghost use Rattle.std.specs.Prelude.{◌≡◌, IfOk, map, codes, option_map, false};
ghost use Rattle.std.specs.Option.{option_copied};
ghost use Rattle.clap.specs.Words.{app_of, found_of, rows_of, first_of};
ghost use Rattle.clap.specs.declared.builder.command.Command.TheViews.{out-Command};
ghost use Rattle.pf_arguments.specs.Options.{pfctl_app};
ghost use Rattle.pf_scripts.specs.Ctl.{rows_in, takes_text, takes_text_by, is_standard, is_input};
ghost use Rattle.pf_scripts.specs.inner.Seen.{rows_matched};

use crate::Made;
use crate::lines::are_adjacent;
use clap::error::ErrorKind;
use clap::{ArgMatches, Command};
use pf_arguments::pfctl_args;
use std::alloc::{AllocError, Global};

/// pfctl by itself, as `clap` reads it.
fn command<'a>(alloc: Global) -> Made<Command<'a>>
    ensures { IfOk result (λ c. app_of c ≡ pfctl_app) }
{
    pfctl_args(alloc, Command::new(alloc, "pfctl"))
}

/// The matches of a line's arguments, none where `clap` refuses them.
pub fn matches_in<'a>(
    alloc: Global,
    words: &'a [&'a str],
) -> Result<Option<ArgMatches<'a>>, AllocError>
    ensures { IfOk result (λ found. option_map (λ m. rows_of (found_of m)) found ≡
        rows_in (map (λ w. w.now) words.entry.now)) }
{
    let command = command(alloc)?;
    match command.try_get_matches_from(words) {
        Ok(matches) => Ok(Some(matches)),
        Err(error) => {
            if error.kind() == ErrorKind::OutOfMemory {
                return Err(AllocError);
            }
            Ok(None)
        }
    }
}

/// Whether a file is standard input.
fn is_input(file: Option<&str>) -> bool
    ensures { result ≡ is_input (option_copied file.entry) }
{
    file.is_some_and(|name| name == "-")
}

/// Whether a file is standard input, or there is none.
pub fn is_standard(file: Option<&str>) -> bool
    ensures { result ≡ is_standard (option_copied file.entry) }
{
    file.map_or(true, |name| name == "-")
}

/// The value of `-f`.
pub fn file_in<'a>(matches: &ArgMatches<'a>) -> Option<&'a str>
    ensures { option_copied result ≡ first_of (codes "file") (rows_of (found_of matches.now)) }
{
    matches.get_str("file")
}

/// Whether a ruleset follows arguments with these matches, `None` where `clap` refused the arguments.
pub(crate) fn takes_text_by(words: &[&str], matches: Option<&ArgMatches<'_>>) -> bool
    ensures { result ≡ takes_text_by (map (λ w. w.now) words.now) (rows_matched (option_copied matches.entry)) }
{
    match matches {
        Some(matches) => is_input(file_in(matches)),
        None => are_adjacent("-f", "-", words),
    }
}

/// Whether a ruleset follows the arguments, up to a line `.`.
pub fn takes_text(alloc: Global, words: &[&str]) -> Result<bool, AllocError>
    ensures { IfOk result (λ b. b ≡ takes_text (map (λ w. w.now) words.now)) }
{
    let matches = matches_in(alloc, words)?;
    Ok(takes_text_by(words, matches.as_ref()))
}
