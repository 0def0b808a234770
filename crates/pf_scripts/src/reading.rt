//! What a line of pfctl's arguments asks for, and what it gives where nothing is changed.

ghost use Rattle.std.specs.Prelude.{◌≡◌, IfOk, Ok, map};
ghost use Rattle.std.specs.Option.{option_copied};
ghost use Rattle.pf_rules.specs.declared.profile.Profile.TheVariants.{Two};
ghost use Rattle.pf_grammar.specs.Reading.{reading};
ghost use Rattle.pf_entry.specs.Owned.{command_value};
ghost use Rattle.pf_command.specs.Effect.{place_at};
ghost use Rattle.pf_arguments.specs.Asked.{given_in, asked};
ghost use Rattle.pf_arguments.specs.Answers.{action_value, IsShort};
ghost use Rattle.pf_scripts.specs.Ctl.{numbered, asked_at, checked, looked, words_read, done_with, pfctl};
ghost use Rattle.pf_scripts.specs.Ctl.{Prints, Refused};
ghost use Rattle.pf_scripts.specs.WordsRead.{change_in, words_value, AsksShort, IsAskedAs};
ghost use Rattle.pf_scripts.specs.inner.Seen.{rows_matched};

use crate::Made;
use crate::listing::list;
use crate::pfctl::{file_in, is_standard, matches_in};
use crate::printing::Printed;
use crate::words_read::{ChangeFault, WordsRead};
use clap::ArgMatches;
use pf_arguments::{Action, Command, USAGE, from_matches};
use pf_command::place_at;
use pf_config::Config;
use pf_grammar::{ParseFault, Profile, parse};
use pf_rules::Name;
use std::alloc::{AllocError, Global};

/// The action that matches ask for, with the text of the file; matches are `None` where `clap` refused the arguments.
#[tactic(auto, using(crate::proofs::Acted::fault_numbered))]
fn action_of(
    alloc: Global,
    matches: Option<&ArgMatches<'_>>,
    text: &[u8],
) -> Result<Action, ChangeFault>
    ensures action { IsAskedAs result action_value
        (asked_at text.now (rows_matched (option_copied matches.entry))) }
    ensures short { IfOk result IsShort }
{
    let Some(matches) = matches else {
        return Err(ChangeFault::Refused(USAGE));
    };
    if !is_standard(file_in(matches)) {
        return Err(ChangeFault::Refused(USAGE));
    }
    match from_matches(alloc, matches, text) {
        Ok(action) => Ok(action),
        Err(fault) => Err(
            fault
                .code()
                .map_or(ChangeFault::Memory, |code| ChangeFault::Refused(code)),
        ),
    }
}

/// A refusal, with the line of a refused ruleset, 0 where there is none.
fn refused(code: u8, at: u64) -> WordsRead
    ensures value { words_value result ≡ Prints (Refused code at) }
    ensures short { AsksShort result }
{
    WordsRead::Printed(Printed::Refused(code, at))
}

/// Reads a ruleset and loads nothing.
fn check_text(alloc: Global, path: &[Name], text: &[u8]) -> Made<WordsRead>
    ensures value { IfOk result (λ r. words_value r ≡ checked (reading (place_at path.now) Two text.now)) }
    ensures short { IfOk result AsksShort }
{
    match parse(alloc, text, place_at(path), Profile::Two) {
        Ok(_rules) => {
            let ok = String::from_str(alloc, "ok\n")?;
            Ok(WordsRead::Printed(Printed::Lines(ok)))
        }
        Err(ParseFault::Memory) => Err(AllocError),
        Err(ParseFault::Refused(refusal)) => Ok(refused(refusal.cause.code(), refusal.line)),
    }
}

/// What an action gives.
fn read_action(alloc: Global, config: &Config, action: Action, text: &[u8]) -> Made<WordsRead>
    requires { IsShort action }
    ensures value { IfOk result (λ r. words_value r ≡ looked config.now text.now (Ok (action_value action))) }
    ensures short { IfOk result AsksShort }
{
    match action {
        Action::Change(command) => Ok(WordsRead::Change(command)),
        Action::CheckOnly(path) => check_text(alloc, path.names(), text),
        action => match list(alloc, config, &action)? {
            Ok(output) => Ok(WordsRead::Printed(Printed::Lines(output))),
            Err(code) => Ok(refused(code, 0)),
        },
    }
}

/// What matches give at a configuration, with the text of the file; nothing is changed.
pub(crate) fn read_matches(
    alloc: Global,
    config: &Config,
    matches: Option<&ArgMatches<'_>>,
    text: &[u8],
) -> Made<WordsRead>
    ensures value { IfOk result (λ r. words_value r
        ≡ looked config.now text.now (asked_at text.now (rows_matched (option_copied matches.entry)))) }
    ensures short { IfOk result AsksShort }
{
    match action_of(alloc, matches, text) {
        Ok(action) => read_action(alloc, config, action, text),
        Err(ChangeFault::Refused(code)) => Ok(refused(code, 0)),
        Err(ChangeFault::Memory) => Err(AllocError),
    }
}

/// What a line of pfctl's arguments gives at a configuration, `pfctl` itself first, with the text of its file; nothing
/// is changed.
///
/// The arguments of a change return the command, which isn't executed. All others return what they print: what is
/// listed (pfctl(8), `-s` and `-T`), or their refusal.
pub fn read_words(
    alloc: Global,
    config: &Config,
    words: &[&str],
    text: &[u8],
) -> Result<WordsRead, AllocError>
    ensures value { IfOk result (λ r. words_value r ≡ words_read config.now (map (λ w. w.now) words.now) text.now) }
    ensures line { IfOk result (λ r. pfctl config.now (map (λ w. w.now) words.now) text.now
        ≡ done_with config.now (words_value r)) }
    ensures short { IfOk result AsksShort }
{
    let matches = matches_in(alloc, words)?;
    read_matches(alloc, config, matches.as_ref(), text)
}

/// The change that a line of pfctl's arguments asks for, `pfctl` itself first, with the text of its file.
pub fn read_change(alloc: Global, words: &[&str], text: &[u8]) -> Result<Command, ChangeFault>
    ensures { IsAskedAs result command_value (change_in (map (λ w. w.now) words.now) text.now) }
{
    let Ok(matches) = matches_in(alloc, words) else {
        return Err(ChangeFault::Memory);
    };
    match action_of(alloc, matches.as_ref(), text) {
        Ok(Action::Change(command)) => Ok(command),
        Ok(_) => Err(ChangeFault::Refused(USAGE)),
        Err(fault) => Err(fault),
    }
}
