//! What is sent at a control socket for an operator's arguments.

ghost use Rattle.std.specs.Prelude.{◌≡◌, IfOk, codes, false, is_some, map, option_map};
ghost use Rattle.std.specs.List.{list_any};
ghost use Rattle.clap.specs.Words.{first_of, found_of, rows_of};
ghost use Rattle.cli_io.specs.Given.{is_given};
ghost use Rattle.pf_entry.specs.Owned.{command_value};
ghost use Rattle.pf_arguments.specs.Asked.{is_too_long};
ghost use Rattle.cli_ask.specs.Sending.{has_control};
ghost use Rattle.cli_ask.specs.Calls.{call_value, lines_call, change_call};
ghost use Rattle.cli_ask.specs.Calls.{pfctl_call, sync, plain_call, valued_call, own_call};
ghost use Rattle.cli_ask.specs.Calls.{options_have_control, has_option};
ghost use Rattle.cli_ask.specs.Calls.{call_of};
ghost use Rattle.cli_ask.specs.Outcomes.{IsCall};

use crate::call::{Call, Kind};
use crate::checking::refused_command;
use crate::outcome::{Outcome, refused};
use crate::sending::{has_control, have_control, lines_of};
use crate::target::Given;
use clap::ArgMatches;
use cli_io::{has_flag, value_in, values_in};
use pf_arguments::{Action, USAGE, from_matches};
use pf_entry::{Command, Path, Profile};
use std::alloc::{AllocError, Global};

/// A load that changes nothing, since its text is refused wherever it is loaded.
fn sync(alloc: Global) -> Result<Call, AllocError>
    ensures { IfOk result (λ c. call_value c ≡ sync) }
{
    let command = Command::Load(
        Path::main(alloc),
        Profile::Two,
        Vec::from_slice(alloc, b"sync\n")?,
    );
    Call::entry(alloc, &command, Kind::Sync).map_err(|_memory| AllocError)
}

/// Whether the value of an option that is sent has a control character.
fn options_have_control(matches: &ArgMatches<'_>) -> bool
    ensures { result ≡ options_have_control (rows_of (found_of matches.now)) }
{
    value_in(matches, "path").is_some_and(has_control)
        || value_in(matches, "flush").is_some_and(has_control)
        || value_in(matches, "table").is_some_and(has_control)
        || value_in(matches, "change").is_some_and(has_control)
}

/// Whether an option with a value is there.
fn has_value(matches: &ArgMatches<'_>, id: &str) -> bool
    ensures { result ≡ is_some (first_of id.now (rows_of (found_of matches.now))) }
{
    value_in(matches, id).is_some()
}

/// Whether the arguments have an option of pfctl's.
pub(crate) fn has_option(matches: &ArgMatches<'_>) -> bool
    ensures { result ≡ has_option (rows_of (found_of matches.now)) }
{
    has_value(matches, "table")
        || has_value(matches, "change")
        || has_value(matches, "flush")
        || has_value(matches, "file")
        || has_value(matches, "path")
        || has_value(matches, "show")
        || has_flag(matches, "check")
}

impl Given<'_, '_> {
    /// The request of a change. A ruleset that the grammar refuses is refused, unless `--unchecked` is given.
    fn change_call(&self, command: &Command) -> Result<Call, Outcome>
        requires { is_too_long (command_value command.now) ≡ false }
        ensures { IsCall result (change_call (is_given (first_of (codes "unchecked")
            (rows_of (found_of self.now.matches.now)))) (command_value command.now)) }
    {
        if !has_flag(self.matches, "unchecked") {
            if let Some(refused) = refused_command(self.alloc, command)? {
                return Err(Outcome::Refused(refused));
            }
        }
        Call::entry(self.alloc, command, Kind::Change).map_err(|_memory| Outcome::Memory)
    }

    /// The request that posts arguments to a path, each in a line of its own.
    fn lines_call(&self, path: &str, words: &[&str], kind: Kind) -> Result<Call, AllocError>
        requires { list_any has_control (map (λ w. w.now) words.now) ≡ false }
        ensures { IfOk result (λ c. call_value c ≡ lines_call (rows_of (found_of self.now.matches.now)) self.now.at
            path.now (map (λ w. w.now) words.now) kind) }
    {
        let target = self.target(path, self.at)?;
        Ok(Call::post(target, lines_of(self.alloc, words)?, kind))
    }

    /// The request that pfctl's options ask for, with the text that `-f` names; its addresses are the rest of the
    /// arguments.
    #[tactic(auto, using(crate::proofs::Actions::fault_call))]
    fn pfctl_call(&self, rest: &[&str], text: &[u8]) -> Result<Call, Outcome>
        requires { list_any has_control (map (λ r. r.now) rest.now) ≡ false }
        ensures { IsCall result (pfctl_call (rows_of (found_of self.now.matches.now)) (map (λ r. r.now) rest.now)
            text.now self.now.at) }
    {
        let action = match from_matches(self.alloc, self.matches, text) {
            Ok(action) => action,
            Err(fault) => return Err(fault.code().map_or(Outcome::Memory, refused)),
        };
        let path = match &action {
            Action::Change(command) => return self.change_call(command),
            Action::CheckOnly(_) => return Err(refused(USAGE)),
            Action::ShowRules(_) => "/v1/rules",
            Action::ShowTables(_) => "/v1/tables",
            Action::ShowAnchors => "/v1/anchors",
            Action::TableShow(_, _) => "/v1/table",
            Action::TableTest(_, _, _) => {
                return Ok(self.lines_call("/v1/table-test", rest, Kind::TableTest)?);
            }
        };
        Ok(Call::get(self.alloc, self.target(path, self.at)?, Kind::List))
    }

    /// The request of one of the node's own subcommands without arguments.
    fn plain_call(&self, word: &str) -> Result<Option<Call>, AllocError>
        ensures { IfOk result (λ c. option_map call_value c
            ≡ plain_call (rows_of (found_of self.now.matches.now)) word.now self.now.at) }
    {
        let target = match word {
            "status" => self.target("/v1/status", self.at)?,
            "health" => self.target("/readyz", 0)?,
            "metrics" => self.target("/metrics", 0)?,
            "log" => self.target("/v1/log", self.at)?,
            "sync" => return Ok(Some(sync(self.alloc)?)),
            "stop" => {
                let target = String::from_str(self.alloc, "/v1/stop")?;
                return Ok(Some(Call::post(target, Vec::new(self.alloc), Kind::Read)));
            }
            _ => return Ok(None),
        };
        Ok(Some(Call::get(self.alloc, target, Kind::Read)))
    }

    /// What one sends with a single argument.
    fn valued_call(&self, word: &str, value: &str) -> Result<Option<Call>, AllocError>
        ensures { IfOk result (λ c. option_map call_value c ≡ valued_call word.now value.now self.now.at) }
    {
        let path = match word {
            "log" => "/v1/log?from=",
            "request" => "/v1/requests/",
            _ => return Ok(None),
        };
        Ok(Some(Call::get(self.alloc, self.path_with(path, value)?, Kind::Read)))
    }

    /// What a subcommand of the node itself sends, with arguments or without; none where there is no such subcommand.
    fn own_call(&self, rest: &[&str]) -> Result<Option<Call>, AllocError>
        requires { list_any has_control (map (λ w. w.now) rest.now) ≡ false }
        ensures { IfOk result (λ c. option_map call_value c ≡ own_call (rows_of (found_of self.now.matches.now))
            (map (λ r. r.now) rest.now) self.now.at) }
    {
        match rest {
            [word] => self.plain_call(word),
            [word, values @ ..] if *word == "test" => {
                Ok(Some(self.lines_call("/v1/test", values, Kind::Test)?))
            }
            [word, value] => self.valued_call(word, value),
            _ => Ok(None),
        }
    }

    /// The request that the arguments ask for, with the text that `-f` names: what pfctl's options ask for, or without
    /// these a subcommand of the node itself. It is refused with 40 where an argument has a control character, as
    /// pfctl's arguments are (40, 24, 1 to 3, 41), and with what the grammar refuses of a ruleset (10 to 19), unless
    /// `--unchecked` is given.
    pub(crate) fn call(&self, text: &[u8]) -> Result<Call, Outcome>
        ensures { IsCall result (call_of (rows_of (found_of self.now.matches.now)) text.now self.now.at) }
    {
        let rest = values_in(self.matches, "address");
        if have_control(rest) || options_have_control(self.matches) {
            return Err(refused(USAGE));
        }
        if has_option(self.matches) {
            return self.pfctl_call(rest, text);
        }
        self.own_call(rest)?.ok_or(refused(USAGE))
    }
}
