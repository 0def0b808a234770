//! A script is done on an empty configuration.

ghost use Rattle.std.specs.Prelude.{◌≡◌, true, not, Some, IfOk, IfSome, OnOk, map, option_map};
ghost use Rattle.pf_entry.specs.Owned.{command_value, is_over};
ghost use Rattle.pf_entry.specs.Seen.{command_of};
ghost use Rattle.pf_command.specs.Effect.{after_command};
ghost use Rattle.pf_scripts.specs.Ctl.{words_read, pfctl, pfctl_line, at_words, stepped};
ghost use Rattle.pf_scripts.specs.Seen.{line_of};
ghost use Rattle.pf_scripts.specs.inner.Seen.{waiting_of};
ghost use Rattle.pf_dump.specs.Scripts.{configured};
ghost use Rattle.pf_dump.specs.Done.{change_done, pfctl_done, words_done, line_done, script_done};
ghost use Rattle.pf_dump.specs.inner.Seen.{StepsTo, IsDone, IsPlace};

use crate::Made;
use pf_arguments::{Command, CommandView, EncodeFault, decode};
use pf_command::{ApplyFault, apply};
use pf_config::Config;
use pf_entry::encode_asked;
use pf_scripts::{
    Line, Waiting, WordsRead, cut_line, push_bytes, read_words, takes_text, words_in,
};
use std::alloc::{AllocError, Global};

/// Where a script is behind a line: the arguments that wait for the end of their text, if any; none where the script
/// ends there, since the line is no change.
type Step<'a> = Made<Option<Option<Waiting<'a>>>>;

/// Does a command, which may be refused and then changes nothing.
fn apply_view(alloc: Global, config: &mut Config, command: &CommandView) -> Made<()>
    ensures { OnOk result (config.new ≡ after_command config.old (command_of command.now)) }
{
    match apply(alloc, config, command) {
        Ok(_) | Err(ApplyFault::Refused(_, _)) => Ok(()),
        Err(ApplyFault::Memory) => Err(AllocError),
    }
}

/// Does a change by way of an entry's bytes; false where no entry has room for it.
fn apply_change(alloc: Global, config: &mut Config, command: Command) -> Made<bool>
    ensures made { IfOk result (λ b. b ≡ true → config.new ≡ after_command config.old (command_value command)) }
    ensures short { IfOk result (λ b. b ≡ not (is_over (record {
      origin = 0;
      number = 0;
      command = command_value command;
    }))) }
{
    let bytes = match encode_asked(alloc, 0, 0, &command) {
        Ok(bytes) => bytes,
        Err(EncodeFault::Memory) => return Err(AllocError),
        Err(EncodeFault::TooLong) => return Ok(false),
    };
    match decode(&bytes) {
        Ok(view) => {
            apply_view(alloc, config, &view.command)?;
            Ok(true)
        }
        Err(_) => unreachable!(),
    }
}

/// Runs a line of pfctl's arguments; false where it is no change.
fn run_words(alloc: Global, config: &mut Config, words: &[&str], text: &[u8]) -> Made<bool>
    ensures configuration { IfOk result (λ b. b ≡ true →
        config.new ≡ (pfctl config.old (map (λ w. w.now) words.now) text.now).configuration) }
    ensures done { IfOk result (λ b. IsDone
        (change_done config.old (words_read config.old (map (λ w. w.now) words.now) text.now)) b config.new) }
{
    match read_words(alloc, config, words, text)? {
        WordsRead::Change(command) => apply_change(alloc, config, command),
        WordsRead::Printed(_) => Ok(false),
    }
}

/// Runs a line of pfctl's arguments, unless a ruleset follows it.
fn run_pfctl<'a>(config: &mut Config, words: Vec<&'a str>) -> Step<'a>
    ensures leads { IfOk result (λ s. IfSome s
        (StepsTo (pfctl_line config.old (map (λ x. x.now) words.entry.items)) config.new)) }
    ensures done { IfOk result (IsPlace (pfctl_done config.old (map (λ x. x.now) words.entry.items)) config.new) }
{
    let alloc = *words.allocator();
    if takes_text(alloc, &words)? {
        let text = Vec::new(alloc);
        return Ok(Some(Some(Waiting { words, text })));
    }
    Ok(run_words(alloc, config, &words, &[])?.then(|| None))
}

/// Runs a line with these arguments.
fn run_line<'a>(config: &mut Config, words: Vec<&'a str>) -> Step<'a>
    ensures leads { IfOk result (λ s. IfSome s
        (StepsTo (at_words config.old (Some (map (λ x. x.now) words.entry.items))) config.new)) }
    ensures done { IfOk result
        (IsPlace (words_done config.old (Some (map (λ x. x.now) words.entry.items))) config.new) }
{
    match words.as_slice() {
        [first, ..] if *first == "pfctl" => run_pfctl(config, words),
        [_, ..] => Ok(None),
        [] => Ok(Some(None)),
    }
}

/// Runs a line: one of a ruleset, or one with arguments.
fn step<'a>(
    alloc: Global,
    config: &mut Config,
    waiting: Option<Waiting<'a>>,
    line: Line<'a>,
) -> Step<'a>
    ensures leads { IfOk result (λ s. IfSome s
        (StepsTo (stepped config.old (option_map waiting_of waiting.entry) (line_of line.entry)) config.new)) }
    ensures done { IfOk result
        (IsPlace (line_done config.old (option_map waiting_of waiting.entry) (line_of line.entry)) config.new) }
{
    match waiting {
        None => match words_in(alloc, line.content)? {
            Some(words) => run_line(config, words),
            None => Ok(None),
        },
        Some(Waiting { words, mut text }) => {
            if line.content == b".".as_slice() {
                return Ok(run_words(alloc, config, &words, &text)?.then(|| None));
            }
            push_bytes(&mut text, line)?;
            Ok(Some(Some(Waiting { words, text })))
        }
    }
}

/// The configuration that a script makes of an empty one; none where one of its lines is no change, or a ruleset has no
/// end.
#[tactic(auto, unfolding(crate::specs::Scripts::configured, crate::specs::Done::script_done))]
pub(crate) fn replayed(alloc: Global, script: &[u8]) -> Made<Option<Config>>
    ensures configured { IfOk result (λ o. IfSome o (λ c. c ≡ configured script.now)) }
    ensures done { IfOk result (λ o. o ≡ script_done script.now) }
{
    let mut config = Config::new(alloc)?;
    let mut waiting = None;
    let mut left = script;
    while let Some((line, rest)) = cut_line(left) {
        let Some(next) = step(alloc, &mut config, waiting, line)? else {
            return Ok(None);
        };
        waiting = next;
        left = rest;
    }
    Ok(waiting.is_none().then_some(config))
}
