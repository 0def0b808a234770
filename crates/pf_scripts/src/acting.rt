//! What a line of pfctl's arguments does.

ghost use Rattle.std.specs.Prelude.{◌≡◌, ◌++◌, IfOk, OnOk, map, false, string_bytes};
ghost use Rattle.std.specs.Option.{option_copied};
ghost use Rattle.pf_entry.specs.Owned.{command_value};
ghost use Rattle.pf_entry.specs.Seen.{command_of};
ghost use Rattle.pf_command.specs.Effect.{effect, after_command};
ghost use Rattle.pf_arguments.specs.Asked.{is_too_long};
ghost use Rattle.pf_scripts.specs.Ctl.{is_counted, counts_line, change_printed, prints, asked_at, looked, done_with};
ghost use Rattle.pf_scripts.specs.Ctl.{pfctl, Lines};
ghost use Rattle.pf_scripts.specs.Seen.{printed_value};
ghost use Rattle.pf_scripts.specs.inner.Seen.{Does, rows_matched};

use crate::Made;
use crate::pfctl::matches_in;
use crate::printing::Printed;
use crate::reading::read_matches;
use crate::words_read::WordsRead;
use clap::ArgMatches;
use pf_arguments::{Command, CommandView, EncodeFault, decode};
use pf_command::{Applied, ApplyFault, apply};
use pf_config::Config;
use pf_entry::{BadEntry, encode_asked};
use std::alloc::{AllocError, Global};

/// Whether a command's counts are printed: it changes one table.
pub fn is_counted(command: &CommandView) -> bool
    ensures { result ≡ is_counted (command_of command.now) }
{
    match command {
        CommandView::Load(_, _, _)
        | CommandView::FlushRules(_)
        | CommandView::FlushTables(_)
        | CommandView::FlushAll(_) => false,
        _ => true,
    }
}

/// Puts `ok` behind the output, with counts where they are printed.
pub fn push_counts(out: &mut String, counts: bool, applied: Applied) -> Result<(), AllocError>
    ensures { OnOk result (string_bytes out.new
        ≡ string_bytes out.old ++ counts_line counts applied.added applied.removed) }
{
    if counts {
        writeln!(out, "ok {} {}", applied.added, applied.removed)
    } else {
        out.push_str("ok\n")
    }
}

/// Applies a command as it is in an entry's bytes.
#[tactic(auto, using(crate::proofs::Acted::applied_does, crate::proofs::Acted::refused_does))]
fn run_view(alloc: Global, config: &mut Config, command: &CommandView) -> Made<Printed>
    ensures { IfOk result (λ p. Does (prints (after_command config.old (command_of command.now))
        (change_printed (is_counted (command_of command.now)) (effect config.old (command_of command.now))))
        config.new (printed_value p)) }
{
    match apply(alloc, config, command) {
        Ok(applied) => {
            let mut line = String::new(alloc);
            push_counts(&mut line, is_counted(command), applied)?;
            Ok(Printed::Lines(line))
        }
        Err(ApplyFault::Memory) => Err(AllocError),
        Err(ApplyFault::Refused(code, at)) => Ok(Printed::Refused(code, at)),
    }
}

/// Applies a command by way of the bytes of an entry.
fn run_change(alloc: Global, config: &mut Config, command: Command) -> Made<Printed>
    requires { is_too_long (command_value command) ≡ false }
    ensures { IfOk result (λ p. Does (prints (after_command config.old (command_value command))
        (change_printed (is_counted (command_value command)) (effect config.old (command_value command))))
        config.new (printed_value p)) }
{
    let bytes = match encode_asked(alloc, 0, 0, &command) {
        Ok(bytes) => bytes,
        Err(EncodeFault::Memory) => return Err(AllocError),
        Err(EncodeFault::TooLong) => unreachable!(),
    };
    match decode(&bytes) {
        Ok(view) => run_view(alloc, config, &view.command),
        Err(BadEntry) => unreachable!(),
    }
}

/// Does what matches ask for, with the text of the file.
pub(crate) fn run_matches(
    alloc: Global,
    config: &mut Config,
    matches: Option<&ArgMatches<'_>>,
    text: &[u8],
) -> Made<Printed>
    ensures { IfOk result (λ p. Does (done_with config.old
        (looked config.old text.now (asked_at text.now (rows_matched (option_copied matches.entry)))))
        config.new (printed_value p)) }
{
    match read_matches(alloc, config, matches, text)? {
        WordsRead::Change(command) => run_change(alloc, config, command),
        WordsRead::Printed(printed) => Ok(printed),
    }
}

/// Does what a line of pfctl's arguments asks for, `pfctl` itself first, with the text of its file.
pub(crate) fn run_words(
    alloc: Global,
    config: &mut Config,
    words: &[&str],
    text: &[u8],
) -> Made<Printed>
    ensures { IfOk result (λ p. Does (pfctl config.old (map (λ w. w.now) words.now) text.now)
        config.new (printed_value p)) }
{
    let matches = matches_in(alloc, words)?;
    run_matches(alloc, config, matches.as_ref(), text)
}
