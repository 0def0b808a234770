//! The arguments of an ask.

ghost use Rattle.std.specs.Prelude.{◌≡◌, map};
ghost use Rattle.std.specs.Option.{option_copied};
ghost use Rattle.pf_lab.specs.Asking.{is_allowed, change_of};
ghost use Rattle.pf_lab.specs.inner.Seen.{Reads};
ghost use Rattle.pf_entry.specs.Owned.{command_value};

use crate::fault::{LineFault, Read, UNKNOWN};
use pf_arguments::{Action, Command, from_matches};
use pf_scripts::{file_in, is_standard, matches_in};
use std::alloc::Global;

/// Whether a file may be named so: standard input where a ruleset may be behind the line, else none.
fn is_allowed(file: Option<&str>, text: Option<&[u8]>) -> bool
    ensures { result ≡ is_allowed (option_copied file.entry) (option_copied text.entry) }
{
    match text {
        Some(_) => is_standard(file),
        None => file.is_none(),
    }
}

/// The change that pfctl's arguments ask for; the first argument stands for pfctl itself. `text` is what follows the
/// line, none where no text may. Any action that is no change is 40, after the faults of the arguments.
pub(crate) fn command_in(alloc: Global, words: &[&str], text: Option<&[u8]>) -> Read<Command>
    ensures { Reads command_value result (change_of (map (λ w. w.now) words.now) (option_copied text.entry)) }
{
    let Some(matches) = matches_in(alloc, words)? else {
        return Err(UNKNOWN);
    };
    if !is_allowed(file_in(&matches), text) {
        return Err(UNKNOWN);
    }
    match from_matches(alloc, &matches, text.unwrap_or(&[])) {
        Ok(Action::Change(command)) => Ok(command),
        Ok(_) => Err(UNKNOWN),
        Err(fault) => Err(fault.code().map_or(LineFault::Memory, LineFault::Refused)),
    }
}
