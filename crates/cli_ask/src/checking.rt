//! What a change is refused for before a node is asked.

ghost use Rattle.std.specs.Prelude.{◌≡◌, IfOk};
ghost use Rattle.pf_entry.specs.Owned.{command_value};
ghost use Rattle.cli_ask.specs.Checking.{command_refusal};

use pf_entry::Command;
use pf_grammar::{ParseFault, Place, parse};
use std::alloc::{AllocError, Global};

/// A refusal before a node is asked.
#[derive(Clone, Copy)]
pub(crate) struct Refused {
    /// The number of the refusal.
    pub(crate) code: u8,
    /// The line of a refused text, 0 where there is none.
    pub(crate) line: u64,
}

/// The refusal that was found, if any.
pub(crate) type Found = Result<Option<Refused>, AllocError>;

/// What a command is refused for whatever is at the node: a ruleset that the grammar refuses at its place.
pub(crate) fn refused_command(alloc: Global, command: &Command) -> Found
    ensures { IfOk result (λ r. r ≡ command_refusal (command_value command.now)) }
{
    let Command::Load(path, profile, text) = command else {
        return Ok(None);
    };
    let is_main = path.names().is_empty();
    let place = if is_main { Place::Main } else { Place::Anchor };
    match parse(alloc, text.as_slice(), place, *profile) {
        Ok(_rules) => Ok(None),
        Err(ParseFault::Memory) => Err(AllocError),
        Err(ParseFault::Refused(refusal)) => {
            let (code, line) = (refusal.cause.code(), refusal.line);
            Ok(Some(Refused { code, line }))
        }
    }
}
