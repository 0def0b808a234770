//! What a run gives, and what is written of it.

ghost use Rattle.cli_show.specs.Outcomes.{Wrote};

use crate::shown::Shown;
use cli_io::{Status, out_of_memory, write_bytes};
use std::alloc::Global;
use std::io::Write;

/// What a run gives.
#[derive(Drop)]
pub(crate) enum Outcome {
    /// This is shown.
    Shown(Shown),
    /// The number of the refusal.
    Refused(u8),
    /// Out of memory.
    Memory,
}

/// Writes what a run gives.
pub(crate) fn write_outcome<W: Write>(alloc: Global, outcome: Outcome, writer: &mut W) -> Status
    ensures { Wrote result outcome (W.contents writer.old) (W.contents writer.new) }
{
    match outcome {
        Outcome::Shown(shown) => match write_bytes(writer, shown.bytes.as_slice()) {
            Ok(()) if shown.refused => Status::Refused,
            Ok(()) => Status::Done,
            Err(_) => Status::Failed,
        },
        Outcome::Refused(code) => {
            let Ok(line) = format!(in alloc; "refused {code}\n") else {
                return out_of_memory(writer);
            };
            match write_bytes(writer, line.as_bytes()) {
                Ok(()) => Status::Refused,
                Err(_) => Status::Failed,
            }
        }
        Outcome::Memory => out_of_memory(writer),
    }
}
