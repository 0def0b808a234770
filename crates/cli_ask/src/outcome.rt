//! What a run of `ask` gives.

ghost use Rattle.std.specs.Prelude.{◌≡◌, IfOk, string_bytes};
ghost use Rattle.pf_scripts.specs.Lines.{refused_line};
ghost use Rattle.cli_ask.specs.Outcomes.{Wrote, refusal};

use crate::answers::is_done;
use crate::call::Kind;
use crate::checking::Refused;
use crate::exchange::Reply;
use cli_io::{Status, out_of_memory, write_bytes};
use pf_scripts::push_refusal;
use std::alloc::{AllocError, Global};
use std::io::Write;

/// What a run gives.
#[derive(Drop)]
pub(crate) enum Outcome {
    /// The answer to a request of that kind.
    Answered(Kind, Reply),
    /// A refusal, with the line of a refused text.
    Refused(Refused),
    /// Out of memory.
    Memory,
    /// The input couldn't be read.
    Unread,
}

impl From<AllocError> for Outcome {
    ghost use Rattle.cli_ask.specs.declared.outcome.Outcome.TheVariants.{Memory};

    ghost from_gives = { λ _ e. e ≡ Memory };

    fn from(_error: AllocError) -> Outcome {
        Outcome::Memory
    }
}

/// A refusal without a line.
pub(crate) fn refused(code: u8) -> Outcome
    ensures { result ≡ refusal code }
{
    Outcome::Refused(Refused { code, line: 0 })
}

/// The line of a refusal.
pub(crate) fn refusal_line(alloc: Global, refused: Refused) -> Result<String, AllocError>
    ensures { IfOk result (λ line. string_bytes line ≡ refused_line refused.code refused.line) }
{
    let mut line = String::new(alloc);
    push_refusal(&mut line, refused.code, refused.line)?;
    Ok(line)
}

/// Writes what a run gives.
pub(crate) fn write_outcome<W: Write>(alloc: Global, outcome: Outcome, writer: &mut W) -> Status
    ensures { Wrote result outcome (W.contents writer.old) (W.contents writer.new) }
{
    match outcome {
        Outcome::Answered(kind, reply) => match write_bytes(writer, reply.body.as_slice()) {
            Ok(()) if is_done(kind, reply.code, reply.body.as_slice()) => Status::Done,
            Ok(()) => Status::Refused,
            Err(_) => Status::Failed,
        },
        Outcome::Refused(refused) => match refusal_line(alloc, refused) {
            Ok(line) => match write_bytes(writer, line.as_bytes()) {
                Ok(()) => Status::Refused,
                Err(_) => Status::Failed,
            },
            Err(_) => out_of_memory(writer),
        },
        Outcome::Memory => out_of_memory(writer),
        Outcome::Unread => Status::Failed,
    }
}
