//! What a run of `node`, `ask` or `key` gives.

ghost use Rattle.std.specs.Prelude.{◌≡◌, ◌≢◌, IfOk, string_bytes};
ghost use Rattle.cli_node.specs.declared.outcome.Outcome.TheVariants.{Refused};
ghost use Rattle.cli_node.specs.Outcomes.{line_of, status_of, Wrote};
ghost use Rattle.cli_node.specs.Endings.{numbered, ending_of, answer_outcome, ended_outcome};

use cli_files::key_text;
use cli_io::{
    BAD_ADDRESS, BAD_CONTROL_SOCKET, BAD_ROW, NODE_FAILED, STORE_FAILED, Status, out_of_memory,
    write_bytes,
};
use node_loop::Ended;
use node_udp::AskAnswer;
use std::alloc::{AllocError, Global};
use std::io::Write;

/// How a run ends.
#[derive(Clone, Copy, PartialEq, Eq)]
pub enum Outcome {
    /// All turns were made: how many positions are learned without a gap, and how many are applied.
    Front { front: u32, applied: u32 },
    /// The same two numbers of a node that an operator ended before its turns were made.
    Stopped { front: u32, applied: u32 },
    /// The node took the command in, as this request of its own.
    Asked { node: u8, number: u64 },
    /// A new key.
    Key([u8; 32]),
    /// The number of the refusal.
    Refused(u8),
    /// The number of the refusal, and the line of the file of settings.
    RefusedLine { code: u8, line: u64 },
    /// No answer came.
    NoAnswer,
    /// A node could be started, as far as was looked.
    Sound,
    /// A key's file is made.
    Made,
    /// Out of memory.
    Memory,
    /// The input, or the system's random source, couldn't be read.
    Unread,
}

/// The line of an outcome; none is written where something couldn't be read.
fn line_of(alloc: Global, outcome: Outcome) -> Result<String, AllocError>
    ensures { IfOk result (λ text. string_bytes text ≡ line_of outcome) }
{
    let mut text = String::new(alloc);
    let written = match outcome {
        Outcome::Front { front, applied } | Outcome::Stopped { front, applied } => {
            writeln!(text, "front {front} applied {applied}")
        }
        Outcome::Asked { node, number } => writeln!(text, "asked {node}.{number}"),
        Outcome::Key(key) => return key_text(alloc, &key),
        Outcome::Refused(code) => writeln!(text, "refused {code}"),
        Outcome::RefusedLine { code, line } => writeln!(text, "refused {code} line {line}"),
        Outcome::NoAnswer => writeln!(text, "no answer"),
        Outcome::Sound => writeln!(text, "ok"),
        Outcome::Memory => writeln!(text, "memory"),
        Outcome::Made | Outcome::Unread => Ok(()),
    };
    written?;
    Ok(text)
}

/// How a run ends whose line is written.
fn status_of(outcome: Outcome) -> Status
    ensures { result ≡ status_of outcome }
{
    match outcome {
        Outcome::Front { .. } | Outcome::Stopped { .. } | Outcome::Asked { .. } => Status::Done,
        Outcome::Key(_) | Outcome::Sound | Outcome::Made => Status::Done,
        Outcome::Refused(_) | Outcome::RefusedLine { .. } | Outcome::NoAnswer => Status::Refused,
        Outcome::Memory => Status::Memory,
        Outcome::Unread => Status::Failed,
    }
}

/// Writes the line of an outcome.
#[tactic(auto, using(crate::proofs::Writing::wrote))]
pub(crate) fn write_outcome<W: Write>(alloc: Global, outcome: Outcome, writer: &mut W) -> Status
    ensures { Wrote result outcome (W.contents writer.old) (W.contents writer.new) }
{
    let Ok(line) = line_of(alloc, outcome) else {
        return out_of_memory(writer);
    };
    match write_bytes(writer, line.as_bytes()) {
        Ok(()) => status_of(outcome),
        Err(_) => Status::Failed,
    }
}

/// What a refusal with this number is shown as; without one, that it was out of memory.
pub(crate) fn numbered(code: Option<u8>) -> Outcome
    ensures { result ≡ numbered code }
{
    code.map_or(Outcome::Memory, |code| Outcome::Refused(code))
}

/// How a run ends whose store has this number of failures: a node that had failed ends with what it failed of, 70 or
/// 72.
pub(crate) fn ending_of(outcome: Outcome, failures: u64) -> Outcome
    ensures is { result ≡ ending_of outcome failures }
    ensures why { result ≢ Refused 80 }
{
    match outcome {
        Outcome::Refused(NODE_FAILED) if failures > 0 => Outcome::Refused(STORE_FAILED),
        Outcome::Refused(NODE_FAILED) => Outcome::Refused(BAD_ROW),
        _ => outcome,
    }
}

/// What a member's run gives; `without` where there was no wire.
pub(crate) fn ended_outcome(ended: Ended, without: Outcome) -> Outcome
    ensures { result ≡ ended_outcome without ended }
{
    match ended {
        Ended::Front { front, applied } => Outcome::Front { front, applied },
        Ended::Stopped { front, applied } => Outcome::Stopped { front, applied },
        Ended::Fault(fault) => numbered(fault.code()),
        Ended::NoWire => without,
        Ended::NoControlSocket => Outcome::Refused(BAD_CONTROL_SOCKET),
        Ended::NoPort => Outcome::Refused(BAD_ADDRESS),
    }
}

/// What the answer of a node gives.
pub(crate) fn answer_outcome(node: u8, answer: AskAnswer) -> Outcome
    ensures { result ≡ answer_outcome node answer }
{
    match answer {
        AskAnswer::Asked(number) => Outcome::Asked { node, number },
        AskAnswer::Refused(code) => Outcome::Refused(code),
        AskAnswer::NoAnswer => Outcome::NoAnswer,
    }
}
