//! What a node answers of a command, step by step.

ghost use Rattle.std.specs.Prelude.{◌≡◌, IfOk, option_map};
ghost use Rattle.cli_ask.specs.Calls.{call_value};
ghost use Rattle.cli_ask.specs.Replies.{reply_value};
ghost use Rattle.cli_ask.specs.Asking.{waiting, is_command, number_after};
ghost use Rattle.cli_ask.specs.Asking.{outcome_call};
ghost use Rattle.cli_ask.specs.Asking.{code_of, joined, position_in, synced};
ghost use Rattle.cli_ask.specs.Asking.{outcome_of, answer_value, OrMemory};

use crate::answers::{behind_line, line_len};
use crate::call::{Call, Kind};
use crate::exchange::{Answered, AskFault, Reply};
use crate::reply::{number, text_in};
use std::alloc::{AllocError, Global};

/// What a node answers whose time has not come yet.
pub(crate) const WAITING: &[u8] = b"waiting\n";

/// What a node answers that accepted a command, before its number.
pub(crate) const ASKED: &[u8] = b"asked ";

/// What it answers once a command is applied.
const APPLIED: &[u8] = b"applied ";

/// What replaces an answer to an accepted request that never came.
pub(crate) fn waiting(alloc: Global) -> Result<Reply, AllocError>
    ensures { IfOk result (λ r. reply_value r ≡ waiting) }
{
    Ok(Reply {
        code: 503,
        body: Vec::from_slice(alloc, WAITING)?,
        front: None,
        applied: None,
    })
}

/// Whether a request is a command.
pub(crate) fn is_command(kind: Kind) -> bool
    ensures { result ≡ is_command kind }
{
    matches!(kind, Kind::Sync | Kind::Change)
}

/// The number of a command whose outcome is waited for, by the answer that it was accepted: the first line, where it is
/// the whole body; none where it isn't UTF-8.
pub(crate) fn number_after(kind: Kind, is_once: bool, body: &[u8]) -> Option<&str>
    ensures { option_map (λ n. n.now) result ≡ number_after kind is_once body.now }
{
    (is_command(kind) && !is_once).then_some(())?;
    let rest = body.strip_prefix(ASKED)?;
    let (line, end) = rest.split_at(line_len(rest));
    text_in((end == b"\n".as_slice()).then_some(line)?)
}

/// What asks for the outcome of a request.
pub(crate) fn outcome_call(alloc: Global, number: &str) -> Result<Call, AllocError>
    ensures { IfOk result (λ c. call_value c ≡ outcome_call number.now) }
{
    let target = format!(in alloc; "/v1/requests/{number}")?;
    let mut call = Call::get(alloc, target, Kind::Read);
    call.is_repeatable = true;
    Ok(call)
}

/// HTTP's status of what came of a command: 503 where it is waited for still.
fn code_of(reply: &Reply) -> u16
    ensures { result ≡ code_of (reply_value reply.now) }
{
    let is_waiting = reply.body.as_slice() == WAITING;
    if is_waiting { 503 } else { reply.code }
}

/// The line that a command was accepted, and behind it what came of it.
fn joined(first: Reply, mut second: Reply) -> Result<Reply, AllocError>
    ensures { IfOk result (λ r. reply_value r ≡ joined (reply_value first) (reply_value second)) }
{
    let mut body = first.body;
    body.extend_from_slice(behind_line(second.body.as_slice(), APPLIED))?;
    second.code = code_of(&second);
    Ok(Reply { body, ..second })
}

/// The position in the line that has it.
fn position_in(body: &[u8]) -> Option<u32>
    ensures { result ≡ position_in body.now }
{
    let rest = body.strip_prefix(APPLIED)?;
    let (digits, _) = rest.split_at(line_len(rest));
    number(digits)
}

/// How many positions a node has applied that applied this command.
fn synced(alloc: Global, mut reply: Reply) -> Result<Reply, AllocError>
    ensures { IfOk result (λ r. reply_value r ≡ synced (reply_value reply)) }
{
    match position_in(reply.body.as_slice()) {
        Some(position) => {
            let line = format!(in alloc; "at {}\n", position.saturating_add(1))?;
            reply.body = line.into_bytes();
        }
        None => reply.code = code_of(&reply),
    }
    Ok(reply)
}

/// What is answered of a command that was accepted, by what became of it, where that isn't missing.
pub(crate) fn outcome_of(alloc: Global, kind: Kind, first: Reply, second: Answered) -> Answered
    ensures { OrMemory (outcome_of kind (reply_value first) (answer_value second)) (answer_value result) }
{
    let second = match second {
        Ok(second) => second,
        Err(AskFault::Memory) => return Err(AskFault::Memory),
        Err(AskFault::NoAnswer | AskFault::BadAnswer) => waiting(alloc)?,
    };
    match kind {
        Kind::Sync => Ok(synced(alloc, second)?),
        _ => Ok(joined(first, second)?),
    }
}
