//! What a line asks for.

ghost use Rattle.std.specs.Prelude.{◌≡◌, map, option_map};
ghost use Rattle.std.specs.Option.{option_copied};
ghost use Rattle.pf_lab.specs.LabLines.{only, action_of, event_of, bare, line_asked};
ghost use Rattle.pf_lab.specs.inner.Seen.{Reads, action_value, event_value, line_value};

use crate::asking::command_in;
use crate::event::{LabAction, LabEvent};
use crate::fault::{LineFault, UNKNOWN};
use crate::numbers::{message_in, node_in};
use std::alloc::Global;

/// What a line asks for.
#[derive(Drop)]
pub(crate) enum LabLine<'w, 'a> {
    /// An event happens.
    Happens(LabEvent),
    /// What waits is delivered, in four passes.
    Run,
    /// The verdict of a node for a packet.
    Test(u8, &'w [&'a str]),
    /// How far each node is.
    State,
    /// What a node has learned.
    Log(u8),
    /// The messages not shown yet.
    Sent,
}

/// The only argument.
fn only<'a>(words: &[&'a str]) -> Result<&'a str, LineFault>
    ensures { Reads (λ w. w.now) result (only (map (λ w. w.now) words.now)) }
{
    match words {
        [word] => Ok(*word),
        _ => Err(UNKNOWN),
    }
}

/// `ask NODE WORDS`, `tick NODE` or `deliver K`; `text` is what is behind the line, none where no text may.
fn action_in(alloc: Global, words: &[&str], text: Option<&[u8]>) -> Result<LabAction, LineFault>
    ensures { Reads action_value result (action_of (map (λ w. w.now) words.now) (option_copied text.entry)) }
{
    let [first, rest @ ..] = words else {
        return Err(UNKNOWN);
    };
    match *first {
        "ask" => {
            let node = node_in(*rest.first().ok_or(UNKNOWN)?)?;
            Ok(LabAction::Ask(node, command_in(alloc, rest, text)?))
        }
        "tick" => Ok(LabAction::Tick(node_in(only(rest)?)?)),
        "deliver" => Ok(LabAction::Deliver(message_in(only(rest)?)?)),
        _ => Err(UNKNOWN),
    }
}

/// An action, its stop, or `restart NODE`.
fn event_in(alloc: Global, words: &[&str], text: &[u8]) -> Result<LabEvent, LineFault>
    ensures { Reads event_value result (event_of (map (λ w. w.now) words.now) text.now) }
{
    let [first, rest @ ..] = words else {
        return Err(UNKNOWN);
    };
    match *first {
        "stop-before" => Ok(LabEvent::StopBefore(action_in(alloc, rest, None)?)),
        "stop-after" => Ok(LabEvent::StopAfter(action_in(alloc, rest, None)?)),
        "restart" => Ok(LabEvent::Restart(node_in(only(rest)?)?)),
        _ => Ok(LabEvent::Runs(action_in(alloc, words, Some(text))?)),
    }
}

/// What a line without arguments asks for, by its keyword; none where there is no such keyword.
fn bare<'w, 'a>(word: &str) -> Option<LabLine<'w, 'a>>
    ensures { option_map line_value result ≡ bare word.now }
{
    match word {
        "run" => Some(LabLine::Run),
        "state" => Some(LabLine::State),
        "sent" => Some(LabLine::Sent),
        _ => None,
    }
}

/// What a line with these arguments asks for; `text` is what follows it.
pub(crate) fn line_in<'w, 'a>(
    alloc: Global,
    words: &'w [&'a str],
    text: &[u8],
) -> Result<LabLine<'w, 'a>, LineFault>
    ensures { Reads line_value result (line_asked (map (λ w. w.now) words.now) text.now) }
{
    let [first, rest @ ..] = words else {
        return Err(UNKNOWN);
    };
    let [node, packet @ ..] = rest else {
        return bare(*first).ok_or(UNKNOWN);
    };
    if *first == "test" {
        return Ok(LabLine::Test(node_in(*node)?, packet));
    }
    if *first == "log" {
        return Ok(LabLine::Log(node_in(only(rest)?)?));
    }
    Ok(LabLine::Happens(event_in(alloc, words, text)?))
}
