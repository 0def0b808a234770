//! Messages as lines: who to whom is written by the bus.
use px_model::{Entry, Message, Proposal};
use std::alloc::AllocError;

/// A ballot by its round and its member.
fn push_ballot(out: &mut String, ballot: u64) -> Result<(), AllocError> {
    write!(out, " b{}.{}", ballot / 256, ballot % 256)
}

/// An entry by who asked it, and its number there.
fn push_entry(out: &mut String, entry: &Entry) -> Result<(), AllocError> {
    write!(out, " e{}.{}", entry.origin(), entry.number())
}

/// What was accepted, if anything was.
fn push_accepted(out: &mut String, accepted: &Option<Proposal<Entry>>) -> Result<(), AllocError> {
    match accepted {
        None => out.push_str(" none"),
        Some(proposal) => {
            push_ballot(out, proposal.ballot)?;
            push_entry(out, &proposal.entry)
        }
    }
}

/// A kind of message, its ballot and its position.
fn push_head(out: &mut String, kind: &str, ballot: u64, position: u32) -> Result<(), AllocError> {
    out.push_str(kind)?;
    push_ballot(out, ballot)?;
    write!(out, " p{position}")
}

/// A message.
pub(crate) fn push_message(out: &mut String, message: &Message<Entry>) -> Result<(), AllocError> {
    match message {
        Message::PrepareAll(ballot, position) => {
            push_head(out, "prepareall", *ballot, *position)
        }
        Message::PromiseAll(ballot, position, top, accepted) => {
            push_head(out, "promiseall", *ballot, *position)?;
            push_accepted(out, accepted)?;
            write!(out, " t{top}")
        }
        Message::Accept(ballot, position, entry) => {
            push_head(out, "accept", *ballot, *position)?;
            push_entry(out, entry)
        }
        Message::Vote(ballot, position, entry) => {
            push_head(out, "vote", *ballot, *position)?;
            push_entry(out, entry)
        }
        Message::Nack(ballot, position, promised) => {
            push_head(out, "nack", *ballot, *position)?;
            push_ballot(out, *promised)
        }
        Message::Need(position) => write!(out, "need p{position}"),
        Message::Learned(position, entry) => {
            write!(out, "learned p{position}")?;
            push_entry(out, entry)
        }
        Message::Asked(token, number) => write!(out, "asked {token} {number}"),
        Message::AskRefused(token, code) => write!(out, "askrefused {token} {code}"),
        _ => out.push_str("another"),
    }
}
