//! Messages as lines.

ghost use Rattle.std.specs.Prelude.{◌≡◌, ◌≤◌, ◌++◌, OnOk, Some, string_bytes};
ghost use Rattle.px_core.specs.declared.limits.TheConstants.{MEMBERS};
ghost use Rattle.px_model.specs.Node.{Envelope};
ghost use Rattle.px_model.specs.Spelling.{Bytes};
ghost use Rattle.px_replica.specs.Spelled.{IsSpelled};
ghost use Rattle.pf_lab.specs.Labs.{cluster_of};
ghost use Rattle.pf_lab.specs.Scripts.{sent_line};
ghost use Rattle.px_model.specs.Entries.{view_of};
ghost use Rattle.px_wire.specs.Seen.{message_of, accepted_of};
ghost use Rattle.pf_lab.specs.Shown.{kind_word, ballot_part, position_part, entry_part, accepted_part};
ghost use Rattle.pf_lab.specs.Shown.{message_parts, message_line};

use crate::fault::Pushed;
use px_model::{EntryView, Message, Proposal};
use px_replica::Datagram;
use px_wire::{Membership, MessageView, decode};

/// The name of a message's kind.
fn kind_of(message: &MessageView<'_>) -> &'static str
    ensures { result.now ≡ kind_word (message_of message.now) }
{
    match message {
        Message::Prepare(..) => "prepare",
        Message::Promise(..) => "promise",
        Message::PrepareAll(..) => "prepareall",
        Message::PromiseAll(..) => "promiseall",
        Message::Accept(..) => "accept",
        Message::Vote(..) => "vote",
        Message::Nack(..) => "nack",
        Message::Need(..) => "need",
        Message::Learned(..) => "learned",
        Message::Ask(..) => "ask",
        Message::Asked(..) => "asked",
        Message::AskRefused(..) => "askrefused",
    }
}

/// ` bROUND.NODE`
fn push_ballot(out: &mut String, ballot: u64) -> Pushed
    ensures { OnOk result (string_bytes out.new ≡ string_bytes out.old ++ ballot_part ballot) }
{
    write!(out, " b{}.{}", ballot / 256, ballot % 256)
}

/// ` eORIGIN.NUMBER`
fn push_entry(out: &mut String, entry: &EntryView<'_>) -> Pushed
    ensures { OnOk result (string_bytes out.new
        ≡ string_bytes out.old ++ entry_part (view_of entry.now).origin (view_of entry.now).number) }
{
    write!(out, " e{}.{}", entry.origin(), entry.number())
}

/// The ballot and the position of a message.
fn push_place(out: &mut String, ballot: u64, position: u32) -> Pushed
    ensures { OnOk result (string_bytes out.new
        ≡ string_bytes out.old ++ (ballot_part ballot ++ position_part position)) }
{
    push_ballot(out, ballot)?;
    write!(out, " p{position}")
}

/// ` none`, or the accepted ballot and entry.
fn push_accepted(out: &mut String, accepted: &Option<Proposal<EntryView<'_>>>) -> Pushed
    ensures { OnOk result (string_bytes out.new ≡ string_bytes out.old ++ accepted_part (accepted_of accepted.now)) }
{
    match accepted {
        Some(proposal) => {
            push_ballot(out, proposal.ballot)?;
            push_entry(out, &proposal.entry)
        }
        None => out.push_str(" none"),
    }
}

/// A message's fields, each after a blank. No member sends another a message that is for clients or from them.
fn push_parts(out: &mut String, message: &MessageView<'_>) -> Pushed
    ensures { OnOk result (string_bytes out.new ≡ string_bytes out.old ++ message_parts (message_of message.now)) }
{
    match message {
        Message::Prepare(ballot, position) => push_place(out, *ballot, *position),
        Message::PrepareAll(ballot, position) => push_place(out, *ballot, *position),
        Message::Promise(ballot, position, accepted) => {
            push_place(out, *ballot, *position)?;
            push_accepted(out, accepted)
        }
        Message::PromiseAll(ballot, position, top, accepted) => {
            push_place(out, *ballot, *position)?;
            push_accepted(out, accepted)?;
            write!(out, " t{top}")
        }
        Message::Accept(ballot, position, entry) | Message::Vote(ballot, position, entry) => {
            push_place(out, *ballot, *position)?;
            push_entry(out, entry)
        }
        Message::Nack(ballot, position, promised) => {
            push_place(out, *ballot, *position)?;
            push_ballot(out, *promised)
        }
        Message::Need(position) => write!(out, " p{position}"),
        Message::Learned(position, entry) => {
            write!(out, " p{position}")?;
            push_entry(out, entry)
        }
        Message::Ask(entry) => push_entry(out, entry),
        Message::Asked(..) | Message::AskRefused(..) => Ok(()),
    }
}

/// `K KIND FROM>TO`, and the message's fields.
fn push_message(out: &mut String, k: usize, from: u8, to: u8, message: &MessageView<'_>) -> Pushed
    ensures { OnOk result (string_bytes out.new
        ≡ string_bytes out.old ++ message_line k from to (message_of message.now)) }
{
    write!(out, "{k} {} {from}>{to}", kind_of(message))?;
    push_parts(out, message)?;
    out.push('\n')
}

/// The line of the message of this number, among that many members.
pub(crate) fn push_datagram(out: &mut String, members: u8, k: usize, datagram: &Datagram) -> Pushed
    ensures { (x : Envelope Bytes) → 1 ≤ members → members ≤ MEMBERS →
        IsSpelled (cluster_of members) x datagram.now → OnOk result
        (string_bytes out.new ≡ string_bytes out.old ++ sent_line k (Some x)) }
{
    let Some(m) = Membership::new(0, members, datagram.to) else {
        return Ok(());
    };
    match decode(&m, datagram.bytes.as_slice()) {
        Ok((from, message)) => push_message(out, k, from, datagram.to, &message),
        Err(_) => Ok(()),
    }
}
