//! The datagram of a message.

ghost use Rattle.std.specs.Prelude.{◌≡◌, ◌≤◌, ◌<◌, ◌^◌, ◌++◌, ◌∷◌, [], length, Option};
ghost use Rattle.std.specs.Prelude.{OnOk, IfOk, IfSome, IsTrue};
ghost use Rattle.std.specs.Int.{w32, w64, to_be_bytes};
ghost use Rattle.px_wire.specs.Message.{group, sized, reported, kind, body, spelling, IsSpelling, IsBody, HasSpelling};
ghost use Rattle.px_wire.specs.Message.{DatagramBytes};
ghost use Rattle.px_wire.specs.Heads.{number_of};
ghost use Rattle.px_wire.specs.Members.{as_sent, Passing};
ghost use Rattle.px_model.specs.Seen.{message_of as sent_of};
ghost use Rattle.px_wire.specs.Seen.{lent_of, accepted_of, message_of};

use crate::kind::Kind;
use crate::limits::{MAGIC, VERSION};
use crate::membership::Membership;
use crate::reading::Accepted;
use pf_entry::numbers::{put_u32, put_u64};
use px_model::{Entry, EntryView, Message};
use std::alloc::{AllocError, Global};

/// Whether it was written.
type Put = Result<(), AllocError>;

/// A length of four bytes, and the entry.
#[tactic(auto, using(crate::proofs::Lengths::short))]
fn put_sized(out: &mut Vec<u8>, e: &EntryView) -> Put
    requires { IsSpelling (lent_of e.now) }
    ensures { OnOk result (out.new.items ≡ out.old.items ++ sized (lent_of e.now)) }
{
    let bytes = e.bytes();
    put_u32(out, bytes.len() as u32)?;
    out.extend_from_slice(bytes)
}

/// A ballot and a position.
fn put_slot(out: &mut Vec<u8>, ballot: u64, position: u32) -> Put
    ensures { OnOk result (out.new.items ≡ out.old.items ++ (to_be_bytes w64 ballot ++ to_be_bytes w32 position)) }
{
    put_u64(out, ballot)?;
    put_u32(out, position)
}

/// A ballot and an entry.
fn put_accepted(out: &mut Vec<u8>, ballot: u64, entry: &EntryView) -> Put
    requires { IsSpelling (lent_of entry.now) }
    ensures { OnOk result (out.new.items ≡ out.old.items ++ (to_be_bytes w64 ballot ++ sized (lent_of entry.now))) }
{
    put_u64(out, ballot)?;
    put_sized(out, entry)?;
    Ok(())
}

/// 0, or a ballot and an entry.
fn put_reported(out: &mut Vec<u8>, accepted: &Accepted) -> Put
    requires { IfSome (accepted_of accepted.now) (λ a. IsSpelling a.1) }
    ensures { OnOk result (out.new.items ≡ out.old.items ++ reported (accepted_of accepted.now)) }
{
    match accepted {
        None => put_u64(out, 0),
        Some(proposal) => put_accepted(out, proposal.ballot, &proposal.entry),
    }
}

/// A ballot, a position and an entry.
fn put_proposal(out: &mut Vec<u8>, ballot: u64, position: u32, entry: &EntryView) -> Put
    requires { IsSpelling (lent_of entry.now) }
    ensures { OnOk result (out.new.items ≡ out.old.items ++
        (to_be_bytes w64 ballot ++ to_be_bytes w32 position ++ sized (lent_of entry.now))) }
{
    put_slot(out, ballot, position)?;
    put_sized(out, entry)
}

/// A ballot, a position and what was accepted there.
fn put_promise(out: &mut Vec<u8>, ballot: u64, position: u32, accepted: &Accepted) -> Put
    requires { IfSome (accepted_of accepted.now) (λ a. IsSpelling a.1) }
    ensures { OnOk result (out.new.items ≡ out.old.items ++
        (to_be_bytes w64 ballot ++ to_be_bytes w32 position ++ reported (accepted_of accepted.now))) }
{
    put_slot(out, ballot, position)?;
    put_reported(out, accepted)
}

/// The same with the top between.
fn put_promise_all(
    out: &mut Vec<u8>,
    ballot: u64,
    position: u32,
    top: u32,
    accepted: &Accepted,
) -> Put
    requires { IfSome (accepted_of accepted.now) (λ a. IsSpelling a.1) }
    ensures { OnOk result (out.new.items ≡ out.old.items ++
        (to_be_bytes w64 ballot ++ to_be_bytes w32 position ++ to_be_bytes w32 top
        ++ reported (accepted_of accepted.now))) }
{
    put_slot(out, ballot, position)?;
    put_u32(out, top)?;
    put_reported(out, accepted)
}

fn put_nack(out: &mut Vec<u8>, ballot: u64, position: u32, promised: u64) -> Put
    ensures { OnOk result (out.new.items ≡ out.old.items ++
        (to_be_bytes w64 ballot ++ to_be_bytes w32 position ++ to_be_bytes w64 promised)) }
{
    put_slot(out, ballot, position)?;
    put_u64(out, promised)
}

fn put_learned(out: &mut Vec<u8>, position: u32, entry: &EntryView) -> Put
    requires { IsSpelling (lent_of entry.now) }
    ensures { OnOk result (out.new.items ≡ out.old.items ++ (to_be_bytes w32 position ++ sized (lent_of entry.now))) }
{
    put_u32(out, position)?;
    put_sized(out, entry)?;
    Ok(())
}

fn put_answer(out: &mut Vec<u8>, token: u64, number: u64) -> Put
    ensures { OnOk result (out.new.items ≡ out.old.items ++ (to_be_bytes w64 token ++ to_be_bytes w64 number)) }
{
    put_u64(out, token)?;
    put_u64(out, number)
}

fn put_refusal(out: &mut Vec<u8>, token: u64, code: u8) -> Put
    ensures { OnOk result (out.new.items ≡ out.old.items ++ (to_be_bytes w64 token ++ code ∷ [])) }
{
    put_u64(out, token)?;
    out.push(code)?;
    Ok(())
}

fn put_body(out: &mut Vec<u8>, m: &Membership, to: u8, message: &Message<EntryView>) -> Put
    requires { IsBody (group m.now) m.now.me to (message_of message.now) }
    ensures { OnOk result (out.new.items ≡ out.old.items ++ body (message_of message.now)) }
{
    match message {
        Message::Prepare(ballot, position) | Message::PrepareAll(ballot, position) => {
            put_slot(out, *ballot, *position)
        }
        Message::Promise(ballot, position, accepted) => put_promise(
            out, *ballot, *position, accepted,
        ),
        Message::Accept(ballot, position, entry) | Message::Vote(ballot, position, entry) =>
            put_proposal(out, *ballot, *position, entry),
        Message::Nack(ballot, position, promised) => put_nack(out, *ballot, *position, *promised),
        Message::Need(position) => put_u32(out, *position),
        Message::Learned(position, entry) => put_learned(out, *position, entry),
        Message::Ask(entry) => put_sized(out, entry),
        Message::Asked(token, number) => put_answer(out, *token, *number),
        Message::AskRefused(token, code) => put_refusal(out, *token, *code),
        Message::PromiseAll(ballot, position, top, accepted) => put_promise_all(
            out, *ballot, *position, *top, accepted,
        ),
    }
}

fn kind_of(message: &Message<EntryView>) -> Kind
    ensures { number_of result ≡ kind (message_of message.now) }
{
    match message {
        Message::Prepare(_, _) => Kind::Prepare,
        Message::Promise(_, _, _) => Kind::Promise,
        Message::Accept(_, _, _) => Kind::Accept,
        Message::Vote(_, _, _) => Kind::Vote,
        Message::Nack(_, _, _) => Kind::Nack,
        Message::Need(_) => Kind::Need,
        Message::Learned(_, _) => Kind::Learned,
        Message::Ask(_) => Kind::Ask,
        Message::Asked(_, _) => Kind::Asked,
        Message::AskRefused(_, _) => Kind::AskRefused,
        Message::PrepareAll(_, _) => Kind::PrepareAll,
        Message::PromiseAll(_, _, _, _) => Kind::PromiseAll,
    }
}

/// Magic, version, cluster, members, from, to, kind.
fn put_header(out: &mut Vec<u8>, m: &Membership, to: u8, kind: Kind) -> Put
    ensures { OnOk result (out.new.items ≡ out.old.items ++
        (to_be_bytes w32 0x50465852 ++ 1 ∷ to_be_bytes w32 m.now.cluster
        ++ m.now.members ∷ m.now.me ∷ to ∷ number_of kind ∷ [])) }
{
    put_u32(out, MAGIC)?;
    out.push(VERSION)?;
    put_u32(out, m.cluster())?;
    let last = [m.members(), m.me(), to, kind.number()];
    out.extend_from_slice(&last)
}

/// The one spelling of a message to a member, or to 255, a client. The message has one: its ballots, position and
/// entry are allowed for the sender `m.me()` and the addressee. Its entry's bytes are copied.
///
/// Fails only when out of memory.
pub fn encode(
    alloc: Global,
    m: &Membership,
    to: u8,
    message: &Message<EntryView>,
) -> Result<Vec<u8>, AllocError>
    requires { HasSpelling (group m.now) m.now.me to (message_of message.now) }
    ensures { IfOk result (λ v. DatagramBytes (group m.now) m.now.me to (message_of message.now) v.items) }
{
    let mut out = Vec::new(alloc);
    put_header(&mut out, m, to, kind_of(message))?;
    put_body(&mut out, m, to, message)?;
    Ok(out)
}

/// The same of a message as a member of the log sends it. What a step sends fits, so it has a spelling: a node shows
/// the second condition by its plan.
///
/// Fails only when out of memory.
pub fn encode_sent(
    alloc: Global,
    m: &Membership,
    to: u8,
    message: &Message<Entry>,
) -> Result<Vec<u8>, AllocError>
    requires member { m.now.me < m.now.members }
    requires fits { Passing m.now.members m.now.me to (sent_of message.now) }
    ensures { IfOk result (λ v. DatagramBytes (group m.now) m.now.me to (as_sent (sent_of message.now)) v.items) }
{
    let view = message.view();
    encode(alloc, m, to, &view)
}
