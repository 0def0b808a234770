//! Reading the fields of a datagram, from left to right.

ghost use Rattle.std.specs.Prelude.{◌≡◌, ◌<◌, ◌+◌, ◌^◌, ◌==◌, Bool, [], ◌∷◌, true};
ghost use Rattle.std.specs.Prelude.{◌≤◌, option_map, is_some, Some, None, false, IfOk, MatchResult, take, drop};
ghost use Rattle.std.specs.Prelude.{if◌then◌else◌};
ghost use Rattle.px_wire.specs.Message.{group, is_member, is_client, is_party, is_kind, is_ballot, is_ballot_of};
ghost use Rattle.px_wire.specs.Message.{is_position, is_top, is_number, is_refusal, is_accepted};
ghost use Rattle.px_wire.specs.Fields.{field, fault_of, first_fault, u8, u32, u64, ballot, any_ballot, position, token};
ghost use Rattle.px_wire.specs.Fields.{len, entry, lent_in, entry_value, accepted, accepted_value, promised};
ghost use Rattle.px_wire.specs.inner.Fields.{any_entry};
ghost use Rattle.px_wire.specs.Fields.{body, value, fields, datagram};
ghost use Rattle.px_wire.specs.Fields.{prepare_fields, prepare_value, promise_fields, promise_value, accept_fields};
ghost use Rattle.px_wire.specs.Fields.{accept_value, vote_fields, vote_value, nack_fields, nack_value, need_fields};
ghost use Rattle.px_wire.specs.Fields.{need_value, learned_fields, learned_value, ask_fields, ask_value, asked_fields};
ghost use Rattle.px_wire.specs.Fields.{asked_value, ask_refused_fields, ask_refused_value, prepare_all_fields};
ghost use Rattle.px_wire.specs.Fields.{prepare_all_value, promise_all_fields, promise_all_value};
ghost use Rattle.px_wire.specs.Seen.{Answers, ReadsDatagram, lent_of, accepted_of};
ghost use Rattle.px_wire.specs.inner.Seen.{ReadsField, ReadsEntry, ReadsBody};
ghost use Rattle.px_wire.specs.Heads.{number_of};
ghost use Rattle.px_wire.specs.inner.Heads.{number_in};
ghost use Rattle.std.specs.Int.{w8, w32, w64};
ghost use Rattle.px_wire.specs.declared.limits.TheConstants.{ENTRY_BYTES};

use crate::MessageView;
use crate::fault::WireFault;
use crate::kind::Kind;
use crate::limits::{
    ADDRESSEE, ANSWER_AT, BALLOTS, BODY_AT, CLIENT, CLUSTER_AT, ENTRY_BYTES, FIRST_BALLOT, KIND_AT,
    LAST_POSITION, LAST_TOP, MAGIC, MEMBERS_AT, NUMBERS, POSITION_AT, SENDER_AT, VERSION,
    VERSION_AT,
};
use crate::membership::Membership;
use px_model::{EntryView, Message, Proposal};

/// What is read, unless it has a fault.
type Read<T> = Result<T, WireFault>;

fn fault(code: u8, offset: usize) -> WireFault
    ensures { result ≡ record { code = code; offset = offset } }
{
    WireFault { code, offset }
}

/// The fault, unless this holds.
fn require(holds: bool, code: u8, offset: usize) -> Read<()>
    ensures { MatchResult result (λ _. holds ≡ true)
        (λ f. (holds ≡ false) × (f ≡ record { code = code; offset = offset })) }
{
    holds.then_some(()).ok_or(fault(code, offset))
}

/// The byte at an offset, if it is there.
#[tactic(auto, unfolding(crate::specs::Fields::number))]
pub(crate) fn u8_in(bytes: &[u8], at: usize) -> Option<u8>
    requires { at < 64 }
    ensures { result ≡ number_in w8 at bytes.now }
{
    if bytes.len() < at + 1 {
        return None;
    }
    let (_, rest) = bytes.split_at(at);
    Some(rest[0])
}

/// The number of four bytes at an offset, if they are there.
#[tactic(auto, unfolding(crate::specs::Fields::number))]
pub(crate) fn u32_in(bytes: &[u8], at: usize) -> Option<u32>
    requires { at < 64 }
    ensures { result ≡ number_in w32 at bytes.now }
{
    if bytes.len() < at + 4 {
        return None;
    }
    let (_, rest) = bytes.split_at(at);
    let (front, _) = rest.split_at(4);
    Some(u32::from_be_bytes([front[0], front[1], front[2], front[3]]))
}

/// The number of eight bytes at an offset, if they are there.
#[tactic(auto, unfolding(crate::specs::Fields::number))]
pub(crate) fn u64_in(bytes: &[u8], at: usize) -> Option<u64>
    requires { at < 64 }
    ensures { result ≡ number_in w64 at bytes.now }
{
    if bytes.len() < at + 8 {
        return None;
    }
    let (_, rest) = bytes.split_at(at);
    let (front, _) = rest.split_at(8);
    Some(u64::from_be_bytes([
        front[0], front[1], front[2], front[3], front[4], front[5], front[6], front[7],
    ]))
}

#[tactic(auto, unfolding(crate::specs::Fields::fault_of))]
fn u8_at(bytes: &[u8], at: usize) -> Read<u8>
    requires { at < 64 }
    ensures { ReadsField bytes.now result (field at 1 0 true) (u8 at bytes.now) }
{
    u8_in(bytes, at).ok_or(fault(50, at))
}

#[tactic(auto, unfolding(crate::specs::Fields::fault_of))]
fn u32_at(bytes: &[u8], at: usize) -> Read<u32>
    requires { at < 64 }
    ensures { ReadsField bytes.now result (field at 4 0 true) (u32 at bytes.now) }
{
    u32_in(bytes, at).ok_or(fault(50, at))
}

#[tactic(auto, unfolding(crate::specs::Fields::fault_of))]
fn u64_at(bytes: &[u8], at: usize) -> Read<u64>
    requires { at < 64 }
    ensures { ReadsField bytes.now result (field at 8 0 true) (u64 at bytes.now) }
{
    u64_in(bytes, at).ok_or(fault(50, at))
}

/// Whether the number is a ballot of one of the members: a round from 1 to 2^48-1, and the member.
fn is_ballot(m: &Membership, number: u64) -> bool
    ensures { result ≡ is_ballot (group m.now) number }
{
    number >= FIRST_BALLOT && number < BALLOTS && number % 256 < u64::from(m.members())
}

/// A ballot of one of the members.
#[tactic(auto, unfolding(crate::specs::Fields::fault_of))]
fn any_ballot_at(m: &Membership, bytes: &[u8], at: usize) -> Read<u64>
    requires { at < 64 }
    ensures { ReadsField bytes.now result (any_ballot m.now at bytes.now) (u64 at bytes.now) }
{
    let number = u64_at(bytes, at)?;
    require(is_ballot(m, number), 57, at)?;
    Ok(number)
}

#[tactic(auto, unfolding(crate::specs::Fields::fault_of))]
fn position_at(bytes: &[u8], at: usize) -> Read<u32>
    requires { at < 64 }
    ensures { ReadsField bytes.now result (position at bytes.now) (u32 at bytes.now) }
{
    let number = u32_at(bytes, at)?;
    require(number <= LAST_POSITION, 57, at)?;
    Ok(number)
}

/// No byte follows the last field.
fn end_at(bytes: &[u8], end: usize) -> Read<()>
    ensures { Answers (λ x. x) result (first_fault [] end bytes.now) tt }
{
    require(bytes.len() <= end, 56, end)
}

/// A ballot of this node, a member.
#[tactic(auto, unfolding(crate::specs::Fields::fault_of))]
fn ballot_at(m: &Membership, node: u8, bytes: &[u8], at: usize) -> Read<u64>
    requires { at < 64 }
    ensures { ReadsField bytes.now result (ballot m.now node at bytes.now) (u64 at bytes.now) }
{
    let found = any_ballot_at(m, bytes, at)?;
    require(found % 256 == u64::from(node), 57, at)?;
    Ok(found)
}

#[tactic(auto, unfolding(crate::specs::Fields::fault_of))]
fn token_at(bytes: &[u8], at: usize) -> Read<u64>
    requires { at < 64 }
    ensures { ReadsField bytes.now result (token at bytes.now) (u64 at bytes.now) }
{
    let number = u64_at(bytes, at)?;
    require(number < NUMBERS, 57, at)?;
    Ok(number)
}

#[tactic(auto, unfolding(crate::specs::Fields::fault_of))]
fn refusal_at(bytes: &[u8], at: usize) -> Read<u8>
    requires { at < 64 }
    ensures { ReadsField bytes.now result (field at 1 57 (is_refusal (u8 at bytes.now))) (u8 at bytes.now) }
{
    let code = u8_at(bytes, at)?;
    require(code == 60 || code == 62, 57, at)?;
    Ok(code)
}

#[tactic(auto, unfolding(crate::specs::Fields::fault_of))]
fn top_at(bytes: &[u8], at: usize) -> Read<u32>
    requires { at < 64 }
    ensures { ReadsField bytes.now result (field at 4 57 (is_top (u32 at bytes.now))) (u32 at bytes.now) }
{
    let top = u32_at(bytes, at)?;
    require(top <= LAST_TOP, 57, at)?;
    Ok(top)
}

/// The length of an entry.
#[tactic(auto, unfolding(crate::specs::Fields::fault_of))]
fn len_at(bytes: &[u8], at: usize) -> Read<usize>
    requires { at < 64 }
    ensures value { ReadsField bytes.now result (len at bytes.now) (u32 at bytes.now) }
    ensures small { IfOk result (λ n. n ≤ ENTRY_BYTES) }
{
    let number = u32_at(bytes, at)?;
    require(number != 0 && number <= ENTRY_BYTES, 57, at)?;
    Ok(number as usize)
}

/// The entry that all of the bytes spell.
fn entry_in(bytes: &[u8]) -> Option<EntryView<'_>>
    ensures { option_map lent_of result ≡ lent_in bytes.now }
{
    match pf_entry::decode(bytes) {
        Ok(_) => EntryView::read(bytes),
        Err(_) => None,
    }
}

/// An entry of that many bytes, of whatever origin.
#[tactic(auto, unfolding(crate::specs::Fields::fault_of))]
fn entry_of_len(bytes: &[u8], at: usize, len: usize) -> Read<EntryView<'_>>
    requires at { at < 128 }
    requires len { len ≤ ENTRY_BYTES }
    ensures { Answers (λ e. Some (lent_of e)) result (fault_of (any_entry at len bytes.now) bytes.now)
        (lent_in (take len (drop at bytes.now))) }
{
    if bytes.len() < at + len {
        return Err(fault(50, at));
    }
    let (_, rest) = bytes.split_at(at);
    let (front, _) = rest.split_at(len);
    entry_in(front).ok_or(fault(57, at))
}

/// The length and the entry that end a datagram, asked by a member.
#[tactic(auto, unfolding(crate::specs::Fields::fault_of))]
fn members_entry_at<'a>(m: &Membership, bytes: &'a [u8], at: usize) -> Read<EntryView<'a>>
    requires { at < 64 }
    ensures { ReadsEntry bytes.now result (entry (is_member (group m.now)) at bytes.now) at (entry_value at bytes.now) }
{
    let len = len_at(bytes, at)?;
    let entry = entry_of_len(bytes, at + 4, len)?;
    require(entry.origin() < m.members(), 57, at + 4)?;
    end_at(bytes, at + 4 + len)?;
    Ok(entry)
}

/// The length and the entry that end a datagram, asked by one who is no member.
#[tactic(auto, unfolding(crate::specs::Fields::fault_of))]
fn clients_entry_at(bytes: &[u8], at: usize) -> Read<EntryView<'_>>
    requires { at < 64 }
    ensures { ReadsEntry bytes.now result (entry is_client at bytes.now) at (entry_value at bytes.now) }
{
    let len = len_at(bytes, at)?;
    let entry = entry_of_len(bytes, at + 4, len)?;
    require(entry.origin() == CLIENT, 57, at + 4)?;
    end_at(bytes, at + 4 + len)?;
    Ok(entry)
}

/// What a promise reports.
pub(crate) type Accepted<'a> = Option<Proposal<EntryView<'a>>>;

/// What a promise reports: 0, or a ballot below that of the promise, and an entry. It ends the datagram.
#[tactic(auto, unfolding(crate::specs::Fields::fault_of))]
fn accepted_at<'a>(m: &Membership, below: u64, bytes: &'a [u8], at: usize) -> Read<Accepted<'a>>
    requires { at < 32 }
    ensures { Answers (λ a. Some (accepted_of a)) result
        (first_fault (accepted m.now below at bytes.now) at bytes.now) (accepted_value at bytes.now) }
{
    let number = u64_at(bytes, at)?;
    if number == 0 {
        end_at(bytes, at + 8)?;
        return Ok(None);
    }
    let ballot = any_ballot_at(m, bytes, at)?;
    require(ballot < below, 57, at)?;
    let entry = members_entry_at(m, bytes, at + 8)?;
    Ok(Some(Proposal { ballot, entry }))
}

/// The ballot that a member has promised, not below the one refused.
#[tactic(auto, unfolding(crate::specs::Fields::fault_of))]
fn promised_at(m: &Membership, least: u64, bytes: &[u8], at: usize) -> Read<u64>
    requires { at < 64 }
    ensures { ReadsField bytes.now result (promised m.now least at bytes.now) (u64 at bytes.now) }
{
    let found = any_ballot_at(m, bytes, at)?;
    require(found >= least, 57, at)?;
    Ok(found)
}

fn prepare_at<'a>(m: &Membership, from: u8, bytes: &'a [u8]) -> Read<MessageView<'a>>
    ensures { ReadsBody bytes.now result (prepare_fields m.now from bytes.now) (prepare_value bytes.now) }
{
    let ballot = ballot_at(m, from, bytes, BODY_AT)?;
    let position = position_at(bytes, POSITION_AT)?;
    end_at(bytes, 25)?;
    Ok(Message::Prepare(ballot, position))
}

fn promise_at<'a>(m: &Membership, bytes: &'a [u8]) -> Read<MessageView<'a>>
    ensures { ReadsBody bytes.now result (promise_fields m.now bytes.now) (promise_value bytes.now) }
{
    let ballot = ballot_at(m, m.me(), bytes, BODY_AT)?;
    Ok(Message::Promise(
        ballot,
        position_at(bytes, POSITION_AT)?,
        accepted_at(m, ballot, bytes, 25)?,
    ))
}

fn accept_at<'a>(m: &Membership, from: u8, bytes: &'a [u8]) -> Read<MessageView<'a>>
    ensures { ReadsBody bytes.now result (accept_fields m.now from bytes.now) (accept_value bytes.now) }
{
    Ok(Message::Accept(
        ballot_at(m, from, bytes, BODY_AT)?,
        position_at(bytes, POSITION_AT)?,
        members_entry_at(m, bytes, 25)?,
    ))
}

fn vote_at<'a>(m: &Membership, bytes: &'a [u8]) -> Read<MessageView<'a>>
    ensures { ReadsBody bytes.now result (vote_fields m.now bytes.now) (vote_value bytes.now) }
{
    Ok(Message::Vote(
        any_ballot_at(m, bytes, BODY_AT)?,
        position_at(bytes, POSITION_AT)?,
        members_entry_at(m, bytes, 25)?,
    ))
}

fn nack_at<'a>(m: &Membership, bytes: &'a [u8]) -> Read<MessageView<'a>>
    ensures { ReadsBody bytes.now result (nack_fields m.now bytes.now) (nack_value bytes.now) }
{
    let ballot = ballot_at(m, m.me(), bytes, BODY_AT)?;
    let position = position_at(bytes, POSITION_AT)?;
    let promised = promised_at(m, ballot, bytes, 25)?;
    end_at(bytes, 33)?;
    Ok(Message::Nack(ballot, position, promised))
}

fn need_at(bytes: &[u8]) -> Read<MessageView<'_>>
    ensures { ReadsBody bytes.now result (need_fields bytes.now) (need_value bytes.now) }
{
    let position = position_at(bytes, BODY_AT)?;
    end_at(bytes, 17)?;
    Ok(Message::Need(position))
}

fn learned_at<'a>(m: &Membership, bytes: &'a [u8]) -> Read<MessageView<'a>>
    ensures { ReadsBody bytes.now result (learned_fields m.now bytes.now) (learned_value bytes.now) }
{
    let position = position_at(bytes, BODY_AT)?;
    let entry = members_entry_at(m, bytes, 17)?;
    Ok(Message::Learned(position, entry))
}

fn ask_at(bytes: &[u8]) -> Read<MessageView<'_>>
    ensures { ReadsBody bytes.now result (ask_fields bytes.now) (ask_value bytes.now) }
{
    let entry = clients_entry_at(bytes, BODY_AT)?;
    Ok(Message::Ask(entry))
}

fn asked_at(bytes: &[u8]) -> Read<MessageView<'_>>
    ensures { ReadsBody bytes.now result (asked_fields bytes.now) (asked_value bytes.now) }
{
    let token = token_at(bytes, BODY_AT)?;
    let number = token_at(bytes, ANSWER_AT)?;
    end_at(bytes, 29)?;
    Ok(Message::Asked(token, number))
}

fn ask_refused_at(bytes: &[u8]) -> Read<MessageView<'_>>
    ensures { ReadsBody bytes.now result (ask_refused_fields bytes.now) (ask_refused_value bytes.now) }
{
    let token = token_at(bytes, BODY_AT)?;
    let code = refusal_at(bytes, ANSWER_AT)?;
    end_at(bytes, 22)?;
    Ok(Message::AskRefused(token, code))
}

fn prepare_all_at<'a>(m: &Membership, from: u8, bytes: &'a [u8]) -> Read<MessageView<'a>>
    ensures { ReadsBody bytes.now result (prepare_all_fields m.now from bytes.now) (prepare_all_value bytes.now) }
{
    let ballot = ballot_at(m, from, bytes, BODY_AT)?;
    let position = position_at(bytes, POSITION_AT)?;
    end_at(bytes, 25)?;
    Ok(Message::PrepareAll(ballot, position))
}

fn promise_all_at<'a>(m: &Membership, bytes: &'a [u8]) -> Read<MessageView<'a>>
    ensures { ReadsBody bytes.now result (promise_all_fields m.now bytes.now) (promise_all_value bytes.now) }
{
    let ballot = ballot_at(m, m.me(), bytes, BODY_AT)?;
    Ok(Message::PromiseAll(
        ballot,
        position_at(bytes, POSITION_AT)?,
        top_at(bytes, 25)?,
        accepted_at(m, ballot, bytes, 29)?,
    ))
}

/// The body of a datagram of that kind.
fn body_at<'a>(m: &Membership, from: u8, kind: Kind, bytes: &'a [u8]) -> Read<MessageView<'a>>
    ensures { ReadsBody bytes.now result (body m.now from (number_of kind) bytes.now)
        (value (number_of kind) bytes.now) }
{
    match kind {
        Kind::Prepare => prepare_at(m, from, bytes),
        Kind::Promise => promise_at(m, bytes),
        Kind::Accept => accept_at(m, from, bytes),
        Kind::Vote => vote_at(m, bytes),
        Kind::Nack => nack_at(m, bytes),
        Kind::Need => need_at(bytes),
        Kind::Learned => learned_at(m, bytes),
        Kind::Ask => ask_at(bytes),
        Kind::Asked => asked_at(bytes),
        Kind::AskRefused => ask_refused_at(bytes),
        Kind::PrepareAll => prepare_all_at(m, from, bytes),
        Kind::PromiseAll => promise_all_at(m, bytes),
    }
}

/// A byte that has to be this one.
#[tactic(auto, unfolding(crate::specs::Fields::fault_of))]
fn want_u8(bytes: &[u8], at: usize, code: u8, want: u8) -> Read<()>
    requires { at < 64 }
    ensures { ReadsField bytes.now result (field at 1 code (u8 at bytes.now == want)) tt }
{
    require(u8_at(bytes, at)? == want, code, at)
}

/// A number that has to be this one.
#[tactic(auto, unfolding(crate::specs::Fields::fault_of))]
fn want_u32(bytes: &[u8], at: usize, code: u8, want: u32) -> Read<()>
    requires { at < 64 }
    ensures { ReadsField bytes.now result (field at 4 code (u32 at bytes.now == want)) tt }
{
    require(u32_at(bytes, at)? == want, code, at)
}

/// A member, or 255.
#[tactic(auto, unfolding(crate::specs::Fields::fault_of))]
fn sender_at(m: &Membership, bytes: &[u8], at: usize) -> Read<u8>
    requires { at < 64 }
    ensures { ReadsField bytes.now result (field at 1 54 (is_party (group m.now) (u8 at bytes.now))) (u8 at bytes.now) }
{
    let from = u8_at(bytes, at)?;
    require(from < m.members() || from == CLIENT, 54, at)?;
    Ok(from)
}

/// Only an ask is from one who is no member, and only its answers are to one.
fn is_kind(from: u8, to: u8, kind: Kind) -> bool
    ensures { result ≡ is_kind from to (number_of kind) }
{
    match kind {
        Kind::Ask => from == CLIENT && to != CLIENT,
        Kind::Asked | Kind::AskRefused => from != CLIENT && to == CLIENT,
        _ => from != CLIENT && to != CLIENT,
    }
}

#[tactic(auto, unfolding(crate::specs::Fields::fault_of))]
fn kind_at(from: u8, to: u8, bytes: &[u8], at: usize) -> Read<Kind>
    requires { at < 64 }
    ensures { Answers number_of result (fault_of (field at 1 55 (is_kind from to (u8 at bytes.now))) bytes.now)
        (u8 at bytes.now) }
{
    match Kind::from_number(u8_at(bytes, at)?) {
        Some(kind) if is_kind(from, to, kind) => Ok(kind),
        _ => Err(fault(55, at)),
    }
}

/// The sender and the message of a datagram.
pub(crate) fn datagram_of<'a>(m: &Membership, bytes: &'a [u8]) -> Read<(u8, MessageView<'a>)>
    ensures { ReadsDatagram bytes.now result (fields m.now bytes.now) (datagram bytes.now) }
{
    want_u32(bytes, 0, 51, MAGIC)?;
    want_u8(bytes, VERSION_AT, 52, VERSION)?;
    want_u32(bytes, CLUSTER_AT, 53, m.cluster())?;
    want_u8(bytes, MEMBERS_AT, 54, m.members())?;
    let from = sender_at(m, bytes, SENDER_AT)?;
    want_u8(bytes, ADDRESSEE, 54, m.me())?;
    let kind = kind_at(from, m.me(), bytes, KIND_AT)?;
    let message = body_at(m, from, kind, bytes)?;
    Ok((from, message))
}
