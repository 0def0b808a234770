//! The decoding of an answer's rows.

ghost use Rattle.std.specs.Prelude.{◌≡◌, ◌≢◌, ℕ, true, false, ◌&&◌, [], ◌∷◌, Err, IfOk, OnOk, OnErr};
ghost use Rattle.std.specs.Prelude.{◌<◌, ◌≤◌, ◌^◌, MatchResult};
ghost use Rattle.sqlite_value.specs.Order.{column};
ghost use Rattle.px_model.specs.Bounds.{AnyCommand};
ghost use Rattle.px_model.specs.Step.{positions};
ghost use Rattle.px_model.specs.Entries.{entry_of as entry_value};
ghost use Rattle.px_model.specs.Seen.{slot_of};
ghost use Rattle.px_model.specs.Fits.{EntryFits, SlotFits};
ghost use Rattle.px_store.specs.Entries.{is_entry, entry_of};
ghost use Rattle.px_store.specs.Seen.{is_number, is_blob, number_in, bytes_in, is_ballot, is_none_or_ballot};
ghost use Rattle.px_store.specs.Seen.{is_proposal, is_slot, is_slot_row, are_slot_rows, slot_in};
ghost use Rattle.px_store.specs.inner.Seen.{slot_with};
ghost use Rattle.px_store.specs.Seen.{is_learned_row, are_learned_rows, learned_in};
ghost use Rattle.px_store.specs.inner.Seen.{IsEndOf, HasNumber, IsMetaIn};
ghost use Rattle.px_store.specs.inner.Seen.{IsFloorIn};
ghost use Rattle.px_store.specs.inner.Bytes.{read_in, is_entry_in};
ghost use Rattle.px_store.specs.Judging.{are_floor_rows, names_member, has_numbers, is_member_of};
ghost use Rattle.px_store.specs.declared.reading.TheConstants.{NUMBERS};

use crate::calls::Identity;
use px_model::{Entry, EntryView, Proposal, Slot};
use px_records::StoreFault;
use sqlite::{Error, ErrorCode, Row};
use std::alloc::Global;

/// Rounds and the numbers of entries are below it.
pub(crate) const NUMBERS: u64 = 281_474_976_710_656;

/// The integers of a store are below it.
pub(crate) const INTEGERS: u64 = 9_223_372_036_854_775_808;

/// Why a row isn't read: out of memory, or since no commit writes it.
#[derive(Clone, Copy, PartialEq, Eq)]
pub(crate) enum ReadFault {
    Memory,
    Bad,
}

/// The columns of a slot.
#[derive(Drop)]
pub(crate) struct SlotRow {
    pub(crate) promised: u64,
    pub(crate) ballot: u64,
    pub(crate) entry: Vec<u8>,
}

/// What is read of a row.
pub(crate) type Read<T> = Result<T, ReadFault>;

/// A bad row, unless this holds.
fn require(holds: bool) -> Read<()>
    ensures { MatchResult result (λ _. holds ≡ true) (λ fault. (holds ≡ false) × (fault ≡ ReadFault.Bad)) }
{
    holds.then_some(()).ok_or(ReadFault::Bad)
}

fn fault_of(error: &Error) -> ReadFault
    ensures { result ≡ ReadFault.Bad → error.now ≢ Error.SqliteFailure ErrorCode.OutOfMemory }
{
    match error {
        Error::SqliteFailure(ErrorCode::OutOfMemory) => ReadFault::Memory,
        _ => ReadFault::Bad,
    }
}

pub(crate) fn number(row: &Row, at: usize) -> Read<u64>
    ensures ok { IfOk result (λ n. is_number (column row.now at) ≡ true) }
    ensures value { IfOk result (λ n. number_in (column row.now at) ≡ n) }
    ensures bad { result ≡ Err ReadFault.Bad → is_number (column row.now at) ≡ false }
{
    row.get::<u64>(at).map_err(|error| fault_of(&error))
}

fn bytes(row: &Row, at: usize) -> Read<Vec<u8>>
    ensures ok { IfOk result (λ b. is_blob (column row.now at) ≡ true) }
    ensures value { IfOk result (λ b. bytes_in (column row.now at) ≡ b.items) }
    ensures bad { result ≡ Err ReadFault.Bad → is_blob (column row.now at) ≡ false }
{
    row.get::<Vec<u8>>(at).map_err(|error| fault_of(&error))
}

/// Whether the bytes spell an entry of a member, by their first ten bytes.
#[tactic(auto, unfolding(crate::specs::Entries::is_entry))]
pub(crate) fn is_entry_by(bytes: &[u8], members: u8) -> bool
    ensures { result ≡ is_entry members bytes.now }
{
    let view = EntryView::read(bytes);
    view.is_some_and(|view| view.origin() < members && view.number() < NUMBERS)
}

/// Whether the ballot has a round from 1 on, and a member.
fn is_ballot_by(ballot: u64, members: u8) -> bool
    ensures { result ≡ is_ballot members ballot }
{
    ballot / 256 >= 1 && ballot / 256 < NUMBERS && ballot % 256 < u64::from(members)
}

fn is_proposal_by(ballot: u64, entry: &[u8], members: u8) -> bool
    ensures { result ≡ is_proposal members ballot entry.now }
{
    match ballot {
        0 => entry.is_empty(),
        _ => is_ballot_by(ballot, members) && is_entry_by(entry, members),
    }
}

fn is_slot_by(promised: u64, ballot: u64, entry: &[u8], members: u8) -> bool
    ensures { result ≡ is_slot members promised ballot entry.now }
{
    (promised == 0 || is_ballot_by(promised, members))
        && ballot <= promised
        && is_proposal_by(ballot, entry, members)
}

#[tactic(auto, using(crate::proofs::Above::slot_one))]
fn slot_in_row(row: &Row, members: u8, position: u32) -> Read<SlotRow>
    ensures good { IfOk result (λ s. is_slot_row members position row.now ≡ true) }
    ensures value { IfOk result (λ s. slot_with s.promised s.ballot s.entry.items ≡ slot_in (row.now ∷ [])) }
    ensures fits { IfOk result (λ s. is_slot members s.promised s.ballot s.entry.items ≡ true) }
    ensures bad { result ≡ Err ReadFault.Bad → is_slot_row members position row.now ≡ false }
{
    require(number(row, 0)? == u64::from(position))?;
    let promised = number(row, 1)?;
    let ballot = number(row, 2)?;
    let entry = bytes(row, 3)?;
    require(is_slot_by(promised, ballot, entry.as_slice(), members))?;
    Ok(SlotRow {
        promised,
        ballot,
        entry,
    })
}

/// The slot of an answer: with no row it is empty, with one it is that row.
pub(crate) fn slot_in_rows(rows: &[Row], members: u8, position: u32, alloc: Global) -> Read<SlotRow>
    ensures good { IfOk result (λ s. are_slot_rows members position rows.now ≡ true) }
    ensures value { IfOk result (λ s. slot_with s.promised s.ballot s.entry.items ≡ slot_in rows.now) }
    ensures fits { IfOk result (λ s. is_slot members s.promised s.ballot s.entry.items ≡ true) }
    ensures bad { result ≡ Err ReadFault.Bad → are_slot_rows members position rows.now ≡ false }
{
    match rows {
        [] => Ok(SlotRow {
            promised: 0,
            ballot: 0,
            entry: Vec::new(alloc),
        }),
        [row] => slot_in_row(row, members, position),
        _ => Err(ReadFault::Bad),
    }
}

/// The learned entry of an answer.
pub(crate) fn entry_in_rows(rows: &[Row], members: u8, position: u32) -> Read<Option<Vec<u8>>>
    ensures good { IfOk result (λ e. are_learned_rows members position rows.now ≡ true) }
    ensures value { IfOk result (λ e. read_in e ≡ learned_in rows.now) }
    ensures fits { IfOk result (λ e. is_entry_in members e ≡ true) }
    ensures bad { result ≡ Err ReadFault.Bad → are_learned_rows members position rows.now ≡ false }
{
    match rows {
        [] => Ok(None),
        [row] => {
            require(number(row, 0)? == u64::from(position))?;
            let entry = bytes(row, 1)?;
            require(is_entry_by(entry.as_slice(), members))?;
            Ok(Some(entry))
        }
        _ => Err(ReadFault::Bad),
    }
}

/// One more than the position of an answer, or 0 with no row.
pub(crate) fn end_in_rows(rows: &[Row]) -> Read<u32>
    ensures value { IfOk result (λ t. IsEndOf rows.now t) }
    ensures bad { result ≡ Err ReadFault.Bad → (t : ℕ) → IsEndOf rows.now t → ⊥ }
    ensures within { IfOk result (λ t. t ≤ positions) }
{
    match rows {
        [] => Ok(0),
        [row] => {
            let position = number(row, 0)?;
            require(position < 1_000_000)?;
            Ok(position as u32 + 1)
        }
        _ => Err(ReadFault::Bad),
    }
}

/// What the row for the whole node has; where there is none it is the one to be made, of the node that opens.
#[derive(Clone, Copy, PartialEq, Eq)]
pub(crate) struct Found {
    pub(crate) has_row: bool,
    pub(crate) owner: Identity,
    pub(crate) round: u64,
    pub(crate) number: u64,
}

/// Whether there is such a member of such a cluster.
fn is_member_of(cluster: u64, members: u64, node: u64) -> bool
    ensures { result ≡ is_member_of cluster members node }
{
    cluster <= 4_294_967_295 && 1 <= members && members <= 15 && node < members
}

/// What the row for the whole node has, if a node writes such a row.
pub(crate) fn found_in_row(row: &Row) -> Read<Found>
    ensures good { OnOk result ((names_member row.now && has_numbers row.now) ≡ true) }
    ensures bad { result ≡ Err ReadFault.Bad → (names_member row.now && has_numbers row.now) ≡ false }
    ensures within { IfOk result (λ f. is_member_of f.owner.cluster f.owner.members f.owner.node ≡ true) }
    ensures member { IfOk result (λ f. HasNumber row.now 3 f.owner.members) }
    ensures cluster { IfOk result (λ f. HasNumber row.now 2 f.owner.cluster) }
    ensures node { IfOk result (λ f. HasNumber row.now 4 f.owner.node) }
    ensures round { IfOk result (λ f. HasNumber row.now 5 f.round) }
    ensures number { IfOk result (λ f. HasNumber row.now 6 f.number) }
    ensures low { IfOk result (λ f. f.round < NUMBERS) }
    ensures most { IfOk result (λ f. f.number ≤ NUMBERS) }
{
    let cluster = number(row, 2)?;
    let members = number(row, 3)?;
    let node = number(row, 4)?;
    require(is_member_of(cluster, members, node))?;
    let round = number(row, 5)?;
    let counted = number(row, 6)?;
    require(round < NUMBERS && counted <= NUMBERS)?;
    Ok(Found {
        has_row: true,
        owner: Identity {
            cluster: cluster as u32,
            members: members as u8,
            node: node as u8,
        },
        round,
        number: counted,
    })
}

/// The numbers of the row for the whole node, which must be one of format 3 and of this node.
pub(crate) fn meta_in_rows(rows: &[Row], identity: Identity) -> Read<Found>
    ensures value { IfOk result (λ m. IsMetaIn identity.cluster identity.members identity.node m.round m.number
        rows.now) }
    ensures round { IfOk result (λ m. m.round < NUMBERS) }
    ensures number { IfOk result (λ m. m.number ≤ NUMBERS) }
{
    let [row] = rows else {
        return Err(ReadFault::Bad);
    };
    require(number(row, 0)? == 1 && number(row, 1)? == 3)?;
    let found = found_in_row(row)?;
    require(found.owner == identity)?;
    Ok(found)
}

/// The floor of an answer: with no row it is 0.
pub(crate) fn floor_in_rows(rows: &[Row], members: u8) -> Read<u64>
    ensures value { IfOk result (λ b. IsFloorIn b rows.now) }
    ensures fits { IfOk result (λ b. is_none_or_ballot members b ≡ true) }
    ensures good { OnOk result (are_floor_rows members rows.now ≡ true) }
    ensures bad { result ≡ Err ReadFault.Bad → are_floor_rows members rows.now ≡ false }
{
    match rows {
        [] => Ok(0),
        [row] => {
            require(number(row, 0)? == 1)?;
            let ballot = number(row, 1)?;
            require(is_ballot_by(ballot, members))?;
            Ok(ballot)
        }
        _ => Err(ReadFault::Bad),
    }
}

/// The entry that good bytes spell. The bytes are copied.
#[tactic(auto, using(crate::proofs::Spelled::entry_fits, crate::proofs::Spelled::shows))]
pub(crate) fn entry_from(alloc: Global, bytes: &[u8], members: u8) -> Result<Entry, StoreFault>
    requires { is_entry members bytes.now ≡ true }
    ensures value { IfOk result (λ e. entry_value e ≡ entry_of bytes.now) }
    ensures fits { IfOk result (λ e. EntryFits AnyCommand members (entry_value e)) }
    ensures why { OnErr result (result ≡ Err StoreFault.Memory) }
{
    let view = EntryView::read(bytes).ok_or(StoreFault::Memory)?;
    Entry::from_view(alloc, &view).map_err(|_| StoreFault::Memory)
}

/// The slot that a good row shows.
pub(crate) fn slot_from(alloc: Global, row: &SlotRow, members: u8) -> Result<Slot, StoreFault>
    requires { is_slot members row.now.promised row.now.ballot row.now.entry.items ≡ true }
    ensures value { IfOk result (λ s. slot_of s ≡ slot_with row.now.promised row.now.ballot row.now.entry.items) }
    ensures fits { IfOk result (λ s. SlotFits AnyCommand members (slot_of s)) }
    ensures why { OnErr result (result ≡ Err StoreFault.Memory) }
{
    let promised = row.promised;
    let ballot = row.ballot;
    if ballot == 0 {
        let accepted = None;
        return Ok(Slot { promised, accepted });
    }
    let entry = entry_from(alloc, row.entry.as_slice(), members)?;
    let accepted = Some(Proposal { ballot, entry });
    Ok(Slot { promised, accepted })
}
