//! Changes of a record of three members.
ghost use Rattle.std.specs.Prelude.{◌≡◌, IfOk, IsTrue};
ghost use Rattle.px_model.specs.Bounds.{AnyCommand};
ghost use Rattle.px_model.specs.Entries.{entry_of};
ghost use Rattle.px_model.specs.Fits.{IsBallot, EntryFits, ChangeFits};
ghost use Rattle.px_model.specs.Node.{Record};
ghost use Rattle.px_model.specs.Spelling.{Bytes};
ghost use Rattle.px_model.specs.Seen.{change_of};
ghost use Rattle.px_records.specs.Records.{Rises};

use crate::said::Refused;
use px_model::{Change, Entry, EntryView};
use px_records::Records;
use std::alloc::Global;

/// The front of each entry: its format, who asked, and its number there.
const FRONT: [u8; 10] = [1, 2, 0, 0, 0, 0, 0, 0, 0, 4];

/// An entry of that many bytes, ten at least: request 4 of member 2, of which each byte of the command is 7.
fn entry(alloc: Global, length: usize) -> Result<Entry, Refused>
    ensures { IfOk result (λ e. EntryFits AnyCommand 3 (entry_of e)) }
{
    let Ok(mut bytes) = vec![in alloc; 7u8; length.clamp(10, 32_768)] else {
        return Err(Refused::Memory);
    };
    for (byte, own) in bytes.iter_mut().zip(FRONT.iter()) {
        *byte = *own;
    }
    let Some(view) = EntryView::read(bytes.as_slice()) else {
        return Err(Refused::Line);
    };
    if !view.fits(3) {
        return Err(Refused::Line);
    }
    match Entry::from_view(alloc, &view) {
        Ok(entry) => Ok(entry),
        Err(_) => Err(Refused::Memory),
    }
}

/// Whether one of three members made the ballot.
fn is_ballot(ballot: u64) -> bool
    ensures { IsTrue result → IsBallot 3 ballot }
{
    let round = ballot / 256;
    1 <= round && round < 1 << 48 && ballot % 256 < 3
}

/// A change, and where it is made.
#[derive(Clone, Copy)]
pub(crate) struct Made<'a> {
    /// `round`, `number`, `floor`, `accept`, `learn` or `promise`.
    pub(crate) word: &'a str,
    /// The round, the number, or the position.
    pub(crate) at: u32,
    /// The ballot that is promised or accepted.
    pub(crate) ballot: u32,
    /// How many bytes the entry has.
    pub(crate) length: u32,
}

/// The change, if a member of three makes it; no promise at one position.
fn change(alloc: Global, made: Made) -> Result<Change, Refused>
    ensures fits { IfOk result (λ c. ChangeFits AnyCommand 3 (change_of c)) }
    ensures rises { IfOk result (λ c. (d : Record Bytes) → Rises (change_of c) d) }
{
    let (position, ballot) = (made.at, made.ballot as u64);
    match made.word {
        "round" => {
            return Ok(Change::Round(made.at as u64));
        }
        "number" => {
            return Ok(Change::Number(made.at as u64));
        }
        _ => {}
    }
    if made.word == "learn" && position < 1_000_000 {
        let entry = entry(alloc, made.length as usize)?;
        return Ok(Change::Learned(position, entry));
    }
    if !is_ballot(ballot) {
        return Err(Refused::Line);
    }
    if made.word == "floor" {
        return Ok(Change::Floor(ballot));
    }
    if made.word == "accept" && position < 1_000_000 {
        let entry = entry(alloc, made.length as usize)?;
        return Ok(Change::Accepted(position, ballot, entry));
    }
    Err(Refused::Line)
}

/// Commits the change.
fn commit<R: Records>(records: &mut R, change: Change) -> Result<(), Refused>
    requires fits { ChangeFits AnyCommand (R.members records.old) (change_of change) }
    requires rises { R.is_honest records.old → Rises (change_of change) (R.stored records.old) }
    ensures { R.members records.new ≡ R.members records.old }
{
    let committed = records.commit(&change);
    drop(change);
    match committed {
        Ok(()) => Ok(()),
        Err(fault) => Err(Refused::Store(fault)),
    }
}

/// The ballot promised at the position.
fn promised<R: Records>(records: &mut R, position: u32) -> Result<u64, Refused>
    ensures ok { R.is_honest records.new →
        IfOk result (λ b. ((R.stored records.new).slots position).promised ≡ b) }
    ensures same { R.members records.new ≡ R.members records.old }
{
    match records.read_slot(position) {
        Ok(slot) => Ok(slot.promised),
        Err(fault) => Err(Refused::Store(fault)),
    }
}

/// Promises the ballot at the position. It must be there then.
fn promise<R: Records>(records: &mut R, position: u32, ballot: u64) -> Result<(), Refused>
    requires { R.members records.old ≡ 3 }
    ensures { R.members records.new ≡ 3 }
{
    let before = promised(records, position)?;
    if before > ballot || position >= 1_000_000 || !is_ballot(ballot) {
        return Err(Refused::Line);
    }
    commit(records, Change::Promised(position, ballot))?;
    if promised(records, position)? == ballot {
        Ok(())
    } else {
        Err(Refused::Lost)
    }
}

/// Makes the change.
pub(crate) fn make<R: Records>(alloc: Global, records: &mut R, made: Made) -> Result<(), Refused>
    requires { R.members records.old ≡ 3 }
    ensures { R.members records.new ≡ 3 }
{
    if made.word == "promise" {
        return promise(records, made.at, made.ballot as u64);
    }
    match change(alloc, made) {
        Ok(change) => commit(records, change),
        Err(refused) => Err(refused),
    }
}

/// Makes the change at each position from its own to before another.
pub(crate) fn make_all<R: Records>(
    alloc: Global,
    records: &mut R,
    made: Made,
    to: u32,
) -> Result<(), Refused>
    requires { R.members records.old ≡ 3 }
    ensures { R.members records.new ≡ 3 }
{
    for at in made.at..to {
        make(alloc, records, Made { at, ..made })?;
    }
    Ok(())
}
