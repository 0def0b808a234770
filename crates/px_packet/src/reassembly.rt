//! A receiver's unfinished datagrams of one sender.

ghost use Rattle.std.specs.Prelude.{◌≡◌, ◌⊎◌, ◌<◌, ◌≤◌, [], IfOk, OnOk, OnErr, option_map, length};
ghost use Rattle.px_packet.specs.Seen.{seen};
ghost use Rattle.px_packet.specs.Reassembling.{place_of, given_at, after_at, given_first, after_first};
ghost use Rattle.px_packet.specs.Reassembling.{unfinished_after, finished_by, first_due, earlier, due_held, due_after};

use crate::held::PiecesHeld;
use crate::partial::Partial;
use crate::piece::Piece;
use std::alloc::{AllocError, Global};
use std::marker::Model;

/// How many unfinished datagrams of one sender are kept. With 15 senders they take some 4 MB at most.
const UNFINISHED_MAX: usize = 8;

/// A datagram, if it is whole.
type Joined = Result<Option<Vec<u8>>, AllocError>;

/// A receiver's unfinished datagrams of one sender, in the order in which they began, 8 at most. A new one is made
/// where the sender starts anew, since it names its datagrams anew then.
#[derive(Drop)]
pub struct Reassembly {
    partials: Vec<Partial>,
}

impl Model for Reassembly {
    ghost use Rattle.std.specs.Prelude.{List, ◌≤◌, length};
    ghost use Rattle.px_packet.specs.Reassembling.{Unfinished};

    ghost Value = { List Unfinished };

    ghost view = { λ r. r.partials.items };

    ghost invariant = { λ r. length r.partials.items ≤ 8 };
}

/// The earlier of two times.
fn earlier(a: Option<u64>, b: Option<u64>) -> Option<u64>
    ensures { result ≡ earlier a b }
{
    match (a, b) {
        (None, t) => t,
        (s, None) => s,
        (Some(s), Some(t)) => Some(s.min(t)),
    }
}

/// The place of the datagram of a piece, or the end.
fn place_of(partials: &[Partial], piece: &Piece<'_>) -> usize
    ensures { result ≡ place_of partials.now (seen piece.now) }
{
    for i in 0..partials.len() {
        let partial = &partials[i];
        if partial.is_of(piece) {
            return i;
        }
    }
    partials.len()
}

/// Takes a piece of the datagram at a place: the datagram, if all its parts have come now. When out of memory the
/// piece is lost, or the datagram.
fn take_at(partials: &mut Vec<Partial>, place: usize, piece: &Piece<'_>, now: u64) -> Joined
    requires inside { place < length partials.old.items }
    requires few { length partials.old.items ≤ UNFINISHED_MAX }
    ensures given { IfOk result (λ o. option_map (λ v. v.items) o ≡
        given_at partials.old.items place (seen piece.now) now) }
    ensures after { OnOk result (partials.new.items ≡ after_at partials.old.items place (seen piece.now) now) }
    ensures refused { OnErr result ((partials.new.items ≡ partials.old.items) ⊎
        (partials.new.items ≡ after_at partials.old.items place (seen piece.now) now)) }
    ensures few { length partials.new.items ≤ UNFINISHED_MAX }
{
    let partial = &mut partials[place];
    partial.take(piece, now)?;
    if !partial.is_whole() {
        return Ok(None);
    }
    let partial = partials.remove(place);
    Ok(Some(partial.join()?))
}

/// Takes the first piece of a datagram: the datagram, if it has no other. When out of memory nothing changes.
fn begin(partials: &mut Vec<Partial>, piece: &Piece<'_>, now: u64) -> Joined
    requires few { length partials.old.items ≤ UNFINISHED_MAX }
    ensures given { IfOk result (λ o. option_map (λ v. v.items) o ≡ given_first (seen piece.now) now) }
    ensures after { OnOk result (partials.new.items ≡ after_first partials.old.items (seen piece.now) now) }
    ensures refused { OnErr result (partials.new.items ≡ partials.old.items) }
    ensures few { length partials.new.items ≤ UNFINISHED_MAX }
{
    let mut partial = Partial::new(*partials.allocator(), piece, now)?;
    partial.take(piece, now)?;
    if partial.is_whole() {
        return Ok(Some(partial.join()?));
    }
    partials.push(partial)?;
    if partials.len() > UNFINISHED_MAX {
        let _first = partials.remove(0);
    }
    Ok(None)
}

impl Reassembly {
    /// Nothing has come. Allocates nothing.
    pub fn new(alloc: Global) -> Reassembly
        ensures { result ≡ [] }
    {
        Reassembly {
            partials: Vec::new(alloc),
        }
    }

    /// Takes a piece that came at a time in milliseconds: the datagram, if all its parts have come now. The datagram
    /// that began first gives way to a ninth. When out of memory the piece is lost, or the datagram.
    pub fn take(&mut self, piece: &Piece<'_>, now: u64) -> Result<Option<Vec<u8>>, AllocError>
        ensures given { IfOk result (λ o. option_map (λ v. v.items) o ≡
            finished_by self.old (seen piece.now) now) }
        ensures after { OnOk result (self.new ≡ unfinished_after self.old (seen piece.now) now) }
        ensures refused { OnErr result ((self.new ≡ self.old) ⊎
            (self.new ≡ unfinished_after self.old (seen piece.now) now)) }
        ensures few { length self.new ≤ UNFINISHED_MAX }
    {
        let place = place_of(self.partials.as_slice(), piece);
        if place < self.partials.len() {
            return take_at(&mut self.partials, place, piece, now);
        }
        begin(&mut self.partials, piece, now)
    }

    /// Which parts of a datagram have come, where that is to be reported at this time: 20 ms after a part, 5 ms after
    /// one
    /// where the datagram's last has come, and while none comes six times, after 50 ms and then each time after 50 ms
    /// more. There may be another.
    pub fn report(&mut self, now: u64) -> Option<PiecesHeld>
        ensures held { result ≡ due_held now self.old }
        ensures after { self.new ≡ due_after now self.old }
    {
        for i in 0..self.partials.len() {
            let partial = &mut self.partials[i];
            if partial.is_due(now) {
                return Some(partial.report(now));
            }
        }
        None
    }

    /// When something is to be reported next, in milliseconds; never where there is nothing.
    pub fn due(&self) -> Option<u64>
        ensures { result ≡ first_due self.now }
    {
        let mut first = None;
        for i in 0..self.partials.len() {
            let partial = &self.partials[i];
            first = earlier(first, partial.due_at());
        }
        first
    }
}
