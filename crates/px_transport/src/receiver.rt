//! What a member hears of the others.

ghost use Rattle.std.specs.Prelude.{◌≡◌, List, IfOk, replicate};
ghost use Rattle.px_packet.specs.Arrivals.{arrival_of};
ghost use Rattle.px_packet.specs.Reassembling.{due_held, earlier};
ghost use Rattle.px_transport.specs.Bodies.{piece_in};
ghost use Rattle.px_transport.specs.Receiving.{Heard, Memory, unheard, with_header, with_piece};
ghost use Rattle.px_transport.specs.Receiving.{with_body, heard_by, of_member, heard_after, given_by, reported_of};
ghost use Rattle.px_transport.specs.Receiving.{due_of, IsHeard, Hears, seen};

use crate::packet_outcome::PacketOutcome;
use px_packet::{Arrival, Header, Kind, Peer, Piece, PiecesHeld, Reassembly, Start};
use std::alloc::{AllocError, Global};

/// What is heard of one member: which packets of it were accepted, and its unfinished datagrams.
#[derive(Drop)]
pub(crate) struct Entry {
    pub(crate) peer: Peer,
    pub(crate) reassembly: Reassembly,
}

impl Entry {
    /// A member that was never heard.
    fn new(alloc: Global) -> Result<Entry, AllocError>
        ensures { IfOk result (λ e. IsHeard unheard e) }
    {
        Ok(Entry {
            peer: Peer::new(alloc, Start::NEVER)?,
            reassembly: Reassembly::new(alloc),
        })
    }

    /// Whether a packet of the member is accepted. Where it started anew its unfinished datagrams are forgotten.
    fn take_header(&mut self, alloc: Global, mine: Start, header: &Header) -> Arrival
        ensures arrival { (h : Heard) → IsHeard h self.old → result ≡ arrival_of mine h.known header.now }
        ensures after { (h : Heard) → IsHeard h self.old → IsHeard (with_header mine h header.now) self.new }
    {
        let before = self.peer.start();
        let arrival = self.peer.take(mine, header);
        if before.number < self.peer.start().number {
            self.reassembly = Reassembly::new(alloc);
        }
        arrival
    }

    /// Takes the body of kind piece of a packet that was accepted.
    fn take_piece<'a>(&mut self, body: &[u8], now: u64) -> PacketOutcome<'a>
        ensures { (h : Heard) → IsHeard h self.old → (m : Memory) ×
            IsHeard (with_piece m h (piece_in body.now) now).heard self.new ×
            (seen result ≡ (with_piece m h (piece_in body.now) now).given) }
    {
        let Some(piece) = Piece::read(body) else {
            return PacketOutcome::Nothing;
        };
        match self.reassembly.take(&piece, now) {
            Ok(Some(datagram)) => PacketOutcome::Joined(datagram),
            Ok(None) => PacketOutcome::Nothing,
            Err(_) => PacketOutcome::Nothing,
        }
    }

    /// Takes the body of a packet that was accepted.
    fn take_body<'a>(&mut self, kind: Kind, body: &'a [u8], now: u64) -> PacketOutcome<'a>
        ensures { (h : Heard) → IsHeard h self.old → (m : Memory) ×
            IsHeard (with_body m h kind body.now now).heard self.new ×
            (seen result ≡ (with_body m h kind body.now now).given) }
    {
        match kind {
            Kind::State => PacketOutcome::Nothing,
            Kind::Whole => PacketOutcome::Whole(body),
            Kind::Piece => self.take_piece(body, now),
            Kind::PiecesHeld => match PiecesHeld::read(body) {
                Some(held) => PacketOutcome::Held(held),
                None => PacketOutcome::Nothing,
            },
        }
    }

    /// Takes a packet of the member.
    fn take<'a>(
        &mut self,
        alloc: Global,
        mine: Start,
        header: &Header,
        body: &'a [u8],
        now: u64,
    ) -> PacketOutcome<'a>
        ensures { (h : Heard) → IsHeard h self.old → (m : Memory) ×
            IsHeard (heard_by mine m h header.now body.now now).heard self.new ×
            (seen result ≡ (heard_by mine m h header.now body.now now).given) }
    {
        let arrival = self.take_header(alloc, mine, header);
        if arrival != Arrival::Accepted {
            return PacketOutcome::Dropped(arrival);
        }
        self.take_body(header.kind, body, now)
    }
}

/// The earlier of two times.
fn earlier(a: Option<u64>, b: Option<u64>) -> Option<u64>
    ensures { result ≡ earlier a b }
{
    match (a, b) {
        (Some(s), Some(t)) => Some(s.min(t)),
        _ => a.or(b),
    }
}

/// What a member hears of the others: for each its start, which packets of it were accepted, and its unfinished
/// datagrams.
#[derive(Drop)]
pub struct Receiver {
    pub(crate) start: Start,
    /// One a member, by its number.
    pub(crate) entries: Vec<Entry>,
}

impl Receiver {
    /// A member with this start, in a cluster of n. Nobody was heard.
    pub fn new(alloc: Global, members: u8, start: Start) -> Result<Receiver, AllocError>
        ensures { IfOk result (λ r. Hears start (replicate members unheard) r) }
    {
        let mut entries = Vec::with_capacity(alloc, usize::from(members))?;
        for _ in 0..members {
            entries.push(Entry::new(alloc)?)?;
        }
        Ok(Receiver { start, entries })
    }

    /// This member's own start.
    pub fn start(&self) -> Start
        ensures { (mine : Start) (hs : List Heard) → Hears mine hs self.now → result ≡ mine }
    {
        self.start
    }

    /// A member's start as it was last heard, which a packet for it echoes; `Start::NEVER` of one that was never heard,
    /// and of no member.
    pub fn start_of(&self, member: u8) -> Start
        ensures { (mine : Start) (hs : List Heard) → Hears mine hs self.now →
            result ≡ (of_member hs member).known.start }
    {
        let Some(entry) = self.entries.get(usize::from(member)) else {
            return Start::NEVER;
        };
        entry.peer.start()
    }

    /// Takes an authentic packet, by its header and body, that came at a time in milliseconds. When out of memory
    /// a piece is lost, or the datagram of which it is the last, and nothing else changes.
    pub fn take<'a>(&mut self, header: &Header, body: &'a [u8], now: u64) -> PacketOutcome<'a>
        ensures { (mine : Start) (hs : List Heard) → Hears mine hs self.old → (m : Memory) ×
            Hears mine (heard_after mine m hs header.now body.now now) self.new ×
            (seen result ≡ given_by mine m hs header.now body.now now) }
    {
        let alloc = *self.entries.allocator();
        let Some(entry) = self.entries.get_mut(usize::from(header.from)) else {
            return PacketOutcome::Nothing;
        };
        entry.take(alloc, self.start, header, body, now)
    }

    /// Which pieces of a datagram of a member have come, where that is to be reported at this time, as
    /// [`Reassembly::report`] has it. There may be another.
    pub fn report(&mut self, member: u8, now: u64) -> Option<PiecesHeld>
        ensures held { (mine : Start) (hs : List Heard) → Hears mine hs self.old →
            result ≡ due_held now (of_member hs member).unfinished }
        ensures after { (mine : Start) (hs : List Heard) → Hears mine hs self.old →
            Hears mine (reported_of hs member now) self.new }
    {
        let entry = self.entries.get_mut(usize::from(member))?;
        entry.reassembly.report(now)
    }

    /// When something is to be reported next, of any member, in milliseconds; never where there is nothing.
    pub fn due(&self) -> Option<u64>
        ensures { (mine : Start) (hs : List Heard) → Hears mine hs self.now → result ≡ due_of hs }
    {
        let mut first = None;
        for i in 0..self.entries.len() {
            let entry = &self.entries[i];
            first = earlier(first, entry.reassembly.due());
        }
        first
    }
}
