//! What a member sends.

ghost use Rattle.std.specs.Prelude.{◌≡◌, length};

use crate::outgoing::Outgoing;
use crate::wire::Wire;
use px_packet::{
    DATAGRAM_MAX, Header, Kind, PacketKeys, PiecesHeld, Start, piece_count, write_piece,
};

/// How many bytes a packet has at most.
pub(crate) const PACKET_MAX: usize = 1_232;

/// How many bytes a datagram has at most that is sent in one packet: beside it are a header and a tag.
const WHOLE_MAX: usize = 1_179;

/// To whom packets go: a member, and the start of it that they echo.
#[derive(Clone, Copy)]
pub(crate) struct To {
    pub(crate) member: u8,
    pub(crate) echo: Start,
}

/// What a member sends: packets that it seals for the other members, each with the next counter of its receiver.
#[derive(Drop)]
pub(crate) struct Sender {
    pub(crate) keys: PacketKeys,
    pub(crate) cluster: u32,
    pub(crate) members: u8,
    pub(crate) me: u8,
    pub(crate) start: Start,
    /// Of each member, by its number.
    pub(crate) outgoing: Vec<Outgoing>,
    /// Room for a packet.
    pub(crate) room: Vec<u8>,
    ghost size: { length outgoing.items ≡ members },
}

impl Sender {
    ghost use Rattle.std.specs.Prelude.{◌≡◌, ◌<◌, ◌≤◌, ◌*◌, ◌⊎◌, ◌∷◌, [], false, IsTrue, take};
    ghost use Rattle.px_transport.specs.Wires.{Adds, IsQuiet};
    ghost use Rattle.px_packet.specs.declared.kind.Kind.TheVariants.{Piece};
    ghost use Rattle.px_transport.specs.Sending.{is_other, can_be_cut, to_member, next_state, stated_for};
    ghost use Rattle.px_transport.specs.Sending.{Sends, SendsUpTo, HasName, refilled_for};
    ghost use Rattle.px_transport.specs.Sending.{pieces, kept_with, packets_of, again, state, report, states};
    ghost use Rattle.px_transport.specs.Senders.{sealer_of, outgoing_of};

    /// Whether it is another member.
    pub(crate) fn is_other(&self, member: u8) -> bool
        ensures is { result ≡ is_other (sealer_of self.now) member }
        ensures inside { IsTrue result → member < self.now.members }
    {
        member < self.members && member != self.me
    }

    /// Seals a packet for a member with the next counter, and hands it to the wire below. Whether it was sent; where no
    /// counter is left or it is out of memory nothing was handed over.
    fn send_packet<W: Wire>(&mut self, inner: &mut W, to: To, kind: Kind, body: &[u8]) -> bool
        requires { to.member < self.old.members }
        ensures sends { SendsUpTo (sealer_of self.old) result
            (record { to = to.member; echo = to.echo; kind = kind; body = body.now } ∷ [])
            (Adds (W.traffic inner.old) (W.traffic inner.new)) (outgoing_of self.old) (outgoing_of self.new) }
        ensures rest { (sealer_of self.new ≡ sealer_of self.old) × (self.new.keys ≡ self.old.keys) }
        ensures same { W.identity inner.new ≡ W.identity inner.old }
    {
        let place = usize::from(to.member);
        let last = &self.outgoing[place];
        let Some(counter) = last.next() else {
            return false;
        };
        let header = Header {
            cluster: self.cluster,
            members: self.members,
            from: self.me,
            to: to.member,
            kind,
            start: self.start,
            echo: to.echo,
            counter,
        };
        if self.keys.seal(&header, body, &mut self.room).is_err() {
            return false;
        }
        let outgoing = &mut self.outgoing[place];
        outgoing.count(counter);
        inner.send(to.member, self.room.as_slice())
    }

    /// It is this time: towards a member as many packets may go again as it reads.
    pub(crate) fn refill(&mut self, to: u8, now: u64)
        ensures refilled { outgoing_of self.new ≡ refilled_for (outgoing_of self.old) to now }
        ensures rest { (sealer_of self.new ≡ sealer_of self.old) × (self.new.keys ≡ self.old.keys) }
    {
        let place = usize::from(to);
        if place < self.outgoing.len() {
            self.outgoing[place].refill(now);
        }
    }

    /// Sends the pieces of a datagram that a receiver lacks, at most n, up to the first that isn't sent. Whether
    /// these were.
    fn send_pieces<W: Wire>(
        &mut self,
        inner: &mut W,
        to: To,
        held: PiecesHeld,
        datagram: &[u8],
        most: u8,
    ) -> bool
        requires to { to.member < self.old.members }
        requires short { length datagram.now ≤ DATAGRAM_MAX }
        ensures sends { SendsUpTo (sealer_of self.old) result (take most (pieces to.member to.echo held datagram.now))
            (Adds (W.traffic inner.old) (W.traffic inner.new)) (outgoing_of self.old) (outgoing_of self.new) }
        ensures rest { (sealer_of self.new ≡ sealer_of self.old) × (self.new.keys ≡ self.old.keys) }
        ensures same { W.identity inner.new ≡ W.identity inner.old }
    {
        let count = piece_count(datagram.len()) as u8;
        let mut left = most;
        for index in 0..count {
            if held.has(index) {
                continue;
            }
            if left == 0 {
                return true;
            }
            left -= 1;
            let mut body = Vec::new(*self.room.allocator());
            if write_piece(held.name, datagram, index, &mut body).is_err() {
                return false;
            }
            if !self.send_packet(inner, to, Kind::Piece, body.as_slice()) {
                return false;
            }
        }
        true
    }

    /// Sends a datagram to a member: in one packet where it has room there, else cut, and of the pieces as many as may
    /// still go to it. Whether these were sent.
    pub(crate) fn send<W: Wire>(&mut self, inner: &mut W, to: To, datagram: &[u8]) -> bool
        requires to { to.member < self.old.members }
        ensures size { can_be_cut datagram.now ≡ false → (result ≡ false) ×
            (IsQuiet (W.traffic inner.old) (W.traffic inner.new)) × (outgoing_of self.new ≡ outgoing_of self.old) }
        ensures sends { ((result ≡ false) × (IsQuiet (W.traffic inner.old) (W.traffic inner.new)) ×
            (outgoing_of self.new ≡ outgoing_of self.old)) ⊎
            (HasName (outgoing_of self.old) to.member datagram.now ×
            SendsUpTo (sealer_of self.old) result (packets_of (outgoing_of self.old) to.member to.echo datagram.now)
            (Adds (W.traffic inner.old) (W.traffic inner.new)) (kept_with (outgoing_of self.old) to.member datagram.now)
            (outgoing_of self.new)) }
        ensures rest { (sealer_of self.new ≡ sealer_of self.old) × (self.new.keys ≡ self.old.keys) }
        ensures same { W.identity inner.new ≡ W.identity inner.old }
    {
        if datagram.is_empty() || datagram.len() > DATAGRAM_MAX {
            return false;
        }
        if datagram.len() <= WHOLE_MAX {
            return self.send_packet(inner, to, Kind::Whole, datagram);
        }
        let outgoing = &mut self.outgoing[usize::from(to.member)];
        let left = outgoing.left();
        let Some(name) = outgoing.name(datagram) else {
            return false;
        };
        let none = PiecesHeld { name, bits: 0 };
        self.send_pieces(inner, to, none, datagram, left)
    }

    /// Sends a member the pieces that it lacks of a datagram, while that is kept, as many as may still go to it.
    pub(crate) fn send_lacked<W: Wire>(&mut self, inner: &mut W, to: To, held: PiecesHeld) -> bool
        requires to { to.member < self.old.members }
        ensures sends { SendsUpTo (sealer_of self.old) result (again (outgoing_of self.old) to.member to.echo held)
            (Adds (W.traffic inner.old) (W.traffic inner.new)) (outgoing_of self.old) (outgoing_of self.new) }
        ensures rest { (sealer_of self.new ≡ sealer_of self.old) × (self.new.keys ≡ self.old.keys) }
        ensures same { W.identity inner.new ≡ W.identity inner.old }
    {
        let outgoing = &self.outgoing[usize::from(to.member)];
        let left = outgoing.left();
        let Some(kept) = outgoing.get(held.name) else {
            return true;
        };
        if kept.len() > DATAGRAM_MAX {
            return false;
        }
        let Ok(datagram) = Vec::from_slice(*self.room.allocator(), kept) else {
            return false;
        };
        self.send_pieces(inner, to, held, datagram.as_slice(), left)
    }

    /// Sends a member a packet of kind state, if it is due.
    pub(crate) fn send_state<W: Wire>(&mut self, inner: &mut W, to: To, now: u64) -> bool
        requires to { to.member < self.old.members }
        ensures sends { SendsUpTo (sealer_of self.old) result (states (outgoing_of self.old) to.member to.echo now)
            (Adds (W.traffic inner.old) (W.traffic inner.new)) (stated_for (outgoing_of self.old) to.member to.echo now)
            (outgoing_of self.new) }
        ensures rest { (sealer_of self.new ≡ sealer_of self.old) × (self.new.keys ≡ self.old.keys) }
        ensures same { W.identity inner.new ≡ W.identity inner.old }
    {
        let place = usize::from(to.member);
        let last = &self.outgoing[place];
        if now < last.due(to.echo) {
            return true;
        }
        let outgoing = &mut self.outgoing[place];
        outgoing.state(now, to.echo);
        self.send_packet(inner, to, Kind::State, &[])
    }

    /// Sends a member which pieces have come.
    pub(crate) fn send_held<W: Wire>(&mut self, inner: &mut W, to: To, held: PiecesHeld) -> bool
        requires to { to.member < self.old.members }
        ensures sends { SendsUpTo (sealer_of self.old) result (report to.member to.echo held ∷ [])
            (Adds (W.traffic inner.old) (W.traffic inner.new)) (outgoing_of self.old) (outgoing_of self.new) }
        ensures rest { (sealer_of self.new ≡ sealer_of self.old) × (self.new.keys ≡ self.old.keys) }
        ensures same { W.identity inner.new ≡ W.identity inner.old }
    {
        let mut body = Vec::new(*self.room.allocator());
        if held.write(&mut body).is_err() {
            return false;
        }
        self.send_packet(inner, to, Kind::PiecesHeld, body.as_slice())
    }

    /// When a packet of kind state is to be sent next to a member with this start.
    pub(crate) fn due(&self, to: u8, start: Start) -> u64
        requires { to < self.now.members }
        ensures { result ≡ next_state (to_member (outgoing_of self.now) to) start }
    {
        self.outgoing[usize::from(to)].due(start)
    }
}
