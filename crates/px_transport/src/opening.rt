//! Packets that are opened and taken.

ghost use Rattle.std.specs.Prelude.{List, length};
ghost use Rattle.px_packet.specs.declared.start.Start.{Start};
ghost use Rattle.px_packet.specs.Keyed.{keys_of};
ghost use Rattle.px_transport.specs.Receiving.{Heard, Memory, Hears};
ghost use Rattle.px_transport.specs.Wiring.{opened, given_of, heard_with, Comes, IsWithin};
ghost use Rattle.px_transport.specs.Senders.{sealer_of};

use crate::coming::Coming;
use crate::cutting::put_whole;
use crate::packet_outcome::PacketOutcome;
use crate::receiver::Receiver;
use crate::sender::Sender;
use px_packet::Arrival;

/// What comes of a packet.
pub(crate) fn take_packet(
    sender: &Sender,
    receiver: &mut Receiver,
    packet: &[u8],
    now: u64,
    into: &mut [u8],
) -> Coming
    ensures fits { IsWithin result into.new }
    ensures comes { (mine : Start) (hs : List Heard) → Hears mine hs receiver.old → (m : Memory) ×
        (let p = opened (keys_of sender.now.keys) (sealer_of sender.now) packet.now in
        Hears mine (heard_with mine m hs p now) receiver.new ×
        Comes p (given_of mine m hs p now) (length into.old) result into.new) }
{
    let keys = &sender.keys;
    let Ok((header, body)) = keys.open(packet, sender.cluster, sender.members, sender.me) else {
        return Coming::Dropped;
    };
    match receiver.take(&header, body, now) {
        PacketOutcome::Whole(datagram) => Coming::Given(put_whole(datagram, into)),
        PacketOutcome::Joined(datagram) => Coming::Given(put_whole(datagram.as_slice(), into)),
        PacketOutcome::Held(held) => Coming::Held(header.from, held),
        PacketOutcome::Nothing => Coming::Given(0),
        PacketOutcome::Dropped(Arrival::OtherMachine) => Coming::OtherMachine,
        PacketOutcome::Dropped(_) => Coming::Dropped,
    }
}
