//! What is true of what a receiver gives.

ghost use Rattle.px_transport.specs.Laws.{GivenWasSent, GivenOnce, GivenIsPresent, LastPieceGives, StaysBounded};
ghost use Rattle.px_transport.specs.Steps.{CallsAreSteps};
ghost use Rattle.px_transport.specs.Networks.{SealedIsCarried};

use px_packet::piece_laws::{joined_was_cut, pieces_are_joined, report_keeps};

/// Where each packet was sealed with what a member handed over, whole or cut, each datagram that is given is one that
/// was handed over by the member, and at the start, that its packet names, byte for byte.
pub fn given_was_sent()
    ensures { GivenWasSent }
{
    joined_was_cut();
    report_keeps();
}

/// No packet of a member gives something twice, over restarts of either side too, if no start of the receiver is an
/// earlier one.
pub fn given_once()
    ensures { GivenOnce }
{
    px_packet::replay_laws::heard_once();
}

/// What is given was sealed for this start of the receiver, at the start by which its sender is known then.
pub fn given_is_present()
    ensures { GivenIsPresent }
{}

/// A datagram is given once all its pieces have come in packets that are accepted, in whatever order, and no earlier,
/// where memory isn't refused.
pub fn last_piece_gives()
    ensures { LastPieceGives }
{
    pieces_are_joined();
}

/// Of each member there are at most 8 unfinished datagrams, of 33,640 bytes at most, whatever comes.
pub fn stays_bounded()
    ensures { StaysBounded }
{
    px_packet::piece_laws::stays_bounded();
}

/// What goes over a wire of packets in its calls are steps, each at most one packet below and one datagram here: each
/// packet was sealed with what was handed over before, what is given is what the receiver makes of a packet, and a
/// datagram is cut only while a name is left.
pub fn calls_are_steps()
    ensures { CallsAreSteps }
{
    px_packet::piece_laws::named_once();
    px_packet::piece_laws::cut_is_piece();
}

/// Members that open with a key what only members seal with it are given only what members handed over, wherever they
/// stop and start again.
pub fn sealed_is_carried()
    ensures { SealedIsCarried }
{
    px_packet::packet_laws::front_was_sealed();
    joined_was_cut();
    report_keeps();
    px_packet::piece_laws::log_grows();
}
