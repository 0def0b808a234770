//! Addressing an encoded datagram anew.

ghost use Rattle.std.specs.Prelude.{◌≡◌, ◌<◌, ℕ, length, slice_set};
ghost use Rattle.px_wire.specs.Message.{Group, Message, HasSpelling, DatagramBytes};
ghost use Rattle.px_wire.specs.declared.limits.TheConstants.{ADDRESSEE};

use crate::limits::ADDRESSEE;

/// Addresses an encoded datagram to another member, or to 255, a client. It changes one byte, so a message to all
/// members is encoded once: `address` and send it, for one after the other.
///
/// The datagram spells the same message of the same sender, now to this addressee, if the message has a spelling to it
/// (`what_is_for_all_goes_to_each`).
pub fn address(datagram: &mut [u8], to: u8)
    requires { ADDRESSEE < length datagram.old }
    ensures bytes { datagram.new ≡ slice_set datagram.old ADDRESSEE to }
    ensures spelled { (g : Group) (from before : ℕ) (message : Message) →
        DatagramBytes g from before message datagram.old → HasSpelling g from to message →
        DatagramBytes g from to message datagram.new }
{
    datagram[ADDRESSEE] = to;
}
