//! The message of a datagram.

ghost use Rattle.std.specs.Prelude.{◌≡◌, ℕ, IfErr, IfOk, IsOkAnd, OnOk, None};
ghost use Rattle.px_wire.specs.Fields.{WireFaultAt, fields, first_fault, datagram};
ghost use Rattle.px_wire.specs.Message as datagrams;
ghost use Rattle.px_wire.specs.Message.{group, DatagramBytes};
ghost use Rattle.px_wire.specs.Members.{Comes};
ghost use Rattle.px_wire.specs.Seen.{ReadsDatagram, message_of};

use crate::MessageView;
use crate::fault::WireFault;
use crate::membership::Membership;
use crate::reading::datagram_of;

/// The sender and the message that the datagram spells for this member, or its first fault. Allocates nothing: the
/// message's entry is in the bytes.
///
/// Errors are 50 to 57, the fields in order, and 56 at the first byte past the last field ([`WireFault`]).
pub fn decode<'a>(m: &Membership, bytes: &'a [u8]) -> Result<(u8, MessageView<'a>), WireFault>
    // What is answered is what the bytes spell.
    ensures found { IfOk result (λ x. DatagramBytes (group m.now) x.0 m.now.me (message_of x.1) bytes.now) }
    // What the bytes spell is answered.
    ensures only { (from : ℕ) (message : datagrams.Message) →
        DatagramBytes (group m.now) from m.now.me message bytes.now →
        IsOkAnd result (λ x. (x.0 ≡ from) × (message_of x.1 ≡ message)) }
    // A fault is the first one.
    ensures fault { IfErr result (λ f. WireFaultAt m.now bytes.now f.code f.offset) }
    ensures clean { OnOk result (first_fault (fields m.now bytes.now) 0 bytes.now ≡ None) }
    // What is answered may reach a member.
    ensures fits { IfOk result (λ x. Comes m.now x.0 x.1) }
    ensures exact { ReadsDatagram bytes.now result (fields m.now bytes.now) (datagram bytes.now) }
{
    let _cluster = m.cluster();
    datagram_of(m, bytes)
}
