//! What holds of all datagrams.

ghost use Rattle.std.specs.Prelude.{◌≡◌, ◌<◌, ◌≤◌, ◌^◌, ◌++◌, ℕ, Bool, List, [], Some, None};
ghost use Rattle.std.specs.Prelude.{true, IfOk, IsOkAnd};
ghost use Rattle.px_wire.specs.declared.membership.Membership.{Membership};
ghost use Rattle.px_wire.specs.Message as datagrams;
ghost use Rattle.px_wire.specs.Message.{Group, group, HasSpelling, DatagramBytes};
ghost use Rattle.px_wire.specs.Fields.{fields, first_fault, datagram};
ghost use Rattle.px_wire.specs.Heads.{head_of};
ghost use Rattle.px_wire.specs.Sent.{is_command, is_for_all, AreBytes, lent_bytes};
ghost use Rattle.px_wire.specs.Members.{as_sent, as_heard, Passing};
ghost use Rattle.px_model.specs.Node.{Envelope};
ghost use Rattle.px_model.specs.World.{Event};
ghost use Rattle.px_model.specs.Law.{Among, world_after};
ghost use Rattle.px_model.specs.Fits.{Passes, EnvelopeFits, EventFits};
ghost use Rattle.px_model.specs.Spelling.{Bytes};
ghost use Rattle.px_wire.specs.Sent as sent;
ghost use Rattle.px_wire.specs.Seen.{message_of};
ghost use Rattle.px_wire.specs.declared.limits.TheConstants.{MEMBERS};

use crate::decoding::decode;
use crate::fault::WireFault;
use crate::head::Head;
use crate::membership::Membership;
use px_model::{EntryView, Message};

/// What one member encodes for another (`encode`, to the other's `me()`), the other decodes as the sender and the
/// message. Both are of one group: cluster and number of members are the same.
pub fn what_one_encodes_the_other_decodes<'a>(
    sender: &Membership,
    reader: &Membership,
    message: &Message<EntryView>,
    bytes: &'a [u8],
) -> Result<(u8, Message<EntryView<'a>>), WireFault>
    requires same { group sender.now ≡ group reader.now }
    requires encoded { DatagramBytes (group sender.now) sender.now.me reader.now.me (message_of message.now) bytes.now }
    ensures { IsOkAnd result (λ x. (x.0 ≡ sender.now.me) × (message_of x.1 ≡ message_of message.now)) }
{
    decode(reader, bytes)
}

/// Where a datagram is decoded, the head that is read of it is that of the sender and the message.
pub fn a_head_is_that_of_the_message<'a>(
    m: &Membership,
    bytes: &'a [u8],
) -> (
    Result<(u8, Message<EntryView<'a>>), WireFault>,
    Option<Head>,
)
    ensures { IfOk result.0 (λ x. result.1 ≡ Some (head_of x.0 m.now.me (message_of x.1))) }
{
    (decode(m, bytes), Head::read(bytes))
}

/// What is spelled for a member has no fault there, and is read as its sender and its message.
pub fn what_is_spelled_is_read()
    ensures { (m : Membership) (from : ℕ) (message : datagrams.Message) (bytes : List ℕ) →
        m.cluster < 2 ^ 32 → DatagramBytes (group m) from m.me message bytes →
        (first_fault (fields m bytes) 0 bytes ≡ None) × (datagram bytes ≡ Some (from, message)) }
{}

/// A message of one to another has one spelling.
pub fn one_message_has_one_spelling()
    ensures { (g : Group) (from to : ℕ) (message : datagrams.Message) (a b : List ℕ) →
        DatagramBytes g from to message a → DatagramBytes g from to message b → a ≡ b }
{}

/// No two messages, senders or addressees have one spelling, and no spelling is a proper front of another.
pub fn no_spelling_begins_another()
    ensures { (g : Group) (from to from' to' : ℕ) (x y : datagrams.Message) (bytes more : List ℕ) →
        DatagramBytes g from to x bytes → DatagramBytes g from' to' y (bytes ++ more) →
        (more ≡ []) × (from ≡ from') × (to ≡ to') × (x ≡ y) }
{}

/// A message whose numbers are in their ranges has a spelling, where its entry's bytes are those of a command that has
/// one, with origin and number.
pub fn what_fits_has_a_spelling()
    ensures { (g : Group) (from to : ℕ) (message : datagrams.Message) →
        g.members ≤ MEMBERS → sent.Fits g.members from to message → HasSpelling g from to message }
{}

/// What has a spelling is in these ranges.
pub fn what_has_a_spelling_fits()
    ensures { (g : Group) (from to : ℕ) (message : datagrams.Message) →
        AreBytes (lent_bytes message) → HasSpelling g from to message → sent.Fits g.members from to message }
{}

/// A message to one member whose fields don't depend on the addressee has a spelling to each other one.
pub fn what_is_for_all_goes_to_each()
    ensures { (g : Group) (from to other : ℕ) (message : datagrams.Message) →
        g.members ≤ MEMBERS → is_for_all message ≡ true → other < g.members →
        HasSpelling g from to message → HasSpelling g from other message }
{}

/// What fits for the members of the log has a spelling as a datagram.
pub fn what_members_send_has_a_spelling()
    ensures { (g : Group) (x : Envelope Bytes) →
        g.members ≤ MEMBERS → EnvelopeFits (Passes is_command) g.members x →
        HasSpelling g x.sender x.addressee (as_sent x.message) }
{}

/// What a datagram spells fits for the members of the log.
pub fn what_members_hear_fits()
    ensures { (g : Group) (from to : ℕ) (message : datagrams.Message) →
        AreBytes (lent_bytes message) → HasSpelling g from to message →
        Passing g.members from to (as_heard message) }
{}

/// What is heard of a message is what was sent.
pub fn what_is_heard_was_sent()
    ensures { (n : ℕ) (x : Envelope Bytes) →
        EnvelopeFits (Passes is_command) n x → as_heard (as_sent x.message) ≡ x.message }
{}

/// Whatever happens, every message that was ever sent between members has a spelling, where what is asked has one.
pub fn all_that_is_sent_has_a_spelling()
    ensures { (same : Bytes → Bytes → Bool) (g : Group) → 1 ≤ g.members → g.members ≤ MEMBERS →
        (events : List (Event Bytes)) → ((e : Event Bytes) → Among events e → EventFits (Passes is_command) e) →
        (x : Envelope Bytes) → Among (world_after same g.members events).sent x →
        HasSpelling g x.sender x.addressee (as_sent x.message) }
{}
