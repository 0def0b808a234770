//! What is sent, as datagrams.

ghost use Rattle.std.specs.Prelude.{◌≡◌, ◌≤◌, ◌<◌, ◌+◌, ◌++◌, ◌∷◌, [], IfOk};
ghost use Rattle.std.specs.Vec.{vec_len, vec_capacity};
ghost use Rattle.px_model.specs.Fits.{Passes, SendsFit};
ghost use Rattle.px_model.specs.Step.{to_all};
ghost use Rattle.px_model.specs.Seen.{message_of};
ghost use Rattle.px_core.specs.Seen.{sends_of};
ghost use Rattle.px_wire.specs.Message.{group};
ghost use Rattle.px_wire.specs.Sent.{is_command};
ghost use Rattle.px_replica.specs.Spelled.{IsSpelled, AreSpelled};
ghost use Rattle.px_replica.specs.inner.Spelled.{envelope};

use crate::datagram::Datagram;
use px_core::Sends;
use px_model::{Entry, Message};
use px_wire::{Membership, address, encode_sent};
use std::alloc::{AllocError, Global};

/// The datagrams of what is sent, unless out of memory.
type Datagrams = Result<Vec<Datagram>, AllocError>;

/// The datagram of a message, as it is addressed to another member.
fn addressed(
    alloc: Global,
    m: &Membership,
    message: &Message<Entry>,
    first: &Datagram,
    to: u8,
) -> Result<Datagram, AllocError>
    requires fits { SendsFit (Passes is_command) m.now.members m.now.me
        (to_all m.now.members m.now.me (message_of message.now)) }
    requires first { IsSpelled (group m.now) (envelope m.now.me 0 (message_of message.now)) first.now }
    requires to { to < m.now.members }
    ensures { IfOk result (λ d. IsSpelled (group m.now) (envelope m.now.me to (message_of message.now)) d) }
{
    let mut bytes = Vec::from_slice(alloc, first.bytes.as_slice())?;
    let _message = message;
    address(bytes.as_mut_slice(), to);
    Ok(Datagram { to, bytes })
}

/// A message to each member, encoded once.
#[tactic(auto, using(crate::proofs::Sending::are_more))]
fn for_all(alloc: Global, m: &Membership, message: &Message<Entry>) -> Datagrams
    requires here { m.now.me < m.now.members }
    requires fits { SendsFit (Passes is_command) m.now.members m.now.me
        (to_all m.now.members m.now.me (message_of message.now)) }
    ensures { IfOk result (λ all. AreSpelled (group m.now)
        (to_all m.now.members m.now.me (message_of message.now)) all.items) }
{
    let bytes = encode_sent(alloc, m, 0, message)?;
    let first = Datagram { to: 0, bytes };
    let mut all = Vec::with_capacity(alloc, m.members() as usize)?;
    for to in 0..m.members() {
        let datagram = addressed(alloc, m, message, &first, to)?;
        all.push(datagram)?;
    }
    Ok(all)
}

/// A message to one.
fn for_one(alloc: Global, m: &Membership, to: u8, message: &Message<Entry>) -> Datagrams
    requires here { m.now.me < m.now.members }
    requires fits { SendsFit (Passes is_command) m.now.members m.now.me
        (envelope m.now.me to (message_of message.now) ∷ []) }
    ensures { IfOk result (λ all. AreSpelled (group m.now)
        (envelope m.now.me to (message_of message.now) ∷ []) all.items) }
{
    let bytes = encode_sent(alloc, m, to, message)?;
    let mut all = Vec::with_capacity(alloc, 1)?;
    all.push(Datagram { to, bytes })?;
    Ok(all)
}

/// The datagrams of what is sent, in order.
pub(crate) fn spelled(alloc: Global, m: &Membership, sends: &Sends) -> Datagrams
    requires here { m.now.me < m.now.members }
    requires fits { SendsFit (Passes is_command) m.now.members m.now.me
        (sends_of m.now.members m.now.me sends.now) }
    ensures { IfOk result (λ all. AreSpelled (group m.now) (sends_of m.now.members m.now.me sends.now) all.items) }
{
    match sends {
        Sends::Nothing => Ok(Vec::new(alloc)),
        Sends::One(to, message) => for_one(alloc, m, *to, message),
        Sends::All(message) => for_all(alloc, m, message),
    }
}

/// Moves datagrams to the end of a list that has room for them.
pub(crate) fn hand_out(out: &mut Vec<Datagram>, staged: &mut Vec<Datagram>)
    requires { vec_len out.old + vec_len staged.old ≤ vec_capacity out.old }
    ensures { out.new.items ≡ out.old.items ++ staged.old.items }
{
    let _moved = out.append(staged);
}
