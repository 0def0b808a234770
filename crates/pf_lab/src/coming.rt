//! What an event brings to a member: an ask, a tick, or a datagram's bytes.

ghost use Rattle.std.specs.Prelude.{◌≡◌, ◌↔◌, IfSome, IfOk, OnErr, Err, None, length, true, false};
ghost use Rattle.px_model.specs.Spelling.{Bytes};
ghost use Rattle.px_model.specs.World.{World, comes_to};
ghost use Rattle.px_wire.specs.Message.{Group};
ghost use Rattle.px_replica.specs.Spelled.{AreSpelled};
ghost use Rattle.pf_lab.specs.Coming.{action_of, is_too_long};
ghost use Rattle.pf_lab.specs.inner.Coming.{IsAskable, IsNamed, Came, names_no_message};

use crate::event::{LabAction, LabFault};
use pf_node::{NodeFault, asked_bytes, asked_entry};
use px_model::EntryView;
use px_replica::Datagram;
use std::alloc::Global;

/// What a member receives.
#[derive(Clone, Copy)]
pub(crate) enum What<'a> {
    Ask(EntryView<'a>),
    Tick,
    Datagram(&'a [u8]),
}

/// The bytes of the action's command, none of any other action; `None` where the command is too long.
pub(crate) fn named(alloc: Global, action: &LabAction) -> Result<Option<Vec<u8>>, LabFault>
    ensures some { IfOk result (λ o. IfSome o (λ v. IsNamed action.now v.items)) }
    ensures short { IfOk result (λ o. IfSome o (λ v. is_too_long action.now ≡ false)) }
    ensures long { IfOk result (λ o. o ≡ None → is_too_long action.now ≡ true) }
    ensures memory { OnErr result (result ≡ Err LabFault.Memory) }
{
    match action {
        LabAction::Ask(_, command) => match asked_bytes(alloc, command) {
            Ok(bytes) => Ok(Some(bytes)),
            Err(NodeFault::TooLong) => Ok(None),
            Err(_) => Err(LabFault::Memory),
        },
        LabAction::Tick(_) | LabAction::Deliver(_) => Ok(Some(Vec::new(alloc))),
    }
}

/// To whom an action comes, and as what; none where no such message was sent.
pub(crate) type Comes<'a> = Option<(u8, What<'a>)>;

/// To whom the action comes, and as what.
pub(crate) fn what_comes<'a>(sent: &'a [Datagram], action: &LabAction, bytes: &'a [u8]) -> Comes<'a>
    requires { IsNamed action.now bytes.now }
    ensures came { (g : Group) (w : World Bytes) → AreSpelled g w.sent sent.entry.now →
        IfSome result (λ r. Came g w (action_of action.now) r.0 r.1) }
    ensures askable { IfSome result (λ r. IsAskable r.1) }
    ensures none { (g : Group) (w : World Bytes) → AreSpelled g w.sent sent.entry.now → result ≡ None →
        comes_to w (action_of action.now) ≡ None }
    ensures unknown { (result ≡ None) ↔ (names_no_message (length sent.entry.now) action.now ≡ true) }
{
    match action {
        LabAction::Ask(m, command) => Some((*m, What::Ask(asked_entry(command, bytes)?))),
        LabAction::Tick(m) => Some((*m, What::Tick)),
        LabAction::Deliver(k) => match sent.get(*k) {
            None => None,
            Some(datagram) => Some((datagram.to, What::Datagram(datagram.bytes.as_slice()))),
        },
    }
}
