//! A command as it is asked.

ghost use Rattle.std.specs.Prelude.{◌≡◌, ◌⊎◌, Err, IfOk, IfSome, IsSome, OnOk, OnErr, IsTrue, false, true};
ghost use Rattle.pf_entry.specs.Entry.{EntryBytes};
ghost use Rattle.pf_entry.specs.Owned.{is_over};
ghost use Rattle.px_model.specs.Entries.{view_of};
ghost use Rattle.px_wire.specs.Sent.{is_command};
ghost use Rattle.pf_node.specs.Asked.{unnamed, bytes_of};

use pf_entry::{Command, EncodeFault, encode_asked};
use px_model::EntryView;
use px_replica::NodeFault;
use std::alloc::Global;

/// The bytes of a command, with an origin and a number that don't count. `TooLong` where it has no spelling.
pub fn asked_bytes(alloc: Global, command: &Command) -> Result<Vec<u8>, NodeFault>
    ensures spelled { IfOk result (λ v. EntryBytes (unnamed command.now) v.items) }
    ensures long { result ≡ Err NodeFault.TooLong → IsTrue (is_over (unnamed command.now)) }
    ensures short { OnOk result (is_over (unnamed command.now) ≡ false) }
    ensures why { OnErr result ((result ≡ Err NodeFault.TooLong) ⊎ (result ≡ Err NodeFault.Memory)) }
{
    match encode_asked(alloc, 0, 0, command) {
        Ok(bytes) => Ok(bytes),
        Err(EncodeFault::Memory) => Err(NodeFault::Memory),
        Err(EncodeFault::TooLong) => Err(NodeFault::TooLong),
    }
}

/// The entry that the bytes of a command spell.
pub fn asked_entry<'a>(command: &Command, bytes: &'a [u8]) -> Option<EntryView<'a>>
    requires { EntryBytes (unnamed command.now) bytes.now }
    ensures some { IsSome result }
    ensures command { IfSome result (λ e. (view_of e).command ≡ bytes_of command.now) }
    ensures spelled { IfSome result (λ e. is_command (view_of e).command ≡ true) }
{
    let _command = command;
    EntryView::read(bytes)
}
