//! The bytes of an entry.

ghost use Rattle.std.specs.Prelude.{◌≡◌, ◌≤◌, ◌<◌, ◌^◌, IfOk, OnOk, IsErrOf, length, false, IsTrue};
ghost use Rattle.std.specs.Prelude.{◌||◌, nat_lt};
ghost use Rattle.pf_entry.specs.Entry.{is_origin, spelling, EntryBytes};
ghost use Rattle.pf_entry.specs.Owned.{command_value, entry_value, is_long, is_over};
ghost use Rattle.pf_entry.specs.declared.fault.EncodeFault.TheVariants.{TooLong};
ghost use Rattle.pf_entry.specs.declared.limits.TheConstants.{NUMBERS};

use crate::command::{Command, Entry};
use crate::fault::EncodeFault;
use crate::limits::ENTRY_BYTES;
use crate::writing::{is_long, put_asked};
use std::alloc::Global;

/// The one spelling of the entry. `TooLong` where it would have more than 32,768 bytes or 4,096 addresses.
pub fn encode(alloc: Global, entry: &Entry) -> Result<Vec<u8>, EncodeFault>
    ensures spelled { IfOk result (λ v. EntryBytes (entry_value entry.now) v.items) }
    ensures few { OnOk result (is_long (command_value entry.now.command) ≡ false) }
    ensures too_long { IsErrOf result TooLong → IsTrue (is_over (entry_value entry.now)) }
{
    encode_asked(alloc, entry.origin, entry.number, &entry.command)
}

/// The one spelling of a command with an origin and a number. `TooLong` is as for `encode`.
pub fn encode_asked(
    alloc: Global,
    origin: u8,
    number: u64,
    command: &Command,
) -> Result<Vec<u8>, EncodeFault>
    requires origin { IsTrue (is_origin origin) }
    requires number { number < NUMBERS }
    ensures spelled { IfOk result (λ v. EntryBytes
        (record { origin = origin; number = number; command = command_value command.now }) v.items) }
    ensures few { OnOk result (is_long (command_value command.now) ≡ false) }
    ensures too_long { IsErrOf result TooLong → IsTrue (is_over
        (record { origin = origin; number = number; command = command_value command.now })) }
{
    if is_long(command) {
        return Err(EncodeFault::TooLong);
    }
    let mut out = Vec::new(alloc);
    put_asked(&mut out, origin, number, command)?;
    if out.len() > ENTRY_BYTES {
        return Err(EncodeFault::TooLong);
    }
    Ok(out)
}
