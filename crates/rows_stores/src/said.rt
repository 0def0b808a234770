//! What came of a line, as text. Each call appends; false when out of memory.
use px_model::{Entry, Slot};
use px_records::StoreFault;
use std::fmt::Write;

/// Appends a string.
pub(crate) fn append(out: &mut String, text: &str) -> bool {
    out.push_str(text).is_ok()
}

/// Why a change isn't made.
#[derive(Clone, Copy)]
pub(crate) enum Refused {
    /// It is none that there is, or none that a member of three makes.
    Line,
    /// Out of memory.
    Memory,
    /// What is read behind the change isn't what was changed.
    Lost,
    /// The call on the record is refused.
    Store(StoreFault),
}

/// Appends why a call on a record is refused.
pub(crate) fn append_fault(out: &mut String, fault: StoreFault) -> bool {
    write!(out, "{fault}").is_ok()
}

/// Appends that changes are made, or why not.
pub(crate) fn append_made(out: &mut String, made: Result<(), Refused>) -> bool {
    match made {
        Ok(()) => append(out, "done"),
        Err(Refused::Line) => append(out, "no such change"),
        Err(Refused::Memory) => append(out, "out of memory"),
        Err(Refused::Lost) => append(out, "lost"),
        Err(Refused::Store(fault)) => append_fault(out, fault),
    }
}

/// Appends a name and a number.
pub(crate) fn append_number(out: &mut String, name: &str, number: u64) -> bool {
    write!(out, "{name} {number}").is_ok()
}

/// Appends the bytes in hexadecimal digits, or that there is no entry.
pub(crate) fn append_entry(out: &mut String, entry: Option<&Entry>) -> bool {
    let Some(entry) = entry else {
        return append(out, " none");
    };
    if !append(out, " ") {
        return false;
    }
    for byte in entry.bytes() {
        if write!(out, "{byte:02x}").is_err() {
            return false;
        }
    }
    true
}

/// Appends what a slot has.
pub(crate) fn append_slot(out: &mut String, slot: &Slot) -> bool {
    if !append_number(out, "promised", slot.promised) {
        return false;
    }
    match &slot.accepted {
        None => true,
        Some(proposal) => {
            append_number(out, " accepted", proposal.ballot)
                && append_entry(out, Some(&proposal.entry))
        }
    }
}
