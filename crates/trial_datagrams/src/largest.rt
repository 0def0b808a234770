//! The largest entry, and its vote.
use crate::bytes::VOTE;
use crate::party::{is_refused, is_written, joined, party};
use pf_entry::{Command, EncodeFault, Entry, Path, Profile};
use px_wire::{Membership, Message, decode};
use std::alloc::{AllocError, Global};
use std::panic::Expect;

/// The given number of bytes `x`.
fn text_of(alloc: Global, size: usize) -> Result<Vec<u8>, AllocError> {
    let mut text = Vec::new(alloc);
    for _ in 0..size {
        text.push(b'x')?;
    }
    Ok(text)
}

/// The text, to be loaded at the main ruleset, as an entry's bytes; or its refusal.
fn load_of(alloc: Global, text: Vec<u8>) -> Result<Vec<u8>, EncodeFault> {
    let entry = Entry {
        origin: 0,
        number: 0,
        command: Command::Load(Path::main(alloc), Profile::One, text),
    };
    let encoded = pf_entry::encode(alloc, &entry);
    drop(entry);
    encoded
}

/// The front of a vote of member 2 in round 1 of 0 at position 5, for an entry of 32,768 bytes.
fn front(alloc: Global) -> Result<Vec<u8>, AllocError> {
    joined(alloc, &VOTE[..25], &[0, 0, 0x80, 0])
}

/// Whether the reader is lent that entry by a vote.
fn is_lent(reader: &Membership, bytes: &[u8], entry: &[u8]) -> bool {
    match decode(reader, bytes) {
        Ok((_, Message::Vote(.., lent))) => lent.bytes() == entry,
        _ => false,
    }
}

#[test]
fn the_largest_entry(rt: HostRuntime) {
    let text = text_of(rt.alloc(), 32_752).expect(&rt, "memory");
    let entry = load_of(rt.alloc(), text).expect(&rt, "an entry");
    assert!(rt; entry.len() == 32_768 && pf_entry::decode(&entry).is_ok());
    let front = front(rt.alloc()).expect(&rt, "memory");
    let mut bytes = joined(rt.alloc(), &front, &entry).expect(&rt, "memory");
    let reader = party(1).expect(&rt, "a member");
    assert!(rt; bytes.len() == 32_797 && is_lent(&reader, &bytes, &entry));
    assert!(rt; is_written(rt.alloc(), &reader, &bytes));
    bytes.push(0).expect(&rt, "memory");
    assert!(rt; is_refused(&reader, &bytes, 56, 32_797));
}

/// Whether the reader refuses the bytes since some are missing.
fn is_short(reader: &Membership, bytes: &[u8]) -> bool {
    match decode(reader, bytes) {
        Ok(_) => false,
        Err(fault) => fault.code == 50,
    }
}

/// Whether each front of the bytes is refused so.
fn are_short(reader: &Membership, bytes: &[u8]) -> bool {
    for front in 0..bytes.len() {
        if !is_short(reader, &bytes[..front]) {
            return false;
        }
    }
    true
}

#[test]
fn each_front_of_it_is_short(rt: HostRuntime) {
    let text = text_of(rt.alloc(), 32_752).expect(&rt, "memory");
    let entry = load_of(rt.alloc(), text).expect(&rt, "an entry");
    let front = front(rt.alloc()).expect(&rt, "memory");
    let bytes = joined(rt.alloc(), &front, &entry).expect(&rt, "memory");
    let reader = party(1).expect(&rt, "a member");
    assert!(rt; are_short(&reader, &bytes));
}

#[test]
fn a_longer_text_is_too_long(rt: HostRuntime) {
    let text = text_of(rt.alloc(), 32_753).expect(&rt, "memory");
    assert!(rt; matches!(load_of(rt.alloc(), text), Err(EncodeFault::TooLong)));
}
