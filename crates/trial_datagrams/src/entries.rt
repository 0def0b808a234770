//! Single entries.
use crate::bytes::ADD;
use crate::party::changed;
use pf_addr::Addr;
use pf_entry::{Addresses, CommandView, Profile, decode, encode};
use std::alloc::Global;
use std::panic::Expect;

/// Whether the list is of 10.0.0.1 alone.
fn is_one(list: Addresses) -> bool {
    let mut addresses = list;
    let Some(first) = addresses.next() else {
        return false;
    };
    let is_address = first.prefix.base() == Addr::V4(0x0a00_0001) && first.prefix.len() == 32;
    is_address && !first.negated && addresses.next().is_none()
}

/// Whether they are 0's entry of number 0, which adds 10.0.0.1 to `bad` of the main ruleset.
fn is_first_add(bytes: &[u8]) -> bool {
    let Ok(entry) = decode(bytes) else {
        return false;
    };
    let CommandView::Add(path, table, addresses) = entry.command else {
        return false;
    };
    let is_named = path.count() == 0 && table.bytes == b"bad".as_slice();
    entry.origin == 0 && entry.number == 0 && is_named && is_one(addresses.items)
}

#[test]
fn an_entry_vector(rt: HostRuntime) {
    assert!(rt; is_first_add(ADD));
}

const OTHER_FORMAT: &[u8] = b"\x02\0\0\0\0\0\0\0\0\0\x01\0\0\0\0\x05pass\n";

/// Whether `pass` is loaded.
fn is_load(command: &CommandView) -> bool {
    match command {
        CommandView::Load(_, profile, text) => {
            *profile == Profile::Two && *text == b"pass\n".as_slice()
        }
        _ => false,
    }
}

#[test]
fn an_entry_of_the_other_format(rt: HostRuntime) {
    let entry = decode(OTHER_FORMAT).expect(&rt, "an entry");
    assert!(rt; is_load(&entry.command));
}

/// Whether bytes put into [`ADD`] make an entry of it, or none where there is to be none.
fn is_so(alloc: Global, at: usize, put: &[u8], is_entry: bool) -> bool {
    match changed(alloc, ADD, at, put) {
        Ok(bytes) => decode(&bytes).is_ok() == is_entry,
        Err(_) => false,
    }
}

#[test]
fn an_add_of_the_other_format_is_no_entry(rt: HostRuntime) {
    assert!(rt; is_so(rt.alloc(), 0, &[2], false));
}

/// The entry of [`ADD`], owned, as bytes.
fn encoded_again(alloc: Global) -> Option<Vec<u8>> {
    let Ok(view) = decode(ADD) else {
        return None;
    };
    let Ok(entry) = view.to_entry(alloc) else {
        return None;
    };
    let encoded = encode(alloc, &entry);
    drop(entry);
    encoded.ok()
}

#[test]
fn what_is_viewed_is_owned_and_encoded_again(rt: HostRuntime) {
    let is_same = match encoded_again(rt.alloc()) {
        Some(bytes) => bytes.as_slice() == ADD,
        None => false,
    };
    assert!(rt; is_same);
}

#[test]
fn a_reserved_word_names_no_table(rt: HostRuntime) {
    assert!(rt; is_so(rt.alloc(), 13, b"all", false) && is_so(rt.alloc(), 13, b"alm", true));
}
