//! A datagram that is read and written again.

use crate::row::reader_of;
use px_wire::{Membership, decode, encode};
use std::alloc::Global;
use std::io;

/// How often a call is made again before it is given up.
const TRIES: u32 = 20;

/// What a datagram's message is written as.
enum Written {
    /// As that many bytes, which are those that were read.
    Same(usize),
    /// As others.
    Other,
    /// Memory was out.
    Refused,
    /// It has no message.
    Unread,
}

/// What the message of these bytes is written as.
fn write_once(alloc: Global, reader: &Membership, bytes: &[u8]) -> Written {
    let Ok((from, message)) = decode(reader, bytes) else {
        return Written::Unread;
    };
    let Some(sender) = Membership::new(reader.cluster(), reader.members(), from) else {
        return Written::Unread;
    };
    match encode(alloc, &sender, reader.me(), &message) {
        Err(_) => Written::Refused,
        Ok(again) if again.as_slice() == bytes => Written::Same(again.len()),
        Ok(_) => Written::Other,
    }
}

/// The bytes with these digits, and that many times `x`.
fn bytes_of(alloc: Global, digits: &str, more: usize) -> Option<Vec<u8>> {
    let mut bytes = hex::decode(alloc, digits).ok()?;
    bytes.reserve(more).ok()?;
    for _ in 0..more {
        bytes.push(b'x').ok()?;
    }
    Some(bytes)
}

/// The reader and the bytes of a line after its form.
fn datagram(alloc: Global, line: &str) -> Option<(Membership, Vec<u8>)> {
    let (_form, rest) = line.split_once(' ')?;
    let (_name, rest) = rest.split_once(' ')?;
    let (me, rest) = rest.split_once(' ')?;
    let (digits, more) = rest.split_once(' ')?;
    let reader = reader_of(me)?;
    let bytes = bytes_of(alloc, digits, more.parse::<usize>().ok()?)?;
    Some((reader, bytes))
}

/// The length of what is written for the message of these bytes, and how often it was out of memory before: it is
/// written again then. None where other bytes are written.
fn length_of(alloc: Global, reader: &Membership, bytes: &[u8]) -> Option<(usize, u32)> {
    for refused in 0..TRIES {
        match write_once(alloc, reader, bytes) {
            Written::Same(length) => return Some((length, refused)),
            Written::Refused => {}
            Written::Other | Written::Unread => return None,
        }
    }
    None
}

/// Writes that a datagram of this length is written as it was read, and how often it was out of memory before.
fn write_same(rt: &HostRuntime, length: usize, refused: u32) -> io::Result<()> {
    if refused > 0 {
        println!(rt; "memory: receive 0 tick 0 ask 0 encode {refused} late 0")?;
    }
    println!(rt; "{length} bytes as they were read")
}

/// Writes what the line's datagram is written as.
pub fn write_again(rt: &HostRuntime, line: &str) -> io::Result<()> {
    let Some((reader, bytes)) = datagram(rt.alloc(), line) else {
        return println!(rt; "nothing");
    };
    match length_of(rt.alloc(), &reader, bytes.as_slice()) {
        Some((length, refused)) => write_same(rt, length, refused),
        None => println!(rt; "wrong"),
    }
}
