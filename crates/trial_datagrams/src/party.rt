//! The cluster of the trials, and what is read and written in it.
use px_transport::MemoryWire;
use px_wire::{Membership, WireFault, decode, encode};
use std::alloc::{AllocError, Global};

/// One of three members of cluster 7, or 255.
pub fn party(me: u8) -> Option<Membership> {
    Membership::new(7, 3, me)
}

/// Whether the reader refuses the bytes by this code at this offset.
pub fn is_refused(reader: &Membership, bytes: &[u8], code: u8, offset: usize) -> bool {
    match decode(reader, bytes) {
        Ok(_) => false,
        Err(fault) => fault == WireFault { code, offset },
    }
}

/// The bytes with others in the place of those from there on.
pub fn changed(alloc: Global, bytes: &[u8], at: usize, put: &[u8]) -> Result<Vec<u8>, AllocError> {
    let mut copy = Vec::from_slice(alloc, bytes)?;
    let mut place = at;
    for byte in put {
        if let Some(old) = copy.get_mut(place) {
            *old = *byte;
        }
        place = place.saturating_add(1);
    }
    Ok(copy)
}

/// Bytes behind others.
pub fn joined(alloc: Global, front: &[u8], back: &[u8]) -> Result<Vec<u8>, AllocError> {
    let mut bytes = Vec::from_slice(alloc, front)?;
    bytes.extend_from_slice(back)?;
    Ok(bytes)
}

/// What the sender of a datagram writes for the message in it.
pub fn written_again(alloc: Global, reader: &Membership, bytes: &[u8]) -> Option<Vec<u8>> {
    let Ok((from, message)) = decode(reader, bytes) else {
        return None;
    };
    let Some(sender) = Membership::new(reader.cluster(), reader.members(), from) else {
        return None;
    };
    encode(alloc, &sender, reader.me(), &message).ok()
}

/// Whether a datagram is written as it was read.
pub fn is_written(alloc: Global, reader: &Membership, bytes: &[u8]) -> bool {
    match written_again(alloc, reader, bytes) {
        Some(written) => written.as_slice() == bytes,
        None => false,
    }
}

/// Whether these are the bytes in hexadecimal digits.
pub fn has_digits(alloc: Global, bytes: &[u8], digits: &str) -> bool {
    match hex::encode(alloc, bytes) {
        Ok(text) => text.as_str() == digits,
        Err(_) => false,
    }
}

/// A wire in memory that gives these datagrams.
pub fn memory_wire(alloc: Global, coming: &[&[u8]]) -> Result<MemoryWire, AllocError> {
    let mut given = Vec::new(alloc);
    for bytes in coming {
        let copy = Vec::from_slice(alloc, bytes)?;
        given.push(copy)?;
    }
    Ok(MemoryWire::new(alloc, given))
}
