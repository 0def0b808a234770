//! A datagram that is decoded many times, or copied many times: a vote with an entry of that many bytes.
use px_wire::{Membership, Message, decode};
use std::alloc::{AllocError, Global};

/// The bytes of an entry before its text: a load at the main ruleset, and the text's length.
const FRONT: usize = 16;

/// Member 2 votes in round 1 of 0 at position 5, for an entry of these bytes: a ruleset of spaces that is loaded. From
/// 17 bytes on.
fn vote_for(alloc: Global, size: usize) -> Result<Vec<u8>, AllocError> {
    let mut bytes = Vec::new(alloc);
    let header = [0x50, 0x46, 0x58, 0x52, 1, 0, 0, 0, 7, 3, 2, 1, 4];
    bytes.extend_from_slice(&header)?;
    bytes.extend_from_slice(&256u64.to_be_bytes())?;
    bytes.extend_from_slice(&5u32.to_be_bytes())?;
    bytes.extend_from_slice(&(size.min(32_768) as u32).to_be_bytes())?;
    let front = [1, 0, 0, 0, 0, 0, 0, 0, 0, 0, 1, 0];
    bytes.extend_from_slice(&front)?;
    let text = size.min(32_768).saturating_sub(FRONT);
    bytes.extend_from_slice(&(text as u32).to_be_bytes())?;
    for _ in 0..text {
        bytes.push(b' ')?;
    }
    Ok(bytes)
}

/// The sum of the positions that are read.
fn decoded(reader: &Membership, bytes: &mut [u8], times: u32) -> u64 {
    let mut sum: u64 = 0;
    for number in 0..times {
        if bytes.len() > 24 {
            bytes[24] = (number % 256) as u8;
        }
        if let Ok((_, Message::Vote(_, position, ..))) = decode(reader, bytes) {
            sum = sum.wrapping_add(u64::from(position));
        }
    }
    sum
}

/// The sum of the bytes at the same place, each time copied.
fn copied(bytes: &mut [u8], room: &mut [u8], times: u32) -> u64 {
    let mut sum: u64 = 0;
    for number in 0..times {
        if bytes.len() > 24 && bytes.len() == room.len() {
            bytes[24] = (number % 256) as u8;
            room.copy_from_slice(bytes);
            sum = sum.wrapping_add(u64::from(room[24]));
        }
    }
    sum
}

/// The sum of the positions of a vote of that many bytes that is decoded that many times, or copied, where `decodes`
/// is 0.
pub(crate) fn sum_of(
    alloc: Global,
    decodes: u32,
    size: u32,
    times: u32,
) -> Result<u64, AllocError> {
    let mut bytes = vote_for(alloc, size as usize)?;
    if decodes == 0 {
        let mut room = Vec::from_slice(alloc, &bytes)?;
        return Ok(copied(&mut bytes, &mut room, times));
    }
    match Membership::new(7, 3, 1) {
        Some(reader) => Ok(decoded(&reader, &mut bytes, times)),
        None => Ok(0),
    }
}
