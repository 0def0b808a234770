//! A line of the input.

use px_wire::Membership;
use std::alloc::Global;

/// A datagram and who reads it.
#[derive(Drop)]
pub struct Row {
    /// The reader, a member of three or 255.
    pub reader: Membership,
    /// How many times it arrives at a node; 0 where its fronts and bytes are tried.
    pub times: u32,
    /// The datagram's bytes.
    pub bytes: Vec<u8>,
}

/// The member of three with this number, or 255.
pub fn reader_of(number: &str) -> Option<Membership> {
    match number.parse::<u8>() {
        Ok(me) => Membership::new(7, 3, me),
        Err(_) => None,
    }
}

/// How many times a datagram arrives, by an argument `x1000`.
fn times_of(word: &str) -> Option<u32> {
    word.strip_prefix('x')?.parse::<u32>().ok()
}

impl Row {
    /// The row of a line, if it is one and there is memory for it.
    pub fn read(alloc: Global, line: &str) -> Option<Row> {
        let (_name, rest) = line.split_once(' ')?;
        let (me, rest) = rest.split_once(' ')?;
        let reader = reader_of(me)?;
        let (times, digits) = match rest.split_once(' ') {
            Some((word, digits)) => (times_of(word)?, digits),
            None => (0, rest),
        };
        match hex::decode(alloc, digits) {
            Ok(bytes) => Some(Row {
                reader,
                times,
                bytes,
            }),
            Err(_) => None,
        }
    }
}
