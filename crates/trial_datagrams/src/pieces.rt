use px_packet::{CutFault, Piece, PiecesHeld, Reassembly, SendBuffer, piece_count, write_piece};
use std::alloc::{AllocError, Global};
use std::panic::Expect;

/// A datagram of the given number of bytes.
fn datagram(alloc: Global, size: usize) -> Result<Vec<u8>, AllocError> {
    let mut bytes = Vec::with_capacity(alloc, size)?;
    for i in 0..size {
        bytes.push((i % 251) as u8)?;
    }
    Ok(bytes)
}

/// A piece of a datagram as bytes; none where there is no such piece.
pub fn piece_of(
    alloc: Global,
    name: u32,
    datagram: &[u8],
    index: u8,
) -> Result<Vec<u8>, AllocError> {
    let mut bytes = Vec::new(alloc);
    if datagram.len() <= 33_640 && 1_160 * usize::from(index) < datagram.len() {
        write_piece(name, datagram, index, &mut bytes)?;
    }
    Ok(bytes)
}

/// Whether the piece is read, and with it that datagram is whole, or none is.
fn arrives(to: &mut Reassembly, bytes: &[u8], now: u64, wanted: Option<&[u8]>) -> bool {
    let Some(piece) = Piece::read(bytes) else {
        return false;
    };
    match to.take(&piece, now) {
        Ok(Some(whole)) => wanted == Some(whole.as_slice()),
        Ok(None) => wanted.is_none(),
        Err(_) => false,
    }
}

/// Whether the datagram is whole, or isn't yet, with the piece of this number that comes at this time.
fn delivers(
    alloc: Global,
    to: &mut Reassembly,
    sent: &[u8],
    index: u8,
    now: u64,
    wanted: Option<&[u8]>,
) -> bool {
    match piece_of(alloc, 7, sent, index) {
        Ok(bytes) => arrives(to, &bytes, now, wanted),
        Err(_) => false,
    }
}

/// Whether three pieces, one of which comes twice, make the datagram.
fn are_joined(alloc: Global, to: &mut Reassembly, sent: &[u8]) -> bool {
    delivers(alloc, to, sent, 2, 0, None)
        && delivers(alloc, to, sent, 0, 1, None)
        && delivers(alloc, to, sent, 0, 2, None)
        && delivers(alloc, to, sent, 1, 3, Some(sent))
}

#[test]
fn pieces_in_any_order_make_the_datagram(rt: HostRuntime) {
    let sent = datagram(rt.alloc(), 3_000).expect(&rt, "memory");
    let mut to = Reassembly::new(rt.alloc());
    assert!(rt; piece_count(3_000) == 3);
    assert!(rt; are_joined(rt.alloc(), &mut to, &sent) && to.due().is_none());
}

/// The first and the last of three pieces.
const HELD: PiecesHeld = PiecesHeld { name: 7, bits: 5 };

/// When they are reported.
static REPORTED: [u64; 6] = [115, 165, 265, 415, 615, 865];

/// Whether the first and the last piece come, and nothing is reported yet.
fn are_kept(alloc: Global, to: &mut Reassembly, sent: &[u8]) -> bool {
    delivers(alloc, to, sent, 2, 100, None)
        && delivers(alloc, to, sent, 0, 110, None)
        && to.due() == Some(115)
        && to.report(114).is_none()
}

/// Whether they are reported at this time and no earlier.
fn is_reported(to: &mut Reassembly, at: u64) -> bool {
    let is_due = to.due() == Some(at) && to.report(at.saturating_sub(1)).is_none();
    is_due && to.report(at) == Some(HELD)
}

/// Whether they are reported six times.
fn are_reported(to: &mut Reassembly) -> bool {
    for at in &REPORTED {
        if !is_reported(to, *at) {
            return false;
        }
    }
    true
}

/// Whether what is held is read as it was written.
fn is_written(alloc: Global) -> bool {
    let mut bytes = Vec::new(alloc);
    let is_done = HELD.write(&mut bytes).is_ok();
    is_done
        && bytes.as_slice() == [0, 0, 0, 7, 0, 0, 0, 5].as_slice()
        && PiecesHeld::read(bytes.as_slice()) == Some(HELD)
}

#[test]
fn what_is_missing_is_reported_until_it_comes(rt: HostRuntime) {
    let sent = datagram(rt.alloc(), 3_000).expect(&rt, "memory");
    let mut to = Reassembly::new(rt.alloc());
    // the last piece has come
    assert!(rt; are_kept(rt.alloc(), &mut to, &sent));
    assert!(rt; are_reported(&mut to));
    assert!(rt; to.due().is_none() && to.report(9_000).is_none() && is_written(rt.alloc()));
}

/// Whether each datagram has one name, and is kept under it.
fn keeps(sent: &mut SendBuffer, first: &[u8], second: &[u8]) -> bool {
    let are_named = sent.name(first) == Ok(0) && sent.name(second) == Ok(1);
    let is_named_again = sent.name(first) == Ok(0);
    let is_kept = sent.get(1) == Some(second) && sent.get(2).is_none();
    are_named && is_named_again && is_kept && sent.name(&[]) == Err(CutFault::Size)
}

#[test]
fn a_kept_datagram_keeps_its_name(rt: HostRuntime) {
    let first = datagram(rt.alloc(), 2_000).expect(&rt, "memory");
    let second = datagram(rt.alloc(), 2_001).expect(&rt, "memory");
    let mut sent = SendBuffer::new(rt.alloc());
    assert!(rt; keeps(&mut sent, &first, &second));
}
