//! Votes that are sent again to who lacks them.

use node_loop::Resender;
use px_transport::MemoryWire;
use std::alloc::Global;

/// The front of a vote of member 0 for a member: its round's ballot, its position, and of its entry the front alone.
fn front(to: u8, round: u8, position: u32) -> [u8; 27] {
    let [a, b, c, d] = position.to_be_bytes();
    [
        0x50, 0x46, 0x58, 0x52, 1, 0, 0, 0, 7, 3, 0, to, 4, 0, 0, 0, 0, 0, 0, round, 0, a, b, c, d,
        0, 1,
    ]
}

/// Member 0 sends this member a vote of this round's ballot at this position, of that many bytes.
fn vote(resender: &mut Resender, to: u8, round: u8, position: u32, size: usize) {
    let mut bytes = [0u8; 1480];
    bytes[..27].copy_from_slice(&front(to, round, position));
    let _kept = resender.keep(to, &bytes[..size.min(1480)]);
}

/// The same of round 1 for member 1, at each position from one to before another.
fn votes(resender: &mut Resender, from: u32, to: u32, size: usize) {
    for position in from..to {
        vote(resender, 1, 1, position, size);
    }
}

/// Whether that was sent: to whom, of which round and for which position.
fn is_vote(sent: &(u8, Vec<u8>), to: u8, round: u8, position: u32) -> bool {
    let (whom, bytes) = sent;
    *whom == to && bytes.get(..27) == Some(front(to, round, position).as_slice())
}

/// What is sent again at this time, in milliseconds, to a member that lacks this position and those after it.
fn again(alloc: Global, resender: &mut Resender, now: u64, to: u8, from: u32) -> MemoryWire {
    let mut wire = MemoryWire::new(alloc, Vec::new(alloc));
    resender.set_time(now.saturating_mul(1_000));
    resender.repeat_to(&mut wire, to, from);
    wire
}

/// Whether the wire was handed votes of round 1 for the member at the positions from one to before another, in order.
fn has_votes(wire: &MemoryWire, to: u8, (from, end): (u32, u32)) -> bool {
    let Some(sent) = wire.sent() else {
        return false;
    };
    let mut position = from;
    for vote in sent {
        if !is_vote(vote, to, 1, position) {
            return false;
        }
        position = position.saturating_add(1);
    }
    position == end
}

/// Whether these are sent again to the member at this time, where it lacks this position and those after it.
fn is_sent(
    alloc: Global,
    resender: &mut Resender,
    now: u64,
    to: u8,
    from: u32,
    wanted: (u32, u32),
) -> bool {
    let wire = again(alloc, resender, now, to, from);
    has_votes(&wire, to, wanted)
}

/// A time in milliseconds, the position from which on member 1 lacks votes then, and the positions from one to before
/// another whose votes it is sent.
type Row = (u64, u32, (u32, u32));

/// Whether it is sent these, one after the other, at times counted from this one.
fn are_sent(alloc: Global, resender: &mut Resender, later: u64, rows: &[Row]) -> bool {
    for row in rows {
        let (now, lacks, wanted) = *row;
        if !is_sent(alloc, resender, later.saturating_add(now), 1, lacks, wanted) {
            return false;
        }
    }
    true
}

/// The same of n members, to one of which votes of this size were sent at the positions from 1 to before another.
fn is_so_later(
    alloc: Global,
    members: u8,
    end: u32,
    size: usize,
    later: u64,
    rows: &[Row],
) -> bool {
    let mut it = Resender::new(alloc, members, 0);
    votes(&mut it, 1, end, size);
    are_sent(alloc, &mut it, later, rows)
}

/// The same of a member that has just started, after an hour, after a year, and after 17,800 years.
fn is_so(alloc: Global, members: u8, end: u32, size: usize, rows: &[Row]) -> bool {
    for later in [0, 3_600_000, 31_536_000_000, 1 << 49] {
        if !is_so_later(alloc, members, end, size, later, rows) {
            return false;
        }
    }
    true
}

/// Votes for both of the others at the positions from 5 to before another.
fn vote_for_both(resender: &mut Resender, end: u32) {
    for position in 5..end {
        vote(resender, 1, 1, position, 27);
        vote(resender, 2, 1, position, 27);
    }
}

#[test]
fn a_member_that_lacks_votes_is_sent_its_own_again(rt: HostRuntime) {
    let alloc = rt.alloc();
    let mut it = Resender::new(alloc, 3, 0);
    vote_for_both(&mut it, 8);
    assert!(rt;
        is_sent(alloc, &mut it, 0, 1, 6, (6, 8))
            && is_sent(alloc, &mut it, 0, 2, 7, (7, 8))
            && is_sent(alloc, &mut it, 0, 0, 6, (6, 6))
            && is_sent(alloc, &mut it, 0, 15, 6, (6, 6))
    );
}

/// Whether the wire was handed 63 votes for member 1.
fn has_63(wire: &MemoryWire) -> bool {
    let Some(sent) = wire.sent() else {
        return false;
    };
    for (to, bytes) in sent {
        if *to != 1 || bytes.get(12) != Some(&4) {
            return false;
        }
    }
    sent.len() == 63
}

#[test]
fn a_member_is_handed_its_own_votes_again_at_63_positions(rt: HostRuntime) {
    let alloc = rt.alloc();
    let mut it = Resender::new(alloc, 2, 1);
    votes(&mut it, 1, 201, 27);
    let mut wire = MemoryWire::new(alloc, Vec::new(alloc));
    assert!(rt; it.repeat_own(&mut wire, 100) && has_63(&wire));
    // what is to be lost to it at other positions isn't, and nothing is handed to it twice within 20 ms
    assert!(rt; !it.repeat_own(&mut wire, 100) && !it.repeat_own(&mut wire, 201));
}

static COMING_ON: [Row; 4] = [
    (0, 100, (100, 163)),
    (0, 110, (163, 173)),
    (0, 112, (173, 175)),
    (0, 180, (180, 201)),
];

#[test]
fn who_comes_on_is_sent_what_it_was_not_at_63_positions(rt: HostRuntime) {
    assert!(rt; is_so(rt.alloc(), 2, 201, 27, &COMING_ON));
}

/// 56 votes of 1,200 bytes are 195,328 bytes of a socket with their tags.
static FITTING: [Row; 3] = [(1000, 1, (1, 57)), (1009, 3, (57, 57)), (1010, 5, (57, 61))];

#[test]
fn no_more_is_sent_again_than_fits_the_socket(rt: HostRuntime) {
    assert!(rt; is_so(rt.alloc(), 2, 61, 1200, &FITTING));
}

static SHARED: [Row; 1] = [(0, 1, (1, 29))];

#[test]
fn the_others_share_a_socket(rt: HostRuntime) {
    assert!(rt; is_so(rt.alloc(), 3, 61, 1200, &SHARED));
}

/// Whether the wire was handed the vote of round 1 at position 5 and that of round 2 at position 6, for member 1.
fn has_both_rounds(wire: &MemoryWire) -> bool {
    match wire.sent() {
        Some([first, second]) => is_vote(first, 1, 1, 5) && is_vote(second, 1, 2, 6),
        _ => false,
    }
}

#[test]
fn a_vote_of_another_ballot_lets_the_older_go(rt: HostRuntime) {
    let alloc = rt.alloc();
    let mut it = Resender::new(alloc, 3, 0);
    vote_for_both(&mut it, 7);
    vote(&mut it, 1, 2, 6, 27);
    assert!(rt; is_sent(alloc, &mut it, 0, 2, 5, (5, 6)));
    assert!(rt; has_both_rounds(&again(alloc, &mut it, 0, 1, 5)));
}

static STANDING_STILL: [Row; 5] = [
    (1000, 3, (3, 10)),
    (1019, 3, (10, 10)),
    (1020, 3, (3, 10)),
    (1039, 2, (10, 10)),
    (1040, 2, (2, 10)),
];

#[test]
fn a_member_without_progress_is_sent_all_again_after_20_ms(rt: HostRuntime) {
    assert!(rt; is_so(rt.alloc(), 2, 10, 27, &STANDING_STILL));
}

static ONE_BY_ONE: [Row; 6] = [
    (0, 1, (1, 10)),
    (100, 2, (10, 10)),
    (200, 3, (10, 10)),
    (300, 4, (4, 10)),
    (319, 5, (10, 10)),
    (320, 6, (6, 10)),
];

#[test]
fn who_comes_on_by_one_is_sent_all_again_at_the_third_time(rt: HostRuntime) {
    assert!(rt; is_so(rt.alloc(), 2, 10, 27, &ONE_BY_ONE));
}

static THE_SEVENTH: [Row; 1] = [(0, 1, (7, 8))];

#[test]
fn a_long_vote_is_not_kept_nor_one_below_the_last(rt: HostRuntime) {
    let alloc = rt.alloc();
    let mut it = Resender::new(alloc, 2, 0);
    vote(&mut it, 1, 1, 5, 1201);
    vote(&mut it, 1, 1, 7, 1200);
    vote(&mut it, 1, 1, 6, 27);
    vote(&mut it, 1, 1, 7, 1200);
    assert!(rt; are_sent(alloc, &mut it, 0, &THE_SEVENTH));
}

static FROM_THE_11TH: [Row; 1] = [(0, 1, (11, 64))];

#[test]
fn the_last_131072_votes_are_kept(rt: HostRuntime) {
    assert!(rt; is_so_later(rt.alloc(), 2, 131_083, 27, 0, &FROM_THE_11TH));
}

#[test]
fn no_more_than_16_mib_of_votes_are_kept(rt: HostRuntime) {
    // 13,981 votes of 1,200 bytes are 16,777,200 bytes
    assert!(rt; is_so_later(rt.alloc(), 2, 13_992, 1200, 0, &FROM_THE_11TH));
}
