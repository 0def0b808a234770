//! The accept requests and votes that were sent last.

use node_loop::Resender;
use px_transport::MemoryWire;
use px_wire::Head;
use std::alloc::Global;

/// An accept request of ballot 256 at position 5, from member 0 for member 1; of its entry the front alone.
const ACCEPT: [u8; 30] = [
    0x50, 0x46, 0x58, 0x52, 1, 0, 0, 0, 7, 2, 0, 1, 3, 0, 0, 0, 0, 0, 0, 1, 0, 0, 0, 0, 5, 0, 0, 0,
    1, 1,
];

/// Another, which differs in a byte.
const OTHER: [u8; 30] = [
    0x50, 0x46, 0x58, 0x52, 1, 0, 0, 0, 7, 2, 0, 1, 3, 0, 0, 0, 0, 0, 0, 1, 0, 0, 0, 0, 5, 0, 0, 0,
    1, 0,
];

/// The vote of member 1 for it.
const VOTE: [u8; 30] = [
    0x50, 0x46, 0x58, 0x52, 1, 0, 0, 0, 7, 2, 1, 0, 4, 0, 0, 0, 0, 0, 0, 1, 0, 0, 0, 0, 5, 0, 0, 0,
    1, 1,
];

/// The vote of member 1 at the next position.
const NEXT_VOTE: [u8; 30] = [
    0x50, 0x46, 0x58, 0x52, 1, 0, 0, 0, 7, 2, 1, 0, 4, 0, 0, 0, 0, 0, 0, 1, 0, 0, 0, 0, 6, 0, 0, 0,
    1, 1,
];

/// A need of position 5.
const NEED: [u8; 17] = [
    0x50, 0x46, 0x58, 0x52, 1, 0, 0, 0, 7, 2, 0, 1, 6, 0, 0, 0, 5,
];

/// For whom a datagram is, and its length.
type Sent = (u8, usize);

/// Whether the wire was handed these, in order.
fn was_handed(wire: &MemoryWire, wanted: &[Sent]) -> bool {
    let Some(sent) = wire.sent() else {
        return false;
    };
    let mut rest = wanted;
    for (to, bytes) in sent {
        match rest {
            [first, behind @ ..] if *first == (*to, bytes.len()) => rest = behind,
            _ => return false,
        }
    }
    rest.is_empty()
}

/// Whether these are handed over again at this time, of the positions from this one on.
fn repeats(alloc: Global, resender: &mut Resender, now: u64, front: u32, wanted: &[Sent]) -> bool {
    let mut wire = MemoryWire::new(alloc, Vec::new(alloc));
    resender.set_time(now);
    resender.repeat(&mut wire, front);
    was_handed(&wire, wanted)
}

/// Whether these bytes are answered by the vote and by nothing else, or aren't answered.
fn answers(alloc: Global, resender: &mut Resender, bytes: &[u8], is_answered: bool) -> bool {
    let mut wire = MemoryWire::new(alloc, Vec::new(alloc));
    let wanted: &[Sent] = if is_answered { &[(0, 30)] } else { &[] };
    resender.answers(&mut wire, bytes) == is_answered && was_handed(&wire, wanted)
}

/// Whether the member takes the datagram.
fn takes(resender: &mut Resender, bytes: &[u8]) -> bool {
    match Head::read(bytes) {
        Some(head) => {
            resender.took(&head, bytes);
            true
        }
        None => false,
    }
}

#[test]
fn what_may_be_lost_is_sent_again(rt: HostRuntime) {
    let alloc = rt.alloc();
    let mut resender = Resender::new(alloc, 2, 0);
    // a need isn't kept, nor what a member sends to itself or to who is none
    let _kept = resender.keep(1, &NEED);
    let _kept = resender.keep(0, &ACCEPT);
    let _kept = resender.keep(2, &ACCEPT);
    assert!(rt; repeats(alloc, &mut resender, 0, 0, &[]));
    // an accept request is, until its position is learned
    let _kept = resender.keep(1, &ACCEPT);
    assert!(rt; repeats(alloc, &mut resender, 0, 5, &[(1, 30)]));
    assert!(rt; repeats(alloc, &mut resender, 0, 6, &[]));
}

#[test]
fn an_accept_that_comes_again_is_answered_by_the_vote(rt: HostRuntime) {
    let alloc = rt.alloc();
    let mut it = Resender::new(alloc, 2, 1);
    assert!(rt; answers(alloc, &mut it, &ACCEPT, false) && answers(alloc, &mut it, &[], false));
    assert!(rt; takes(&mut it, &ACCEPT) && answers(alloc, &mut it, &ACCEPT, false));
    let _kept = it.keep(0, &VOTE);
    assert!(rt; answers(alloc, &mut it, &ACCEPT, true) && answers(alloc, &mut it, &ACCEPT, true));
    // not one that differs in a byte, nor a datagram that isn't one
    assert!(rt; answers(alloc, &mut it, &OTHER, false) && answers(alloc, &mut it, &[], false));
    // another that is taken is the one that is known
    assert!(rt; takes(&mut it, &OTHER));
    assert!(rt; answers(alloc, &mut it, &OTHER, true) && answers(alloc, &mut it, &ACCEPT, false));
}

#[test]
fn an_accept_isnt_answered_once_the_next_position_is_voted_for(rt: HostRuntime) {
    let mut resender = Resender::new(rt.alloc(), 2, 1);
    assert!(rt; takes(&mut resender, &ACCEPT));
    let _kept = resender.keep(0, &VOTE);
    let _kept = resender.keep(0, &NEXT_VOTE);
    assert!(rt; answers(rt.alloc(), &mut resender, &ACCEPT, false));
}

/// A time in microseconds, and what is handed over again then.
type Row = (u64, &'static [Sent]);

/// A large accept request is handed over again beside a short one each 200 ms.
static BOUNDED: [Row; 4] = [
    (1_199_999, &[(2, 30)]),
    (1_200_000, &[(1, 13_100), (2, 30)]),
    (1_399_999, &[(2, 30)]),
    (1_400_000, &[(1, 13_100), (2, 30)]),
];

/// A large accept request for member 1, and a short one for member 2, one second after this time in microseconds.
fn send_both(resender: &mut Resender, later: u64) {
    let mut large = [0u8; 13_100];
    large[..30].copy_from_slice(&ACCEPT);
    resender.set_time(later.saturating_add(1_000_000));
    let _kept = resender.keep(1, &large);
    let _kept = resender.keep(2, &ACCEPT);
}

/// Whether, counted from this time in microseconds, the large one is handed over again at its rate.
fn is_bounded(alloc: Global, later: u64) -> bool {
    let mut resender = Resender::new(alloc, 3, 0);
    send_both(&mut resender, later);
    for (now, wanted) in &BOUNDED {
        if !repeats(alloc, &mut resender, later.saturating_add(*now), 5, wanted) {
            return false;
        }
    }
    true
}

#[test]
fn a_large_datagram_is_sent_again_at_a_bounded_rate(rt: HostRuntime) {
    // of a member that has just started, after an hour, and after 17,800 years
    for later in [0, 3_600_000_000, 1 << 59] {
        assert!(rt; is_bounded(rt.alloc(), later));
    }
}

/// Has a resender at 5 s do one of six things.
fn use_it(alloc: Global, it: &mut Resender, number: u8) -> bool {
    let mut wire = MemoryWire::new(alloc, Vec::new(alloc));
    match number {
        0 => !it.answers(&mut wire, &OTHER),
        1 => takes(it, &ACCEPT) && it.keep(0, &VOTE).is_ok() && it.answers(&mut wire, &ACCEPT),
        2 => {
            it.repeat(&mut wire, 6);
            true
        }
        3 => {
            it.repeat(&mut wire, 5);
            true
        }
        4 => it.keep(1, &NEED).is_ok(),
        _ => {
            it.repeat_to(&mut wire, 1, 6);
            true
        }
    }
}

/// Whether the vote that member 2 sent to itself is handed over again, and nothing else.
fn repeats_own(alloc: Global, it: &mut Resender) -> bool {
    let mut wire = MemoryWire::new(alloc, Vec::new(alloc));
    it.repeat_own(&mut wire, 5) && was_handed(&wire, &[(2, 30)])
}

/// Whether member 2 of 3 is the same member of as many, at the same time, once its resender was used: it keeps what is
/// for member 1, hands a large datagram over 200 ms after it was sent, and not before, and knows its own votes.
fn is_same_after(alloc: Global, number: u8, wanted: &[Sent]) -> bool {
    let mut it = Resender::new(alloc, 3, 2);
    it.set_time(5_000_000);
    let _own = it.keep(2, &VOTE);
    if !use_it(alloc, &mut it, number) {
        return false;
    }
    let mut large = [0u8; 13_100];
    large[..30].copy_from_slice(&ACCEPT);
    let _kept = it.keep(1, &large);
    let before = &wanted[..wanted.len().saturating_sub(1)];
    repeats(alloc, &mut it, 5_199_999, 5, before)
        && repeats(alloc, &mut it, 5_200_000, 5, wanted)
        && repeats_own(alloc, &mut it)
}

#[test]
fn what_a_resender_does_changes_neither_member_nor_time(rt: HostRuntime) {
    for number in [0, 2, 3, 4, 5] {
        assert!(rt;
            is_same_after(rt.alloc(), number, &[(1, 13_100)]),
            "{number}"
        );
    }
    assert!(rt; is_same_after(rt.alloc(), 1, &[(0, 30), (1, 13_100)]));
}
