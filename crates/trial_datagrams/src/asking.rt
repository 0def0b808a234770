use crate::party::memory_wire;
use node_udp::{AskAnswer, Membership, ask_once};
use pf_entry::Command;
use pf_rules::Path;
use px_transport::{MemoryWire, Wire};
use std::alloc::Global;

/// Asked, of token 1 and number 0, from member 0 of 3 of cluster 7.
const ASKED: [u8; 29] = [
    0x50, 0x46, 0x58, 0x52, 1, 0, 0, 0, 7, 3, 0, 255, 9, 0, 0, 0, 0, 0, 0, 0, 1, 0, 0, 0, 0, 0, 0,
    0, 0,
];

/// AskRefused, of token 1 and code 60, from member 0.
const FULL: [u8; 22] = [
    0x50, 0x46, 0x58, 0x52, 1, 0, 0, 0, 7, 3, 0, 255, 10, 0, 0, 0, 0, 0, 0, 0, 1, 60,
];

/// The same of token 2.
const OTHER_TOKEN: [u8; 22] = [
    0x50, 0x46, 0x58, 0x52, 1, 0, 0, 0, 7, 3, 0, 255, 10, 0, 0, 0, 0, 0, 0, 0, 2, 60,
];

/// The same from member 1.
const OTHER_MEMBER: [u8; 22] = [
    0x50, 0x46, 0x58, 0x52, 1, 0, 0, 0, 7, 3, 1, 255, 10, 0, 0, 0, 0, 0, 0, 0, 1, 60,
];

/// An Ask of a flush of the main ruleset's rules, with the token 1, for member 0.
const ASK: [u8; 29] = [
    0x50, 0x46, 0x58, 0x52, 1, 0, 0, 0, 7, 3, 255, 0, 8, 0, 0, 0, 12, 1, 255, 0, 0, 0, 0, 0, 0, 0,
    1, 2, 0,
];

/// Whether the Ask is all that was sent, to member 0.
fn is_ask(wire: &MemoryWire) -> bool {
    let Some(sent) = wire.sent() else {
        return false;
    };
    let Some(first) = sent.first() else {
        return false;
    };
    sent.len() == 1 && first.0 == 0 && first.1.as_slice() == ASK.as_slice()
}

/// Whether that is answered over the wire, and the Ask is all that was sent.
fn answers(alloc: Global, wire: &mut MemoryWire, wanted: AskAnswer) -> bool {
    let Some(m) = Membership::new(7, 3, 255) else {
        return false;
    };
    let command = Command::FlushRules(Path::main(alloc));
    let answered = ask_once(alloc, &m, 0, &command, 5, wire);
    drop(command);
    let Ok(answer) = answered else {
        return false;
    };
    answer == wanted && is_ask(wire) && wire.failures() == 0
}

/// The same over a wire that gives these datagrams.
fn is_answered(alloc: Global, coming: &[&[u8]], wanted: AskAnswer) -> bool {
    match memory_wire(alloc, coming) {
        Ok(mut wire) => answers(alloc, &mut wire, wanted),
        Err(_) => false,
    }
}

#[test]
fn an_answer_is_received(rt: HostRuntime) {
    assert!(rt;
        is_answered(rt.alloc(), &[&ASKED], AskAnswer::Asked(0))
            && is_answered(rt.alloc(), &[&FULL], AskAnswer::Refused(60))
    );
}

#[test]
fn what_is_no_answer_is_passed_over(rt: HostRuntime) {
    let others: [&[u8]; 4] = [&OTHER_TOKEN, &OTHER_MEMBER, &ASK, &ASKED[..28]];
    for other in &others {
        assert!(rt; is_answered(rt.alloc(), &[other, &ASKED], AskAnswer::Asked(0)));
    }
}

#[test]
fn the_sixth_datagram_is_too_late(rt: HostRuntime) {
    let other: &[u8] = &OTHER_TOKEN;
    let coming: [&[u8]; 6] = [other, other, other, other, other, &ASKED];
    assert!(rt; is_answered(rt.alloc(), &coming[1..], AskAnswer::Asked(0)));
    assert!(rt; is_answered(rt.alloc(), &coming, AskAnswer::NoAnswer));
}

#[test]
fn nothing_that_comes_is_no_answer(rt: HostRuntime) {
    assert!(rt; is_answered(rt.alloc(), &[], AskAnswer::NoAnswer));
}
