//! A node of a cluster of one, and what it answers.

use node_requests::{
    Answer, Counters, PeerCounters, RequestHandler, Routed, request_in, status_of,
};
use pf_node::{Datagram, Membership, Node};
use px_records::{MemoryRecords, Records};
use std::alloc::Global;
use std::io;

/// How many rounds of messages are delivered at most.
const ROUNDS: u8 = 16;

/// A node of a cluster of one.
pub(crate) fn opened(alloc: Global) -> Option<Node<MemoryRecords>> {
    let m = Membership::new(7, 1, 0)?;
    if m.me() >= m.members() {
        return None;
    }
    Node::open(alloc, m, MemoryRecords::new(alloc, 1)).ok()
}

/// The node takes what it sent.
fn deliver<R: Records>(node: &mut Node<R>, sent: &[Datagram], out: &mut Vec<Datagram>) -> bool {
    for datagram in sent {
        if node.receive(&datagram.bytes, out).is_err() {
            return false;
        }
    }
    true
}

/// The clock ticks, and what is sent comes, until nothing is sent any more.
pub(crate) fn settle<R: Records>(alloc: Global, node: &mut Node<R>) -> bool {
    let mut sent = Vec::new(alloc);
    if node.tick(&mut sent).is_err() {
        return false;
    }
    for _ in 0..ROUNDS {
        let mut next = Vec::new(alloc);
        if !deliver(node, &sent, &mut next) {
            return false;
        }
        if next.is_empty() {
            return true;
        }
        sent = next;
    }
    true
}

/// What a loop would have counted.
fn counters(alloc: Global) -> io::Result<Counters> {
    let mut peers = Vec::new(alloc);
    peers.push(PeerCounters {
        node: 1,
        heard: Some(2),
        datagrams_in: 88_123,
        datagrams_out: 88_140,
        shown: 0,
    })?;
    peers.push(PeerCounters {
        node: 2,
        heard: None,
        datagrams_in: 0,
        datagrams_out: 88_140,
        shown: 0,
    })?;
    Ok(Counters {
        up: 86_412,
        peers,
        stood: 0,
        outrun: 0,
        large: 0,
        members: String::from_str(alloc, "192.0.2.1:4711 192.0.2.2:4711 [2001:db8::3]:4711")?,
        unsent: 1,
        dropped: 4,
        ignored: 2,
        turns: 70,
        ticks: 30,
        clients: 1,
        served: 31,
        refused: 5,
        unavailable: 3,
    })
}

/// A row's body: its text, or the bytes that it has in hexadecimal digits.
fn body_of(alloc: Global, body: &str, is_hex: bool) -> io::Result<Vec<u8>> {
    if !is_hex {
        return Ok(Vec::from_slice(alloc, body.as_bytes())?);
    }
    match hex::decode(alloc, body.trim_end()) {
        Ok(bytes) => Ok(bytes),
        Err(_) => Err(io::Error::from(io::ErrorKind::InvalidData)),
    }
}

/// What is answered to a row.
pub(crate) fn answered<R: Records>(
    alloc: Global,
    handler: &mut RequestHandler<R>,
    line: &str,
    body: &str,
) -> io::Result<Answer> {
    let (method, rest) = line.split_once(' ').unwrap_or((line, ""));
    let (target, accept) = rest.split_once(' ').unwrap_or((rest, ""));
    let (path, query) = target.split_once('?').unwrap_or((target, ""));
    let counted = counters(alloc)?;
    let body = body_of(alloc, body, accept == "hex")?;
    match request_in(
        alloc,
        method,
        path,
        query,
        body.as_slice(),
        accept == "json",
    )? {
        Routed::Asked(request) => Ok(handler.answer(&request, &counted)?),
        Routed::Refused(code) => Ok(Answer {
            code,
            body: String::new(alloc),
        }),
        Routed::Unread(code) => Ok(Answer {
            code: status_of(code),
            body: format!(in alloc; "refused {code}\n")?,
        }),
    }
}
