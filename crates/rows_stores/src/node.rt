//! A node over a record, step by step, each of which reports what came of it.
//!
//! | Step | Does |
//! |---|---|
//! | `ask` | asks it to load `block from 10/8` at main |
//! | `tick` | its clock ticks |
//! | `receive DIGITS` | it receives the datagram of these hexadecimal digits |
//!
//! A step reports `done` and how many datagrams the node hands out, `ignored`, or the number of its fault. A node that
//! doesn't open does no step, and reports the number.
ghost use Rattle.std.specs.Prelude.{◌≡◌};

use crate::cluster::{ask, opened};
use crate::said::{append, append_number};
use pf_node::{Datagram, Node, NodeFault, Received};
use px_records::Records;
use std::alloc::Global;
use std::fmt::Write;

/// The datagram of these digits arrives at the node. Digits that are none are an empty datagram.
fn receive<R: Records>(
    alloc: Global,
    node: &mut Node<R>,
    digits: &str,
    sent: &mut Vec<Datagram>,
) -> Result<Received, NodeFault> {
    match hex::decode(alloc, digits) {
        Ok(bytes) => node.receive(bytes.as_slice(), sent),
        Err(_) => node.receive(&[], sent),
    }
}

/// The same of a step that is no datagram.
fn done(came: Result<(), NodeFault>) -> Result<Received, NodeFault> {
    match came {
        Ok(()) => Ok(Received::Done),
        Err(fault) => Err(fault),
    }
}

/// Reports what came of a step, behind which that many datagrams are to be sent.
fn append_done(out: &mut String, came: Result<Received, NodeFault>, sent: usize) -> bool {
    match came {
        Ok(Received::Done) => append_number(out, "done", sent as u64),
        Ok(Received::Ignored(_)) => append(out, "ignored"),
        Err(fault) => write!(out, "fault {fault}").is_ok(),
    }
}

/// Does one step with the node, and reports what came of it.
fn walk<R: Records>(alloc: Global, node: &mut Node<R>, text: &str, out: &mut String) -> bool {
    let (word, digits) = text.split_once(' ').unwrap_or((text, ""));
    let mut sent = Vec::new(alloc);
    let came = match word {
        "ask" => done(ask(alloc, node)),
        "tick" => done(node.tick(&mut sent)),
        _ => receive(alloc, node, digits, &mut sent),
    };
    let count = sent.len();
    drop(sent);
    append_done(out, came, count)
}

/// Does one step after the other with the node; what each reports is appended, a comma behind it.
fn walk_all<R: Records>(alloc: Global, node: &mut Node<R>, steps: &str, out: &mut String) -> bool {
    for text in steps.split_terminator(", ") {
        if !walk(alloc, node, text, out) || !append(out, ", ") {
            return false;
        }
    }
    true
}

/// Opens member 0 of three over the record, does the steps, and gives the record back. Whether there was memory for
/// what is reported.
pub(crate) fn walked<R: Records>(
    alloc: Global,
    records: R,
    steps: &str,
    out: &mut String,
) -> (bool, R)
    requires { R.members records ≡ 3 }
{
    match opened(alloc, 0, records) {
        Ok(mut node) => {
            let is_written = walk_all(alloc, &mut node, steps, out);
            (is_written, node.close())
        }
        Err((fault, records)) => (write!(out, "refused {fault}, ").is_ok(), records),
    }
}
