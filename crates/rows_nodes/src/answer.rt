//! What a reader answers.

use crate::kept::{Kept, record};
use crate::member::opened;
use pf_node::{Datagram, Node, Received};
use px_records::When;
use px_wire::{Membership, WireFault, decode, encode};
use std::alloc::{AllocError, Global};
use std::io;

/// What becomes of some bytes.
#[derive(Clone, Copy, PartialEq, Eq)]
pub enum Answer {
    /// They are read, and what is read is written as these bytes.
    Same,
    /// They are refused, and a node ignores them.
    Refused(WireFault),
    /// Neither.
    Wrong,
}

/// A reader, with a node where it is a member.
#[derive(Drop)]
pub struct Reader {
    membership: Membership,
    node: Option<Node<Kept>>,
    out: Vec<Datagram>,
    alloc: Global,
}

/// A node with an empty record in memory. None when out of memory, and for 255, who has none.
pub fn node_of(alloc: Global, m: Membership) -> Option<Node<Kept>> {
    if m.me() >= m.members() {
        return None;
    }
    opened(alloc, m.me(), record(alloc, 0, When::Before))
}

/// Whether what the bytes spell is written as these bytes.
fn is_written_again(alloc: Global, m: &Membership, bytes: &[u8]) -> Result<bool, AllocError> {
    let Ok((from, message)) = decode(m, bytes) else {
        return Ok(false);
    };
    let Some(sender) = Membership::new(m.cluster(), m.members(), from) else {
        return Ok(false);
    };
    let written = encode(alloc, &sender, m.me(), &message)?;
    Ok(written.as_slice() == bytes)
}

/// Whether the node has accepted nothing yet.
fn is_new(node: &Node<Kept>) -> bool {
    node.front() == 0 && node.applied() == 0 && node.round() == 0 && !node.has_failed()
}

impl Reader {
    /// The reader of that membership.
    pub fn new(alloc: Global, membership: Membership) -> Reader {
        Reader {
            membership,
            node: node_of(alloc, membership),
            out: Vec::new(alloc),
            alloc,
        }
    }

    /// Whether the node, if there must be one, ignores the bytes with that fault, hands out nothing and stays new.
    fn is_ignored(&mut self, bytes: &[u8], fault: WireFault) -> bool {
        match &mut self.node {
            None => self.membership.me() >= self.membership.members(),
            Some(node) => {
                let is_ignored = match node.receive(bytes, &mut self.out) {
                    Ok(Received::Ignored(why)) => why == fault,
                    _ => false,
                };
                is_ignored && self.out.is_empty() && is_new(node)
            }
        }
    }

    /// What becomes of the bytes.
    pub fn answer(&mut self, bytes: &[u8]) -> io::Result<Answer> {
        let fault = match decode(&self.membership, bytes) {
            Ok(_) => None,
            Err(fault) => Some(fault),
        };
        if let Some(fault) = fault {
            return Ok(if self.is_ignored(bytes, fault) {
                Answer::Refused(fault)
            } else {
                Answer::Wrong
            });
        }
        Ok(if is_written_again(self.alloc, &self.membership, bytes)? {
            Answer::Same
        } else {
            Answer::Wrong
        })
    }
}
