//! A worked run of three nodes, each over a store of its own. A command is asked of the first one, which stops as soon
//! as its next round is recorded, so that what it sends is lost, and starts anew from its store. The same command is
//! asked again, the clock ticks, and every message is delivered once, in the order in which they were sent.
ghost use Rattle.std.specs.Prelude.{◌≡◌, IfSome};

use crate::node::walked;
use crate::said::append;
use crate::store::adopted;
use pf_eval::{parse_packet, show_verdict};
use pf_node::{Command, Datagram, Membership, Node, NodeFault};
use pf_rules::Path;
use px_model::EntryView;
use px_records::Records;
use px_store::{Identity, SqlRecords};
use sqlite::{Alter, Connection};
use std::alloc::Global;
use std::fmt::Write;

const PACKET: &str = "in on em0 proto tcp from 10.0.0.1 port 4000 to 192.0.2.1 port 22 flags S";

/// How many messages there are: three each that ask for promises, promise, and ask to accept, and nine votes.
const MESSAGES: usize = 18;

/// A load of `block from 10/8` at main.
fn block(alloc: Global) -> Result<Command, NodeFault> {
    match Vec::from_slice(alloc, b"block from 10/8\n") {
        Ok(text) => Ok(Command::Load(Path::main(alloc), pf_entry::Profile::Two, text)),
        Err(_) => Err(NodeFault::Memory),
    }
}

/// The command is asked of the node.
pub(crate) fn ask<R: Records>(alloc: Global, node: &mut Node<R>) -> Result<(), NodeFault> {
    let command = block(alloc)?;
    let asked = node.ask(&command);
    drop(command);
    asked?;
    Ok(())
}

/// A member of the three with its record, else why not, and the record.
pub(crate) fn opened<R: Records>(
    alloc: Global,
    me: u8,
    records: R,
) -> Result<Node<R>, (NodeFault, R)>
    requires { R.members records ≡ 3 }
{
    let Some(m) = Membership::new(7, 3, me) else {
        return Err((NodeFault::Failed, records));
    };
    if m.me() >= m.members() {
        return Err((NodeFault::Failed, records));
    }
    Node::open(alloc, m, records)
}

/// Messages are on their way.
fn send(sent: &mut Vec<Datagram>, out: Vec<Datagram>) -> Result<(), NodeFault> {
    for datagram in out {
        if sent.push(datagram).is_err() {
            return Err(NodeFault::Memory);
        }
    }
    Ok(())
}

/// The addressee receives the message of this number; what that sends is appended.
fn deliver<R: Records>(
    alloc: Global,
    nodes: &mut Vec<Node<R>>,
    sent: &mut Vec<Datagram>,
    number: usize,
) -> Result<(), NodeFault> {
    let mut out = Vec::new(alloc);
    let Some(datagram) = sent.get(number) else {
        return Err(NodeFault::Failed);
    };
    let to = datagram.to as usize;
    if to >= nodes.len() {
        return Err(NodeFault::Failed);
    }
    nodes[to].receive(datagram.bytes.as_slice(), &mut out)?;
    send(sent, out)
}

/// The command is asked of the first node, its clock ticks, and every message is delivered.
fn finish<R: Records>(alloc: Global, nodes: &mut Vec<Node<R>>) -> Result<(), NodeFault> {
    if nodes.is_empty() {
        return Err(NodeFault::Failed);
    }
    ask(alloc, &mut nodes[0])?;
    let mut sent = Vec::new(alloc);
    nodes[0].tick(&mut sent)?;
    for number in 0..MESSAGES {
        deliver(alloc, nodes, &mut sent, number)?;
    }
    if sent.len() == MESSAGES {
        Ok(())
    } else {
        Err(NodeFault::Failed)
    }
}

/// The record of a member in a store.
fn record<S: Alter + Drop>(alloc: Global, conn: Connection<S>, node: u8) -> Option<SqlRecords<S>>
    ensures { IfSome result (λ r. ⟦<SqlRecords<S> as Records>⟧.members r ≡ 3) }
{
    let identity = Identity {
        cluster: 7,
        members: 3,
        node,
    };
    match adopted(alloc, conn, identity) {
        Ok(records) => Some(records),
        Err((_, conn)) => {
            drop(conn);
            None
        }
    }
}

/// The member of the three with this record joins the nodes.
fn join<R: Records + Drop>(alloc: Global, nodes: &mut Vec<Node<R>>, me: u8, records: R) -> bool
    requires { R.members records ≡ 3 }
{
    match opened(alloc, me, records) {
        Ok(node) => nodes.push(node).is_ok(),
        Err((_, records)) => {
            drop(records);
            false
        }
    }
}

/// The member with this store joins the nodes.
fn begin<S: Alter + Drop>(
    alloc: Global,
    nodes: &mut Vec<Node<SqlRecords<S>>>,
    me: u8,
    conn: Connection<S>,
) -> bool {
    match record(alloc, conn, me) {
        Some(records) => join(alloc, nodes, me, records),
        None => false,
    }
}

/// The first member's store after it was asked the command and its clock has ticked: what it sent is lost. And whether
/// it was so.
fn stopped<S: Alter + Drop>(alloc: Global, records: SqlRecords<S>) -> (bool, Connection<S>)
    requires { ⟦<SqlRecords<S> as Records>⟧.members records ≡ 3 }
{
    let mut said = String::new(alloc);
    let (is_written, records) = walked(alloc, records, "ask, tick", &mut said);
    let is_done = is_written && said.as_str() == "done 0, done 3, ";
    drop(said);
    (is_done, records.release())
}

/// The first member stops so, and joins the nodes with the store that is left.
fn begin_again<S: Alter + Drop>(
    alloc: Global,
    nodes: &mut Vec<Node<SqlRecords<S>>>,
    conn: Connection<S>,
) -> bool {
    match record(alloc, conn, 0) {
        Some(records) => {
            let (is_done, conn) = stopped(alloc, records);
            begin(alloc, nodes, 0, conn) && is_done
        }
        None => false,
    }
}

/// Who asked the entry that the node has learned at the first position, and which number it had there.
fn first<R: Records>(node: &Node<R>) -> Option<(u8, u64)> {
    let entry = EntryView::read(node.learned(0)?)?;
    Some((entry.origin(), entry.number()))
}

/// Reports the node's verdict for a packet from 10.0.0.1.
fn append_verdict<R: Records>(alloc: Global, node: &Node<R>, out: &mut String) -> bool {
    let Ok(packet) = parse_packet(alloc, PACKET) else {
        return false;
    };
    match show_verdict(alloc, &node.verdict(&packet)) {
        Ok(line) => append(out, line.as_str()),
        Err(_) => false,
    }
}

/// Reports what the node shows.
fn append_node<R: Records>(alloc: Global, node: &Node<R>, out: &mut String) -> bool {
    let (front, applied, round) = (node.front(), node.applied(), node.round());
    let (origin, number) = first(node).unwrap_or((255, 0));
    write!(
        out,
        "round {round} front {front} applied {applied} entry {number} of {origin}, "
    )
    .is_ok()
        && append_verdict(alloc, node, out)
}

/// Reports what each node shows.
fn append_all<R: Records>(alloc: Global, nodes: &[Node<R>], out: &mut String) -> bool {
    let mut is_first = true;
    for node in nodes {
        if !is_first && !append(out, "; ") {
            return false;
        }
        is_first = false;
        if !append_node(alloc, node, out) {
            return false;
        }
    }
    true
}

/// Does the run over these empty stores, and reports what each node shows then.
pub(crate) fn append_run<S: Alter + Drop>(
    alloc: Global,
    zero: Connection<S>,
    one: Connection<S>,
    two: Connection<S>,
    out: &mut String,
) -> bool {
    let mut nodes = Vec::new(alloc);
    let is_zero = begin_again(alloc, &mut nodes, zero);
    let is_one = begin(alloc, &mut nodes, 1, one);
    let is_two = begin(alloc, &mut nodes, 2, two);
    let is_over = is_zero && is_one && is_two && finish(alloc, &mut nodes).is_ok();
    let is_written = if is_over {
        append_all(alloc, &nodes, out)
    } else {
        append(out, "refused")
    };
    drop(nodes);
    is_written
}
