//! Three members over UDP: what a client asks is applied by each, and lost datagrams change no outcome.
ghost use Rattle.std.specs.Prelude.{◌<◌};

use crate::members::{ask, ask_load, buffers, member};
use crate::parties::{Party, all_agree, apply, turns};
use node_loop::TurnBuffers;
use node_udp::UdpWire;
use pf_addr::{Prefix, parse_prefix};
use pf_entry::TableName;
use pf_eval::{Packet, parse_packet, show_verdict};
use pf_node::{Command, Node};
use pf_rules::{Path, TableEntry};
use px_records::MemoryRecords;
use px_transport::{FaultyWire, Wire};
use std::alloc::Global;
use std::net::UdpSocket;
use std::panic::Expect;

const PACKET: &str = "in on em0 proto tcp from 10.0.0.1 port 4000 to 192.0.2.1 port 22 flags S";

/// A table that a rule names.
const RULES: &str = "table <t> persist { 0.0.0.1 }\nblock from <t>\n";

/// The same table with another address, and rules of an anchor.
const ANCHOR: &str = "table <t> { 0.0.0.2 }\npass to <t>\nanchor \"a\" {\npass proto tcp\n}\n";

/// An Ask of a load of `block from 10/8` and a newline at main, in the second profile, with the token 1, for member 0
/// of 3 of cluster 7.
const ASK: [u8; 49] = [
    0x50, 0x46, 0x58, 0x52, 1, 0, 0, 0, 7, 3, 255, 0, 8, 0, 0, 0, 32, 2, 255, 0, 0, 0, 0, 0, 0, 0,
    1, 1, 0, 0, 0, 0, 16, b'b', b'l', b'o', b'c', b'k', b' ', b'f', b'r', b'o', b'm', b' ', b'1',
    b'0', b'/', b'8', b'\n',
];

/// Asked, of token 1 and number 0.
const ASKED: [u8; 29] = [
    0x50, 0x46, 0x58, 0x52, 1, 0, 0, 0, 7, 3, 0, 255, 9, 0, 0, 0, 0, 0, 0, 0, 1, 0, 0, 0, 0, 0, 0,
    0, 0,
];

/// A member over UDP, of whose datagrams some are lost.
type Member = Party<FaultyWire<UdpWire<UdpSocket, HostRuntime>>>;

/// Whether the member with this number joins the others. Each `k`-th receive and send of its wire fails.
fn joins(
    rt: &HostRuntime,
    parties: &mut Vec<Member>,
    members: &[&str],
    me: u8,
    k: u64,
    wait: u32,
) -> bool
    requires faulty { 0 < k }
    requires wait { 0 < wait }
{
    let Ok(below) = UdpWire::bind(rt, rt.alloc(), members, me, wait) else {
        return false;
    };
    let wire = FaultyWire::new(below, k);
    match member(rt.alloc(), 3, me) {
        Some(node) => parties.push(Party { node, wire }).is_ok(),
        None => false,
    }
}

/// Whether all three do.
fn all_join(
    rt: &HostRuntime,
    parties: &mut Vec<Member>,
    members: &[&str],
    k: u64,
    wait: u32,
) -> bool
    requires faulty { 0 < k }
    requires wait { 0 < wait }
{
    for me in 0..3u8 {
        if !joins(rt, parties, members, me, k, wait) {
            return false;
        }
    }
    true
}

/// Whether that is the node's verdict for the packet.
fn has_verdict(alloc: Global, node: &Node<MemoryRecords>, packet: &Packet, wanted: &str) -> bool {
    match show_verdict(alloc, &node.verdict(packet)) {
        Ok(line) => line.as_str() == wanted,
        Err(_) => false,
    }
}

/// Whether the node shows that the load is applied.
fn blocks(alloc: Global, node: &Node<MemoryRecords>) -> bool {
    match parse_packet(alloc, PACKET) {
        Ok(packet) => {
            node.front() == 1
                && node.applied() == 1
                && has_verdict(alloc, node, &packet, "block drop @0")
        }
        Err(_) => false,
    }
}

/// Whether all three show it.
fn all_block(alloc: Global, parties: &[Member]) -> bool {
    match parties {
        [zero, one, two] => {
            blocks(alloc, &zero.node) && blocks(alloc, &one.node) && blocks(alloc, &two.node)
        }
        _ => false,
    }
}

/// Whether the first member answers an Ask as accepted.
fn is_asked<W: Wire>(parties: &mut [Member], client: &mut W, buffers: &mut TurnBuffers) -> bool {
    let is_sent = client.send(0, &ASK) && turns(parties, 0, buffers);
    let mut answer = [0u8; 29];
    is_sent && client.recv(&mut answer) == Some(29) && answer == ASKED
}

/// Whether a load that the client asks is applied by each.
fn applies<W: Wire>(
    parties: &mut [Member],
    client: &mut W,
    buffers: &mut TurnBuffers,
    alloc: Global,
) -> bool {
    is_asked(parties, client, buffers) && apply(parties, buffers, 1) && all_block(alloc, parties)
}

/// The members' addresses.
static MEMBERS: [&str; 3] = ["127.0.0.1:39481", "127.0.0.1:39482", "127.0.0.1:39483"];

#[test]
fn loopback(rt: HostRuntime) {
    let alloc = rt.alloc();
    let mut client = UdpWire::bind(&rt, alloc, &MEMBERS[..1], 255, 200).expect(&rt, "a socket");
    let mut buffers = buffers(alloc).expect(&rt, "memory");
    let mut parties = Vec::new(alloc);
    assert!(rt; all_join(&rt, &mut parties, &MEMBERS, u64::MAX, 10));
    assert!(rt; applies(&mut parties, &mut client, &mut buffers, alloc));
}

/// Whether the node is asked that the main ruleset's table `t` hold the address alone.
fn ask_change(alloc: Global, node: &mut Node<MemoryRecords>, prefix: Prefix) -> bool {
    let Ok(Some(table)) = TableName::new(alloc, b"t") else {
        return false;
    };
    let mut addresses = Vec::new(alloc);
    let is_made = addresses
        .push(TableEntry {
            negated: false,
            prefix,
        })
        .is_ok();
    let path = Path::main(alloc);
    is_made && ask(node, Command::Replace(path, table, addresses))
}

/// Whether each member is asked a command that changes what the others make.
fn ask_all(alloc: Global, parties: &mut [Member]) -> bool {
    let Ok(prefix) = parse_prefix("0.0.0.3") else {
        return false;
    };
    match parties {
        [zero, one, two] => {
            ask_load(alloc, &mut zero.node, RULES.as_bytes())
                && ask_load(alloc, &mut one.node, ANCHOR.as_bytes())
                && ask_change(alloc, &mut two.node, prefix)
        }
        _ => false,
    }
}

/// Whether any two of three nodes agree after each of 600 turns.
fn go_on(alloc: Global, parties: &mut [Member], buffers: &mut TurnBuffers) -> bool {
    for number in 0..600usize {
        if !turns(parties, number % 3, buffers) || !all_agree(alloc, parties) {
            return false;
        }
    }
    true
}

/// The most commands that one of them has applied, where the first lost something. None where it didn't.
fn most_applied(parties: &[Member]) -> Option<u32> {
    match parties {
        [zero, one, two] if zero.wire.failures() > 0 => {
            let most = zero.node.applied().max(one.node.applied());
            Some(most.max(two.node.applied()))
        }
        _ => None,
    }
}

static LOSSY: [&str; 3] = ["127.0.0.1:39491", "127.0.0.1:39492", "127.0.0.1:39493"];

/// The most commands that are applied over wires of which each `k`-th receive and send fails. None where two nodes
/// differ, or nothing was lost.
fn lossy(rt: &HostRuntime, k: u64) -> Option<u32>
    requires { 0 < k }
{
    let alloc = rt.alloc();
    let mut buffers = buffers(alloc)?;
    let mut parties = Vec::new(alloc);
    let is_on = all_join(rt, &mut parties, &LOSSY, k, 5)
        && ask_all(alloc, &mut parties)
        && go_on(alloc, &mut parties, &mut buffers);
    if is_on { most_applied(&parties) } else { None }
}

#[test]
fn lost_datagrams_change_no_outcome(rt: HostRuntime) {
    let mut most = 0u32;
    for k in 2..8u64 {
        most = lossy(&rt, k).expect(&rt, "one outcome").max(most);
    }
    // on a busy machine all may have been late
    for _ in 0..20 {
        if most == 0 {
            most = lossy(&rt, 7).expect(&rt, "one outcome");
        }
    }
    assert!(rt; most > 0);
}
