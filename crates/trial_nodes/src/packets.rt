//! Three members over packets: what is asked is applied by each, also where packets are lost.
ghost use Rattle.std.specs.Prelude.{◌<◌};

use crate::members::{ask_load, buffers, member};
use crate::parties::{Party, apply, are_same};
use node_loop::TurnBuffers;
use node_udp::UdpWire;
use pf_node::Node;
use px_packet::{PacketKeys, Start};
use px_records::MemoryRecords;
use px_transport::{FaultyWire, LoopbackWire, PacketWire};
use std::alloc::{AllocError, Global};
use std::net::UdpSocket;
use std::panic::Expect;

const KEY: [u8; 32] = [7; 32];

static MEMBERS: [&str; 3] = ["127.0.0.1:39454", "127.0.0.1:39455", "127.0.0.1:39456"];

/// A member's wire: packets over UDP, of which some are lost.
type Packets = LoopbackWire<PacketWire<FaultyWire<UdpWire<UdpSocket, HostRuntime>>, HostRuntime>>;

/// A wire of the member with this number, of whose packets each `k`-th isn't received or sent, at a start with this
/// number.
fn wire_of(rt: &HostRuntime, me: u8, start: u32, k: u64) -> Option<Packets>
    requires faulty { 0 < k }
{
    let below = UdpWire::bind(rt, rt.alloc(), &MEMBERS, me, 5).ok()?;
    let start = Start {
        number: start,
        salt: u32::from(me),
    };
    let keys = PacketKeys::new(&KEY, None);
    let below = FaultyWire::new(below, k);
    match PacketWire::new(rt.alloc(), below, *rt, keys, 7, 3, me, start) {
        Ok(wire) => Some(LoopbackWire::new(rt.alloc(), wire, me)),
        Err(_) => None,
    }
}

/// Whether the node joins the others, over such a wire.
fn joins(
    rt: &HostRuntime,
    parties: &mut Vec<Party<Packets>>,
    node: Node<MemoryRecords>,
    start: u32,
    k: u64,
) -> bool
    requires { 0 < k }
{
    match wire_of(rt, node.membership().me(), start, k) {
        Some(wire) => parties.push(Party { node, wire }).is_ok(),
        None => false,
    }
}

/// Whether all three members do.
fn all_join(rt: &HostRuntime, parties: &mut Vec<Party<Packets>>, k: u64) -> bool
    requires { 0 < k }
{
    for me in 0..3u8 {
        let is_here = match member(rt.alloc(), 3, me) {
            Some(node) => joins(rt, parties, node, 1, k),
            None => false,
        };
        if !is_here {
            return false;
        }
    }
    true
}

/// Whether the member with this number is asked the load of a ruleset, and each applies it as this many-th command.
fn spreads(
    alloc: Global,
    parties: &mut [Party<Packets>],
    buffers: &mut TurnBuffers,
    me: usize,
    text: &str,
    count: u32,
) -> bool {
    let is_asked = match parties.get_mut(me) {
        Some(party) => ask_load(alloc, &mut party.node, text.as_bytes()),
        None => false,
    };
    is_asked && apply(parties, buffers, count)
}

/// Rules that are longer than a packet, from 60 on.
fn long_text(alloc: Global, rules: usize) -> Result<String, AllocError> {
    "pass proto tcp from 192.0.2.0/24 to 198.51.100.7 port 4000\n".repeat(alloc, rules)
}

/// A short load by one member, and one of that many rules by another: whether each applies them.
fn all_traced(rt: &HostRuntime, k: u64, rules: usize) -> bool
    requires { 0 < k }
{
    let alloc = rt.alloc();
    let Some(mut buffers) = buffers(alloc) else {
        return false;
    };
    let Ok(text) = long_text(alloc, rules) else {
        return false;
    };
    let mut parties = Vec::new(alloc);
    all_join(rt, &mut parties, k)
        && spreads(alloc, &mut parties, &mut buffers, 0, "block from 10/8\n", 1)
        && spreads(alloc, &mut parties, &mut buffers, 1, text.as_str(), 2)
        && are_same(alloc, &parties)
}

/// Whether a member is started again over its record, with the packets of its second start.
fn returns(rt: &HostRuntime, parties: &mut Vec<Party<Packets>>, party: Party<Packets>) -> bool {
    let node = party.into_node();
    let m = node.membership();
    match Node::open(rt.alloc(), m, node.close()) {
        Ok(node) => joins(rt, parties, node, 2, u64::MAX),
        Err(_) => false,
    }
}

/// Whether each of the three is asked a load, which all apply.
fn ask_each(alloc: Global, parties: &mut [Party<Packets>], buffers: &mut TurnBuffers) -> bool {
    spreads(alloc, parties, buffers, 0, "block from 10/8\n", 1)
        && spreads(alloc, parties, buffers, 1, "pass to 10/8\n", 2)
        && spreads(alloc, parties, buffers, 2, "block out\n", 3)
}

/// Whether the last member stops, another is asked a load meanwhile, and the last one is started again without it.
fn stops_and_returns(
    rt: &HostRuntime,
    parties: &mut Vec<Party<Packets>>,
    buffers: &mut TurnBuffers,
) -> bool {
    let Some(last) = parties.pop() else {
        return false;
    };
    let is_on = spreads(rt.alloc(), parties, buffers, 0, "pass out\n", 4);
    let was_away = last.node.applied() == 3;
    returns(rt, parties, last) && is_on && was_away
}

#[test]
fn a_member_that_was_away_has_what_the_others_have(rt: HostRuntime) {
    let alloc = rt.alloc();
    let mut buffers = buffers(alloc).expect(&rt, "memory");
    let mut parties = Vec::new(alloc);
    assert!(rt;
        all_join(&rt, &mut parties, u64::MAX) && ask_each(alloc, &mut parties, &mut buffers)
    );
    assert!(rt; stops_and_returns(&rt, &mut parties, &mut buffers));
    // it has what was asked meanwhile, and what it is asked then all have
    assert!(rt; apply(&mut parties, &mut buffers, 4));
    assert!(rt; spreads(alloc, &mut parties, &mut buffers, 2, "pass in\n", 5));
    assert!(rt; are_same(alloc, &parties));
}

#[test]
fn what_is_asked_is_applied_over_packets(rt: HostRuntime) {
    assert!(rt; all_traced(&rt, u64::MAX, 500));
}

#[test]
fn lost_packets_are_sent_again(rt: HostRuntime) {
    assert!(rt; all_traced(&rt, 7, 60));
}
