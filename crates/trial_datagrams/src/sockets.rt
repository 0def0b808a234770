use crate::bench::Bench;
use crate::bytes::{
    ACCEPT, ASK_REFUSED, ASKED, LEARNED, NACK, NEED, PREPARE, PREPARE_ALL, PROMISE, PROMISE_ALL,
    VOTE,
};
use crate::memory_socket::MemorySocket;
use node_udp::{Address, BindFault, Socket, UdpWire, parse_address};
use pf_addr::Addr;
use px_transport::Wire;
use std::alloc::{AllocError, Global};
use std::cell::Cell;
use std::net::SocketAddr;
use std::panic::Expect;
use std::time::Instant;

/// The front of a datagram of a client: its sender is 255.
const ASK: [u8; 13] = [0x50, 0x46, 0x58, 0x52, 1, 0, 0, 0, 7, 2, 255, 0, 8];

/// The same with member 1 as its sender.
const OF_ONE: [u8; 13] = [0x50, 0x46, 0x58, 0x52, 1, 0, 0, 0, 7, 2, 1, 0, 8];

/// A datagram of a member, of each kind.
const OF_MEMBERS: [&[u8]; 11] = [
    PREPARE,
    PREPARE_ALL,
    PROMISE,
    PROMISE_ALL,
    ACCEPT,
    VOTE,
    LEARNED,
    NACK,
    NEED,
    ASKED,
    ASK_REFUSED,
];

/// Bytes that are no datagram, with 255 where one has its sender.
const NO_DATAGRAM: [u8; 13] = [0, 0, 0, 0, 0, 0, 0, 0, 0, 0, 255, 0, 8];

/// Whether the room begins with the bytes, if any came, and is as it was behind them: 7 everywhere.
fn holds(room: &[u8], came: Option<usize>, wanted: &[u8]) -> bool {
    let (front, rest) = room.split_at(wanted.len().min(room.len()));
    for byte in rest {
        if *byte != 7 {
            return false;
        }
    }
    came == Some(wanted.len()) && front == wanted
}

/// Whether these bytes are what comes next, into a room of that many bytes, 20 at most.
pub fn hears<W: Wire>(wire: &mut W, size: usize, wanted: &[u8]) -> bool {
    let mut room = [7u8; 20];
    let room = &mut room[..size.min(20)];
    let came = wire.recv(room);
    holds(room, came, wanted)
}

/// Whether nothing comes, and the room is as it was.
fn hears_none<W: Wire>(wire: &mut W) -> bool {
    let mut room = [7u8; 20];
    wire.recv(&mut room).is_none() && room == [7; 20]
}

/// Whether these bytes are what has come, into a room of 20.
pub fn has<W: Wire>(wire: &mut W, wanted: &[u8]) -> bool {
    let mut room = [7u8; 20];
    let came = wire.poll(&mut room);
    holds(&room, came, wanted)
}

/// Whether nothing has come.
pub fn has_none<W: Wire>(wire: &mut W) -> bool {
    let mut room = [7u8; 20];
    wire.poll(&mut room).is_none() && room == [7; 20]
}

/// Whether one sends each of the bytes as a datagram.
fn sends_each<W: Wire>(wire: &mut W, to: u8, letters: &[u8]) -> bool {
    for letter in letters {
        if !wire.send(to, &[*letter]) {
            return false;
        }
    }
    true
}

/// Whether each of the bytes comes as a datagram, the clock moving back to half before the next one.
fn hears_each<W: Wire>(wire: &mut W, letters: &[u8], now: &Cell<u64>) -> bool {
    for letter in letters {
        if !hears(wire, 1, &[*letter]) {
            return false;
        }
        now.set(now.get() / 2);
    }
    true
}

/// Whether what two members and a client send comes.
fn talk<W: Wire>(one: &mut W, other: &mut W, client: &mut W) -> bool {
    let is_heard = hears_none(one) && one.send(1, b"hello") && hears(other, 8, b"hello");
    let is_asked = client.send(1, &ASK) && hears(one, 20, &ASK);
    let is_answered = one.send(255, b"an answer") && hears(client, 8, b"an answe");
    is_heard && is_asked && is_answered && !other.send(2, b"nobody") && other.failures() == 1
}

#[test]
fn datagrams_go_between_members_and_who_asks(rt: HostRuntime) {
    let members = ["127.0.0.1:39471", "127.0.0.1:39472"];
    let mut one = UdpWire::bind(&rt, rt.alloc(), &members, 0, 10).expect(&rt, "a socket");
    let mut other = UdpWire::bind(&rt, rt.alloc(), &members, 1, 10).expect(&rt, "a socket");
    let mut client = UdpWire::bind(&rt, rt.alloc(), &members[..1], 255, 10).expect(&rt, "a socket");
    assert!(rt; talk(&mut one, &mut other, &mut client));
}

#[test]
fn what_the_system_refuses_to_send_is_unsent(rt: HostRuntime) {
    // a socket may not send to every host of a network, unless an option says so
    let members = ["127.0.0.1:39489", "255.255.255.255:39489"];
    let mut one = UdpWire::bind(&rt, rt.alloc(), &members, 0, 10).expect(&rt, "a socket");
    assert!(rt; !one.send(1, b"hello") && one.failures() == 1);
}

/// Whether the member with this number gets no socket.
fn is_refused(rt: HostRuntime, members: &[&str], me: u8) -> bool {
    match UdpWire::bind(&rt, rt.alloc(), members, me, 10) {
        Ok(_) => false,
        Err(fault) => fault == BindFault::NoSocket,
    }
}

/// Texts that are no address.
static NO_ADDRESSES: [&str; 13] = [
    "127.0.0.1",
    "127.0.0.1:",
    "127.0.0.1:0",
    "127.0.0.1:65536",
    "127.0.0.1:000080",
    "127.0.0.1:http",
    "127.1:39473",
    "local_host:39473",
    "localhost:",
    "localhost:0",
    "::1:39473",
    " 127.0.0.1:39473",
    "",
];

#[test]
fn an_address_has_a_port(rt: HostRuntime) {
    for text in &NO_ADDRESSES {
        assert!(rt; is_refused(rt, &["127.0.0.1:39473", text], 0), "{text}");
    }
    let wire = UdpWire::bind(&rt, rt.alloc(), &["127.0.0.1:39473"], 0, 10).expect(&rt, "a socket");
    assert!(rt; wire.failures() == 0);
}

#[test]
fn two_members_do_not_share_an_address(rt: HostRuntime) {
    let members = ["127.0.0.1:39474", "127.0.0.1:39474"];
    let _one = UdpWire::bind(&rt, rt.alloc(), &members, 0, 10).expect(&rt, "a socket");
    assert!(rt; is_refused(rt, &members, 1));
}

/// Whether a wait ends behind three datagrams of five, and the next begins with the fourth.
fn ends<A: Wire, B: Wire>(one: &mut A, other: &mut B) -> bool {
    let is_first = sends_each(other, 0, b"abcde")
        && hears(one, 1, b"a")
        && hears(one, 1, b"b")
        && hears(one, 1, b"c")
        && hears_none(one);
    is_first && hears(one, 1, b"d") && hears(one, 1, b"e") && one.failures() == 0
}

#[test]
fn a_wait_ends_whatever_comes(rt: HostRuntime) {
    let members = ["127.0.0.1:39475", "127.0.0.1:39476"];
    let now = Cell::new(5000);
    let step = Some(400);
    let bench = Bench {
        rt,
        now: &now,
        step,
    };
    let mut one = UdpWire::bind(&bench, rt.alloc(), &members, 0, 1000).expect(&rt, "a socket");
    let mut other = UdpWire::bind(&rt, rt.alloc(), &members, 1, 10).expect(&rt, "a socket");
    assert!(rt; ends(&mut one, &mut other));
}

/// How many datagrams of 150 come before none does, where that many milliseconds go by between two receives.
fn heard<A: Wire, B: Wire>(one: &mut A, other: &mut B, now: &Cell<u64>, millis: u64) -> u32 {
    for _ in 0..150 {
        if !other.send(0, b"a") {
            return 1000;
        }
    }
    let mut room = [0u8; 1];
    for count in 0..150u32 {
        if one.recv(&mut room).is_none() {
            return count;
        }
        now.set(now.get().saturating_add(millis));
    }
    150
}

/// Members, how many milliseconds go by between two receives, and how many datagrams come.
type Slow = ([&'static str; 2], u64, u32);

static SLOW: [Slow; 3] = [
    (["127.0.0.1:39477", "127.0.0.1:39478"], 5, 128),
    (["127.0.0.1:39487", "127.0.0.1:39488"], 10, 64),
    (["127.0.0.1:39497", "127.0.0.1:39498"], 60_000, 64),
];

/// Whether a member with a wait of 640 ms gets that many.
fn is_received(rt: HostRuntime, row: &Slow) -> bool {
    let (members, millis, wanted) = row;
    let now = Cell::new(0);
    let step = Some(0);
    let bench = Bench {
        rt,
        now: &now,
        step,
    };
    let Ok(mut one) = UdpWire::bind(&bench, rt.alloc(), members, 0, 640) else {
        return false;
    };
    let Ok(mut other) = UdpWire::bind(&rt, rt.alloc(), members, 1, 10) else {
        return false;
    };
    heard(&mut one, &mut other, &now, *millis) == *wanted
}

#[test]
fn who_is_slow_receives_64_in_a_wait(rt: HostRuntime) {
    for row in &SLOW {
        assert!(rt; is_received(rt, row));
    }
}

/// Whether three datagrams come though the clock goes back, and then none.
fn goes_back<A: Wire, B: Wire>(one: &mut A, other: &mut B, now: &Cell<u64>) -> bool {
    let is_heard = sends_each(other, 0, b"abc") && hears_each(one, b"abc", now);
    is_heard && hears_none(one) && one.failures() == 0
}

/// The same of a clock with that step.
fn goes_on(rt: HostRuntime, members: &[&str], step: Option<u64>) -> bool {
    let now = Cell::new(1_000_000);
    let bench = Bench {
        rt,
        now: &now,
        step,
    };
    let Ok(mut one) = UdpWire::bind(&bench, rt.alloc(), members, 0, 10) else {
        return false;
    };
    let Ok(mut other) = UdpWire::bind(&rt, rt.alloc(), members, 1, 10) else {
        return false;
    };
    goes_back(&mut one, &mut other, &now)
}

#[test]
fn a_clock_that_fails_or_goes_back_ends_no_wait(rt: HostRuntime) {
    let members = ["127.0.0.1:39485", "127.0.0.1:39486"];
    assert!(rt; goes_on(rt, &members, None) && goes_on(rt, &members, Some(0)));
}

/// Whether three answers reach a client, and then none.
fn answers<A: Wire, B: Wire>(one: &mut A, client: &mut B) -> bool {
    let is_asked = client.send(0, &ASK) && hears(one, 20, &ASK);
    let is_sent = one.send(255, b"one") && one.send(255, b"two") && one.send(255, b"six");
    let is_heard = hears(client, 3, b"one") && hears(client, 3, b"two") && hears(client, 3, b"six");
    is_asked && is_sent && is_heard && hears_none(client)
}

#[test]
fn each_receive_of_a_client_waits(rt: HostRuntime) {
    let members = ["127.0.0.1:39479"];
    let now = Cell::new(0);
    let step = Some(60_000);
    let bench = Bench {
        rt,
        now: &now,
        step,
    };
    let mut one = UdpWire::bind(&rt, rt.alloc(), &members, 0, 10).expect(&rt, "a socket");
    let mut client = UdpWire::bind(&bench, rt.alloc(), &members, 255, 10).expect(&rt, "a socket");
    assert!(rt; answers(&mut one, &mut client));
}

/// Whether polls and receives give three datagrams in order, and a poll waits for none.
fn polls<W: Wire>(one: &mut W, other: &mut W) -> bool {
    let is_none = has_none(one);
    let is_sent = other.send(0, b"first") && other.send(0, b"later") && other.send(0, b"last");
    one.wait(60_000);
    one.wait(60_000);
    let is_heard = has(one, b"first") && hears(one, 5, b"later") && has(one, b"last");
    let is_over = has_none(one);
    one.wait(1);
    one.wait(0);
    is_none && is_sent && is_heard && is_over && has_none(one) && one.failures() == 0
}

#[test]
fn a_poll_takes_what_has_come_and_waits_for_none(rt: HostRuntime) {
    let members = ["127.0.0.1:39461", "127.0.0.1:39462"];
    let mut one = UdpWire::bind(&rt, rt.alloc(), &members, 0, 60_000).expect(&rt, "a socket");
    let mut other = UdpWire::bind(&rt, rt.alloc(), &members, 1, 10).expect(&rt, "a socket");
    assert!(rt; polls(&mut one, &mut other));
}

/// Whether an empty datagram comes.
fn hears_empty<W: Wire>(wire: &mut W) -> bool {
    let mut room = [0u8; 64];
    wire.recv(&mut room) == Some(0)
}

/// Whether an empty datagram has come.
fn has_empty<W: Wire>(wire: &mut W) -> bool {
    let mut room = [0u8; 20];
    wire.poll(&mut room) == Some(0)
}

/// Whether datagrams of a stranger are given as empty ones: those of members, of each kind, and three others.
fn drops<W: Wire>(one: &mut W, stranger: &mut W) -> bool {
    for datagram in OF_MEMBERS {
        if !stranger.send(0, datagram) || !hears_empty(one) {
            return false;
        }
    }
    let is_first = stranger.send(0, &OF_ONE) && hears_empty(one);
    let is_next = stranger.send(0, &NO_DATAGRAM) && hears_empty(one);
    let is_last = stranger.send(0, b"short");
    one.wait(1000);
    is_first && is_next && is_last && has_empty(one)
}

/// Whether a stranger's ask comes, and what a member sends.
fn takes<W: Wire>(one: &mut W, other: &mut W, stranger: &mut W) -> bool {
    let is_asked = stranger.send(0, &ASK) && hears(one, 20, &ASK);
    is_asked && other.send(0, &OF_ONE) && hears(one, 20, &OF_ONE) && one.failures() == 0
}

#[test]
fn a_stranger_is_dropped_unless_it_asks(rt: HostRuntime) {
    let members = ["127.0.0.1:39463", "127.0.0.1:39464"];
    let elsewhere = ["127.0.0.1:39463", "127.0.0.1:39465"];
    let mut one = UdpWire::bind(&rt, rt.alloc(), &members, 0, 1000).expect(&rt, "a socket");
    let mut other = UdpWire::bind(&rt, rt.alloc(), &members, 1, 10).expect(&rt, "a socket");
    let mut stranger = UdpWire::bind(&rt, rt.alloc(), &elsewhere, 1, 10).expect(&rt, "a socket");
    let are_dropped = drops(&mut one, &mut stranger) && one.strangers() == 14;
    let are_accepted = takes(&mut one, &mut other, &mut stranger) && one.strangers() == 14;
    assert!(rt; are_dropped && are_accepted);
}

/// Texts that are no address in brackets.
static NO_BRACKETS: [&str; 11] = [
    "[2001:db8::1]",
    "[2001:db8::1]:",
    "[2001:db8::1]:0",
    "[2001:db8::1]4711",
    "[2001:db8::1:4711",
    "2001:db8::1]:4711",
    "[127.0.0.1]:4711",
    "[]:4711",
    "[",
    "[2001:db8::1] :4711",
    "[2001:db8::g]:4711",
];

#[test]
fn an_ipv6_address_is_in_brackets(rt: HostRuntime) {
    let address = parse_address("[2001:db8::1]:4711").expect(&rt, "an address");
    let ip = Addr::V6(0x2001_0db8_0000_0000_0000_0000_0000_0001);
    assert!(rt; address.ip == ip && address.port == 4711);
    for text in &NO_BRACKETS {
        assert!(rt; parse_address(text).is_none(), "{text}");
    }
}

/// Whether what one sends to member 0 comes there.
fn sends<W: Wire>(from: &mut W, one: &mut W, bytes: &[u8]) -> bool {
    from.send(0, bytes) && hears(one, 20, bytes)
}

/// What comes from one member to the other over IPv6, where the machine has it.
#[test]
fn datagrams_go_over_ipv6(rt: HostRuntime) {
    let members = ["[::1]:39466", "[::1]:39467"];
    let Ok(mut one) = UdpWire::bind(&rt, rt.alloc(), &members, 0, 1000) else {
        return;
    };
    let mut other = UdpWire::bind(&rt, rt.alloc(), &members, 1, 10).expect(&rt, "a socket");
    let mut client = UdpWire::bind(&rt, rt.alloc(), &members[..1], 255, 10).expect(&rt, "a socket");
    let is_heard = sends(&mut other, &mut one, b"hello") && sends(&mut client, &mut one, &ASK);
    assert!(rt; is_heard && one.strangers() == 0);
}

/// A host's name that every machine knows, or a refusal where this one doesn't.
#[test]
fn a_name_is_looked_up(rt: HostRuntime) {
    let members = ["localhost:39468", "127.0.0.1:39469"];
    let Ok(mut one) = UdpWire::bind(&rt, rt.alloc(), &members, 0, 1000) else {
        return;
    };
    let mut client = UdpWire::bind(&rt, rt.alloc(), &members[..1], 255, 10).expect(&rt, "a socket");
    assert!(rt; sends(&mut client, &mut one, &ASK));
}

/// The members' names, and the address that each is found at: the first of IPv4, else the first.
static NAMED: [(&str, &str); 3] = [
    ("four:39433", "127.0.0.8:39433"),
    ("both:39434", "127.0.0.7:39434"),
    ("six:39435", "[fd00::2]:39435"),
];

#[test]
fn a_name_is_its_first_address_of_ipv4(rt: HostRuntime) {
    let now = Cell::new(0);
    let bench = Bench {
        rt,
        now: &now,
        step: Some(0),
    };
    let names = [NAMED[0].0, NAMED[1].0, NAMED[2].0];
    let one = UdpWire::bind(&bench, rt.alloc(), &names, 0, 10).expect(&rt, "a socket");
    for (place, (_, address)) in NAMED.iter().enumerate() {
        assert!(rt; one.peers().get(place).copied() == parse_address(address));
    }
    assert!(rt; UdpWire::bind(&bench, rt.alloc(), &["none:39436"], 0, 10).is_err());
}

/// How many milliseconds a wait takes by the system's clock.
pub fn waited<W: Wire>(rt: &HostRuntime, wire: &mut W, milliseconds: u32) -> Option<u128> {
    let start = Instant::now(rt).ok()?;
    wire.wait(milliseconds);
    let end = Instant::now(rt).ok()?;
    Some(end.duration_since(start).as_millis())
}

/// A wait for what never comes lasts, and one for what has come doesn't.
#[test]
fn a_wait_lasts_until_something_comes(rt: HostRuntime) {
    let members = ["127.0.0.1:39431", "127.0.0.1:39432"];
    let mut one = UdpWire::bind(&rt, rt.alloc(), &members, 0, 1000).expect(&rt, "a socket");
    let mut other = UdpWire::bind(&rt, rt.alloc(), &members, 1, 10).expect(&rt, "a socket");
    let idle = waited(&rt, &mut one, 100).unwrap_or(0);
    let is_sent = other.send(0, b"a");
    let woken = waited(&rt, &mut one, 60_000).unwrap_or(60_000);
    assert!(rt; is_sent && idle >= 90 && woken < 50_000);
}

/// The addresses of two members.
fn two_members(alloc: Global) -> Result<Vec<Address>, AllocError> {
    let mut peers = Vec::new(alloc);
    for text in ["127.0.0.1:39470", "127.0.0.1:39471"] {
        if let Some(address) = parse_address(text) {
            peers.push(address)?;
        }
    }
    Ok(peers)
}

/// One datagram, with where it comes from.
fn one_datagram(alloc: Global, from: SocketAddr) -> Result<Vec<(SocketAddr, Vec<u8>)>, AllocError> {
    let mut coming = Vec::new(alloc);
    coming.push((from, Vec::from_slice(alloc, b"hello")?))?;
    Ok(coming)
}

/// What a socket in memory receives from a member is given, and what is sent goes to that socket.
#[test]
fn a_wire_goes_over_a_socket_in_memory(rt: HostRuntime) {
    let from = "127.0.0.1:39471".parse::<SocketAddr>();
    let from = from.expect(&rt, "an address");
    let coming = one_datagram(rt.alloc(), from).expect(&rt, "memory");
    let peers = two_members(rt.alloc()).expect(&rt, "memory");
    let socket = MemorySocket::new(rt.alloc(), coming);
    let mut wire = UdpWire::over(socket, rt, peers, 0, 10).expect(&rt, "a wire");
    let is_given = hears(&mut wire, 20, b"hello") && hears_none(&mut wire);
    assert!(rt; is_given && wire.send(1, b"there") && wire.failures() == 0);
}

/// What a socket in memory was handed is kept, each with where it goes.
#[test]
fn a_socket_in_memory_keeps_what_goes(rt: HostRuntime) {
    let to = "127.0.0.1:39471".parse::<SocketAddr>();
    let to = to.expect(&rt, "an address");
    let mut socket = MemorySocket::new(rt.alloc(), Vec::new(rt.alloc()));
    let is_sent = socket.send(b"there", to) == Ok(5);
    let went = socket.went().expect(&rt, "memory");
    let is_kept = went.len() == 1 && went[0].0 == to && went[0].1.as_slice() == b"there".as_slice();
    assert!(rt; is_sent && is_kept);
}
