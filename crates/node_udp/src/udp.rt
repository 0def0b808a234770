//! Datagrams over a UDP socket.

ghost use Rattle.std.specs.Prelude.{◌≡◌, ◌⊎◌, ◌<◌, ◌≤◌, ◌==◌, ◌*◌, Some, None, Err, IfOk, IfErr, IfSome, OnErr};
ghost use Rattle.std.specs.Prelude.{ℕ, ◌&&◌, ◌||◌, [], ◌∷◌, ◌≢◌, Any, IsTrue, map, length, option_map, take, true};
ghost use Rattle.std.specs.Prelude.{false};
ghost use Rattle.std.specs.List.{list_any};
ghost use Rattle.pf_entry.specs.declared.limits.TheConstants.{CLIENT};
ghost use Rattle.px_transport.specs.Identities.{plain, with_route};
ghost use Rattle.px_transport.specs.Wires.{Adds, Counts, Handed, IsQuiet, gives, one_more};
ghost use Rattle.node_udp.specs.declared.udp.BindFault.TheVariants.{Memory, NoSocket};
ghost use Rattle.node_udp.specs.Addresses.{AreFound, IsUnfound, shown_address};
ghost use Rattle.px_wire.specs.Message.{Group, Message, DatagramBytes};
ghost use Rattle.node_udp.specs.Members.{socket_of, peers_of, me_of, last_of, hears_of, strangers_of, Drops};
ghost use Rattle.node_udp.specs.Members.{HasNoSocket, address_at, own_of, wait_of};
ghost use Rattle.node_udp.specs.Sockets.{GoesTo, HasNoAddress, IsStill, Went, WentOver};
ghost use Rattle.node_udp.specs.inner.Heard.{last_after};

use crate::address::Address;
use crate::host::find;
use crate::network::Network;
use crate::socket::Socket;
use pf_addr::Addr;
use pf_entry::CLIENT;
use px_transport::Wire;
use px_wire::Head;
use std::alloc::{AllocError, AllocFailed, Global};
use std::io::ErrorKind;
use std::net::{SocketAddr, UdpSocket};
use std::os::fd::{AsRawFd, RawFd};
use std::time::{Clock, Duration, Instant};
use thiserror::Error;

/// The part of a member's wait that the time between two receives counts as at most.
const PART: u32 = 64;

/// Why there is no wire.
#[derive(Clone, Copy, Debug, PartialEq, Eq, Error)]
pub enum BindFault {
    /// A growth was refused.
    #[error("out of memory")]
    Memory,
    /// 82: an address is none, or the system refuses the socket.
    #[error("no socket")]
    NoSocket,
}

impl From<AllocError> for BindFault {
    ghost from_gives = { λ _ e. e ≡ Memory };

    fn from(_e: AllocError) -> BindFault {
        BindFault::Memory
    }
}

impl<T: Drop> From<AllocFailed<T>> for BindFault {
    ghost from_gives = { λ _ e. e ≡ Memory };

    fn from(_e: AllocFailed<T>) -> BindFault {
        BindFault::Memory
    }
}

/// Datagrams over a UDP socket (RFC 768), on their way through a network, which may lose, repeat and reorder them.
///
/// Each receive of a client waits on its own. A member's wait goes on from receive to receive until it has passed, and
/// then none is answered, whatever has come: that stays for the next receive, with which a new wait begins. Of the time
/// between two receives no more than a 64th of the wait counts, so that slow turns alone end none before 64 datagrams.
///
/// A datagram that comes from elsewhere than a member's address is given as an empty one, which is nobody's, and is
/// counted, unless it has a head ([`Head::read`]) whose sender is 255, a client. With [`UdpWire::hear_members`] its
/// address alone decides, and no byte of it is looked at.
///
/// What a member sends to 255, a client, goes to where the last datagram came from of which any byte was given.
pub struct UdpWire<S, C> {
    socket: S,
    clock: C,
    peers: Vec<Address>,
    me: u8,
    wait: Duration,
    /// How much of a member's wait is left.
    left: Duration,
    /// When a member received the last datagram of this wait.
    since: Option<Instant>,
    /// Where the last datagram came from of which any byte was given.
    last: Option<SocketAddr>,
    /// How long the socket waits, where it does.
    timeout: Duration,
    is_blocking: bool,
    /// Whether a client is heard, from wherever.
    hears_asks: bool,
    strangers: u64,
    failures: u64,
}

impl<S: Drop, C: Drop> Drop for UdpWire<S, C> {
    fn drop(self) {
        let UdpWire {
            socket: _,
            clock: _,
            peers: _,
            me: _,
            wait: _,
            left: _,
            since: _,
            last: _,
            timeout: _,
            is_blocking: _,
            hears_asks: _,
            strangers: _,
            failures: _,
        } = self;
    }
}

/// The addresses of the strings.
fn addresses<R: Network>(rt: &R, alloc: Global, texts: &[&str]) -> Result<Vec<Address>, BindFault>
    ensures all { IfOk result (λ v. AreFound (R.is_known rt.now) (map (λ t. t.now) texts.now) v.items) }
    ensures unfound { result ≡ Err NoSocket → Any (IsUnfound (R.is_unknown rt.now)) (map (λ t. t.now) texts.now) }
{
    let mut peers = Vec::new(alloc);
    for text in texts {
        let Some(address) = find(rt, text) else {
            return Err(BindFault::NoSocket);
        };
        peers.push(address)?;
    }
    Ok(peers)
}

/// Where a member listens, or a client: at any free port, with addresses of the kind that the first is of.
fn own_address(peers: &[Address], me: u8) -> Option<Address>
    ensures { result ≡ own_of peers.now me }
{
    if me != CLIENT {
        return peers.get(usize::from(me)).copied();
    }
    let ip = peers.first().map_or(Addr::V4(0), |address| address.ip);
    Some(Address::any_port(ip))
}

/// Whether a datagram is of a client, by its head.
fn is_asking(datagram: &[u8]) -> bool
    ensures { (g : Group) (from to : ℕ) (message : Message) →
        DatagramBytes g from to message datagram.now → result ≡ (from == CLIENT) }
{
    Head::read(datagram).is_some_and(|head| head.from == CLIENT)
}

impl<R: Network + Clock + Copy> UdpWire<UdpSocket, R> {
    /// A wire of a member, which listens at its address of these, or with 255 of a client on any free port, of whom the
    /// first address takes every send. A wait is n milliseconds long.
    ///
    /// An address is as `parse_address` reads it, or a host's name, `:` and a port; names are looked up here, once.
    /// `NoSocket` where one is neither, or where the system knows no such name or refuses the socket, and for a member
    /// that has no address.
    pub fn bind(
        rt: &R,
        alloc: Global,
        addrs: &[&str],
        me: u8,
        wait_ms: u32,
    ) -> Result<UdpWire<UdpSocket, R>, BindFault>
        requires wait { 0 < wait_ms }
        ensures peers { IfOk result (λ w. AreFound (R.is_known rt.now) (map (λ t. t.now) addrs.now) (peers_of w)) }
        ensures me { IfOk result (λ w. me_of w ≡ me) }
        ensures wait { IfOk result (λ w. wait_of w ≡ wait_ms * 1000000) }
        ensures strangers { IfOk result (λ w. strangers_of w ≡ 0) }
        ensures hears { IfOk result (λ w. hears_of w ≡ true) }
        ensures traffic { IfOk result (λ w. WentOver (⟦<UdpSocket as Socket>⟧.traffic (socket_of w)) w []) }
        ensures own { IfOk result (λ w. IfSome (own_of (peers_of w) me) (λ own. R.is_bound rt.now own (socket_of w))) }
        ensures refused { result ≡ Err NoSocket →
            HasNoSocket (R.is_known rt.now) (R.is_unknown rt.now) (R.is_refused rt.now) (map (λ t. t.now) addrs.now)
            me }
    {
        let peers = addresses(rt, alloc, addrs)?;
        let own = own_address(peers.as_slice(), me).ok_or(BindFault::NoSocket)?;
        let wait = Duration::from_millis(u64::from(wait_ms));
        let socket = rt.bind_at(own, wait).ok_or(BindFault::NoSocket)?;
        Ok(UdpWire::with_socket(socket, *rt, peers, me, wait_ms))
    }
}

impl<C> UdpWire<UdpSocket, C> {
    /// The socket's descriptor, for a caller that waits for several.
    pub fn raw_fd(&self) -> RawFd {
        self.socket.as_raw_fd()
    }
}

impl<S: Socket + Drop, C: Clock + Drop> UdpWire<S, C> {
    /// A wire over a socket that is bound and waits so long.
    fn with_socket(socket: S, clock: C, peers: Vec<Address>, me: u8, wait_ms: u32) -> UdpWire<S, C>
        ensures socket { socket_of result ≡ socket }
        ensures peers { peers_of result ≡ peers.items }
        ensures me { me_of result ≡ me }
        ensures wait { wait_of result ≡ wait_ms * 1000000 }
        ensures strangers { strangers_of result ≡ 0 }
        ensures hears { hears_of result ≡ true }
        ensures traffic { S.traffic socket [] → WentOver (S.traffic (socket_of result)) result [] }
    {
        let wait = Duration::from_millis(u64::from(wait_ms));
        UdpWire {
            socket,
            clock,
            peers,
            me,
            wait,
            left: wait,
            since: None,
            last: None,
            timeout: wait,
            is_blocking: true,
            hears_asks: true,
            strangers: 0,
            failures: 0,
        }
    }

    /// A wire over a socket that is bound, of a member with these addresses of all members, or with 255 of a client.
    ///
    /// `NoSocket` where no time can be set for the socket's waits.
    pub fn over(
        socket: S,
        clock: C,
        peers: Vec<Address>,
        me: u8,
        wait_ms: u32,
    ) -> Result<UdpWire<S, C>, BindFault>
        requires wait { 0 < wait_ms }
        ensures peers { IfOk result (λ w. peers_of w ≡ peers.items) }
        ensures me { IfOk result (λ w. me_of w ≡ me) }
        ensures wait { IfOk result (λ w. wait_of w ≡ wait_ms * 1000000) }
        ensures strangers { IfOk result (λ w. strangers_of w ≡ 0) }
        ensures hears { IfOk result (λ w. hears_of w ≡ true) }
        ensures traffic { IfOk result (λ w. S.traffic socket [] → WentOver (S.traffic (socket_of w)) w []) }
        ensures refused { IfErr result (λ e. (e ≡ NoSocket) × S.is_timeless socket) }
    {
        let mut socket = socket;
        let wait = Duration::from_millis(u64::from(wait_ms));
        socket.set_timeout(wait).map_err(|_| BindFault::NoSocket)?;
        Ok(UdpWire::with_socket(socket, clock, peers, me, wait_ms))
    }
}

impl<S: Socket, C> UdpWire<S, C> {
    /// Where each member listens, as it was found when the wire was made.
    pub fn peers(&self) -> &[Address]
        ensures { result.now ≡ peers_of self.now }
    {
        self.peers.as_slice()
    }

    /// From now on members alone are heard, by their addresses.
    pub fn hear_members(&mut self)
        ensures quiet { IsQuiet (WentOver (S.traffic (socket_of self.old)) self.old)
            (WentOver (S.traffic (socket_of self.new)) self.new) }
        ensures hears { hears_of self.new ≡ false }
        ensures strangers { strangers_of self.new ≡ strangers_of self.old }
        ensures peers { peers_of self.new ≡ peers_of self.old }
        ensures me { me_of self.new ≡ me_of self.old }
    {
        self.hears_asks = false;
    }

    /// How many datagrams were dropped that came from elsewhere than a member's address, up to 2^64 - 1.
    pub fn strangers(&self) -> u64
        ensures { result ≡ strangers_of self.now }
    {
        self.strangers
    }

    /// Counts a fault.
    fn count_failure(&mut self)
        ensures counted { self.new.failures ≡ one_more self.old.failures }
        ensures still { IsStill (S.traffic (socket_of self.old)) (S.traffic (socket_of self.new)) self.old self.new }
        ensures failures { self.old.failures ≤ self.new.failures }
        ensures strangers { self.new.strangers ≡ self.old.strangers }
    {
        self.failures = self.failures.saturating_add(1);
    }

    /// Counts what a receive or a wait met, unless nothing came in time.
    fn met(&mut self, kind: ErrorKind)
        ensures counted { kind ≢ ErrorKind.WouldBlock → kind ≢ ErrorKind.TimedOut →
            self.new.failures ≡ one_more self.old.failures }
        ensures uncounted { (kind ≡ ErrorKind.WouldBlock) ⊎ (kind ≡ ErrorKind.TimedOut) →
            self.new.failures ≡ self.old.failures }
        ensures still { IsStill (S.traffic (socket_of self.old)) (S.traffic (socket_of self.new)) self.old self.new }
        ensures failures { self.old.failures ≤ self.new.failures }
        ensures strangers { self.new.strangers ≡ self.old.strangers }
    {
        if kind != ErrorKind::WouldBlock && kind != ErrorKind::TimedOut {
            self.count_failure();
        }
    }

    /// Whether the socket waits from now on, or doesn't, as is asked.
    fn set_blocking(&mut self, is_blocking: bool) -> bool
        ensures still { IsStill (S.traffic (socket_of self.old)) (S.traffic (socket_of self.new)) self.old self.new }
        ensures failures { self.old.failures ≤ self.new.failures }
        ensures strangers { self.new.strangers ≡ self.old.strangers }
    {
        if self.is_blocking != is_blocking {
            if self.socket.set_blocking(is_blocking).is_err() {
                self.count_failure();
                return false;
            }
            self.is_blocking = is_blocking;
        }
        true
    }

    /// Whether the socket waits so long from now on.
    fn set_timeout(&mut self, timeout: Duration) -> bool
        ensures still { IsStill (S.traffic (socket_of self.old)) (S.traffic (socket_of self.new)) self.old self.new }
        ensures failures { self.old.failures ≤ self.new.failures }
        ensures strangers { self.new.strangers ≡ self.old.strangers }
    {
        if self.timeout != timeout {
            if self.socket.set_timeout(timeout).is_err() {
                self.count_failure();
                return false;
            }
            self.timeout = timeout;
        }
        true
    }

    /// Whether a datagram is heard: it comes from a member's address, or is of a client, where such are heard.
    fn is_heard(&self, from: SocketAddr, datagram: &[u8]) -> bool
        ensures member { list_any (λ a. ⟦<Address as PartialEq>⟧.eq a (address_at from)) (peers_of self.now) ≡ true →
            result ≡ true }
        ensures only { hears_of self.now ≡ false →
            result ≡ list_any (λ a. ⟦<Address as PartialEq>⟧.eq a (address_at from)) (peers_of self.now) }
        ensures message { (g : Group) (sender to : ℕ) (message : Message) →
            DatagramBytes g sender to message datagram.now →
            result ≡ (list_any (λ a. ⟦<Address as PartialEq>⟧.eq a (address_at from)) (peers_of self.now)
            || (hears_of self.now && (sender == CLIENT))) }
    {
        self.peers.contains(&Address::of_socket(from)) || (self.hears_asks && is_asking(datagram))
    }

    /// What is given of a datagram that came: all its bytes, or none of a stranger's, which is counted.
    fn admit(&mut self, from: SocketAddr, datagram: &[u8]) -> usize
        ensures member { list_any (λ a. ⟦<Address as PartialEq>⟧.eq a (address_at from)) (peers_of self.old) ≡ true →
            (result ≡ length datagram.now) × (strangers_of self.new ≡ strangers_of self.old) }
        ensures stranger { list_any (λ a. ⟦<Address as PartialEq>⟧.eq a (address_at from)) (peers_of self.old) ≡ false →
            hears_of self.old ≡ false → (result ≡ 0) × (strangers_of self.new ≡ one_more (strangers_of self.old)) }
        ensures client { (g : Group) (to : ℕ) (message : Message) → hears_of self.old ≡ true →
            DatagramBytes g CLIENT to message datagram.now → result ≡ length datagram.now }
        ensures others { (g : Group) (sender to : ℕ) (message : Message) →
            DatagramBytes g sender to message datagram.now → (sender == CLIENT) ≡ false →
            list_any (λ a. ⟦<Address as PartialEq>⟧.eq a (address_at from)) (peers_of self.old) ≡ false → result ≡ 0 }
        ensures members { hears_of self.old ≡ false → 0 < result → option_map (λ there.
            list_any (λ a. ⟦<Address as PartialEq>⟧.eq a (address_at there)) (peers_of self.old)) (last_of self.new)
            ≡ Some true }
        ensures heard { IsStill (S.traffic (socket_of self.old)) (S.traffic (socket_of self.new))
            (record self.old { last = last_after from result (last_of self.old) }) self.new }
        ensures whole { (result ≡ length datagram.now) ⊎ (result ≡ 0) }
        ensures failures { self.new.failures ≡ self.old.failures }
        ensures fits { result ≤ length datagram.now }
        ensures dropped { Drops (strangers_of self.old) (Some result) (strangers_of self.new) }
    {
        if self.is_heard(from, datagram) {
            if !datagram.is_empty() {
                self.last = Some(from);
            }
            return datagram.len();
        }
        self.strangers = self.strangers.saturating_add(1);
        0
    }
}

impl<S: Socket, C: Clock> UdpWire<S, C> {
    /// The clock's reading, for a member.
    fn now(&self) -> Option<Instant> {
        if self.me == CLIENT {
            return None;
        }
        Instant::now(&self.clock).ok()
    }

    /// Takes the time between two readings off what is left of the wait, or the most that counts.
    fn pass(&mut self, from: Option<Instant>, to: Option<Instant>, most: Duration)
        ensures still { IsStill (S.traffic (socket_of self.old)) (S.traffic (socket_of self.new)) self.old self.new }
        ensures failures { self.new.failures ≡ self.old.failures }
        ensures strangers { self.new.strangers ≡ self.old.strangers }
    {
        if let (Some(from), Some(to)) = (from, to) {
            let passed = to.duration_since(from).min(most);
            self.left = self.left.saturating_sub(passed);
        }
    }

    /// Ends the wait.
    fn end_wait(&mut self)
        ensures still { IsStill (S.traffic (socket_of self.old)) (S.traffic (socket_of self.new)) self.old self.new }
        ensures failures { self.new.failures ≡ self.old.failures }
        ensures strangers { self.new.strangers ≡ self.old.strangers }
    {
        self.left = self.wait;
        self.since = None;
    }

    /// Whether any of the wait is left. The socket waits no longer than that. A client, whose clock isn't read, has all
    /// of it left.
    fn is_waiting(&mut self, now: Option<Instant>) -> bool
        ensures still { IsStill (S.traffic (socket_of self.old)) (S.traffic (socket_of self.new)) self.old self.new }
        ensures failures { self.old.failures ≤ self.new.failures }
        ensures strangers { self.new.strangers ≡ self.old.strangers }
    {
        self.pass(self.since, now, self.wait / PART);
        if self.left.is_zero() {
            return false;
        }
        let _is_blocking = self.set_blocking(true);
        let _is_set = self.set_timeout(self.left);
        true
    }

    /// Where a datagram for this member goes.
    fn address(&self, to: u8) -> Option<SocketAddr>
        ensures there { IfSome result (λ there. GoesTo (peers_of self.now) (me_of self.now) to there) }
        ensures none { result ≡ None → HasNoAddress (peers_of self.now) (me_of self.now) to }
        ensures client { me_of self.now ≢ CLIENT → to ≡ CLIENT → result ≡ last_of self.now }
    {
        if self.me != CLIENT && to == CLIENT {
            return self.last;
        }
        let place = if self.me == CLIENT { 0 } else { to };
        let found = self.peers.get(usize::from(place));
        found.map(|address| address.socket())
    }

    /// Whether all of the bytes were sent there.
    fn sent_to(&mut self, bytes: &[u8], to: SocketAddr) -> bool
        ensures went { Adds (S.traffic (socket_of self.old)) (S.traffic (socket_of self.new)) (Went to bytes.now ∷ []) }
        ensures rest { (peers_of self.new ≡ peers_of self.old) × (me_of self.new ≡ me_of self.old) ×
            (self.new.failures ≡ self.old.failures) }
        ensures hears { hears_of self.new ≡ hears_of self.old }
        ensures last { last_of self.new ≡ last_of self.old }
    {
        self.socket.send(bytes, to).is_ok_and(|n| n == bytes.len())
    }
}

impl<S: Socket, C: Clock> Wire for UdpWire<S, C> {
    ghost traffic = { λ w es. WentOver (S.traffic w.socket) w es };

    ghost failed = { λ w. w.failures };

    ghost identity = { λ w. with_route (map shown_address (peers_of w)) (me_of w) plain };

    fn recv(&mut self, into: &mut [u8]) -> Option<usize>
        ensures dropped { Drops (strangers_of self.old) result (strangers_of self.new) }
        ensures fits { IfSome result (λ n. n ≤ length into.new) }
        ensures hears { hears_of self.new ≡ hears_of self.old }
        ensures same { with_route (map shown_address (peers_of self.new)) (me_of self.new) plain ≡
            with_route (map shown_address (peers_of self.old)) (me_of self.old) plain }
        ensures members { hears_of self.old ≡ false → IfSome result (λ n. 0 < n → option_map (λ there.
            list_any (λ a. ⟦<Address as PartialEq>⟧.eq a (address_at there)) (peers_of self.old)) (last_of self.new)
            ≡ Some true) }
        ensures gave { Adds (WentOver (S.traffic (socket_of self.old)) self.old)
            (WentOver (S.traffic (socket_of self.new)) self.new) (gives (option_map (λ n. take n into.new) result)) }
        ensures counts { self.old.failures ≤ self.new.failures }
    {
        let began = self.now();
        if !self.is_waiting(began) {
            self.end_wait();
            return None;
        }
        match self.socket.receive(into) {
            Ok((n, from)) => {
                self.since = self.now();
                self.pass(began, self.since, self.wait);
                Some(self.admit(from, &into[..n]))
            }
            Err(kind) => {
                self.met(kind);
                self.end_wait();
                None
            }
        }
    }

    fn poll(&mut self, into: &mut [u8]) -> Option<usize>
        ensures dropped { Drops (strangers_of self.old) result (strangers_of self.new) }
        ensures fits { IfSome result (λ n. n ≤ length into.new) }
        ensures hears { hears_of self.new ≡ hears_of self.old }
        ensures same { with_route (map shown_address (peers_of self.new)) (me_of self.new) plain ≡
            with_route (map shown_address (peers_of self.old)) (me_of self.old) plain }
        ensures members { hears_of self.old ≡ false → IfSome result (λ n. 0 < n → option_map (λ there.
            list_any (λ a. ⟦<Address as PartialEq>⟧.eq a (address_at there)) (peers_of self.old)) (last_of self.new)
            ≡ Some true) }
        ensures gave { Adds (WentOver (S.traffic (socket_of self.old)) self.old)
            (WentOver (S.traffic (socket_of self.new)) self.new) (gives (option_map (λ n. take n into.new) result)) }
        ensures counts { self.old.failures ≤ self.new.failures }
    {
        if !self.set_blocking(false) {
            return None;
        }
        match self.socket.receive(into) {
            Ok((n, from)) => Some(self.admit(from, &into[..n])),
            Err(kind) => {
                self.met(kind);
                None
            }
        }
    }

    fn wait(&mut self, milliseconds: u32)
        ensures hears { hears_of self.new ≡ hears_of self.old }
        ensures same { with_route (map shown_address (peers_of self.new)) (me_of self.new) plain ≡
            with_route (map shown_address (peers_of self.old)) (me_of self.old) plain }
        ensures quiet { IsQuiet (WentOver (S.traffic (socket_of self.old)) self.old)
            (WentOver (S.traffic (socket_of self.new)) self.new) }
        ensures counts { self.old.failures ≤ self.new.failures }
    {
        if milliseconds == 0 || !self.set_blocking(true) {
            return;
        }
        if !self.set_timeout(Duration::from_millis(u64::from(milliseconds))) {
            return;
        }
        if let Err(kind) = self.socket.peek() {
            self.met(kind);
        }
    }

    fn due(&self, milliseconds: u32) -> u32
        ensures { result ≡ milliseconds }
    {
        milliseconds
    }

    fn send(&mut self, to: u8, bytes: &[u8]) -> bool
        ensures hears { hears_of self.new ≡ hears_of self.old }
        ensures same { with_route (map shown_address (peers_of self.new)) (me_of self.new) plain ≡
            with_route (map shown_address (peers_of self.old)) (me_of self.old) plain }
        ensures handed { Adds (WentOver (S.traffic (socket_of self.old)) self.old)
            (WentOver (S.traffic (socket_of self.new)) self.new) (Handed to bytes.now ∷ []) }
        ensures counts { Counts result self.old.failures self.new.failures }
    {
        let sent = match self.address(to) {
            Some(there) => self.sent_to(bytes, there),
            None => false,
        };
        self.failures = self.failures.saturating_add(u64::from(!sent));
        sent
    }

    fn failures(&self) -> u64 {
        self.failures
    }
}
