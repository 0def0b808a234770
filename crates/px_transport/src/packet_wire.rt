//! A wire over another one, on which datagrams go as sealed packets (px_packet).

ghost use Rattle.std.specs.Prelude.{◌≡◌, ◌≤◌, IfOk, IfSome, length, option_map, take};
ghost use Rattle.px_transport.specs.Wires.{Counts, Adds, gives};
ghost use Rattle.px_transport.specs.declared.packet_wire.TheConstants.{ROOM_BYTES};
ghost use Rattle.px_transport.specs.Sending.{time_left};

use crate::coming::Coming;
use crate::opening::take_packet;
use crate::outgoing::none_sent;
use crate::receiver::Receiver;
use crate::sender::{PACKET_MAX, Sender, To};
use crate::wire::Wire;
use px_packet::{PacketKeys, PiecesHeld, Start};
use std::alloc::{AllocError, Global};
use std::time::{Clock, Instant};

/// Room for what comes.
const ROOM_BYTES: usize = 33_056;

/// How many reports are sent to a member before each receive and each wait at most.
const REPORTS_MAX: u8 = 8;

/// A wire over which datagrams go as packets of the second format, sealed with the cluster's key for one other member
/// each. What is longer than a packet is cut, and reassembled by its receiver. What isn't heard is given as an empty
/// datagram, which is no member's, and is counted.
///
/// Beside what it is handed it sends packets of kind state, each second and to a member that showed a new start; which
/// pieces of a datagram have come; and pieces again that a member lacks.
#[derive(Drop)]
pub struct PacketWire<W, C> {
    inner: W,
    clock: C,
    /// The clock's reading when the wire was made.
    began: Option<Instant>,
    sender: Sender,
    receiver: Receiver,
    /// Room for what comes.
    incoming: Vec<u8>,
    failures: u64,
    dropped: u64,
    copies: u64,
    ghost room: { length incoming.items ≡ ROOM_BYTES },
}

/// The clock's reading.
fn reading<C: Clock>(clock: &C) -> Option<Instant> {
    Instant::now(clock).ok()
}

/// How many of the given number of milliseconds are left before something is due.
fn time_left(due: u64, now: u64, milliseconds: u32) -> u32
    ensures left { result ≡ time_left due now milliseconds }
    ensures within { result ≤ milliseconds }
{
    due.saturating_sub(now).min(u64::from(milliseconds)) as u32
}

/// How many sends failed with this one.
fn count_sent(failures: u64, sent: bool) -> u64
    ensures counts { Counts sent failures result }
    ensures rises { failures ≤ result }
{
    failures.saturating_add(u64::from(!sent))
}

/// How many sends and receives failed with those of the wire below, between two counts of these.
fn count_below(failures: u64, before: u64, after: u64) -> u64
    ensures { failures ≤ result }
{
    failures.saturating_add(after.saturating_sub(before))
}

impl<W: Wire + Drop, C: Clock + Drop> PacketWire<W, C> {
    ghost use Rattle.std.specs.Prelude.{[], IfOk, replicate};
    ghost use Rattle.px_packet.specs.Keyed as keyed;
    ghost use Rattle.px_transport.specs.Receiving.{Hears, unheard};
    ghost use Rattle.px_transport.specs.Sending.{new_to};
    ghost use Rattle.px_transport.specs.Wiring.{inner_of, sealer_of, keys_of, outgoing_of, receiver_of, failures_of};
    ghost use Rattle.px_transport.specs.Wiring.{dropped_of, copies_of, WentSealed};

    /// The wire of a member of a cluster, whose start is this. Takes its room once.
    pub fn new(
        alloc: Global,
        inner: W,
        clock: C,
        keys: PacketKeys,
        cluster: u32,
        members: u8,
        me: u8,
        start: Start,
    ) -> Result<PacketWire<W, C>, AllocError>
        ensures inner { IfOk result (λ w. inner_of w ≡ inner) }
        ensures sealer { IfOk result (λ w. sealer_of w ≡ record {
          cluster = cluster;
          members = members;
          me = me;
          start = start;
          key = keyed.key_of keys;
        }) }
        ensures keys { IfOk result (λ w. keys_of w ≡ keyed.keys_of keys) }
        ensures outgoing { IfOk result (λ w. outgoing_of w ≡ replicate members new_to) }
        ensures heard { IfOk result (λ w. Hears start (replicate members unheard) (receiver_of w)) }
        ensures counts { IfOk result (λ w. (failures_of w ≡ 0) × (dropped_of w ≡ 0) × (copies_of w ≡ 0)) }
        ensures traffic { IfOk result (λ w. W.traffic inner [] → WentSealed (W.traffic (inner_of w)) w []) }
    {
        Ok(PacketWire {
            inner,
            began: reading(&clock),
            clock,
            sender: Sender {
                keys,
                cluster,
                members,
                me,
                start,
                outgoing: none_sent(alloc, members)?,
                room: Vec::with_capacity(alloc, PACKET_MAX)?,
            },
            receiver: Receiver::new(alloc, members, start)?,
            incoming: vec![in alloc; 0; ROOM_BYTES]?,
            failures: 0,
            dropped: 0,
            copies: 0,
        })
    }
}

impl<W: Wire, C: Clock> PacketWire<W, C> {
    ghost use Rattle.std.specs.Prelude.{◌<◌, List};
    ghost use Rattle.px_transport.specs.Receiving.{Heard, Hears};
    ghost use Rattle.px_transport.specs.Wiring.{inner_of, sealer_of, keys_of, receiver_of, dropped_of, copies_of};
    ghost use Rattle.px_transport.specs.Wiring.{IsSameMember, IsSameCount, Leads, State, Report, Again, Does, DoesAll};
    ghost use Rattle.px_transport.specs.Wiring.{duties, upkeep, Takes, Received, WentSealed, outgoing_of};
    ghost use Rattle.px_transport.specs.Wiring.{next_due};

    /// The wire below, to be looked at.
    pub fn inner(&self) -> &W
        ensures { result.now ≡ inner_of self.now }
    {
        &self.inner
    }

    /// How many packets came that weren't heard, up to 2^64 - 1.
    pub fn dropped(&self) -> u64
        ensures { result ≡ dropped_of self.now }
    {
        self.dropped
    }

    /// How many of those were of a copied or restored machine, up to 2^64 - 1.
    pub fn copies(&self) -> u64
        ensures { result ≡ copies_of self.now }
    {
        self.copies
    }

    /// The time since the wire was made, in milliseconds; none has passed where the clock can't be read.
    fn now(&self) -> u64 {
        match (self.began, reading(&self.clock)) {
            (Some(began), Some(now)) => {
                u64::try_from(now.duration_since(began).as_millis()).unwrap_or(u64::MAX)
            }
            _ => 0,
        }
    }

    /// Sends a member a packet of kind state, if it is due.
    fn state_to(&mut self, member: u8, now: u64)
        requires { member < self.old.sender.members }
        ensures does { Leads W.traffic self.old self.new (Does (sealer_of self.old) now (State member)) }
        ensures member { IsSameMember self.old self.new }
        ensures count { IsSameCount self.old self.new }
        ensures rises { self.old.failures ≤ self.new.failures }
        ensures same { W.identity (inner_of self.new) ≡ W.identity (inner_of self.old) }
    {
        let echo = self.receiver.start_of(member);
        let to = To { member, echo };
        let sent = self.sender.send_state(&mut self.inner, to, now);
        self.failures = count_sent(self.failures, sent);
    }

    /// Sends a member which pieces of a datagram of it have come, if that is due.
    fn report_to(&mut self, member: u8, now: u64)
        requires { member < self.old.sender.members }
        ensures does { Leads W.traffic self.old self.new (Does (sealer_of self.old) now (Report member)) }
        ensures member { IsSameMember self.old self.new }
        ensures count { IsSameCount self.old self.new }
        ensures rises { self.old.failures ≤ self.new.failures }
        ensures same { W.identity (inner_of self.new) ≡ W.identity (inner_of self.old) }
    {
        let echo = self.receiver.start_of(member);
        let Some(held) = self.receiver.report(member, now) else {
            return;
        };
        let to = To { member, echo };
        let sent = self.sender.send_held(&mut self.inner, to, held);
        self.failures = count_sent(self.failures, sent);
    }

    /// Sends a member the pieces that it lacks of a datagram, while that is kept.
    fn pieces_again(&mut self, member: u8, held: PiecesHeld, now: u64)
        ensures does { Leads W.traffic self.old self.new (Does (sealer_of self.old) now (Again member held)) }
        ensures member { IsSameMember self.old self.new }
        ensures count { IsSameCount self.old self.new }
        ensures rises { self.old.failures ≤ self.new.failures }
        ensures same { W.identity (inner_of self.new) ≡ W.identity (inner_of self.old) }
    {
        self.sender.refill(member, now);
        let echo = self.receiver.start_of(member);
        if !self.sender.is_other(member) {
            self.failures = count_sent(self.failures, false);
            return;
        }
        let to = To { member, echo };
        let sent = self.sender.send_lacked(&mut self.inner, to, held);
        self.failures = count_sent(self.failures, sent);
    }

    /// Does what is due towards a member, if it is another one.
    fn keep_up_with(&mut self, member: u8, now: u64)
        requires { member < self.old.sender.members }
        ensures does { Leads W.traffic self.old self.new
            (DoesAll (sealer_of self.old) now (duties (sealer_of self.old) member)) }
        ensures member { IsSameMember self.old self.new }
        ensures count { IsSameCount self.old self.new }
        ensures rises { self.old.failures ≤ self.new.failures }
        ensures same { W.identity (inner_of self.new) ≡ W.identity (inner_of self.old) }
    {
        if !self.sender.is_other(member) {
            return;
        }
        self.state_to(member, now);
        for _ in 0..REPORTS_MAX {
            self.report_to(member, now);
        }
    }

    /// Does what is due towards each other member.
    fn keep_up(&mut self, now: u64)
        ensures does { Leads W.traffic self.old self.new
            (DoesAll (sealer_of self.old) now (upkeep (sealer_of self.old))) }
        ensures member { IsSameMember self.old self.new }
        ensures count { IsSameCount self.old self.new }
        ensures rises { self.old.failures ≤ self.new.failures }
        ensures same { W.identity (inner_of self.new) ≡ W.identity (inner_of self.old) }
    {
        for member in 0..self.sender.members {
            self.keep_up_with(member, now);
        }
    }

    /// When something is due next, in milliseconds since the wire was made.
    fn next_due(&self) -> u64
        ensures { (hs : List Heard) → Hears (sealer_of self.now).start hs (receiver_of self.now) →
            result ≡ next_due (sealer_of self.now) (outgoing_of self.now) hs }
    {
        let mut due = self.receiver.due().unwrap_or(u64::MAX);
        for member in 0..self.sender.members {
            let state = if self.sender.is_other(member) {
                self.sender.due(member, self.receiver.start_of(member))
            } else {
                u64::MAX
            };
            due = due.min(state);
        }
        due
    }

    /// Takes what came: how many bytes are given.
    fn hear(&mut self, n: usize, now: u64, into: &mut [u8]) -> usize
        requires { n ≤ length self.old.incoming.items }
        ensures takes { Leads W.traffic self.old self.new (λ k k'. Takes (keys_of self.old) (sealer_of self.old) now
            (take n self.old.incoming.items) (length into.old) (take result into.new) k k' (dropped_of self.old)
            (dropped_of self.new) (copies_of self.old) (copies_of self.new)) }
        ensures fits { result ≤ length into.new }
        ensures member { IsSameMember self.old self.new }
        ensures rises { self.old.failures ≤ self.new.failures }
        ensures same { W.identity (inner_of self.new) ≡ W.identity (inner_of self.old) }
    {
        let packet = &self.incoming[..n];
        match take_packet(&self.sender, &mut self.receiver, packet, now, into) {
            Coming::Given(n) => return n,
            Coming::Held(member, held) => self.pieces_again(member, held, now),
            Coming::Dropped => self.dropped = self.dropped.saturating_add(1),
            Coming::OtherMachine => {
                self.dropped = self.dropped.saturating_add(1);
                self.copies = self.copies.saturating_add(1);
            }
        }
        0
    }

    /// Receives a packet of the wire below, which is waited for or not, and counts what that failed at.
    fn receive_below(&mut self, waits: bool) -> Option<usize>
        ensures gave { Adds (W.traffic (inner_of self.old)) (W.traffic (inner_of self.new))
            (gives (option_map (λ n. take n self.new.incoming.items) result)) }
        ensures fits { IfSome result (λ n. n ≤ length self.new.incoming.items) }
        ensures sender { self.new.sender ≡ self.old.sender }
        ensures receiver { self.new.receiver ≡ self.old.receiver }
        ensures count { IsSameCount self.old self.new }
        ensures rises { self.old.failures ≤ self.new.failures }
        ensures same { W.identity (inner_of self.new) ≡ W.identity (inner_of self.old) }
    {
        let before = self.inner.failures();
        let into = self.incoming.as_mut_slice();
        let came = if waits {
            self.inner.recv(into)
        } else {
            self.inner.poll(into)
        };
        self.failures = count_below(self.failures, before, self.inner.failures());
        came
    }

    /// Does what is due, and takes what then comes over the wire below, which is waited for or not.
    fn receive(&mut self, waits: bool, into: &mut [u8]) -> Option<usize>
        ensures receives { Leads W.traffic self.old self.new (λ k k'. Received (keys_of self.old) (sealer_of self.old)
            (length into.old) (option_map (λ n. take n into.new) result) k k' (dropped_of self.old)
            (dropped_of self.new) (copies_of self.old) (copies_of self.new)) }
        ensures member { IsSameMember self.old self.new }
        ensures fits { IfSome result (λ n. n ≤ length into.new) }
        ensures gave { Adds (WentSealed (W.traffic (inner_of self.old)) self.old)
            (WentSealed (W.traffic (inner_of self.new)) self.new) (gives (option_map (λ n. take n into.new) result)) }
        ensures counts { self.old.failures ≤ self.new.failures }
        ensures same { W.identity (inner_of self.new) ≡ W.identity (inner_of self.old) }
    {
        let now = self.now();
        self.keep_up(now);
        let n = self.receive_below(waits)?;
        Some(self.hear(n, now, into))
    }
}

impl<W: Wire, C: Clock> Wire for PacketWire<W, C> {
    ghost use Rattle.std.specs.Prelude.{ℕ, List, [], ◌∷◌, IsTrue};
    ghost use Rattle.px_transport.specs.Wires.{IsQuiet, Handed};
    ghost use Rattle.px_transport.specs.Identities.{with_sealing};
    ghost use Rattle.px_transport.specs.Receiving.{Heard, Hears};
    ghost use Rattle.px_transport.specs.Wiring.{inner_of, sealer_of, keys_of, receiver_of, failures_of, dropped_of};
    ghost use Rattle.px_transport.specs.Wiring.{copies_of, IsSameMember, IsSameCount, Leads, Received, Waited, IsSent};
    ghost use Rattle.px_transport.specs.Wiring.{WentSealed, outgoing_of, next_due};

    ghost traffic = { λ w es. WentSealed (W.traffic w.inner) w es };

    ghost failed = { λ w. w.failures };

    ghost identity = { λ w. with_sealing (keys_of w) (sealer_of w) (W.identity w.inner) };

    fn recv(&mut self, into: &mut [u8]) -> Option<usize>
        ensures receives { Leads W.traffic self.old self.new (λ k k'. Received (keys_of self.old) (sealer_of self.old)
            (length into.old) (option_map (λ n. take n into.new) result) k k' (dropped_of self.old)
            (dropped_of self.new) (copies_of self.old) (copies_of self.new)) }
        ensures member { IsSameMember self.old self.new }
        ensures fits { IfSome result (λ n. n ≤ length into.new) }
        ensures gave { Adds (WentSealed (W.traffic (inner_of self.old)) self.old)
            (WentSealed (W.traffic (inner_of self.new)) self.new) (gives (option_map (λ n. take n into.new) result)) }
        ensures counts { failures_of self.old ≤ failures_of self.new }
        ensures same { with_sealing (keys_of self.new) (sealer_of self.new) (W.identity (inner_of self.new)) ≡
            with_sealing (keys_of self.old) (sealer_of self.old) (W.identity (inner_of self.old)) }
    {
        self.receive(true, into)
    }

    fn poll(&mut self, into: &mut [u8]) -> Option<usize>
        ensures receives { Leads W.traffic self.old self.new (λ k k'. Received (keys_of self.old) (sealer_of self.old)
            (length into.old) (option_map (λ n. take n into.new) result) k k' (dropped_of self.old)
            (dropped_of self.new) (copies_of self.old) (copies_of self.new)) }
        ensures member { IsSameMember self.old self.new }
        ensures fits { IfSome result (λ n. n ≤ length into.new) }
        ensures gave { Adds (WentSealed (W.traffic (inner_of self.old)) self.old)
            (WentSealed (W.traffic (inner_of self.new)) self.new) (gives (option_map (λ n. take n into.new) result)) }
        ensures counts { failures_of self.old ≤ failures_of self.new }
        ensures same { with_sealing (keys_of self.new) (sealer_of self.new) (W.identity (inner_of self.new)) ≡
            with_sealing (keys_of self.old) (sealer_of self.old) (W.identity (inner_of self.old)) }
    {
        self.receive(false, into)
    }

    fn wait(&mut self, milliseconds: u32)
        ensures waits { Leads W.traffic self.old self.new (Waited (sealer_of self.old)) }
        ensures member { IsSameMember self.old self.new }
        ensures count { IsSameCount self.old self.new }
        ensures quiet { IsQuiet (WentSealed (W.traffic (inner_of self.old)) self.old)
            (WentSealed (W.traffic (inner_of self.new)) self.new) }
        ensures counts { failures_of self.old ≤ failures_of self.new }
        ensures same { with_sealing (keys_of self.new) (sealer_of self.new) (W.identity (inner_of self.new)) ≡
            with_sealing (keys_of self.old) (sealer_of self.old) (W.identity (inner_of self.old)) }
    {
        let now = self.now();
        self.keep_up(now);
        let left = time_left(self.next_due(), now, milliseconds);
        let before = self.inner.failures();
        self.inner.wait(left);
        self.failures = count_below(self.failures, before, self.inner.failures());
    }

    fn due(&self, milliseconds: u32) -> u32
        ensures due { (hs : List Heard) → Hears (sealer_of self.now).start hs (receiver_of self.now) → (now : ℕ) ×
            (result ≡ time_left (next_due (sealer_of self.now) (outgoing_of self.now) hs) now milliseconds) }
        ensures within { result ≤ milliseconds }
    {
        time_left(self.next_due(), self.now(), milliseconds)
    }

    fn send(&mut self, to: u8, bytes: &[u8]) -> bool
        ensures sent { Leads W.traffic self.old self.new (IsSent (sealer_of self.old) to bytes.now result) }
        ensures receiver { receiver_of self.new ≡ receiver_of self.old }
        ensures member { IsSameMember self.old self.new }
        ensures count { IsSameCount self.old self.new }
        ensures handed { Adds (WentSealed (W.traffic (inner_of self.old)) self.old)
            (WentSealed (W.traffic (inner_of self.new)) self.new) (Handed to bytes.now ∷ []) }
        ensures counts { Counts result (failures_of self.old) (failures_of self.new) }
        ensures same { with_sealing (keys_of self.new) (sealer_of self.new) (W.identity (inner_of self.new)) ≡
            with_sealing (keys_of self.old) (sealer_of self.old) (W.identity (inner_of self.old)) }
    {
        let now = self.now();
        self.sender.refill(to, now);
        if !self.sender.is_other(to) {
            self.failures = count_sent(self.failures, false);
            return false;
        }
        let echo = self.receiver.start_of(to);
        let to = To { member: to, echo };
        let sent = self.sender.send(&mut self.inner, to, bytes);
        self.failures = count_sent(self.failures, sent);
        sent
    }

    fn failures(&self) -> u64 {
        self.failures
    }
}
