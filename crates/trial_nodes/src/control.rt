//! Three members with a key and a control socket each, in one process and thread: each is asked a change there.
//!
//! A run of a member ends with its call. So the member that is asked runs until its client stops it, and whenever it is
//! to be decided whether its clock ticks, the next of the others runs for a few turns, over its record.
ghost use Rattle.std.specs.Prelude.{◌≡◌, ◌<◌, ⊤};

use crate::parties::{Party, are_same};
use node_control::{ControlPlace, Observer, run_member};
use node_loop::{Action, Ended, TickTimer, Timer, View};
use node_udp::UdpWire;
use pf_node::{Membership, Node, Outcome};
use px_packet::{PacketKeys, Start};
use px_records::{MemoryRecords, Records};
use px_transport::{LoopbackWire, PacketWire};
use std::io::{self, Read, Write};
use std::net::UdpSocket;
use std::os::fd::RawFd;
use std::os::unix::net::UnixStream;
use std::panic::Expect;

const KEY: [u8; 32] = [9; 32];

static MEMBERS: [&str; 3] = ["127.0.0.1:39451", "127.0.0.1:39452", "127.0.0.1:39453"];

/// The paths of their control sockets.
static SOCKETS: [&str; 3] = ["control0", "control1", "control2"];

/// A change: which member is asked, what, and what is answered.
#[derive(Clone, Copy)]
struct Change {
    me: u8,
    body: &'static str,
    answer: &'static str,
}

/// The changes, in order.
static CHANGES: [Change; 5] = [
    Change {
        me: 0,
        body: "-f -\nblock from <bad>\npass out\n",
        answer: "asked 0.0\n",
    },
    Change {
        me: 1,
        body: "-t bad -T add 203.0.113.9",
        answer: "asked 1.0\n",
    },
    Change {
        me: 2,
        body: "-a web -f -\npass in proto tcp\n",
        answer: "asked 2.0\n",
    },
    Change {
        me: 0,
        body: "-t bad -T add 203.0.113.10",
        answer: "asked 0.1\n",
    },
    Change {
        me: 2,
        body: "-t bad -T delete 203.0.113.9",
        answer: "asked 2.1\n",
    },
];

/// For how many turns the member that is asked runs at most, and another one at a time.
const TURNS: u64 = 4_000;

const FEW: u64 = 4;

/// When a client has waited long enough for the members, in microseconds.
const PATIENCE: u64 = 10_000_000;

/// Packets over UDP, and what a member sends to itself.
type Packets = LoopbackWire<PacketWire<UdpWire<UdpSocket, HostRuntime>, HostRuntime>>;

/// A wire of the member with this number, at a start with this one, and the descriptor of its socket.
fn wire_of(rt: &HostRuntime, me: u8, start: u32) -> Option<(Packets, RawFd)> {
    let mut below = UdpWire::bind(rt, rt.alloc(), &MEMBERS, me, 5).ok()?;
    below.hear_members();
    let fd = below.raw_fd();
    let start = Start {
        number: start,
        salt: u32::from(me),
    };
    let keys = PacketKeys::new(&KEY, None);
    match PacketWire::new(rt.alloc(), below, *rt, keys, 7, 3, me, start) {
        Ok(wire) => Some((LoopbackWire::new(rt.alloc(), wire, me), fd)),
        Err(_) => None,
    }
}

/// A member between two runs.
#[derive(Drop)]
struct Member {
    m: Membership,
    records: MemoryRecords,
    wire: Packets,
    fd: RawFd,
    /// How many positions it had applied at the end of its last run.
    applied: u32,
    ghost here: { m.me < m.members },
    ghost same: { ⟦<MemoryRecords as Records>⟧.members records ≡ m.members },
}

/// The member with this record and wire, none where the record is of a cluster of another size.
fn member_of(
    m: Membership,
    records: MemoryRecords,
    wire: Packets,
    fd: RawFd,
    applied: u32,
) -> Option<Member> {
    if m.me() < m.members() && records.members() == m.members() {
        Some(Member {
            m,
            records,
            wire,
            fd,
            applied,
        })
    } else {
        None
    }
}

/// How many positions were applied at the end of a run.
fn applied_by(ended: &Ended) -> u32 {
    match ended {
        Ended::Front { front: _, applied } | Ended::Stopped { front: _, applied } => *applied,
        _ => 0,
    }
}

impl Member {
    /// The member with this number of three, over its record, at a start with this number.
    fn start(rt: &HostRuntime, me: u8, records: MemoryRecords, start: u32) -> Option<Member> {
        let m = Membership::new(7, 3, me)?;
        let (wire, fd) = wire_of(rt, me, start)?;
        member_of(m, records, wire, fd, 0)
    }

    /// Runs at its control socket.
    fn run<T: Timer>(self, rt: &HostRuntime, timer: &mut T, turns: u64) -> Option<Member> {
        let alloc = rt.alloc();
        let Member {
            m,
            records,
            mut wire,
            fd,
            applied: _,
        } = self;
        let Ok(mut observer) = Observer::new(alloc, m, true, true) else {
            return None;
        };
        let place = ControlPlace {
            path: *SOCKETS.get(usize::from(m.me()))?,
            figures: None,
            members: "127.0.0.1:39451 127.0.0.1:39452 127.0.0.1:39453",
            fd,
        };
        let (ended, records) = run_member(
            rt,
            alloc,
            m,
            records,
            &mut wire,
            timer,
            &mut observer,
            false,
            Some(place),
            turns,
        );
        member_of(m, records, wire, fd, applied_by(&ended))
    }
}

/// The timer of a member that runs for a few turns: the one that a node has, with short waits.
#[derive(Drop)]
struct ShortWaits {
    timer: TickTimer,
}

impl Timer for ShortWaits {
    ghost timer_events = { λ _ _. ⊤ };

    ghost listens = { λ s now. ⟦<TickTimer as Timer>⟧.listens s.timer now };

    fn action(&mut self, now: u64, view: View) -> Action {
        match self.timer.action(now, view) {
            Action::Tick => Action::Tick,
            Action::Wait(_) => Action::Wait(1),
        }
    }

    fn sent(&mut self, now: u64) {
        self.timer.sent(now)
    }

    fn repeats(&mut self, now: u64) -> bool {
        self.timer.repeats(now)
    }

    fn end(&mut self) {
        self.timer.end()
    }

    fn is_listening(&self, now: u64) -> bool {
        self.timer.is_listening(now)
    }
}

/// The timer of the member that is asked: before each of its decisions another member runs, and the client goes on.
#[derive(Drop)]
struct Asked<'a> {
    rt: &'a HostRuntime,
    timer: ShortWaits,
    others: Vec<Member>,
    socket: &'static str,
    change: Change,
    /// How many positions each member is to apply.
    count: u32,
    /// The client's connections: the one of the change, and then the one of the stop.
    clients: Vec<UnixStream>,
}

impl Asked<'_> {
    /// The other member that has waited longest runs for a few turns.
    fn run_next(&mut self) {
        if self.others.is_empty() {
            return;
        }
        let member = self.others.remove(0);
        let mut timer = ShortWaits {
            timer: TickTimer::new(member.m.me()),
        };
        if let Some(member) = member.run(self.rt, &mut timer, FEW) {
            let _is_back = self.others.push(member);
        }
    }

    /// The client connects to the control socket, and sends a request.
    fn ask(&mut self, target: &str, body: &str) -> io::Result<()> {
        let alloc = self.rt.alloc();
        let mut stream = UnixStream::connect(self.rt, self.socket)?;
        let request = format!(in alloc;
            "POST {target} HTTP/1.1\r\nhost: pfx\r\ncontent-length: {}\r\n\r\n{body}",
            body.len()
        )?;
        stream.write_all(request.as_bytes())?;
        self.clients.push(stream)?;
        Ok(())
    }

    /// The client asks the change as soon as the member accepts changes, and the stop once all have applied it.
    fn go_on(&mut self, now: u64, front: u32) -> io::Result<()> {
        let is_late = now > PATIENCE;
        let Change { body, .. } = self.change;
        match self.clients.len() {
            0 if is_late || !self.is_listening(now) => self.ask("/v1/changes", body),
            1 if is_late || (front >= self.count && have_applied(&self.others, self.count)) => {
                self.ask("/v1/stop", "")
            }
            _ => Ok(()),
        }
    }
}

impl Timer for Asked<'_> {
    ghost timer_events = { λ _ _. ⊤ };

    ghost listens = { λ s now. ⟦<ShortWaits as Timer>⟧.listens s.timer now };

    fn action(&mut self, now: u64, view: View) -> Action {
        self.run_next();
        let _went = self.go_on(now, view.front);
        self.timer.action(now, view)
    }

    fn sent(&mut self, now: u64) {
        self.timer.sent(now)
    }

    fn repeats(&mut self, now: u64) -> bool {
        self.timer.repeats(now)
    }

    fn end(&mut self) {
        self.timer.end()
    }

    fn is_listening(&self, now: u64) -> bool {
        self.timer.is_listening(now)
    }
}

/// Whether each has applied that many positions.
fn have_applied(members: &[Member], count: u32) -> bool {
    for member in members {
        if member.applied < count {
            return false;
        }
    }
    true
}

/// Removes the member with this number from the others.
fn remove(members: &mut Vec<Member>, me: u8) -> Option<Member> {
    for place in 0..members.len() {
        let is_it = match members.get(place) {
            Some(member) => member.m.me() == me,
            None => false,
        };
        if is_it {
            return Some(members.remove(place));
        }
    }
    None
}

/// Whether the client got an answer of this status with this body, over a connection that is closed.
fn is_answered(rt: &HostRuntime, stream: &mut UnixStream, status: &str, body: &str) -> bool {
    let mut answer = String::new(rt.alloc());
    if stream.read_to_string(&mut answer).is_err() {
        return false;
    }
    let (head, rest) = answer.split_once("\r\n\r\n").unwrap_or(("", ""));
    head.lines().next() == Some(status) && rest == body
}

/// Whether the client was answered that the change is asked under this number, and then that the member stops.
fn are_answered(rt: &HostRuntime, clients: &mut [UnixStream], asked: &str) -> bool {
    match clients {
        [change, stop] => {
            is_answered(rt, change, "HTTP/1.1 202 Accepted", asked)
                && is_answered(rt, stop, "HTTP/1.1 200 OK", "stopping\n")
        }
        _ => false,
    }
}

/// The change of this number is asked at the control socket of its member, among those that run: they are given back
/// where it is answered so, and each has applied all changes up to it.
fn ask(rt: &HostRuntime, mut members: Vec<Member>, number: u32) -> Option<Vec<Member>> {
    let change = *CHANGES.get(number as usize)?;
    let count = number.saturating_add(1);
    let member = remove(&mut members, change.me)?;
    let mut timer = Asked {
        rt,
        timer: ShortWaits {
            timer: TickTimer::new(change.me),
        },
        others: members,
        socket: *SOCKETS.get(usize::from(change.me))?,
        change,
        count,
        clients: Vec::new(rt.alloc()),
    };
    let member = member.run(rt, &mut timer, TURNS)?;
    let Asked {
        others: mut members,
        mut clients,
        ..
    } = timer;
    members.push(member).ok()?;
    if are_answered(rt, &mut clients, change.answer) && have_applied(&members, count) {
        Some(members)
    } else {
        None
    }
}

/// All three members, at their first starts.
fn all(rt: &HostRuntime) -> Option<Vec<Member>> {
    let alloc = rt.alloc();
    let mut members = Vec::new(alloc);
    for me in 0..3u8 {
        let records = MemoryRecords::new(alloc, 3);
        members.push(Member::start(rt, me, records, 1)?).ok()?;
    }
    Some(members)
}

/// Each of the three is asked a change.
fn ask_each(rt: &HostRuntime, members: Vec<Member>) -> Option<Vec<Member>> {
    let members = ask(rt, members, 0)?;
    let members = ask(rt, members, 1)?;
    ask(rt, members, 2)
}

/// The last member is stopped, another one is asked meanwhile, and the last one is started again over its record and is
/// asked.
fn stop_and_return(rt: &HostRuntime, mut members: Vec<Member>) -> Option<Vec<Member>> {
    let Member {
        records,
        wire,
        applied,
        ..
    } = remove(&mut members, 2)?;
    drop(wire);
    let mut members = ask(rt, members, 3)?;
    if applied != 3 {
        return None;
    }
    members.push(Member::start(rt, 2, records, 2)?).ok()?;
    ask(rt, members, 4)
}

/// The nodes over the members' records.
fn opened(rt: &HostRuntime, members: Vec<Member>) -> Option<Vec<Party<Packets>>> {
    let mut parties = Vec::new(rt.alloc());
    for member in members {
        let Member {
            m,
            records,
            wire,
            ..
        } = member;
        match Node::open(rt.alloc(), m, records) {
            Ok(node) => parties.push(Party { node, wire }).ok()?,
            Err(_) => return None,
        }
    }
    Some(parties)
}

/// Whether each node has done five changes, of which the last one removed what the second one added.
fn have_done(parties: &[Party<Packets>]) -> bool {
    for party in parties {
        let done = (party.node.outcome(1), party.node.outcome(4));
        if done != (Some(Outcome::Done(1, 0)), Some(Outcome::Done(0, 1)))
            || party.node.applied() != 5
        {
            return false;
        }
    }
    true
}

#[test]
fn members_that_are_asked_at_their_control_sockets_agree(rt: HostRuntime) {
    let members = all(&rt).expect(&rt, "three members");
    let members = ask_each(&rt, members).expect(&rt, "three changes that all apply");
    let members = stop_and_return(&rt, members).expect(&rt, "two more, one without the last");
    let parties = opened(&rt, members).expect(&rt, "three nodes");
    assert!(rt; have_done(&parties) && are_same(rt.alloc(), &parties));
}
