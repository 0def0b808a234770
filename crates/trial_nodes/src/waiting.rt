//! How long a node with a control socket waits: till a datagram comes, or as long as its timer says.

ghost use Rattle.std.specs.Prelude.{⊤, false};

use node_control::{ControlPlace, Observer, run_member};
use node_loop::{Action, Timer, View};
use node_udp::UdpWire;
use pf_node::Membership;
use px_records::MemoryRecords;
use px_transport::LoopbackWire;
use std::net::UdpSocket;
use std::panic::Expect;
use std::time::{Duration, Instant};

/// How long each wait is, in milliseconds, and half of that.
const WAIT: u32 = 80;

const HALF: u128 = 40;

/// A timer behind every third look of which a datagram comes, and none behind the others.
#[derive(Drop)]
struct Waits<'a> {
    rt: &'a HostRuntime,
    stranger: &'a UdpSocket,
    node: &'a str,
    looks: u32,
    last: Option<Instant>,
    /// The shortest wait for a datagram, and the longest for nothing.
    woken: Duration,
    idle: Duration,
}

impl Waits<'_> {
    /// Takes the time of the wait before this look.
    fn measure(&mut self) {
        let (Some(last), Ok(now)) = (self.last, Instant::now(self.rt)) else {
            return;
        };
        let waited = now.duration_since(last);
        if self.looks % 3 == 1 {
            self.woken = self.woken.min(waited);
        } else {
            self.idle = self.idle.max(waited);
        }
    }
}

impl Timer for Waits<'_> {
    ghost timer_events = { λ _ _. ⊤ };

    ghost listens = { λ _ _. false };

    fn action(&mut self, _now: u64, _view: View) -> Action {
        self.measure();
        self.looks = self.looks.saturating_add(1);
        if self.looks % 3 == 1 {
            let _sent = self.stranger.send_to(b"a datagram", self.node);
        }
        self.last = Instant::now(self.rt).ok();
        Action::Wait(WAIT)
    }

    fn sent(&mut self, _now: u64) {}

    fn repeats(&mut self, _now: u64) -> bool {
        false
    }

    fn end(&mut self) {}

    fn is_listening(&self, _now: u64) -> bool {
        false
    }
}

/// The shortest wait of a node for a datagram, and the longest for nothing.
fn shortest(rt: &HostRuntime, node: &str, stranger: &UdpSocket) -> Option<(Duration, Duration)> {
    let alloc = rt.alloc();
    let m = Membership::new(7, 1, 0)?;
    if m.me() >= m.members() {
        return None;
    }
    let wire = UdpWire::bind(rt, alloc, &[node], 0, 100).ok()?;
    let place = ControlPlace {
        path: "waiting",
        figures: None,
        members: node,
        fd: wire.raw_fd(),
    };
    let mut wire = LoopbackWire::new(alloc, wire, 0);
    let Ok(mut observer) = Observer::new(alloc, m, false, true) else {
        return None;
    };
    let mut timer = Waits {
        rt,
        stranger,
        node,
        looks: 0,
        last: None,
        woken: Duration::from_secs(60),
        idle: Duration::from_secs(0),
    };
    let records = MemoryRecords::new(alloc, m.members());
    let (_ended, records) = run_member(
        rt,
        alloc,
        m,
        records,
        &mut wire,
        &mut timer,
        &mut observer,
        true,
        Some(place),
        24,
    );
    drop(records);
    Some((timer.woken, timer.idle))
}

#[test]
fn a_datagram_ends_a_wait(rt: HostRuntime) {
    let alloc = rt.alloc();
    let stranger = UdpSocket::bind(&rt, "127.0.0.1:0").expect(&rt, "a socket");
    let free = UdpSocket::bind(&rt, "127.0.0.1:0").expect(&rt, "a socket");
    let node = free.local_addr().expect(&rt, "an address");
    drop(free);
    let node = node.to_string(alloc).expect(&rt, "memory");
    let (woken, idle) = shortest(&rt, node.as_str(), &stranger).expect(&rt, "a run");
    assert!(rt; woken.as_millis() < HALF && idle.as_millis() >= HALF);
}
