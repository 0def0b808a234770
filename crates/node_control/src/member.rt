//! A member's run, with a control socket or without one.

ghost use Rattle.std.specs.Prelude.{◌≡◌, ◌<◌, [], None, Ok, IfErr, option_map, unwrap_or};
ghost use Rattle.px_model.specs.Step.{front};
ghost use Rattle.pf_node.specs.Nodes.{learned_by, applied_of, membership_of};
ghost use Rattle.px_transport.specs.Wires.{Moves};
ghost use Rattle.node_loop.specs.Runs.{HostedRuns, Hosts, OnFront, Runs, Serves};
ghost use Rattle.node_loop.specs.Timing.{MakesTurns};
ghost use Rattle.node_control.specs.Observers.{HasSeenNothing};
ghost use Rattle.node_control.specs.inner.Runs.{IsSocketless, ended_as};

use crate::control::{ControlFault, ControlSocket};
use crate::observer::Observer;
use crate::running::pass_on;
use crate::service::HttpService;
use node_loop::{Ended, Membership, NodeFault, SystemClock, Timer, TurnBuffers, Wire};
use pf_node::Node;
use px_records::Records;
use std::alloc::Global;
use std::fs::Files;
use std::hash::RandomState;
use std::io::Eprint;
use std::net::{Net, SocketAddr, TcpListener, TcpStream};
use std::os::fd::RawFd;
use std::random::RandomSource;
use std::time::Clock;

/// Where a running node is asked.
#[derive(Clone, Copy)]
pub struct ControlPlace<'a> {
    /// The path of its control socket.
    pub path: &'a str,
    /// The port at which figures are served over TCP, if they are.
    pub figures: Option<SocketAddr>,
    /// Where each member listens, in the order of their numbers, with a blank between two.
    pub members: &'a str,
    /// The descriptor of the members' socket.
    pub fd: RawFd,
}

/// The control socket at the place, if there is to be one. A wait at it ends, too, when a datagram comes.
fn open_at<RT>(
    rt: &RT,
    alloc: Global,
    place: Option<ControlPlace<'_>>,
) -> Result<Option<ControlSocket>, Ended>
where
    RT: Files + Net<Listener = TcpListener, Stream = TcpStream> + RandomSource,
    ensures none { place.entry ≡ None → result ≡ Ok None }
    ensures fault { IfErr result IsSocketless }
{
    let Some(place) = place else {
        return Ok(None);
    };
    let keys = RandomState::new(rt).map_err(|_| Ended::NoControlSocket)?;
    match ControlSocket::open(rt, alloc, keys, place.path, place.figures) {
        Ok(mut control) => {
            let wakes = control.watch(place.fd);
            wakes.then_some(Some(control)).ok_or(Ended::NoControlSocket)
        }
        Err(ControlFault::Memory) => Err(Ended::Fault(NodeFault::Memory)),
        Err(ControlFault::NoSocket) => Err(Ended::NoControlSocket),
        Err(ControlFault::NoPort) => Err(Ended::NoPort),
    }
}

/// Where the members listen, as clients are answered.
fn members_at<'a>(place: Option<ControlPlace<'a>>) -> &'a str
    ensures { result.now ≡ unwrap_or (option_map (λ p. p.members.now) place.entry) [] }
{
    place.map_or("", |place| place.members)
}

/// How a node's turns ended: whether an operator asked for that, or a fault.
fn ended_of<R: Records>(is_stopped: Result<bool, NodeFault>, node: &Node<R>) -> Ended
    ensures { result ≡ ended_as (front (learned_by node.now)) (applied_of node.now) is_stopped }
{
    let (front, applied) = (node.front(), node.applied());
    match is_stopped {
        Ok(false) => Ended::Front { front, applied },
        Ok(true) => Ended::Stopped { front, applied },
        Err(fault) => Ended::Fault(fault),
    }
}

/// A node runs, and is given back.
fn run_node<R: Records, W: Wire, T: Timer, RT: Clock + Eprint>(
    rt: &RT,
    alloc: Global,
    node: Node<R>,
    wire: &mut W,
    timer: &mut T,
    observer: &mut Observer,
    members: &str,
    hears_asks: bool,
    control: &mut Option<ControlSocket>,
    turns: u64,
) -> (Ended, Node<R>)
    requires new { HasSeenNothing (membership_of node) observer.old }
    ensures hosted { Moves (W.traffic wire.old) (W.traffic wire.new)
        (λ es es'. Hosts node result.1 es es' hears_asks result.0) }
    ensures turns { control.old ≡ None →
        Moves (W.traffic wire.old) (W.traffic wire.new) (λ es es'. Serves node result.1 es es' result.0) }
    ensures made { OnFront result.0 (MakesTurns turns (T.timer_events timer.old) (T.timer_events timer.new)) }
    ensures same { W.identity wire.new ≡ W.identity wire.old }
{
    let Ok(counters) = observer.first_counters(alloc, members) else {
        return (Ended::Fault(NodeFault::Memory), node);
    };
    let Ok(mut buffers) = TurnBuffers::new(alloc, &node.membership(), hears_asks) else {
        return (Ended::Fault(NodeFault::Memory), node);
    };
    let mut service = HttpService::new(alloc, node, counters);
    let mut clock = SystemClock { clock: rt };
    let (own, kept) = (&mut service, &mut buffers);
    let is_stopped = pass_on(
        rt, own, wire, observer, kept, control, timer, &mut clock, turns,
    );
    let node = service.close();
    (ended_of(is_stopped, &node), node)
}

/// The same with the control socket at the place, which is closed in the end.
fn run_at<R: Records, W: Wire, T: Timer, RT>(
    rt: &RT,
    alloc: Global,
    node: Node<R>,
    wire: &mut W,
    timer: &mut T,
    observer: &mut Observer,
    hears_asks: bool,
    place: Option<ControlPlace<'_>>,
    turns: u64,
) -> (Ended, Node<R>)
where
    RT: Clock + Eprint + Files + Net<Listener = TcpListener, Stream = TcpStream> + RandomSource,
    requires new { HasSeenNothing (membership_of node) observer.old }
    ensures hosted { Moves (W.traffic wire.old) (W.traffic wire.new)
        (λ es es'. Hosts node result.1 es es' hears_asks result.0) }
    ensures turns { place.entry ≡ None →
        Moves (W.traffic wire.old) (W.traffic wire.new) (λ es es'. Serves node result.1 es es' result.0) }
    ensures made { OnFront result.0 (MakesTurns turns (T.timer_events timer.old) (T.timer_events timer.new)) }
    ensures same { W.identity wire.new ≡ W.identity wire.old }
{
    let mut opened = match open_at(rt, alloc, place) {
        Ok(opened) => opened,
        Err(ended) => return (ended, node),
    };
    let members = members_at(place);
    let (ended, node) = run_node(
        rt,
        alloc,
        node,
        wire,
        timer,
        observer,
        members,
        hears_asks,
        &mut opened,
        turns,
    );
    if let (Some(control), Some(place)) = (opened, place) {
        control.close(rt, place.path);
    }
    (ended, node)
}

/// A member's run over its record: the record is opened, turns are made over the wire, and the record is given back.
///
/// The node receives messages in the order in which they come, and its clock ticks when its timer returns that
/// ([`node_loop::round`]), which is asked in each round. Where there is a place, requests come in at a control socket
/// there, and between two rounds eight changes at most are asked; each change of the node's health is a line on
/// standard error. Asks by datagrams are heard or not. The run ends after the given number of turns, where each
/// datagram counts for one, and so do each tick and each wait, of a tenth of a second at most; with the first fault of
/// the node's calls; or once an operator asked for that and has the answer, which is `Stopped`. Before it ends, what
/// waits to be proposed is proposed ([`node_loop::finish`]). The observer is new ([`Observer::new`]).
pub fn run_member<R: Records, W: Wire, T: Timer, RT>(
    rt: &RT,
    alloc: Global,
    m: Membership,
    records: R,
    wire: &mut W,
    timer: &mut T,
    observer: &mut Observer,
    hears_asks: bool,
    place: Option<ControlPlace<'_>>,
    turns: u64,
) -> (Ended, R)
where
    RT: Clock + Eprint + Files + Net<Listener = TcpListener, Stream = TcpStream> + RandomSource,
    requires members { R.members records ≡ m.members }
    requires here { m.me < m.members }
    requires new { HasSeenNothing m observer.old }
    ensures hosted { Moves (W.traffic wire.old) (W.traffic wire.new)
        (λ es es'. HostedRuns R.Records m hears_asks records es es' result.0 result.1) }
    ensures turns { place.entry ≡ None → Moves (W.traffic wire.old) (W.traffic wire.new)
        (λ es es'. Runs R.Records m records es es' result.0 result.1) }
    ensures made { OnFront result.0 (MakesTurns turns (T.timer_events timer.old) (T.timer_events timer.new)) }
    ensures same { W.identity wire.new ≡ W.identity wire.old }
{
    let node = match Node::open(alloc, m, records) {
        Ok(node) => node,
        Err((fault, records)) => return (Ended::Fault(fault), records),
    };
    let (ended, node) = run_at(
        rt, alloc, node, wire, timer, observer, hears_asks, place, turns,
    );
    (ended, node.close())
}
