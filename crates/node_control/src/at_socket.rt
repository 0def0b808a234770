//! A member's run at its socket.

ghost use Rattle.std.specs.Prelude.{◌≡◌, ◌<◌, [], List, None, IfSome, false, map, true};
ghost use Rattle.pf_scripts.specs.Lines.{spaced};
ghost use Rattle.px_transport.specs.Wires.{WireEvent};
ghost use Rattle.px_transport.specs.Wiring.{WentSealed, inner_of, keys_of, sealer_of};
ghost use Rattle.node_loop.specs.Runs.{HostedRuns, OnFront, Runs};
ghost use Rattle.node_loop.specs.Timing.{MakesTurns};
ghost use Rattle.node_udp.specs.Addresses.{shown_address};
ghost use Rattle.node_udp.specs.Members.{me_of, peers_of, route_of, socket_of};
ghost use Rattle.node_udp.specs.Sockets.{SocketEvent, WentOver};
ghost use Rattle.node_control.specs.Observers.{HasSeenNothing, has_packets_of};
ghost use Rattle.node_control.specs.Sockets.{RunsAtHearing, RunsSealedHearing};
ghost use Rattle.node_control.specs.inner.Looping.{WentLooped};

use crate::member::{ControlPlace, run_member};
use crate::observer::Observer;
use node_loop::run_laws::hosted_runs_are_traces;
use node_loop::{Ended, Membership, Timer, Wire};
use node_udp::{Socket, UdpWire};
use px_records::Records;
use px_transport::laws::calls_are_steps;
use px_transport::{LoopbackWire, PacketWire};
use std::alloc::Global;
use std::fs::Files;
use std::io::Eprint;
use std::net::{Net, TcpListener, TcpStream};
use std::random::RandomSource;
use std::time::Clock;

/// A member's run over a wire to which nothing goes that the member sends to itself. The wire is given back.
fn run_over<R: Records, W: Wire, T: Timer, RT>(
    rt: &RT,
    alloc: Global,
    m: Membership,
    records: R,
    wire: W,
    timer: &mut T,
    observer: &mut Observer,
    hears_asks: bool,
    place: Option<ControlPlace<'_>>,
    turns: u64,
) -> (Ended, R, W)
where
    RT: Clock + Eprint + Files + Net<Listener = TcpListener, Stream = TcpStream> + RandomSource,
    requires members { R.members records ≡ m.members }
    requires here { m.me < m.members }
    requires new { HasSeenNothing m observer.old }
    ensures hosted { W.traffic wire [] → WentLooped W.traffic m.me result.2
        (λ es. HostedRuns R.Records m hears_asks records [] es result.0 result.1) }
    ensures turns { place.entry ≡ None → W.traffic wire [] → WentLooped W.traffic m.me result.2
        (λ es. Runs R.Records m records [] es result.0 result.1) }
    ensures made { OnFront result.0 (MakesTurns turns (T.timer_events timer.old) (T.timer_events timer.new)) }
    ensures same { (W.identity result.2).sealing ≡ (W.identity wire).sealing }
    ensures route { (W.identity result.2).route ≡ (W.identity wire).route }
{
    let mut wire = LoopbackWire::new(alloc, wire, m.me());
    let (ended, records) = run_member(
        rt, alloc, m, records, &mut wire, timer, observer, hears_asks, place, turns,
    );
    (ended, records, wire.into_inner())
}

/// A member's run at a socket, without a key: [`run_member`] over the wire, to which nothing goes that the member sends
/// to itself. The wire is given back.
///
/// Where nothing went over the wire before, and the record is honest in the end, what went over the socket are the
/// datagrams of the member's steps. Where asks from outside aren't heard, no step is for one. The observer is new, for
/// datagrams without packets; what clients are shown as the members' addresses are those of the wire.
pub fn run_at_socket<R: Records, S: Socket, C: Clock, T: Timer, RT>(
    rt: &RT,
    alloc: Global,
    m: Membership,
    records: R,
    wire: UdpWire<S, C>,
    timer: &mut T,
    observer: &mut Observer,
    hears_asks: bool,
    place: Option<ControlPlace<'_>>,
    turns: u64,
) -> (Ended, R, UdpWire<S, C>)
where
    RT: Clock + Eprint + Files + Net<Listener = TcpListener, Stream = TcpStream> + RandomSource,
    requires members { R.members records ≡ m.members }
    requires here { m.me < m.members }
    requires new { HasSeenNothing m observer.old }
    requires packets { has_packets_of observer.old ≡ false }
    requires shown { IfSome place (λ p. p.members.now ≡ spaced (map shown_address (peers_of wire))) }
    ensures ran { WentOver (S.traffic (socket_of wire)) wire [] → R.is_honest result.1 → R.failed records ≡ 0 →
        (events : List SocketEvent) × S.traffic (socket_of result.2) events ×
        RunsAtHearing R.Records m hears_asks (route_of (peers_of wire) (me_of wire)) records result.1 events }
    ensures hosted { WentOver (S.traffic (socket_of wire)) wire [] → (events : List WireEvent) ×
        HostedRuns R.Records m hears_asks records [] events result.0 result.1 }
    ensures turns { place.entry ≡ None → WentOver (S.traffic (socket_of wire)) wire [] → (events : List WireEvent) ×
        Runs R.Records m records [] events result.0 result.1 }
    ensures made { OnFront result.0 (MakesTurns turns (T.timer_events timer.old) (T.timer_events timer.new)) }
{
    hosted_runs_are_traces::<R>();
    run_over(
        rt, alloc, m, records, wire, timer, observer, hears_asks, place, turns,
    )
}

/// A member's run at a socket with a key: the same over a wire of packets. The wire is given back.
///
/// Where nothing went over the wire before, and the record is honest in the end, what went over the socket are packets
/// with the datagrams of the member's steps, opened with the wire's keys and sealed as it seals. Where asks from
/// outside aren't heard, no step is for one. The observer is new, for packets.
pub fn run_sealed_at_socket<R: Records, S: Socket, C: Clock, D: Clock, T: Timer, RT>(
    rt: &RT,
    alloc: Global,
    m: Membership,
    records: R,
    wire: PacketWire<UdpWire<S, C>, D>,
    timer: &mut T,
    observer: &mut Observer,
    hears_asks: bool,
    place: Option<ControlPlace<'_>>,
    turns: u64,
) -> (Ended, R, PacketWire<UdpWire<S, C>, D>)
where
    RT: Clock + Eprint + Files + Net<Listener = TcpListener, Stream = TcpStream> + RandomSource,
    requires members { R.members records ≡ m.members }
    requires here { m.me < m.members }
    requires new { HasSeenNothing m observer.old }
    requires packets { has_packets_of observer.old ≡ true }
    requires shown { IfSome place (λ p. p.members.now ≡ spaced (map shown_address (peers_of (inner_of wire)))) }
    ensures ran { WentSealed (WentOver (S.traffic (socket_of (inner_of wire))) (inner_of wire)) wire [] →
        R.is_honest result.1 → R.failed records ≡ 0 →
        (events : List SocketEvent) × S.traffic (socket_of (inner_of result.2)) events ×
        RunsSealedHearing R.Records m hears_asks (route_of (peers_of (inner_of wire)) (me_of (inner_of wire)))
        (keys_of wire) (sealer_of wire) records result.1 events }
    ensures hosted { WentSealed (WentOver (S.traffic (socket_of (inner_of wire))) (inner_of wire)) wire [] →
        (events : List WireEvent) × HostedRuns R.Records m hears_asks records [] events result.0 result.1 }
    ensures turns { place.entry ≡ None →
        WentSealed (WentOver (S.traffic (socket_of (inner_of wire))) (inner_of wire)) wire [] →
        (events : List WireEvent) × Runs R.Records m records [] events result.0 result.1 }
    ensures made { OnFront result.0 (MakesTurns turns (T.timer_events timer.old) (T.timer_events timer.new)) }
    ensures same { (keys_of result.2 ≡ keys_of wire) × (sealer_of result.2 ≡ sealer_of wire) }
{
    calls_are_steps();
    hosted_runs_are_traces::<R>();
    run_over(
        rt, alloc, m, records, wire, timer, observer, hears_asks, place, turns,
    )
}
