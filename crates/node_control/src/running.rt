//! The loop of a node, with a control socket or without one.

ghost use Rattle.std.specs.Prelude.{◌≡◌, ◌≤◌, [], ◌∷◌, None, true, false, length, nat_lt, IfOk, OnOk};
ghost use Rattle.px_model.specs.Step.{front};
ghost use Rattle.pf_node.specs.Nodes.{learned_by, state_in};
ghost use Rattle.px_replica.specs.Faults.{fault_of};
ghost use Rattle.px_transport.specs.Wires.{IsQuiet, Moves};
ghost use Rattle.node_loop.specs.Hosting.{AsksUpTo, Hosted};
ghost use Rattle.node_loop.specs.Progress.{counts_in, heads_in};
ghost use Rattle.node_loop.specs.Times.{IsTimed, IsTimedRun, LooksAt};
ghost use Rattle.node_loop.specs.Timing.{LooksTimes, MakesTurns};
ghost use Rattle.node_loop.specs.Turns.{Served, in_loop};
ghost use Rattle.node_loop.specs.declared.running.Progress.{Progress};
ghost use Rattle.node_control.specs.inner.Ending.{is_ending};
ghost use Rattle.node_control.specs.inner.Handling.{IsKept};
ghost use Rattle.node_control.specs.inner.Observing.{begun, counted, listened, seen_of};
ghost use Rattle.node_control.specs.inner.Runs.{AsksAfterTurns, Finishes, MakesRounds};
ghost use Rattle.node_control.specs.inner.Serving.{AnswersOver, ServesAt};

use crate::control::ControlSocket;
use crate::observer::Observer;
use crate::service::HttpService;
use node_loop::{NodeFault, Stopwatch, Timer, TurnBuffers, Wire, finish, microseconds, round};
use px_records::Records;
use std::io::Eprint;
use std::time::{Clock, Instant};

/// Answers what is asked at the control socket, if there is one: whether anything was.
fn serve<R: Records, RT: Clock + Eprint>(
    rt: &RT,
    service: &mut HttpService<R>,
    control: &mut Option<ControlSocket>,
    now: u64,
) -> bool
    ensures asks { AsksUpTo 8 service.old.handler.node service.new.handler.node }
    ensures none { control.old ≡ None → (service.new.handler ≡ service.old.handler) × (control.new ≡ None) }
    ensures kept { IsKept service.old service.new }
    ensures serves { ServesAt control.old service.old service.new }
{
    let Some(control) = control else {
        return false;
    };
    control.note(rt, service);
    service.counters.clients = control.clients() as u64;
    control.serve(service, now)
}

/// Waits until something comes, over the wire or at the control socket, the given number of milliseconds at most.
fn wait<W: Wire>(wire: &mut W, control: &mut Option<ControlSocket>, milliseconds: u32)
    ensures quiet { IsQuiet (W.traffic wire.old) (W.traffic wire.new) }
    ensures none { control.old ≡ None → control.new ≡ None }
    ensures same { W.identity wire.new ≡ W.identity wire.old }
{
    match control {
        Some(control) => control.wait(wire.due(milliseconds)),
        None => wire.wait(milliseconds),
    }
}

/// One round of the node, what is asked of it, and a wait where nothing was. Returns for how many turns it counts.
fn pass<R: Records, W: Wire, T: Timer, RT: Clock + Eprint>(
    rt: &RT,
    service: &mut HttpService<R>,
    wire: &mut W,
    observer: &mut Observer,
    buffers: &mut TurnBuffers,
    control: &mut Option<ControlSocket>,
    timer: &mut T,
    now: u64,
) -> Result<u32, NodeFault>
    ensures hosted { Moves (W.traffic wire.old) (W.traffic wire.new)
        (λ es es'. Hosted (in_loop service.old.handler.node es buffers.old)
        (in_loop service.new.handler.node es' buffers.new) (fault_of result)) }
    ensures turns { control.old ≡ None → Moves (W.traffic wire.old) (W.traffic wire.new)
        (λ es es'. Served (in_loop service.old.handler.node es buffers.old)
        (in_loop service.new.handler.node es' buffers.new) (fault_of result)) × (control.new ≡ None) }
    ensures asked { OnOk result (Moves (W.traffic wire.old) (W.traffic wire.new)
        (λ es es'. AsksAfterTurns 8 (in_loop service.old.handler.node es buffers.old)
        (in_loop service.new.handler.node es' buffers.new))) }
    ensures few { IfOk result (λ turns. turns ≤ 65) }
    ensures looks { OnOk result (LooksTimes 1 (T.timer_events timer.old) (T.timer_events timer.new)) }
    ensures at { OnOk result (LooksAt (now ∷ []) (T.timer_events timer.old) (T.timer_events timer.new)) }
    ensures seen { OnOk result (seen_of observer.new ≡ listened (T.listens timer.new now) (heads_in buffers.new)
        (counts_in buffers.new) (counted (heads_in buffers.new) (counts_in buffers.new)
        (begun now (front (learned_by service.old.handler.node))
        (nat_lt 0 (length (state_in service.old.handler.node).volatile.waiting)) (seen_of observer.old)))) }
    ensures shown { IfOk result (λ turns. (made : Progress) × (made.turns ≡ turns) × AnswersOver control.old
        (seen_of observer.new) made (T.listens timer.new now) service.old service.new) }
    ensures listening { OnOk result (service.new.is_listening ≡ T.listens timer.new now) }
    ensures same { W.identity wire.new ≡ W.identity wire.old }
{
    let node = &service.handler.node;
    observer.begin(now, node.front(), node.waiting() > 0);
    let made = round(&mut service.handler.node, wire, buffers, timer, now)?;
    observer.count(buffers.heads(), buffers.counts());
    observer.report(&mut service.counters, made);
    service.is_listening = timer.is_listening(now);
    observer.hear(rt, buffers, service.is_listening);
    if !serve(rt, service, control, now) {
        wait(wire, control, made.wait);
    }
    Ok(made.turns)
}

/// Whether an operator asked for the end and has the answer.
fn is_ending<R: Records>(service: &HttpService<R>, control: &Option<ControlSocket>) -> bool
    ensures { result ≡ is_ending service.now.handler.is_stopping control.now }
{
    match control {
        Some(control) => service.handler.is_stopping && !control.has_more(),
        None => false,
    }
}

/// Round after round, until the given number of turns is over, or an operator asked for the end and has the answer:
/// whether one did.
fn passes<R: Records, W: Wire, T: Timer, S: Stopwatch, RT: Clock + Eprint>(
    rt: &RT,
    service: &mut HttpService<R>,
    wire: &mut W,
    observer: &mut Observer,
    buffers: &mut TurnBuffers,
    control: &mut Option<ControlSocket>,
    timer: &mut T,
    clock: &mut S,
    start: Option<Instant>,
    turns: u64,
) -> Result<bool, NodeFault>
    ensures hosted { Moves (W.traffic wire.old) (W.traffic wire.new)
        (λ es es'. Hosted (in_loop service.old.handler.node es buffers.old)
        (in_loop service.new.handler.node es' buffers.new) (fault_of result)) }
    ensures turns { control.old ≡ None → Moves (W.traffic wire.old) (W.traffic wire.new)
        (λ es es'. Served (in_loop service.old.handler.node es buffers.old)
        (in_loop service.new.handler.node es' buffers.new) (fault_of result)) × (control.new ≡ None) }
    ensures made { IfOk result (λ is_stopped.
        MakesRounds is_stopped turns (T.timer_events timer.old) (T.timer_events timer.new)) }
    ensures timed { OnOk result (IsTimed start (S.readings clock.old) (S.readings clock.new)
        (T.timer_events timer.old) (T.timer_events timer.new)) }
    ensures stopped { IfOk result (λ is_stopped. is_stopped ≡ true →
        is_ending service.new.handler.is_stopping control.new ≡ true) }
    ensures none { control.old ≡ None → IfOk result (λ is_stopped. is_stopped ≡ false) }
    ensures same { W.identity wire.new ≡ W.identity wire.old }
{
    let mut left = turns;
    for _round in 0..turns {
        if left == 0 {
            return Ok(false);
        }
        if is_ending(service, control) {
            return Ok(true);
        }
        let now = microseconds(clock, start);
        let used = pass(rt, service, wire, observer, buffers, control, timer, now)?;
        left = left.saturating_sub(u64::from(used));
    }
    Ok(false)
}

/// All rounds, and then what waits to be proposed ([`finish`]): whether an operator asked for the end.
pub(crate) fn pass_on<R: Records, W: Wire, T: Timer, S: Stopwatch, RT: Clock + Eprint>(
    rt: &RT,
    service: &mut HttpService<R>,
    wire: &mut W,
    observer: &mut Observer,
    buffers: &mut TurnBuffers,
    control: &mut Option<ControlSocket>,
    timer: &mut T,
    clock: &mut S,
    turns: u64,
) -> Result<bool, NodeFault>
    ensures hosted { Moves (W.traffic wire.old) (W.traffic wire.new)
        (λ es es'. Hosted (in_loop service.old.handler.node es buffers.old)
        (in_loop service.new.handler.node es' buffers.new) (fault_of result)) }
    ensures turns { control.old ≡ None → Moves (W.traffic wire.old) (W.traffic wire.new)
        (λ es es'. Served (in_loop service.old.handler.node es buffers.old)
        (in_loop service.new.handler.node es' buffers.new) (fault_of result)) }
    ensures made { IfOk result (λ is_stopped. is_stopped ≡ false →
        MakesTurns turns (T.timer_events timer.old) (T.timer_events timer.new)) }
    ensures finished { IfOk result (λ is_stopped.
        Finishes is_stopped turns (length (state_in service.new.handler.node).volatile.waiting)
        (T.timer_events timer.old) (T.timer_events timer.new)) }
    ensures timed { OnOk result (IsTimedRun (S.readings clock.old) (S.readings clock.new)
        (T.timer_events timer.old) (T.timer_events timer.new)) }
    ensures stopped { IfOk result (λ is_stopped. is_stopped ≡ true → service.new.handler.is_stopping ≡ true) }
    ensures none { control.old ≡ None → IfOk result (λ is_stopped. is_stopped ≡ false) }
    ensures same { W.identity wire.new ≡ W.identity wire.old }
{
    let start = clock.read();
    let is_stopped = passes(
        rt, service, wire, observer, buffers, control, timer, clock, start, turns,
    )?;
    let node = &mut service.handler.node;
    finish(node, wire, buffers, timer, clock, start)?;
    Ok(is_stopped)
}
