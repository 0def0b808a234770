//! A round of the loop, and the last rounds before a node ends.

ghost use Rattle.std.specs.Prelude.{◌≡◌, ◌≤◌, ◌+◌, ℕ, Bool, List, [], ◌∷◌, length, IfOk, OnOk};
ghost use Rattle.px_replica.specs.Faults.{fault_of};
ghost use Rattle.px_transport.specs.Wires.{Adds, Moves, WireEvent};
ghost use Rattle.node_loop.specs.Again.{HandsAgain};
ghost use Rattle.node_loop.specs.Resends.{kept_of, requests_of, time_of};
ghost use Rattle.pf_node.specs.Nodes.{applied_of, replica_of, state_in};
ghost use Rattle.node_loop.specs.Counting.{CountsRound, CountsTickedIf};
ghost use Rattle.node_loop.specs.Counts.{nothing_of};
ghost use Rattle.node_loop.specs.Progress.{counts_in, heads_in, looked, seen_in};
ghost use Rattle.node_loop.specs.Timing.{IsShort, LooksTimes, MakesRound, WorksOff, is_tick, looks, view_of};
ghost use Rattle.node_loop.specs.Times.{IsTimed, LooksAt};
ghost use Rattle.node_loop.specs.Turns.{Served, TickedIf, in_loop};

use crate::counts::RoundCounts;
use crate::peer_progress::PeerProgress;
use crate::resender::Resender;
use crate::serving::{drain, tick_now};
use crate::stopwatch::{Stopwatch, microseconds};
use crate::timer::{Action, Timer, View};
use crate::turn_buffers::TurnBuffers;
use pf_node::Node;
use px_records::Records;
use px_replica::NodeFault;
use px_transport::Wire;
use px_wire::MEMBERS;
use std::time::Instant;

/// How many datagrams are taken before it is looked whether the clock is to tick.
const MOST: u32 = 64;

/// How many rounds a node makes at most to work off what waits when it ends.
const LAST_ROUNDS: u32 = 3_000;

/// What is seen of the node, whose front was there before.
fn view_of<R: Records>(node: &Node<R>, buffers: &TurnBuffers, was: u32) -> View
    ensures { result ≡ view_of (replica_of node.now) was (seen_in buffers.now) }
{
    View {
        waiting: node.waiting(),
        is_attempting: node.is_attempting(),
        is_leading: node.is_leading(),
        front: node.front(),
        has_learned: buffers.peer_progress.has_learned && node.front() != was,
        reached: buffers.peer_progress.reached,
    }
}

/// The result of a round.
#[derive(Clone, Copy, PartialEq, Eq)]
pub struct Progress {
    /// For how many turns it counts, 1 at least: each datagram is one, a tick, and a wait.
    pub turns: u32,
    /// How many milliseconds may be waited for a datagram before the next round, 0 to 100.
    pub wait: u32,
}

/// The clock ticks if it is to, after n datagrams; else it is waited, unless the member was handed own votes.
fn tick_if<R: Records, W: Wire>(
    node: &mut Node<R>,
    wire: &mut W,
    buffers: &mut TurnBuffers,
    action: Action,
    handled: u32,
    has_own: bool,
) -> Result<Progress, NodeFault>
    ensures served { Moves (W.traffic wire.old) (W.traffic wire.new)
        (λ es es'. Served (in_loop node.old es buffers.old) (in_loop node.new es' buffers.new) (fault_of result)) }
    ensures ticked { OnOk result (Moves (W.traffic wire.old) (W.traffic wire.new) (λ es es'.
        TickedIf (is_tick action) (in_loop node.old es buffers.old) (in_loop node.new es' buffers.new))) }
    ensures few { IfOk result (λ made. made.turns ≤ handled + 1) }
    ensures each { IfOk result (λ made. handled ≤ made.turns) }
    ensures unseen { seen_in buffers.new ≡ seen_in buffers.old }
    ensures heads { heads_in buffers.new ≡ heads_in buffers.old }
    ensures counts { OnOk result (Moves (W.traffic wire.old) (W.traffic wire.new) (λ es es'.
        CountsTickedIf (is_tick action) (in_loop node.old es buffers.old) (in_loop node.new es' buffers.new)
        (counts_in buffers.old) (counts_in buffers.new))) }
    ensures wait { IsShort action → IfOk result (λ p. p.wait ≤ 100) }
    ensures grows { applied_of node.old ≤ applied_of node.new }
    ensures same { W.identity wire.new ≡ W.identity wire.old }
{
    match action {
        Action::Tick => match tick_now(node, wire, buffers) {
            Ok(()) => Ok(Progress {
                turns: handled.saturating_add(1),
                wait: 0,
            }),
            Err(fault) => Err(fault),
        },
        Action::Wait(milliseconds) => Ok(Progress {
            turns: handled.max(1),
            wait: if handled == 0 && !has_own {
                milliseconds
            } else {
                0
            },
        }),
    }
}

/// What the clock does, by what has come.
fn action<T: Timer>(timer: &mut T, peer_progress: &mut PeerProgress, now: u64, view: View) -> Action
    ensures looked { peer_progress.new ≡ looked peer_progress.old }
    ensures timer_events { Adds (T.timer_events timer.old) (T.timer_events timer.new)
        (looks now view (is_tick result) peer_progress.old) }
    ensures short { IsShort result }
{
    let action = timer.action(now, view);
    if view.front < peer_progress.accepting {
        timer.sent(now);
    }
    *peer_progress = peer_progress.looked();
    action
}

/// Members whose messages show that they lack entries below the front are sent again what was sent to them of those;
/// what was sent of the positions from the front on is sent again, if that is due; and a member that others have passed
/// is handed its own votes again that its window has reached. Returns whether there were any such votes.
fn resend<W: Wire>(
    wire: &mut W,
    resender: &mut Resender,
    peer_progress: &PeerProgress,
    is_due: bool,
    front: u32,
) -> bool
    ensures again { HandsAgain (kept_of resender.old) (W.traffic wire.old) (W.traffic wire.new) }
    ensures kept { kept_of resender.new ≡ kept_of resender.old }
    ensures requests { requests_of resender.new ≡ requests_of resender.old }
    ensures same { W.identity wire.new ≡ W.identity wire.old }
{
    for member in 0..MEMBERS {
        if let Some(position) = peer_progress.lacks(member, front) {
            resender.repeat_to(wire, member, position);
        }
    }
    if is_due {
        resender.repeat(wire, front);
    }
    if peer_progress.reached > front {
        return resender.repeat_own(wire, front);
    }
    false
}

/// Begins a round at this time: nothing went over the wire in it.
fn begin(buffers: &mut TurnBuffers, now: u64)
    ensures kept { kept_of buffers.new.resender ≡ kept_of buffers.old.resender }
    ensures requests { requests_of buffers.new.resender ≡ requests_of buffers.old.resender }
    ensures hears { buffers.new.hears_asks ≡ buffers.old.hears_asks }
    ensures unseen { seen_in buffers.new ≡ seen_in buffers.old }
    ensures counts { counts_in buffers.new ≡ nothing_of (counts_in buffers.old).me }
    ensures time { time_of buffers.new.resender ≡ now }
{
    buffers.counts = RoundCounts::new(buffers.counts.me);
    buffers.resender.set_time(now);
}

/// Receives what has come, 64 datagrams at most; then the clock ticks where the timer returns that, which is given what
/// is seen of the node after those datagrams and nothing else. These are turns of the node and nothing else. Returns
/// how long may be waited before the next round.
///
/// A request that came before and is answered by what is kept isn't shown to the node, nor is an ask where asks aren't
/// heard. What was sent and may be lost, or is lacked by a member whose messages show that, is sent again.
///
/// `now` is the time in microseconds since the node started, which never goes back. The faults are those of
/// [`Node::receive`] and [`Node::tick`]; after one nothing is to be sent.
pub fn round<R: Records, W: Wire, T: Timer>(
    node: &mut Node<R>,
    wire: &mut W,
    buffers: &mut TurnBuffers,
    timer: &mut T,
    now: u64,
) -> Result<Progress, NodeFault>
    ensures served { Moves (W.traffic wire.old) (W.traffic wire.new)
        (λ es es'. Served (in_loop node.old es buffers.old) (in_loop node.new es' buffers.new) (fault_of result)) }
    ensures made { OnOk result (Moves (W.traffic wire.old) (W.traffic wire.new) (λ es es'. MakesRound now
        (in_loop node.old es buffers.old) (in_loop node.new es' buffers.new) (seen_in buffers.old) (seen_in buffers.new)
        (T.timer_events timer.old) (T.timer_events timer.new))) }
    ensures counts { OnOk result (Moves (W.traffic wire.old) (W.traffic wire.new)
        (λ es es'. CountsRound (counts_in buffers.old).me (in_loop node.old es buffers.old)
        (in_loop node.new es' buffers.new)
        (counts_in buffers.new))) }
    ensures heads { IfOk result (λ made. length (heads_in buffers.new) ≤ made.turns) }
    ensures few { IfOk result (λ made. made.turns ≤ 65) }
    ensures looks { OnOk result (LooksTimes 1 (T.timer_events timer.old) (T.timer_events timer.new)) }
    ensures at { OnOk result (LooksAt (now ∷ []) (T.timer_events timer.old) (T.timer_events timer.new)) }
    ensures wait { IfOk result (λ p. p.wait ≤ 100) }
    ensures grows { applied_of node.old ≤ applied_of node.new }
    ensures same { W.identity wire.new ≡ W.identity wire.old }
{
    let was = node.front();
    begin(buffers, now);
    let handled = drain(node, wire, buffers, MOST)?;
    let seen = buffers.peer_progress;
    let view = view_of(node, buffers, was);
    let action = action(timer, &mut buffers.peer_progress, now, view);
    let is_due = timer.repeats(now);
    let has_own = resend(wire, &mut buffers.resender, &seen, is_due, node.front());
    tick_if(node, wire, buffers, action, handled, has_own)
}

/// Works off what waits to be proposed, before the node ends: rounds until nothing waits, 3,000 at most, of which one
/// with a wait counts for its milliseconds. These are turns of the node and nothing else.
///
/// `start` is when the node started by this clock. The faults are those of [`Node::receive`] and [`Node::tick`].
pub fn finish<R: Records, W: Wire, T: Timer, S: Stopwatch>(
    node: &mut Node<R>,
    wire: &mut W,
    buffers: &mut TurnBuffers,
    timer: &mut T,
    clock: &mut S,
    start: Option<Instant>,
) -> Result<(), NodeFault>
    ensures served { Moves (W.traffic wire.old) (W.traffic wire.new)
        (λ es es'. Served (in_loop node.old es buffers.old) (in_loop node.new es' buffers.new) (fault_of result)) }
    ensures grows { applied_of node.old ≤ applied_of node.new }
    ensures worked { OnOk result (WorksOff (length (state_in node.new).volatile.waiting)
        (T.timer_events timer.old) (T.timer_events timer.new)) }
    ensures timed { OnOk result (IsTimed start (S.readings clock.old) (S.readings clock.new)
        (T.timer_events timer.old) (T.timer_events timer.new)) }
    ensures same { W.identity wire.new ≡ W.identity wire.old }
{
    timer.end();
    let mut left = LAST_ROUNDS;
    for _round in 0..LAST_ROUNDS {
        if left == 0 || node.waiting() == 0 {
            return Ok(());
        }
        let made = round(node, wire, buffers, timer, microseconds(clock, start))?;
        wire.wait(made.wait);
        left = left.saturating_sub(made.wait.max(1));
    }
    Ok(())
}
