//! The turns of a round: what has come is received, one datagram after the other, and the clock ticks.

ghost use Rattle.std.specs.Prelude.{◌≡◌, ◌≢◌, ◌≤◌, ◌<◌, ◌++◌, [], ◌∷◌, ℕ, IfOk, IfSome, None, Some, length};
ghost use Rattle.std.specs.Prelude.{◌+◌, if◌then◌else◌, IsTrue, false};
ghost use Rattle.std.specs.Prelude.{option_map, take, vec_len, vec_capacity};
ghost use Rattle.px_replica.specs.Faults.{fault_of};
ghost use Rattle.px_wire.specs.Message.{Group, Message, DatagramBytes};
ghost use Rattle.px_wire.specs.Heads.{head_of};
ghost use Rattle.pf_node.specs.Nodes.{replica_of, applied_of, membership_of};
ghost use Rattle.px_transport.specs.Wires.{Adds, IsQuiet, Moves, gives};
ghost use Rattle.node_loop.specs.Again.{AreAmong, HandsAgain};
ghost use Rattle.node_loop.specs.Counting.{CountsAll, CountsTicked};
ghost use Rattle.node_loop.specs.Counts.{PassedOver};
ghost use Rattle.node_loop.specs.Resends.{kept_of, requests_of};
ghost use Rattle.node_loop.specs.Progress.{IsFrom, counts_in, heads_in, IsNobodys, SawAll, seen_in, shown_by};
ghost use Rattle.node_loop.specs.Turns.{Acts, Ticked, Served, in_loop};
ghost use Rattle.node_loop.specs.Resending.{IsKnown};
ghost use Rattle.node_loop.specs.inner.Turns.{CountsIf, SawIf};

use crate::counts::RoundCounts;
use crate::peer_progress::PeerProgress;
use crate::resender::Resender;
use crate::turn_buffers::TurnBuffers;
use crate::turning::{act, came, send_all};
use pf_entry::CLIENT;
use pf_node::Node;
use px_records::Records;
use px_replica::{Datagram, NodeFault, Received};
use px_transport::Wire;
use px_wire::Head;

impl TurnBuffers {
    /// The heads of the messages that the node accepted in its last [`round`](crate::round), in order, for counters. A
    /// datagram that it ignored, or was passed over, has none here, and neither has one for whose head it was out of
    /// memory.
    pub fn heads(&self) -> &[Head]
        ensures { result.now ≡ heads_in self.now }
    {
        self.heads.as_slice()
    }

    /// What went over the wire in the last round.
    pub fn counts(&self) -> &RoundCounts
        ensures { result.now ≡ counts_in self.now }
    {
        &self.counts
    }
}

/// Takes a datagram that has come, which is written over the front of the bytes.
fn poll<W: Wire>(wire: &mut W, bytes: &mut Vec<u8>) -> Option<usize>
    ensures fits { IfSome result (λ n. n ≤ length bytes.new.items) }
    ensures gave { Adds (W.traffic wire.old) (W.traffic wire.new)
        (gives (option_map (λ n. take n bytes.new.items) result)) }
    ensures whole { length bytes.new.items ≡ length bytes.old.items }
    ensures same { W.identity wire.new ≡ W.identity wire.old }
{
    wire.poll(bytes.as_mut_slice())
}

/// The clock ticks, whatever has come, and what is to be sent is handed to the wire: a turn for which nothing came.
pub fn tick_now<R: Records, W: Wire>(
    node: &mut Node<R>,
    wire: &mut W,
    buffers: &mut TurnBuffers,
) -> Result<(), NodeFault>
    ensures ticked { Moves (W.traffic wire.old) (W.traffic wire.new)
        (λ es es'. Ticked (in_loop node.old es buffers.old) (in_loop node.new es' buffers.new) (fault_of result)) }
    ensures unseen { seen_in buffers.new ≡ seen_in buffers.old }
    ensures heads { heads_in buffers.new ≡ heads_in buffers.old }
    ensures counts { Moves (W.traffic wire.old) (W.traffic wire.new)
        (λ es es'. CountsTicked (in_loop node.old es buffers.old) (in_loop node.new es' buffers.new) (fault_of result)
        (counts_in buffers.old) (counts_in buffers.new)) }
    ensures grows { applied_of node.old ≤ applied_of node.new }
    ensures same { W.identity wire.new ≡ W.identity wire.old }
{
    buffers.out.clear();
    let result = act(node, None, &mut buffers.out);
    let (resender, counts) = (&mut buffers.resender, &mut buffers.counts);
    send_all(wire, buffers.out.as_slice(), resender, counts);
    result
}

/// What came is received, and what was taken is noted by its head: what that shows of its sender, the head itself,
/// where there is memory, and a request that may come again. A datagram that spells no message for this member changes
/// nothing of that.
fn receive<R: Records>(
    node: &mut Node<R>,
    peer_progress: &mut PeerProgress,
    heads: &mut Vec<Head>,
    resender: &mut Resender,
    bytes: &[u8],
    out: &mut Vec<Datagram>,
) -> Result<(), NodeFault>
    requires { out.old.items ≡ [] }
    ensures kept { kept_of resender.new ≡ kept_of resender.old }
    ensures requests { AreAmong (requests_of resender.new) (requests_of resender.old ++ bytes.now ∷ []) }
    ensures acts { Acts (replica_of node.old) (replica_of node.new) (Some bytes.now) out.new.items (fault_of result) }
    ensures grows { applied_of node.old ≤ applied_of node.new }
    ensures nobodys { IsNobodys (replica_of node.old) bytes.now → peer_progress.new ≡ peer_progress.old }
    ensures unheard { IsNobodys (replica_of node.old) bytes.now → heads.new.items ≡ heads.old.items }
    ensures shown { fault_of result ≡ None → (from : ℕ) (message : Message) →
        IsFrom (replica_of node.old) from message bytes.now →
        peer_progress.new ≡ shown_by (head_of from (membership_of node.old).me message) peer_progress.old }
    ensures heard { fault_of result ≡ None → vec_len heads.old < vec_capacity heads.old →
        (from : ℕ) (message : Message) → IsFrom (replica_of node.old) from message bytes.now →
        heads.new.items ≡ heads.old.items ++ head_of from (membership_of node.old).me message ∷ [] }
    ensures few { length heads.new.items ≤ length heads.old.items + 1 }
{
    match node.receive(bytes, out) {
        Ok(Received::Done) => {
            let Some(head) = Head::read(bytes) else {
                return Ok(());
            };
            *peer_progress = peer_progress.after(&head);
            resender.took(&head, bytes);
            let _kept = heads.push(head);
            Ok(())
        }
        Ok(Received::Ignored(_)) => Ok(()),
        Err(fault) => Err(fault),
    }
}

/// Whether a datagram is of one who is no member, by its head.
fn is_outside(bytes: &[u8]) -> bool
    ensures outside { IsTrue result → (g : Group) (from to : ℕ) (message : Message) →
        DatagramBytes g from to message bytes.now → from ≡ 255 }
    ensures inside { result ≡ false → (g : Group) (from to : ℕ) (message : Message) →
        DatagramBytes g from to message bytes.now → from ≢ 255 }
{
    Head::read(bytes).is_some_and(|head| head.from == CLIENT)
}

/// Whether a datagram that has come isn't shown to the node: an ask where these aren't heard, or the request that was
/// taken last, which what is kept answers.
fn passes_over<W: Wire>(
    wire: &mut W,
    resender: &mut Resender,
    counts: &mut RoundCounts,
    hears_asks: bool,
    bytes: &[u8],
) -> bool
    ensures known { IsTrue result → (g : Group) (me : ℕ) →
        IsKnown g me hears_asks (requests_of resender.old) bytes.now }
    ensures members { result ≡ false → hears_asks ≡ false → (g : Group) (from to : ℕ) (message : Message) →
        DatagramBytes g from to message bytes.now → from ≢ 255 }
    ensures again { HandsAgain (kept_of resender.old) (W.traffic wire.old) (W.traffic wire.new) }
    ensures others { result ≡ false → IsQuiet (W.traffic wire.old) (W.traffic wire.new) }
    ensures kept { kept_of resender.new ≡ kept_of resender.old }
    ensures requests { requests_of resender.new ≡ requests_of resender.old }
    ensures counts { IsTrue result → (g : Group) (me : ℕ) →
        PassedOver g me hears_asks (requests_of resender.old) bytes.now counts.old counts.new }
    ensures uncounted { result ≡ false → counts.new ≡ counts.old }
    ensures same { W.identity wire.new ≡ W.identity wire.old }
{
    if !hears_asks && is_outside(bytes) {
        counts.dropped = counts.dropped.saturating_add(1);
        return true;
    }
    let is_answered = resender.answers(wire, bytes);
    if is_answered {
        counts.answered = counts.answered.saturating_add(1);
    }
    is_answered
}

/// Receives one datagram, or passes over it: whether there was one.
fn take_one<R: Records, W: Wire>(
    node: &mut Node<R>,
    wire: &mut W,
    buffers: &mut TurnBuffers,
) -> Result<bool, NodeFault>
    ensures served { Moves (W.traffic wire.old) (W.traffic wire.new)
        (λ es es'. Served (in_loop node.old es buffers.old) (in_loop node.new es' buffers.new) (fault_of result)) }
    ensures saw { IfOk result (λ had. Moves (W.traffic wire.old) (W.traffic wire.new) (λ es es'. SawIf had
        (in_loop node.old es buffers.old) (in_loop node.new es' buffers.new) (seen_in buffers.old)
        (seen_in buffers.new))) }
    ensures counts { IfOk result (λ had. Moves (W.traffic wire.old) (W.traffic wire.new) (λ es es'. CountsIf had
        (in_loop node.old es buffers.old) (in_loop node.new es' buffers.new) (counts_in buffers.old)
        (counts_in buffers.new))) }
    ensures heads { IfOk result (λ had. length (heads_in buffers.new) ≤ length (heads_in buffers.old)
        + (if had then 1 else 0)) }
    ensures grows { applied_of node.old ≤ applied_of node.new }
    ensures same { W.identity wire.new ≡ W.identity wire.old }
{
    buffers.out.clear();
    let len = poll(wire, &mut buffers.bytes);
    let Some(bytes) = came(&buffers.bytes, len) else {
        return Ok(false);
    };
    buffers.counts.count_in(bytes.len());
    let (resender, counts) = (&mut buffers.resender, &mut buffers.counts);
    if passes_over(wire, resender, counts, buffers.hears_asks, bytes) {
        return Ok(true);
    }
    let (progress, heads) = (&mut buffers.peer_progress, &mut buffers.heads);
    let (resender, out) = (&mut buffers.resender, &mut buffers.out);
    let result = receive(node, progress, heads, resender, bytes, out);
    let (resender, counts) = (&mut buffers.resender, &mut buffers.counts);
    send_all(wire, buffers.out.as_slice(), resender, counts);
    match result {
        Ok(()) => Ok(true),
        Err(fault) => Err(fault),
    }
}

/// Takes what has come, one datagram after the other, at most n: how many there were. What is seen of other
/// members comes from those alone that spell a message for this one. Their heads are kept until the next such call.
pub(crate) fn drain<R: Records, W: Wire>(
    node: &mut Node<R>,
    wire: &mut W,
    buffers: &mut TurnBuffers,
    most: u32,
) -> Result<u32, NodeFault>
    ensures served { Moves (W.traffic wire.old) (W.traffic wire.new)
        (λ es es'. Served (in_loop node.old es buffers.old) (in_loop node.new es' buffers.new) (fault_of result)) }
    ensures saw { IfOk result (λ n. Moves (W.traffic wire.old) (W.traffic wire.new) (λ es es'. SawAll n
        (in_loop node.old es buffers.old) (in_loop node.new es' buffers.new) (seen_in buffers.old)
        (seen_in buffers.new))) }
    ensures counts { IfOk result (λ n. Moves (W.traffic wire.old) (W.traffic wire.new) (λ es es'. CountsAll n
        (in_loop node.old es buffers.old) (in_loop node.new es' buffers.new) (counts_in buffers.old)
        (counts_in buffers.new))) }
    ensures heads { IfOk result (λ n. length (heads_in buffers.new) ≤ n) }
    ensures few { IfOk result (λ n. n ≤ most) }
    ensures grows { applied_of node.old ≤ applied_of node.new }
    ensures same { W.identity wire.new ≡ W.identity wire.old }
{
    buffers.heads.clear();
    for handled in 0..most {
        if !take_one(node, wire, buffers)? {
            return Ok(handled);
        }
    }
    Ok(most)
}
