//! One turn of a node over a wire.

ghost use Rattle.std.specs.Prelude.{◌≡◌, ◌≤◌, ◌++◌, [], option_map, length, take, IfSome};
ghost use Rattle.px_replica.specs.Faults.{fault_of};
ghost use Rattle.pf_node.specs.Nodes.{replica_of, applied_of};
ghost use Rattle.px_transport.specs.Wires.{Adds, Moves, gives, hands};
ghost use Rattle.node_loop.specs.Again.{AreAmong};
ghost use Rattle.node_loop.specs.Counts.{all_out, but_unsent};
ghost use Rattle.node_loop.specs.Resends.{kept_of, requests_of};
ghost use Rattle.node_loop.specs.Turns.{Acts, Turned, handed_over, in_loop};

use crate::counts::RoundCounts;
use crate::resender::Resender;
use crate::turn_buffers::TurnBuffers;
use pf_node::Node;
use px_records::Records;
use px_replica::{Datagram, NodeFault};
use px_transport::Wire;

/// Hands the datagrams to the wire, each once, in order, and shows them to the resender. One that isn't sent is lost.
pub(crate) fn send_all<W: Wire>(
    wire: &mut W,
    out: &[Datagram],
    resender: &mut Resender,
    counts: &mut RoundCounts,
)
    ensures handed { Adds (W.traffic wire.old) (W.traffic wire.new) (hands (handed_over out.now)) }
    ensures kept { AreAmong (kept_of resender.new) (kept_of resender.old ++ handed_over out.now) }
    ensures requests { requests_of resender.new ≡ requests_of resender.old }
    ensures counts { but_unsent counts.new ≡ all_out out.now (but_unsent counts.old) }
    ensures same { W.identity wire.new ≡ W.identity wire.old }
{
    for datagram in out {
        let bytes = datagram.bytes.as_slice();
        let is_sent = wire.send(datagram.to, bytes);
        counts.count_out(datagram.to, bytes.len(), is_sent);
        let _kept = resender.keep(datagram.to, bytes);
    }
}

/// Waits for a datagram, which is written over the front of the bytes.
fn hear<W: Wire>(wire: &mut W, bytes: &mut Vec<u8>) -> Option<usize>
    ensures fits { IfSome result (λ n. n ≤ length bytes.new.items) }
    ensures gave { Adds (W.traffic wire.old) (W.traffic wire.new)
        (gives (option_map (λ n. take n bytes.new.items) result)) }
    ensures whole { length bytes.new.items ≡ length bytes.old.items }
    ensures same { W.identity wire.new ≡ W.identity wire.old }
{
    wire.recv(bytes.as_mut_slice())
}

/// The first bytes of the buffer, as long as what came; none where nothing came.
pub(crate) fn came(buffers: &[u8], len: Option<usize>) -> Option<&[u8]>
    requires { IfSome len (λ n. n ≤ length buffers.now) }
    ensures { option_map (λ b. b.now) result ≡ option_map (λ n. take n buffers.now) len }
{
    Some(&buffers[..len?])
}

/// One call of a node, for a datagram or for none.
pub(crate) fn act<R: Records>(
    node: &mut Node<R>,
    came: Option<&[u8]>,
    out: &mut Vec<Datagram>,
) -> Result<(), NodeFault>
    requires { out.old.items ≡ [] }
    ensures acts { Acts (replica_of node.old) (replica_of node.new) (option_map (λ b. b.now) came.entry) out.new.items
        (fault_of result) }
    ensures grows { applied_of node.old ≤ applied_of node.new }
{
    match came {
        Some(bytes) => node.receive(bytes, out).map(|_| ()),
        None => node.tick(out),
    }
}

/// One turn: a datagram is received, else the clock ticks; then what is to be sent is handed to the wire, each datagram
/// once, in order. Whether it was sent changes nothing.
///
/// The faults are those of [`Node::receive`] and [`Node::tick`]; after one nothing is to be sent.
pub fn turn<R: Records, W: Wire>(
    node: &mut Node<R>,
    wire: &mut W,
    buffers: &mut TurnBuffers,
) -> Result<(), NodeFault>
    ensures turned { Moves (W.traffic wire.old) (W.traffic wire.new)
        (λ es es'. Turned (in_loop node.old es buffers.old) (in_loop node.new es' buffers.new) (fault_of result)) }
    ensures grows { applied_of node.old ≤ applied_of node.new }
    ensures same { W.identity wire.new ≡ W.identity wire.old }
{
    buffers.out.clear();
    let len = hear(wire, &mut buffers.bytes);
    let result = act(node, came(&buffers.bytes, len), &mut buffers.out);
    let (resender, counts) = (&mut buffers.resender, &mut buffers.counts);
    send_all(wire, buffers.out.as_slice(), resender, counts);
    result
}
