//! What holds of every cluster of nodes.

ghost use Rattle.pfx_laws.specs.Fronts.{FrontsAreRuns};
ghost use Rattle.pfx_laws.specs.Traces.{TracesAreHistories};
ghost use Rattle.pfx_laws.specs.Promised.{HistoriesAreRuns, NodesAgree, LearnWhatWasAsked, NeverDiffer};
ghost use Rattle.pfx_laws.specs.Promised.{EquallyApplied};
ghost use Rattle.pfx_laws.specs.Carried.{WiresAreHistories, WiresNeverDiffer, WiresLearnWhatWasAsked};
ghost use Rattle.pfx_laws.specs.Carried.{EquallyAppliedOverWires};
ghost use Rattle.pfx_laws.specs.Runs.{TracesAreStretches, TracesGo, OpeningsAreStretches};
ghost use Rattle.pfx_laws.specs.Sockets.{EquallyAppliedAtSockets, SocketsGo, SocketsLearnWhatWasAsked};
ghost use Rattle.pfx_laws.specs.Sockets.{SocketsNeverDiffer};
ghost use Rattle.pfx_laws.specs.Sealed.{EquallyAppliedAtSealedSockets};
ghost use Rattle.pfx_laws.specs.Sealed.{SealedSocketsGo, SealedSocketsLearnWhatWasAsked, SealedSocketsNeverDiffer};

use px_records::Records;

/// Any traces of members, each from an empty record, make a history, in any order of their events in which each
/// datagram that one received had been handed out to it before. What turns make is such a trace
/// (`node_loop::laws::turns_are_traces`).
pub fn traces_are_histories()
    ensures { TracesAreHistories }
{}

/// Any events of nodes over any records are a run of the world: calls, stops in the midst of one, failures of a store,
/// openings, and datagrams lost, repeated, delayed and reordered. Its members are the nodes, with their records, and
/// its messages are what they handed out, in order.
///
/// Source: Paxos Made Simple, 2.1.
pub fn histories_are_runs()
    ensures { HistoriesAreRuns }
{}

/// So the members agree: what was ever learned at a position is one entry, chosen there and asked, no entry is learned
/// at two positions, and nothing learned is lost.
pub fn nodes_agree()
    ensures { NodesAgree }
{}

/// A node learns nothing but what was asked of a node and accepted, and nothing is accepted twice.
pub fn nodes_learn_what_was_asked()
    ensures { LearnWhatWasAsked }
{}

/// At whatever moments: two nodes never have different entries as learned at a position, nor one entry at two
/// positions.
pub fn nodes_never_differ()
    ensures { NeverDiffer }
{}

/// At whatever moments: two nodes, over whatever records, that have applied equally many positions have one
/// configuration, and so give one verdict for every packet.
pub fn equally_applied_nodes_are_equal<R: Records, Q: Records>()
    ensures { EquallyApplied R.Records Q.Records }
{}

/// A member's trace is a stretch, which leads to its state at the end; and its trace up to a stop there is one,
/// whatever that leaves.
pub fn traces_are_stretches<R: Records>()
    ensures { TracesAreStretches R.Records }
{}

/// A member's trace from an opening on is a stretch, with that opening, from any state before.
pub fn openings_are_stretches()
    ensures { OpeningsAreStretches }
{}

/// Stretches of members' traces, one of one member after another, are a history where each member's trace is from an
/// empty record on, and their wires gave no datagram but those that some wire had been handed for that member before,
/// repeated, late and in whatever order, and asks from outside. It leaves each member in the state after its stretches.
pub fn wires_are_histories()
    ensures { WiresAreHistories }
{}

/// So over such a network two nodes never have different entries as learned at a position, nor one entry at two
/// positions, at whatever moments.
pub fn wires_never_differ()
    ensures { WiresNeverDiffer }
{}

/// Over such a network a node learns nothing but what was asked of a node and accepted, and nothing is accepted twice.
pub fn wires_learn_what_was_asked()
    ensures { WiresLearnWhatWasAsked }
{}

/// Over such a network two nodes, over whatever records, that have applied equally many positions have one
/// configuration, and so give one verdict for every packet.
pub fn equally_applied_over_wires<R: Records, Q: Records>()
    ensures { EquallyAppliedOverWires R.Records Q.Records }
{}

/// Members that run side by side, each from an empty record on, and any order of their events in which the network is
/// such a one: these laws hold of their states at the end.
pub fn traces_go<R: Records>()
    ensures { TracesGo R.Records }
{}

/// Members that run one after another over sockets, each run over what a stop may have left of the one before, and to
/// whose sockets no datagram comes but those that some member's socket was handed before, and asks from outside: their
/// traces are made of stretches, and these laws hold of their states at the end. What a run is at its socket is defined
/// in node_control (`specs/Sockets`).
pub fn sockets_go()
    ensures { SocketsGo }
{}

/// So over such sockets no two members ever have different entries as learned at a position, nor one entry at two
/// positions, in the end of whichever of their runs.
pub fn sockets_never_differ()
    ensures { SocketsNeverDiffer }
{}

/// Over such sockets a member learns nothing but what was asked of a member and accepted, and nothing is accepted
/// twice.
pub fn sockets_learn_what_was_asked()
    ensures { SocketsLearnWhatWasAsked }
{}

/// Over such sockets two nodes, over whatever records, that have applied equally many positions, in the end of
/// whichever of their runs, have one configuration, and so give one verdict for every packet.
pub fn equally_applied_at_sockets<R: Records, Q: Records>()
    ensures { EquallyAppliedAtSockets R.Records Q.Records }
{}

/// Members with a key, which run one after another, each run from a start of its own, and to whose sockets no packet
/// comes that they open but those that some member's socket was handed before, in any run: their traces are made of
/// stretches, and these laws hold of their states at the end.
pub fn sealed_sockets_go()
    ensures { SealedSocketsGo }
{
    px_transport::laws::sealed_is_carried();
}

/// So with a key no two members ever have different entries as learned at a position, nor one entry at two positions,
/// in the end of whichever of their runs.
pub fn sealed_sockets_never_differ()
    ensures { SealedSocketsNeverDiffer }
{
    px_transport::laws::sealed_is_carried();
}

/// With a key a member learns nothing but what was asked of a member and accepted, and nothing is accepted twice.
pub fn sealed_sockets_learn_what_was_asked()
    ensures { SealedSocketsLearnWhatWasAsked }
{
    px_transport::laws::sealed_is_carried();
}

/// With a key two nodes, over whatever records, that have applied equally many positions, in the end of whichever of
/// their runs, have one configuration, and so give one verdict for every packet.
pub fn equally_applied_at_sealed_sockets<R: Records, Q: Records>()
    ensures { EquallyAppliedAtSealedSockets R.Records Q.Records }
{
    px_transport::laws::sealed_is_carried();
}

/// What went over a run's socket up to any moment is what goes over the socket of a run with a prefix of its trace: so
/// a killed run is one, if it did a prefix of a complete run.
pub fn fronts_are_runs()
    ensures { FrontsAreRuns }
{}
