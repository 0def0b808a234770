//! What holds of a node's turns.

ghost use Rattle.node_loop.specs.Moves.{TurnsAreTraces, HostingsAreTraces};

use px_records::Records;

/// Whatever turns a node makes, in whatever order the network and the clock ask for them, are steps of the model: a
/// trace of that member, as pfx_laws's histories are made of.
pub fn turns_are_traces<R: Records>()
    ensures { TurnsAreTraces R.Records }
{}

/// The same of turns with commands asked of the node between them, whatever was asked and answered.
pub fn hostings_are_traces<R: Records>()
    ensures { HostingsAreTraces R.Records }
{}
