//! What holds of members' runs.

ghost use Rattle.node_loop.specs.Asking.{MembersAskNothing};
ghost use Rattle.node_loop.specs.Runs.{RunsAreTraces, HostedRunsAreTraces, RunsGoOn};

use crate::laws::{hostings_are_traces, turns_are_traces};
use px_records::Records;

/// What a run did to its record and over its wire is a trace of the model, from what the record held on.
pub fn runs_are_traces<R: Records>()
    ensures { RunsAreTraces R.Records }
{
    turns_are_traces::<R>();
}

/// What a run with commands asked between its turns, as at a control socket, did to its record and over its wire is a
/// trace of the model, as of a run without.
pub fn hosted_runs_are_traces<R: Records>()
    ensures { HostedRunsAreTraces R.Records }
{
    hostings_are_traces::<R>();
}

/// Runs that follow one another over one store, where each opening finds what a stop may have left, are one trace of
/// the member.
pub fn runs_go_on<R: Records>()
    ensures { RunsGoOn R.Records }
{}

/// A datagram of a sender other than 255 asks nothing of a member. Such are all that a node takes whose buffers hear no
/// asks (`crate::TurnBuffers`).
pub fn members_ask_nothing<R: Records>()
    ensures { MembersAskNothing R.Records }
{}
