//! What a node logs on standard error of how it begins and ends.

use crate::faults::log_why;
use crate::node::NodeArguments;
use crate::outcome::Outcome;
use cli_io::Shown;

/// Logs that a node begins, and with what.
pub(crate) fn log_start(rt: &HostRuntime, arguments: NodeArguments<'_>) {
    let (me, n) = (arguments.me, arguments.members.len());
    let (cluster, store) = (arguments.cluster, Shown(arguments.store));
    if !arguments.is_quiet {
        let _logged = eprintln!(rt;
            "pfx: info: node {me} of {n}, cluster {cluster}, starts on {store}"
        );
    }
}

/// Logs how a node ends: a refusal as an error, else how far it came.
pub(crate) fn log_end(rt: &HostRuntime, arguments: NodeArguments<'_>, outcome: Outcome) {
    let me = arguments.me;
    let _logged = match outcome {
        Outcome::Refused(code) => {
            log_why(rt, arguments, code);
            eprintln!(rt; "pfx: error: node {me} ends, refused {code} (pfx explain {code})")
        }
        Outcome::Memory => eprintln!(rt; "pfx: error: node {me} ends, out of memory"),
        Outcome::Front { front, applied } | Outcome::Stopped { front, applied }
            if !arguments.is_quiet => {
            eprintln!(rt; "pfx: info: node {me} ends with {front} learned and {applied} applied")
        }
        _ => Ok(()),
    };
}
