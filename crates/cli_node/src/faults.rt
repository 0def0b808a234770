//! What a node logs on standard error of why it isn't started, or ends: which file or address, and what the system
//! said.

ghost use Rattle.std.specs.Prelude.{◌≡◌, ◌↔◌, IsTrue};
ghost use Rattle.sqlite.specs.Held.{state};
ghost use Rattle.sqlite.specs.State.{HasCleanDisk};
ghost use Rattle.px_store.specs.Adopting.{LeavesOld};
ghost use Rattle.px_store.specs.Tables.{no_schema};

use crate::node::NodeArguments;
use crate::sockets::try_control;
use cli_files::RaiseFault;
use cli_io::{
    BAD_ADDRESS, BAD_CONTROL_SOCKET, BAD_ROW, FILE_EXISTS, NO_STORE, STORE_FAILED, Shown,
    make_private, open_regular,
};
use node_loop::Membership;
use px_store::{AdoptFault, owner_in};
use sqlite::{Alter, Connection};
use std::fmt::Display;
use std::fs::{self, Files, OpenOptions};
use std::io::{self, Eprint, Error, ErrorKind};
use std::net::{TcpListener, ToSocketAddrs, UdpSocket};

/// Why a node can't read and write a file, as the system reports it; none where it can.
pub(crate) fn why_closed<F: Files>(files: &F, path: &str) -> io::Result<()> {
    if !fs::metadata(files, path)?.is_file() {
        return Err(Error::new(ErrorKind::InvalidInput, "it isn't a regular file"));
    }
    let _opened = OpenOptions::new().read(true).write(true).open(files, path)?;
    Ok(())
}

/// Logs what is wrong with a file or an address.
pub(crate) fn log_error<RT: Eprint, E: Display>(rt: &RT, what: &str, name: &str, why: &E) {
    let _logged = eprintln!(rt; "pfx: error: {what} {}: {why}", Shown(name));
}

/// Logs what is wrong with it: what the system reports where it is tried again, else this.
pub(crate) fn log_cause<RT: Eprint, E: Display>(
    rt: &RT,
    what: &str,
    name: &str,
    again: io::Result<()>,
    why: &E,
) {
    match again {
        Ok(()) => log_error(rt, what, name, why),
        Err(error) => log_error(rt, what, name, &error),
    }
}

/// Logs why a store isn't opened: what the system reports of its file, else what the database reports.
pub(crate) fn log_closed<RT: Files + Eprint, E: Display>(rt: &RT, path: &str, why: &E) {
    log_cause(rt, "store", path, why_closed(rt, path), why);
}

/// Logs why a store is neither opened nor created.
pub(crate) fn log_storeless<RT: Files + Eprint>(rt: &RT, path: &str, code: u8) {
    let why = match code {
        NO_STORE => "is missing: --new creates one, for a node that never ran; else it is lost",
        FILE_EXISTS => "exists: a node is started on it without --new",
        _ => return log_closed(rt, path, &"it isn't a regular file"),
    };
    let _logged = eprintln!(rt; "pfx: error: store {} {why}", Shown(path));
}

/// Whether a store has no tables.
fn is_bare<S: Alter>(conn: &Connection<S>) -> bool
    ensures { IsTrue result ↔ ((state S.Store conn.now).now.schema ≡ no_schema) }
{
    let schema = conn.schema();
    schema.tables.is_empty() && schema.indexes.is_empty() && schema.views.is_empty()
}

/// Logs why a store is refused.
pub(crate) fn log_judged<RT: Eprint, S: Alter>(
    rt: &RT,
    path: &str,
    m: Membership,
    fault: AdoptFault,
    conn: &mut Connection<S>,
)
    ensures clean { HasCleanDisk (state S.Store conn.new) → HasCleanDisk (state S.Store conn.old) }
    ensures stop { HasCleanDisk (state S.Store conn.new) →
        LeavesOld (state S.Store conn.old) (state S.Store conn.new) }
{
    let shown = Shown(path);
    if fault == AdoptFault::WrongNode {
        if let Ok(owner) = owner_in(conn) {
            let (node, members, cluster) = (owner.node, owner.members, owner.cluster);
            let (me, n, own) = (m.me(), m.members(), m.cluster());
            let _logged = eprintln!(rt;
                "pfx: error: store {shown} is of node {node} of {members}, cluster {cluster}; this is node {me} of {n}, \
                 cluster {own}"
            );
            return;
        }
    }
    if fault == AdoptFault::StoreVersion && is_bare(conn) {
        let _logged = eprintln!(rt;
            "pfx: error: store {shown} has no tables: its record is lost; if a kill ended the first start before they \
             were made, and the node never ran, remove it"
        );
        return;
    }
    log_error(rt, "store", path, &fault);
}

/// Logs which number isn't a member's.
pub(crate) fn log_place(rt: &HostRuntime, arguments: NodeArguments<'_>) {
    let me = arguments.me;
    let n = arguments.members.len();
    let _logged = eprintln!(rt;
        "pfx: error: node {me} of {n} members: a cluster has 1 to 15, numbered from 0"
    );
}

/// Logs which of the members' addresses the system doesn't know, and which have no port. Whether none is such.
pub(crate) fn log_unknown(rt: &HostRuntime, arguments: NodeArguments<'_>) -> bool {
    let mut are_known = true;
    for member in arguments.members {
        match (*member).to_socket_addrs(rt) {
            Ok(mut found) => {
                if found.any(|address| address.port() != 0) {
                    continue;
                }
                log_error(rt, "address", member, &"it has no port");
            }
            Err(error) => log_error(rt, "address", member, &error),
        }
        are_known = false;
    }
    are_known
}

/// Logs why the port of metrics can't be opened.
pub(crate) fn log_metrics(rt: &HostRuntime, figures: &str) {
    let bound = TcpListener::bind(rt, figures).map(drop);
    let why = "not a loopback address with a port";
    log_cause(rt, "metrics", figures, bound, &why);
}

/// Logs why there is no socket: of the members, or, if theirs can be opened, of metrics.
fn log_unbound(rt: &HostRuntime, arguments: NodeArguments<'_>) {
    let Some(own) = arguments.members.get(usize::from(arguments.me)) else {
        return;
    };
    if let Err(error) = UdpSocket::bind(rt, *own) {
        log_error(rt, "address", own, &error);
        return;
    }
    match arguments.metrics {
        Some(figures) => log_metrics(rt, figures),
        None => {
            let _logged = eprintln!(rt;
                "pfx: error: an address has no port, or is of another family than the first"
            );
        }
    }
}

/// Why a file of starts can't be read, or written beside its place, as the system reports it; none where it can.
fn why_unusable(rt: &HostRuntime, path: &str, fault: RaiseFault) -> io::Result<()> {
    match fault {
        RaiseFault::Unread => open_regular(rt, path).map(drop),
        RaiseFault::Unwritten => {
            let beside = format!(in rt.alloc(); "{path}-new")?;
            let _gone = fs::remove_file(rt, beside.as_str());
            let _made = make_private(rt, beside.as_str())?;
            fs::remove_file(rt, beside.as_str())
        }
        _ => Ok(()),
    }
}

/// Logs why a file of starts can't be used.
pub(crate) fn log_unusable(rt: &HostRuntime, path: &str, fault: RaiseFault) {
    let Err(error) = why_unusable(rt, path, fault) else {
        return log_error(rt, "starts", path, &fault);
    };
    let _logged = eprintln!(rt; "pfx: error: starts {}: {fault}: {error}", Shown(path));
}

/// Logs of which file or address a refusal is that ends a run.
pub(crate) fn log_why(rt: &HostRuntime, arguments: NodeArguments<'_>, code: u8) {
    let store = arguments.store;
    match code {
        STORE_FAILED => log_closed(rt, store, &"a change couldn't be written, or read"),
        BAD_ROW => log_error(rt, "store", store, &"a bad row"),
        BAD_ADDRESS => if log_unknown(rt, arguments) {
            log_unbound(rt, arguments);
        },
        BAD_CONTROL_SOCKET => if let Some(control) = arguments.control {
            let tried = try_control(rt, control);
            log_cause(
                rt,
                "control socket",
                control,
                tried,
                &"the system refused it",
            );
        },
        _ => {}
    }
}
