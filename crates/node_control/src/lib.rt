//! The control socket of a running node: HTTP/1.1 over a Unix socket, beside the members' datagrams.
//!
//! # Organization
//!
//! - [`run_member`]: a member's run over its record, with a control socket or without one. There is no other loop.
//! - [`run_at_socket`] and [`run_sealed_at_socket`]: the same at a UDP socket, without a key and with one.
//! - [`ControlPlace`]: where the control socket is. Behind it bytes are moved and nothing else; `http_server` reads
//!   requests and writes answers, and node_requests answers them.
//! - [`Observer`]: what is seen of the node as it runs, for the request handler's figures and for warnings on standard
//!   error.
//!
//! Within: `running` is the loop, of node_loop's rounds with requests between them; `control` has the sockets that
//! accept clients, `client` one client, `stream` its socket, `service` a request and its answer as HTTP has them;
//! `hearing` and `logging` report on standard error.
//!
//! Each process that may open the socket's file may ask: the file's mode, 0660, and the folder that it is in decide
//! which.
//!
//! # Why
//!
//! - **A Unix socket, HTTP and plain text**: the file's folder is the lock, any HTTP client will do, and no port is
//!   opened.
//! - **There is one loop of rounds** (`run_member`), which has the control socket as an `Option`. Without one its
//!   clause `turns` states that it makes turns alone; with one the clause `hosted` has commands asked between them. A
//!   trait for what is done between two rounds isn't possible: its ghost member would have to name the bounds' own
//!   members.
//! - **A run takes its timer from the caller**, and is proved for any. It knows a timer by its calls alone, so what the
//!   timer was given counts the rounds (`MakesTurns`), and a run that makes none isn't proved.
//! - **It waits by `mio`** over the members' socket and the connections, so no operator waits for a tick. Between two
//!   rounds it asks eight changes at most, or handles one other request.
//! - **A ninth connection is accepted and answered 503**, but for `health` and `stop`: what a connection is for is in
//!   its first request. It is the last of the list, so once another one closes it is one of the eight.
//! - **No clause of a run states that a change which is asked came from a client.** One look at a client changes the
//!   node by the calls of that client's connection and by nothing else. But std doesn't state what a socket gives, and
//!   `http_server` doesn't state for which request a service was called last if it is out of memory for the answer. A
//!   row of pfx shows that nothing is learned where no client asks.
//! - **Metrics over TCP are a second entrance of the same control socket** (`--metrics`), at an address of this machine
//!   alone and with clients of its own, so those who connect there keep no operator out. The request handler sees what
//!   comes there only if it is a read of one of three paths, so nothing changes there. Without `--control` there is no
//!   such port, and `--metrics` is refused.
//! - **A node that hears no majority warns on standard error by the observer**, with a control socket and without one,
//!   from the heads of what the node accepted; the health is `alone` then. The same reports when it has caught up, and,
//!   by the positions of others' datagrams, that the log nears its end: a cluster of one doesn't report that, but its
//!   control socket does. **A command that is refused where it is applied has no line there**: the client gets the
//!   refusal, and the control socket's log and figures have it.
#![tactic(auto)]

mod at_socket;
mod client;
mod control;
mod hearing;
mod logging;
mod member;
mod observer;
mod running;
mod service;
mod stream;

pub use at_socket::{run_at_socket, run_sealed_at_socket};
pub use member::{ControlPlace, run_member};
pub use observer::Observer;
