//! `ask` at a node's control socket, from its arguments to what is printed.
//!
//! # Organization
//!
//! - [`run_control_ask`]: the subcommand `ask` with `--control`, over any reader and writer, at a peer that the caller
//!   lends ([`Direct`], [`Control`]): the system's is [`Reached`].
//! - [`read_at`], [`pause`]: one read at a control socket with its [`Reply`], and the time between two.
//! - [`ControlSockets`]: where control sockets are that are read; for the system's the handle itself.
//! - [`laws`]: the lines of addresses and packets are read as the arguments that they were made of.
//!
//! Within: `options` has the arguments as `clap` reads them, `arguments` what is sent for them, a `call` with its
//! `target` and, for addresses and packets, the lines of `sending`; `checking` has what a change is refused for before
//! that. `control` is a trait for the peer that answers, `exchange` one request over the socket, `reply` its bytes and
//! those of the answer. `asking` has how often it is asked, `commands` what is answered of a command, `verdicts`
//! verdicts in parts, `answers` whether an answer is that the request succeeded, `outcome` what a run writes and how it
//! ends, `showing` an answer for a terminal, `script` reads the changes of a script, `scripting` asks them, and
//! `reporting` has the messages on standard error.
//!
//! # Why
//!
//! - **`ask --control` has its own arguments beside `ask --to`** (cli_node), since the options of the two exclude each
//!   other; pfx takes this one where an argument is `--control`.
//! - **Arguments are read once, where they are typed** (by `from_matches`; in a script by `read_change`): the `Action`
//!   decides which request is made, and a change is sent as the bytes of its entry, so that a node reads no arguments
//!   again. The entry has origin 0 and number 0; the node uses neither.
//! - **The client reads a ruleset before it asks** (by `parse`), not the node: the node accepts what is asked, so the
//!   model's Ask stays what a change is. `--unchecked` skips this check and nothing else, and is the client's alone.
//! - What is asked, and how often, is stated over a trait (`Control`), whose ghost has the requests and their answers,
//!   since no contract can state what a socket gives. For a peer that is reached over connections (`Reached`) it has
//!   what was written to each and read of it.
//! - **A run borrows its peer**, and directs it to the path of `--control`, which is among what the ghost has: its
//!   contract is of the peer's states before and after it, so that nothing is asked behind the run, at another path,
//!   or where the arguments are misused. Of the system it has no sockets beside that ([`Pauses`]).
#![tactic(auto)]

mod answers;
mod arguments;
mod asking;
mod call;
mod checking;
mod commands;
mod control;
mod exchange;
pub mod laws;
mod options;
mod outcome;
mod reply;
mod reporting;
mod running;
mod script;
mod scripting;
mod sending;
mod showing;
mod target;
mod verdicts;

pub use asking::Pauses;
pub use cli_io::Status;
pub use control::{Control, ControlSockets, Direct, Reached, read_at};
pub use exchange::{AskFault, Reply};
pub use running::run_control_ask;
