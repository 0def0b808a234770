//! `node`, `ask` over UDP and `key`: a node that runs, a command asked of one, and a cluster's key.
//!
//! # Organization
//!
//! - [`run_net`]: the subcommands, over any reader and writer, and over who runs nodes ([`Nodes`]), makes wires
//!   ([`Client`]) and files ([`NewFiles`]).
//! - [`run_node`]: a run of a node, over its files ([`NodeFiles`]) and databases ([`Databases`]). [`check_node`]: whether
//!   it could be started, with who opens its database to look at it ([`Inspection`]).
//!
//! Within: `running` picks the subcommand; `options` has the arguments as `clap` reads them, `settings` those of a
//! node's file, `node`, `ask` and `key` what each gives, and `check` what `node` with `--check`; `files` and `sealing`
//! have a node's keys and its start, `store` opens or makes its store, and `database` the database in it; `sockets`
//! tries its sockets; `outcome` has what is written, `events` and `faults` what a node reports on standard error.
//!
//! # Why
//!
//! - **A start makes no store** where settings come from a file: a store that is gone, as behind a folder that isn't
//!   mounted, would come back empty, and its node vote twice. `--new` makes it. With arguments alone one is made where
//!   there is none: those who type them name the node. An empty file counts as none, in both.
//! - **A store is made once its node's sockets were tried**: a `--new` that is refused for an address or a control
//!   socket can be typed again. The store's file comes before, without a byte, since 70 is answered before 82 and 84;
//!   it is left there, since by then it could be another node's. The sockets are closed again, and opened by the run.
//! - **`--check` refuses no address in use and no control socket that answers**, since its node may be running, nor one
//!   whose folder is missing, since systemd makes that with the service.
//! - **A new store has pages of 1,024 bytes**, where the database's own size is 4,096: a commit writes whole pages, and
//!   copies, counts and sums their bytes, most often to put one row of some 50 bytes. A store that is there keeps its
//!   size. The files are made by the calls that the database itself makes them by, with its lock held, so that a
//!   process that is killed meanwhile leaves what the next start takes for a new store.
//! - **94 is a new key's file too**: a file that is to be made is there.
//! - **A member that had failed ends with the cause**, 70 or 72, and not with the 80 that the next turn answers: 70
//!   where the record counts a failure, as `px_replica` has it of the call that failed.
//! - **The control socket is made in a folder of its own**, 0700, and linked to its place once its mode is set, since
//!   std has no umask and a socket listens from `bind` on. A link, not a rename: a link replaces nothing.
//! - **Why a store isn't opened** is what the system reports of reading and writing its file, asked again, else what
//!   the database reports; `px_store` keeps no cause of a statement that failed.
//! - **`node` without an address is refused with 40**, as are more than 15, and a number that is none of theirs.
//! - **`node` closes its store at its end**; out of memory in a turn ends it with `memory`.
//! - **`--other-key` alone is refused**: in the first step of a change the other key is the new one, in the second the
//!   old one.
//! - **No node hears both formats of datagrams**: whichever format has a majority goes on without it, so it would save
//!   one restart's time once in the cluster's existence, for a second wire of which no law speaks.
#![tactic(auto)]

mod ask;
mod check;
mod database;
mod events;
mod faults;
mod files;
mod key;
mod node;
mod options;
mod outcome;
mod running;
mod sealing;
mod settings;
mod sockets;
mod store;

pub use ask::{AskArguments, Client};
pub use check::check_node;
pub use cli_io::Status;
pub use database::{Databases, Inspection, Seen};
pub use files::NodeFiles;
pub use key::NewFiles;
pub use node::{NodeArguments, run_node};
pub use outcome::Outcome;
pub use running::run_net;
pub use settings::Nodes;
