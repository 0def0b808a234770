//! `follow`: what a running node applies, as rules for a kernel, each time that changes them.
//!
//! # Organization
//!
//! - [`run_follow`]: the subcommand, over any writers, at the node that control sockets ([`ControlSockets`]) have at a
//!   path; [`follow`]: its loop, over a peer that answers as a node does ([`Control`]), and wherever files are written
//!   ([`Folders`]): what it writes, and does with files, is what the answers lead to.
//! - [`FollowedConfiguration`]: the configuration after the first entries of a log, as a control socket's lines give
//!   them.
//! - [`members_are_read`]: the members that a node names are read as such.
//!
//! Within: `options` has the arguments as `clap` reads them, `running` the loop, `control` the control socket,
//! `follower` what an answer leads to, `kernel` what nft(8) is to load, and how it is written, `places` what is written
//! where, `files` the rulesets for pfctl(8), `members` where a node's members listen.
//!
//! # Why
//!
//! - `follow` reads entries, and makes the configuration from them by `apply`, as a node does: a listing has no
//!   place for unnamed blocks, and the control socket needs nothing but bytes. It costs reading the log once at the
//!   start.
//! - Nothing is written of an empty log: a node whose store is lost begins there, and would open its kernel's
//!   filter until it has caught up.
//! - Whether rules changed is asked of what would be rendered under the names that were handed out last, so a
//!   command that is done and changes nothing for the kernel writes nothing. It costs a second rendering for each
//!   change.
//! - Lines go to standard output as nft takes them; all refusals go to standard error, 40 and 89 too, and so does
//!   `memory`, since what reads the output is nft. What `clap` writes of arguments goes to standard output, as of every
//!   subcommand.
//! - The loop ends with its output, at `--turns`, or out of memory, and at nothing else: a control socket where
//!   nobody answers is asked again, since nodes are restarted.
//! - It pauses by a read of a stream of its own that times out, as `cli_ask` does: there is no handle for waiting.
//! - A line has no position: the answer begins where it was asked from. The followed configuration has its position.
//! - Where the members listen is read from the node's status, once a second too: a node may be started again with
//!   other addresses while `follow` runs, and the old guard would cut it off. What is written then has the names of
//!   a position already written, so the last line of what was written before, which ends these names, isn't
//!   written.
//! - Files for pfctl are written beside their place and renamed (std's `fs`, which needs no handle). A file's name
//!   has `+` between the names of a path, which no name has, and there is no folder for an anchor: one rename is
//!   one text.
#![tactic(auto)]

mod control;
mod files;
mod followed_configuration;
mod follower;
mod kernel;
mod laws;
mod members;
mod options;
mod places;
mod running;

pub use control::{Control, ControlSockets};
pub use files::{Folders, SystemFiles, TextFiles};
pub use followed_configuration::{FollowedConfiguration, TakeFault};
pub use follower::WriteFault;
pub use laws::members_are_read;
pub use running::{follow, run_follow};
