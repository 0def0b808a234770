//! Datagrams over UDP, and a command asked of a node from outside.
//!
//! # Organization
//!
//! - [`UdpWire`]: a wire of a member, or of a client, over a [`Socket`]: the system's, or a test's in memory.
//!   [`parse_address`]: where a member listens; [`shown_is_read`]: what is shown of it is read as it. [`Network`]: what
//!   binds a socket and looks up a host's name, the system or a test's own.
//! - [`ask_once`]: one command asked of one node over any wire, and its [`AskAnswer`].
//!
//! Within: `host` has a member's address by its host's name.
//!
//! # Why
//!
//! - **A member's wait continues from receive to receive.** The wire answers a member none, which is its clock's tick,
//!   once a wait of 100 ms is over, whatever has come. What has come by then stays in the socket for the next receive,
//!   with which a new wait begins. If silence alone ended a wait, a client that asks on and on, or a flood at the port,
//!   even of datagrams that are none, however slow, would keep a node from ever proposing. A flood makes a node tick no
//!   more often than silence does: at most once a wait, but for faults of the socket.
//! - **Of the time between two receives at most a 64th of the wait counts.** That time is a turn's, and most of it the
//!   disk's. If it counted whole, a node whose turns take longer than the wait would tick at every other turn, and
//!   nodes whose proposals take longer than the wait would begin rounds anew before the last one is done: with slow
//!   syncs they learn hardly anything. So turns alone end no wait before 64 datagrams, however slow the disk is.
//! - **The wait is measured by the monotonic clock**, so the time of day has no part in it. A time between two readings
//!   of which one fails, or the second is before the first, counts as none; silence ends the wait all the same. The
//!   clock's type is a parameter of `UdpWire`, so a test has its own.
//! - **Each receive of a client waits the whole wait**, since `ask_once` counts waits.
//! - **`ask_once` reads into 96 bytes**: an answer has at most 29 and a tag 32, so a longer datagram never becomes one.
//! - **What comes from elsewhere than a member's address and port is dropped**, unless its sender's number is 255 and
//!   the wire hears requests from outside: these come from anywhere. This keeps out those who can't forge a source, and
//!   no more.
//! - **A host's name is looked up once, as the wire is bound**, so each datagram goes where the first one went; an
//!   address that changes later isn't noticed. The first IPv4 address is preferred, since a socket has one family and
//!   members that are named alike must get the same one. A name begins with a letter (RFC 952), so `127.1`, which
//!   systems read as an address, stays refused.
//! - **A dropped datagram is given as an empty one**, which nobody accepts, and counted: none would be a tick, which a
//!   forger could then cause at will.
#![tactic(auto)]

mod address;
mod answer;
mod asking;
mod host;
mod laws;
mod network;
mod socket;
mod udp;

pub use address::{Address, parse_address};
pub use answer::AskAnswer;
pub use asking::ask_once;
pub use laws::shown_is_read;
pub use network::Network;
pub use pf_entry::Command;
pub use px_replica::NodeFault;
pub use px_wire::Membership;
pub use socket::Socket;
pub use udp::{BindFault, UdpWire};
