//! Wires: where a member's datagrams come from and go to, also as sealed packets.
//!
//! # Organization
//!
//! - [`Wire`]: what a node requires of the carrier of its datagrams, in `specs/Wires`' terms.
//! - [`MemoryWire`]: a wire in memory, which keeps all that went over it. [`FaultyWire`]: any wire, of which each
//!   `k`-th receive and send fails, for tests of lost datagrams. [`LoopbackWire`]: any wire, which keeps what a member
//!   sends to itself and gives it back.
//! - [`PacketWire`]: any wire, over which datagrams go as sealed packets (`px_packet`), cut where they are longer than
//!   a packet. [`Receiver`]: what a receiver does with packets that were opened; [`PacketOutcome`]: what comes of one.
//! - [`laws`] and [`sending_laws`]: what is given was handed over, once; no counter is used twice.
//! - `specs/Bodies` defines how bodies are read, `specs/Receiving` what a receiver does with packets, `specs/Sending`
//!   which packets a member sends, `specs/Wiring` what a wire over packets does.
//!
//! Within: `sender` has what a member sends, with what it keeps for each receiver (`outgoing`); `opening` opens a
//! packet and hands it to the receiver, `coming` is what that gives the wire; `cutting` writes a datagram into a
//! buffer.
//!
//! # Why
//!
//! - `px_packet` knows packets and pieces. Here is who sends which packet when, and what is given of those that come.
//! - A wire over UDP is node_udp's, so nothing here knows of sockets.
//! - **A wire shows whose it is** (`identity` of `Wire`: the member whose datagrams to itself it keeps, and the keys
//!   and the sealer of its packets), and no call changes that. So the wire after a run is the member's, and the
//!   contracts of `run_at_socket` and `run_sealed_at_socket` (node_control) are about the wire that was handed in.
//! - **`Wire` is below nodes**, in a crate that knows none, so node_udp's proofs don't wait for theirs.
//! - **A faulty wire reports what was given, not what it was handed**, since not all of that goes on.
//! - **A wire that keeps what a member sends to itself** (`LoopbackWire`) hands it on below where 64 are kept or it is
//!   out of memory. These are datagrams like any other: what is kept may be lost, and is where the wire is taken apart.
//! - **`poll` has the clauses of `recv`**: no contract can distinguish a wait from none. Tests show that it waits for
//!   nothing.
//! - **A wire reports how long a caller may wait elsewhere** (`Wire::due`): a node with a control socket waits at that
//!   and at the datagrams' socket together, and not in the wire. A wire of packets has reports of pieces to send;
//!   without `due` they would go out in the next round, up to 100 ms later.
//! - **The law at sockets with a key** cuts what a wire of packets does into steps, each at most one packet below and
//!   one datagram above (`specs/Steps`). So an order of all members' packets is one of their datagrams too (pfx_laws,
//! `proofs/Lifting`). Its premise is about the packets that a member opens: what strangers send needs none. A datagram
//! is cut only while one of the 2^32 names for its receiver is left, so no premise bounds how many there are.
#![tactic(auto)]

mod coming;
mod cutting;
mod faulty;
pub mod laws;
mod loopback;
mod memory;
mod opening;
mod outgoing;
mod packet_outcome;
mod packet_wire;
mod receiver;
mod sender;
pub mod sending_laws;
mod wire;

pub use faulty::FaultyWire;
pub use loopback::LoopbackWire;
pub use memory::MemoryWire;
pub use packet_outcome::PacketOutcome;
pub use packet_wire::PacketWire;
pub use receiver::Receiver;
pub use wire::Wire;
