//! What members send one another under a key: packets of a header, a body and a tag; which of them are accepted;
//! datagrams cut into pieces.
//!
//! # Organization
//!
//! - [`PacketKeys`]: seals a packet with one key, and opens packets that were sealed with that or another. [`Header`]:
//!   who sends what [`Kind`] of body to whom; [`Start`], of which sender, and the counter. [`PacketFault`]: why a
//!   packet isn't opened.
//! - [`group_key`]: the key of a cluster's tags, made of its secret, its number and its members' addresses;
//!   [`parse_key`]: a secret of 64 hexadecimal digits. [`hmac_sha256`]: the tag of a message, of RFC 2104 with SHA-256;
//!   [`HmacKey`]: a key made ready once.
//! - [`Peer`]: what a receiver remembers of a member: its start, and a [`Window`] of 2,048 counters that were accepted
//!   (RFC 6479). [`Arrival`]: why a packet is accepted or not.
//! - [`Piece`]: the body of a packet with a piece of a datagram, read and written; [`write_piece`] cuts it.
//!   [`PiecesHeld`]: the body that reports which pieces of a datagram its sender has. [`Reassembly`]: a receiver's
//!   unfinished datagrams of one sender, 8 at most. [`SendBuffer`]: what a sender keeps of the datagrams that it cut
//!   for one receiver, 8 at most.
//! - [`packet_laws`]: what was sealed is opened as it was, and nothing else is opened. [`group_laws`]: another group
//!   has other bytes. [`replay_laws`]: no body is accepted twice, over restarts of either side, and a fresh one is
//!   accepted. [`piece_laws`]: cutting and reassembling is the identity, and what is reassembled was cut.
//! - `specs/Hmac` and `specs/Groups` define a tag and a cluster's key, `specs/Headers` the bytes of a header,
//!   `specs/Packets` a sealed packet and which is opened, `specs/Windows` which counters are fresh, `specs/Arrivals`
//!   which packets are accepted, `specs/Pieces` a piece, `specs/Reassembling` what a receiver does with pieces.
//!
//! Within: `bytes` writes numbers, `key` is one key with its tags, `partial` an unfinished datagram.
//!
//! A packet in these crates is one of these, the body of one UDP datagram; packets that a firewall judges are
//! pf_eval's. A datagram is an encoded message (px_wire), of which a packet has the whole or a piece.
//!
//! # The bytes of a packet
//!
//! Numbers are unsigned, the highest byte first.
//!
//! | Offset | Bytes | What |
//! |---|---|---|
//! | 0 | 4 | `PFXS`, 50 46 58 53 |
//! | 4 | 1 | version 2 |
//! | 5 | 4 | the cluster's number |
//! | 9 | 1 | how many members it has |
//! | 10 | 1 | the sender: a member |
//! | 11 | 1 | the receiver: another member |
//! | 12 | 1 | kind: 0 state, 1 whole datagram, 2 piece, 3 pieces held |
//! | 13 | 8 | the sender's start: its number from 1 on, 4 bytes, and a random salt, 4 |
//! | 21 | 8 | the echo: the receiver's start as the sender last heard it; 0 where it never did |
//! | 29 | 8 | counter: one for each receiver, from 1 on at each start |
//! | 37 | | the body |
//! | end | 16 | tag: HMAC-SHA-256 of all before it, of which the first 16 bytes |
//!
//! The tag is checked first, and then the fields in this order.
//!
//! # The bytes
//!
//! Numbers are unsigned, the highest byte first. A datagram of at most 33,640 bytes has at most 29 pieces.
//!
//! | Body of | Bytes |
//! |---|---|
//! | a piece | the datagram's name, 4; its length, 2; the piece's number, 1; its part, at most 1,160 bytes |
//! | pieces held | the datagram's name, 4; a bit for each piece, 4, the lowest one for piece 0 |
//!
//! Each piece but the last has 1,160 bytes. A name is a number that a sender gives to one datagram only.
//!
//! # Why
//!
//! - All of this is values: no wire, no clock, no file. So what is accepted can be stated of lists of packets.
//! - **A node with two keys opens packets of both and seals with the first**, so a key is changed in three steps.
//! - **A tag shows that a holder of the key sealed the packet, not which one.**
//! - **The key of packets is the tag of `PFXS` and 2 under the cluster's key** (`group_key`), so a tag of one format
//!   fits the other only where HMAC fails: no datagram of the first format is these five bytes.
//! - **The number of a start and the counter are from 1 on**, so `Start::NEVER`, which is 0, is no start.
//! - **A window has the last counter of each rest by 2,048**, not a bit for each: 16 KB, but nothing is cleared as it
//!   moves.
//! - **A packet for another start of the receiver doesn't use up its counter**, since it is dropped before the window.
//!   One of kind state does.
//! - **A piece's name is 4 bytes**, not a hash and not 8, since the header has the start.
//! - **A receiver doesn't remember which datagrams it has reassembled**: what is sent again under its name is given
//!   again, as a repeated request has to be. A late piece begins the datagram anew, and is dropped for the eighth that
//!   begins after it.
//! - **A report of what has come may be lost**, so it is repeated (`docs/KEYS.md`).
//! - **A sender keeps 8 datagrams for a receiver**, as many as a receiver keeps unfinished, and finds them byte for
//!   byte.
//! - Proofs: a comparison of every byte gathers the differences by `|` of `^`, which are none exactly if the bytes so
//!   far are the same (`Apart.shows_more`, `shows_all`). Of a block that is written byte by byte what is written is a
//!   prefix, the rest is as it was (`Filling.front_more`, `rest_stays`, `whole`); so with a function on each byte
//!   (`mapped_more`, `mapped_all`). The laws of tags (`packet_opens`, `opened_was_sealed`, `groups_differ`) are about
//!   bytes alone, and about SHA-256 by its definition in the kit.
#![tactic(auto)]

mod arrival;
mod bytes;
mod fault;
mod group;
pub mod group_laws;
mod header;
mod held;
mod hmac;
mod hmac_key;
mod key;
mod keys;
mod kind;
pub mod packet_laws;
mod partial;
mod peer;
mod piece;
pub mod piece_laws;
mod reassembly;
pub mod replay_laws;
mod send_buffer;
mod start;
mod text;
mod window;

pub use arrival::Arrival;
pub use fault::PacketFault;
pub use group::group_key;
pub use header::{HEADER_BYTES, Header};
pub use held::PiecesHeld;
pub use hmac::hmac_sha256;
pub use hmac_key::HmacKey;
pub use keys::PacketKeys;
pub use kind::Kind;
pub use peer::Peer;
pub use piece::{DATAGRAM_MAX, PART_MAX, PIECES_MAX, Piece, piece_count, write_piece};
pub use reassembly::Reassembly;
pub use send_buffer::{CutFault, SendBuffer};
pub use start::Start;
pub use text::parse_key;
pub use window::Window;
