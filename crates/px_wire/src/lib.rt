//! Messages as datagrams: each message of the replicated log has one spelling from one party to another.
//!
//! # Organization
//!
//! - [`decode`] gives the sender and the message of bytes that came, or their first fault. It allocates nothing.
//! - [`Head`]: sender, addressee, kind, ballot and position of a datagram, read at fixed places without the rest. It is
//!   the head of the message that `decode` answers; nothing else looks for these in bytes. [`Kind`] has the numbers of
//!   kinds for both ways.
//! - [`encode`] and [`encode_sent`] give the bytes of a message, and [`address`] turns them to another member, so what
//!   goes to all is encoded once.
//! - [`laws`]: what one encodes the other decodes, one message has one spelling, what a member sends has one.
//! - `specs/Message` is what is to be believed of what is spelled, `specs/Fields` of faults: a table of fields for each
//!   kind. `specs/Members` joins both with the log's own messages, `specs/Heads` defines a message's head.
//!
//! Within: `reading` reads fields from left to right, `limits` has the offsets and bounds, `membership` is who takes
//! part, `fault` the first field that isn't allowed.
//!
//! # The bytes of a datagram
//!
//! Numbers are unsigned, the highest byte first. Nothing follows the last field.
//!
//! | Offset | Bytes | What | Refused as |
//! |---|---|---|---|
//! | 0 | 4 | `PFXR`, 50 46 58 52 | 51 |
//! | 4 | 1 | version 1 | 52 |
//! | 5 | 4 | the cluster's number | 53 |
//! | 9 | 1 | how many members it has, 1 to 15 | 54 |
//! | 10 | 1 | from: a member, or 255 for a client | 54 |
//! | 11 | 1 | to: a member, or 255 | 54 |
//! | 12 | 1 | kind, 1 to 12. Only 8 is from 255, only 9 and 10 are to 255 | 55 |
//! | 13 | | the kind's fields | 57 |
//!
//! | Kind | Fields, each with its offset |
//! |---|---|
//! | 1 Prepare, 11 PrepareAll | ballot of `from` 13, position 21 |
//! | 2 Promise | ballot of `to` 13, position 21, accepted 25 |
//! | 3 Accept | ballot of `from` 13, position 21, length 25, entry 29 |
//! | 4 Vote | ballot 13, position 21, length 25, entry 29 |
//! | 5 Nack | ballot of `to` 13, position 21, promised 25 |
//! | 6 Need | position 13 |
//! | 7 Learned | position 13, length 17, entry 21 |
//! | 8 Ask | length 13, entry 17 |
//! | 9 Asked | token 13, number 21 |
//! | 10 AskRefused | token 13, code 21 |
//! | 12 PromiseAll | ballot of `to` 13, position 21, top 25, accepted 29 |
//!
//! A ballot has eight bytes: `round * 256 + member`, the round 1 to 2^48-1. A position has four bytes and is at most
//! 999,999. A top is the position from which on the sender accepted nothing, at most 1,000,000. Accepted is a ballot of
//! 0 for none, else one below the promise's with a length and an entry behind it. Promised is a ballot not below the
//! first. A length has four bytes and is 1 to 32,768, and that many bytes spell an entry ([`pf_entry`]): asked of a
//! member, but in an Ask, where its origin is 255 and its number the client's token. Tokens and numbers have eight
//! bytes and are below 2^48. A code is one byte, 60 or 62.
//!
//! Fields are read in this order. A field whose bytes aren't all there is 50 at its offset, a value that isn't allowed
//! is refused at its offset, and 56 is at the first byte after the last field.
//!
//! # Why
//!
//! - A datagram's fields are checked in their order, the code of the first fault is returned: 54 at 9, 10 and 11
//!   before 55 at 12, for the kind's range and its rules on 255 alike, and then the body. An entry is one field of
//!   its length: 50 at its first byte where its bytes aren't all there, else 57 there, for an origin too.
//! - The fields of a promise for all positions are ballot, position, top, accepted, length, entry.
//! - The message that is decoded is px_model's, whose entries are lent: it goes to a core as it is, and a core's
//!   own message is lent to be encoded. A view of a message of its own would have to be turned into that, and its
//!   contract with it.
//! - In definitions an entry in a datagram is its origin, its number and its bytes. What the bytes mean is
//!   pf_entry's; px_wire's proofs open it once, where an entry is read.
//! - `encode` takes a message that has a spelling, and no test is offered for it: a member shows it by its plan
//!   (`encode_sent`), a client by the entry that it encoded.
//! - What goes to all members is encoded once; `address` changes the one byte that distinguishes them.
//! - A ballot in a message is one number, as in the record. `Ballot` is for code that shows one.
//! - A table's name in an entry is no reserved word of the first profile, whichever profile a ruleset has.
//! - The text of a load is bytes. That it can be read as rules is checked when the entry is applied, in every node
//!   alike.
//! - **A datagram's head is read in one place** (`Head`): what sends again, counts or warns looks at sender, kind,
//!   ballot and position without decoding the entry, and nothing else knows an offset or the number of a kind. A law
//!   states that it is the head of the message that `decode` answers. Below the seal nothing looks at a byte, but where
//!   neither a key nor a control socket is used: there `UdpWire` tests, by `Head`, whether a datagram from elsewhere is
//!   a request from outside. What follows a kind is a `match` without a wildcard.
#![tactic(auto)]

mod addressing;
mod ballot;
mod decoding;
mod encoding;
mod fault;
mod head;
mod kind;
pub mod laws;
mod limits;
mod membership;
mod reading;

pub use addressing::address;
pub use ballot::Ballot;
pub use decoding::decode;
pub use encoding::{encode, encode_sent};
pub use fault::WireFault;
pub use head::Head;
pub use kind::Kind;
pub use limits::MEMBERS;
pub use membership::Membership;
pub use px_model::{Entry, EntryView, Message, Proposal};

/// A message as it is decoded: its entry is in the datagram's bytes.
pub type MessageView<'a> = Message<EntryView<'a>>;
