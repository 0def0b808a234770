//! Commands as entries of a log, and entries as bytes.
//!
//! # Organization
//!
//! - [`Entry`], with a [`Command`]: what is asked, with memory of its own. [`encode`] gives its bytes,
//!   [`encode_asked`] those of a command with origin and number.
//! - [`EntryView`], with a [`CommandView`]: what bytes spell. [`decode`] gives it and allocates nothing; `to_entry`
//!   owns it.
//! - `specs/Entry` is what is to be believed: `spelling`, `Fits`, `EntryBytes`. `specs/Reading` reads from left to
//!   right and is shown equal; `specs/Seen` and `specs/Owned` define what the types stand for.
//!
//! Within: `reading` and `writing` are between views and bytes, by `numbers` and `limits`; `items` gives the names and
//! addresses of a view one by one, `owning` the entry that a view shows, `fault` why there is none.
//!
//! # The bytes of an entry
//!
//! | Offset | Bytes | What |
//! |---|---|---|
//! | 0 | 1 | format: 2 for a ruleset of the second profile, else 1 |
//! | 1 | 1 | origin: the member that was asked, 0 to 14, or 255 |
//! | 2 | 8 | number there, below 2^48 |
//! | 10 | 1 | kind: 1 Load, 2 FlushRules, 3 FlushTables, 4 FlushAll, 5 Add, 6 Delete, 7 Replace, 8 FlushTable |
//! | 11 | 1 | how many names the path has, 0 to 8; then of each its length, a byte, and its bytes |
//! | then | | 1: length of four bytes, text. 5 to 7: table, count of two bytes, addresses. 8: table |
//!
//! A table is a length of one byte and its name. An address is a sign (0, or 1 for negated), a family (4 or 6), a
//! length and 4 or 16 bytes with cleared host bits. There are at most 4,096 of them, for 5 and 6 at least one. The
//! whole is at most 32,768 bytes. Numbers are unsigned, the highest byte first.
#![tactic(auto)]

mod command;
mod decoding;
mod encoding;
mod fault;
mod items;
mod limits;
pub mod numbers;
mod owning;
mod reading;
mod view;
mod writing;

pub use command::{Command, Entry, SomeAddresses};
pub use decoding::{decode, no_spelling_begins_another, what_is_spelled_is_read};
pub use encoding::{encode, encode_asked};
pub use fault::{BadEntry, EncodeFault};
pub use limits::{ADDRESSES, CLIENT, ENTRY_BYTES};
pub use owning::{addresses_owned, path_owned, table_owned};
pub use pf_rules::{Name, Path, Profile, TableEntry, TableName};
pub use view::{Addresses, CommandView, EntryView, Names, SomeAddressesView, TableNameView};
