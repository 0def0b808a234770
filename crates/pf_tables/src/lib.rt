//! Tables of addresses (pf.conf(5), TABLES), and compiled intervals of numbers.
//!
//! # Organization
//!
//! - [`Table`] is a set of signed prefixes with two flags. It keeps its entries apart by family and length, each part
//!   in order of address, so that a look-up searches each used length by halves, the longest first. It skips a length
//!   where a Bloom filter shows that no entry has the address's first bits.
//! - Its changes make a new table, so running out of memory changes nothing; copies share the entries. An [`Edit`] of
//!   one entry is made in place, where no copy shares them.
//! - [`Interval`]: numbers of 32 bits from a first one on.
//! - [`Classes`]: three lists of intervals of which each place has one of each, as the rules of a path have for the two
//!   ends and the port. The numbers are cut into buckets, and for each bucket a row of bits marks which places have an
//!   interval that meets it (the bit vectors of Lakshman and Stiliadis).
//! - [`Row`]: the three rows where a packet's numbers are. It gives one place after the other; what it passes over
//!   doesn't hold the numbers.
//!
//! Within: a table's entries are in a `part` for each family and length (`parted`), with their `keys` and a `bloom`
//! filter; `lookup` finds a prefix, `decided` the entry that contains an address, `contents` makes new lists for a
//! change. `column` has the buckets of one kind of number.
//!
//! # Why
//!
//! - Both find the few of many that may hold an address, without a rule at hand; a configuration is made of them.
#![tactic(auto)]

mod bloom;
mod classes;
mod column;
mod contents;
mod decided;
mod edits;
mod interval;
mod keys;
mod lookup;
mod part;
mod parted;
mod row;
mod table;

pub use classes::{Classes, PLACES_MAX};
pub use edits::Edit;
pub use interval::{Interval, is_within};
pub use row::Row;
use std::alloc::AllocError;
pub use table::Table;

/// What is made, unless a growth is refused.
pub(crate) type Made<T> = Result<T, AllocError>;
