//! The configuration of a packet filter: anchors with their rules and tables (pf.conf(5), ANCHORS and TABLES).
//!
//! # Organization
//!
//! - [`Config`]: a skip list, and the anchors from the main ruleset down. Each change is made whole, or refused and
//!   leaves all as it was.
//! - [`Anchor`]: what is at a path and below it.
//! - [`Candidate`]: a rule as an evaluation reads it, in an order made once at the load: its index, and its [`Sieve`].
//! - [`CandidateList`]: these rules one after the other; a [`Search`] finds the few of them that may match.
//! - [`parse_path`] reads the path of an anchor; [`copied_path`] and [`joined`] make one of others.
//! - [`Table`], of the crate below.
//!
//! Within, what a configuration is made of: `paths` and `path_text` (paths and how they are spelled), `own` (the
//! rules and tables at one path), `tables`, `skipped`, `below` and `attached` (the anchors below one),
//! `walk`. How it changes: `change` in place, or `changed`, a new tree that shares the rest; `table_change` a table,
//! `loading` a ruleset with its `blocks` (`depths`, `placing`), `unused` and `referred` the tables that go; `fault` why
//! it is refused. How a verdict finds rules: `order`, `sieve`, and `places`, the expected places of anchors.
//!
//! # Why
//!
//! - **A table's name is no word that either profile reserves.** A command names a table without a profile, and profile
//!   One reserves fewer words: a `TableName` is what profile One allows, and a ruleset in profile Two is refused where
//!   a table has one of that profile's reserved words as its name.
//! - **Prefixes have a method `order`** instead of std's trait `Ord`, whose contract wants laws over any two values
//!   beside the order; the laws of the order that code rests on are lemmas in pf_addr.
//! - **A table is kept in parts** of one family and one length, each in the order of addresses, longest first. The
//!   definition's question, 'is there an entry that no longer one overrules', is then 'the first part in which the
//!   address, cut to that length, is found'.
//! - **A part is searched by halving.** A hash table with a fixed seed would let entries be chosen whose keys all
//!   meet, and std's proved maps are none whose times are bounded otherwise.
//! - **The tree of anchors is kept as a tree**, the definition is a map from whole paths. A path of the map has a
//!   rule or a table; an anchor that has neither, nor any below it that has, isn't kept. A change is made in place, or
//!   it copies the anchors from main to its path, and shares all others with the tree before it (`Rc`).
//! - **A load puts a ruleset's blocks in their places one after another**: each before those in it, and these before
//!   the blocks that follow (`blocks_in`). The anchors share the block's rules with the text's value (`Rc`), so
//!   nothing of a rule is copied.
//! - **A refused command changes nothing by its form**: the new tables and rules are made beside the old ones, and
//!   put in their places last. A change in place asks everything first; if it is out of memory between the entry and
//!   its number, the entry is removed again.
//! - **One entry is added or deleted in place** where nothing on the way to it is shared, at any depth of anchors:
//!   no entry is copied, and of those of its family and length the ones behind it move by one. Where something is
//!   shared, where there is no such table, or the table has no entry of that family and length yet, the table is
//!   made anew. Lists of several entries are merged, which costs the table once for all of them.
//! - **A table is put in its place in place too, and a load** (`Change`), where nothing on the way is shared: in the
//!   lists of tables and of anchors one slot is replaced, or what follows a new one moves by one. Memory is had first.
//!   A load is made so at a path that isn't main's, if no block comes or goes and each table of the configuration
//!   persists (`has_fleeting`), since no other table can go then. All else is made beside the old tree.
//! - **Room for 1,024 paths** (23) is asked of the configuration that the command would leave, so a load that
//!   clears away others may make room for itself. A change in place asks for it only where a path is new.
//! - **Faults of a configuration have no place in a ruleset**: `pfx test` prints `refused 23` alone.
//! - **A verdict uses `Config::anchor` and `Anchor::child` in place of `find` and `kid`**: an anchor is lent as a part
//!   of the tree, with its rules, its tables and the anchors below it. So a verdict goes down name by name, and looks
//!   no path up from main again. `Config::kids` lends the anchors directly below a path, in byte order of their names;
//!   its clause gives their paths, `Anchor::kids` that they are those anchors. `Config::paths` lends the paths of the
//!   map, main among them where it has rules or tables; which anchors there are is found by going down.
//! - **What needs no memory is refused first**: 20 and 21 of a change of one table come before any allocation, so out
//!   of memory never takes their place.
//! - **Laws over the definitions of several crates are in pfx_laws**, on which nothing depends: they are proved
//!   beside the crates that use the definitions, and no crate is proved again for them.
//! - **The tables of an anchor are in the order of their names**, where one is found by binary search; so are skipped
//!   interfaces (`Skipped`). A new table moves those after it.
//! - **For unnamed blocks below a block's path the anchor at that path alone is asked**, and the tree of a load is
//!   changed in place. For which tables stay, the names that rules refer to are gathered once a load, if main has more
//!   than 16 tables of which one may go (`Referred`).
//! - **Two lists of candidates, each with a sieve** (`Sieve`): the rules that may end an evaluation, and those that
//!   aren't quick. A sieve is intervals of 32 bits for the ends and the port, family, direction and protocol. From 64
//!   candidates on a list's intervals are compiled too (pf_tables, `Classes`, at most 33 buckets), and a walk ands
//!   three rows, 64 candidates at a time.
//! - **An anchor rule's anchor is first looked up at its expected place** (`Places`), which is right if just the path's
//!   rules lead to all anchors below; else it is found by binary search. The guess decides nothing but time. The first
//!   walk doesn't ask the conditions of an anchor rule if no rule of its anchor can end the evaluation (`is_quiet`,
//!   pf_eval), and the anchors that a wildcard names are entered in order, since `Anchor::kids` states that each is the
//!   one of its name (`AreBelow`).
//! - **A command that changes tables alone shares the order of rules.** Anchors off the changed path are shared, and
//!   what a load would remove is asked for before anything is copied. A change that isn't made in place costs a few
//!   walks over all anchors, and the new list of pointers.
#![tactic(auto)]

mod anchor;
mod attached;
mod below;
mod blocks;
mod candidate;
mod candidate_list;
mod change;
mod changed;
mod config;
mod depths;
mod fault;
mod loading;
mod order;
mod own;
mod path_text;
mod paths;
mod places;
mod placing;
mod referred;
mod sieve;
mod skipped;
mod table_change;
mod tables;
mod unused;
mod walk;

pub use anchor::Anchor;
pub use candidate::{Candidate, Sieve};
pub use candidate_list::{CandidateList, Search};
pub use config::{Config, RULES_MAX};
pub use fault::ConfigFault;
pub use path_text::parse_path;
pub use paths::{copied_path, joined};
pub use pf_rules::{Name, Path, TableEntry, TableName};
pub use pf_tables::{Interval, Table, is_within};
pub use sieve::front_bits;
use std::alloc::AllocError;

/// What is made, unless a growth is refused.
pub(crate) type Made<T> = Result<T, AllocError>;
