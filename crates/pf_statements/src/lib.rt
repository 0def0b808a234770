//! Statements as they are written, but for those that define macros (pf.conf(5), GRAMMAR).
//!
//! # Organization
//!
//! - [`read_statement`] reads a statement at a parser of `pf_tokens`: a [`Statement`], which sets something, or is a
//!   [`WrittenTable`], a [`WrittenRule`], a [`WrittenAnchor`], or a [`WrittenHeading`] with a block of
//!   [`WrittenItem`]s.
//! - [`WrittenConditions`]: the conditions of a rule or an anchor rule on packets, with [`Common`], [`End`],
//!   [`Protocol`], [`WrittenPort`] and [`WrittenType`].
//! - [`reads_the_grammar`]: a statement is read exactly as the grammar spells it; [`elements_of_lists`] and
//!   [`entries_of_tables`]: what may be in a list or a table is an element as the law of lists asks for one.
//!
//! Within: `blocks` reads rules of any kind, by `common`, `anchors`, `directions`, `protocols`, `ends`, `ports`,
//! `flags`, `types`, `targets` and `options`; `tables` reads table statements, `behind` a list after its keyword, `cut`
//! cuts a string at a mark.
//!
//! # Why
//!
//! - The readers of productions are free functions over `&mut Parser`, one for each production, in files by subject
//!   (`interfaces`, `protocols`, `hosts`, `ports`, `ends`, `options`, `statements`), so that a contract cites its
//!   production and needs no struct of its own. `Element::read` takes the allocator and the profile: names take
//!   memory, and a word can be reserved in one profile alone. The readers have both in a `Context`.
//! - Operators before a port are their symbols in the code; the definition speaks of the test itself (a function from
//!   ports to tests). `compared` joins them.
//! - A port range is cut at its colon by a function of this crate, since the one of pf_addr is private there.
//! - A statement is kept as it is written: its lists are expanded by `pf_expansion`, which reads nothing.
//! - **A rule is read straight into its statement.** What is called once a rule is one function of machine code.
//! - **Memory is taken for one rule where conditions are combined, for n rules where there are n conditions, for one
//!   element of a list without braces**: a first push takes more (also pf_expansion).
#![tactic(auto)]

mod anchors;
mod behind;
mod blocks;
mod common;
mod condition_laws;
mod conditions;
mod cut;
mod directions;
mod ends;
mod flags;
mod hosts;
mod interfaces;
mod laws;
mod options;
mod ports;
mod protocols;
mod statements;
mod tables;
mod targets;
mod types;
mod written;

pub use condition_laws::elements_of_lists;
pub use conditions::{Common, End, Protocol, WrittenConditions, WrittenPort, WrittenType};
pub use laws::{entries_of_tables, reads_the_grammar};
pub use statements::read_statement;
pub use written::{
    RuleOptions, Setting, Statement, WrittenAction, WrittenAnchor, WrittenHeading, WrittenItem,
    WrittenRule, WrittenTable,
};
