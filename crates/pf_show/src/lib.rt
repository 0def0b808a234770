//! Rulesets as text (pfctl(8), `-s rules`).
//!
//! # Organization
//!
//! - [`show`] and [`show_items`] write a ruleset or its rules in one form, a line for each rule.
//! - [`SkipLine`], [`TableLine`], [`Entries`], [`Entry`], [`Slashed`]: parts of that form by themselves, which are
//!   shown by `write!`.
//!
//! Within: `items` writes rules and blocks, `tables` tables.
//!
//! # Why
//!
//! - **A rule is written part by part into one string**: a `Display` of each part would save and set a formatter's
//!   options for it.
#![tactic(auto)]

mod items;
mod shown;
mod tables;

pub use items::Slashed;
pub use shown::{SkipLine, show, show_items};
pub use tables::{Entries, Entry, TableLine};
