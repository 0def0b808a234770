//! A ruleset of nftables as the lines that nft(8) loads.
//!
//! # Organization
//!
//! - [`rendered_lines`]: a configuration as three lines, a transaction each ([`Transactions`]), or why there are none.
//! - [`lines`]: the lines of two rulesets, one a direction.
//!
//! Within: `set_lines`, `chain_lines` and `rule_lines` write sets, chains and rules, `matching` a rule's matches, with
//! `numbers` (addresses) and `flags`; `labels` has the names of chains and sets, `members` the members' guard, `states`
//! whether a rule keeps state, `loading` the three transactions.
#![tactic(auto)]

mod chain_lines;
mod flags;
mod labels;
mod loading;
mod matching;
mod members;
mod numbers;
mod rule_lines;
mod set_lines;
mod states;

pub use loading::{Transactions, lines, rendered_lines};
use std::alloc::AllocError;

/// Something is put behind a string, unless a growth is refused.
pub(crate) type Pushed = Result<(), AllocError>;
