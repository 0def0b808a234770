//! A configuration as a script that makes it again, and whether two configurations are the same.
//!
//! # Organization
//!
//! - [`dump`]: such a script, in the form of `ctl`'s (pfctl(8)), with at most one load a path; [`push_change`] makes
//!   one of a log's commands.
//! - [`gives`]: whether a script, done on an empty configuration, gives a configuration.
//! - [`texts`]: rulesets for pfctl(8), one for each path, that give a configuration; a [`PathText`] is loaded by `pfctl
//!   -a PATH -f -`, the option for its path by [`pf_command::PathArguments`].
//! - [`is_same`]: whether two configurations skip the same interfaces, and have the same rules and tables at the same
//!   paths.
//!
//! Within: `replay` does a script, `text` writes the text of a path, `script` the commands; `same` compares paths and
//! tables, `same_rules` rules, `same_parts` their parts.
//!
//! # Why
//!
//! - No clause states that the script or the rulesets that are written give the configuration: they are done, and what
//!   that gives is compared with the configuration.
#![tactic(auto)]

mod dumping;
mod path_texts;
mod replay;
mod same;
mod same_parts;
mod same_rules;
mod script;
mod text;

pub use dumping::{dump, gives};
pub use path_texts::{PathText, texts};
pub use same::is_same;
pub use script::push_change;
use std::alloc::AllocError;

/// What is made, unless a growth is refused.
pub(crate) type Made<T> = Result<T, AllocError>;
