//! Scripts of `pfx`: lines over one local configuration.
//!
//! # Organization
//!
//! - [`ctl`]: what a script of pfctl's arguments and packets prints, as values, [`Printed`].
//! - [`read_words`]: what a line of pfctl's arguments gives where nothing is changed; [`read_change`]: the change that
//!   it asks for; [`list`]: what an action lists.
//! - For scripts of other kinds: [`cut_line`] and [`words_in`] cut; [`takes_text`] and [`Waiting`] are of the text
//!   after a line of pfctl's arguments, [`matches_in`], [`file_in`] and [`is_standard`] of those arguments;
//!   [`push_line`], [`push_counts`], [`push_refusal`] and [`test_packet`] print.
//!
//! Within: `lines` cuts scripts and lines, `listing` is what is listed, `pfctl` a line of pfctl's arguments as `clap`
//! reads it, `reading` what it asks for, a value of `words_read`, `acting` what it does, `stepping` a line of a script,
//! `waiting` one whose ruleset follows, `running` all of them, `printing` what they print.
//!
//! # Why
//!
//! - In a line of a script arguments are separated by spaces and tabs. A line with an argument that isn't UTF-8 is one
//!   unknown line, 40; as blanks are ASCII, that is the same as a line that isn't UTF-8.
//! - `test` without arguments has a packet text that is none: 30. The arguments of a packet are joined with one blank
//!   between them.
//! - Whether a ruleset follows a line is decided by `clap`'s matches; where it refuses the arguments, by the arguments
//!   themselves (`-f` and `-` side by side).
//! - `-s Anchors` takes the paths of the entries and of all that lead to them; a line that two of them give is
//!   printed once.
//! - The names of tables are put in order when they are listed, so that the listing's order is no matter of how a
//!   configuration keeps them.
#![tactic(auto)]

mod acting;
mod lines;
mod listing;
mod pfctl;
mod printing;
mod reading;
mod running;
mod stepping;
mod waiting;
mod words_read;

pub use acting::{is_counted, push_counts};
pub use lines::{Line, cut_line, push_bytes, spaced, texts, words_in};
pub use listing::list;
pub use pfctl::{file_in, is_standard, matches_in, takes_text};
pub use printing::{Printed, push_line, push_refusal};
pub use reading::{read_change, read_words};
pub use running::ctl;
use std::alloc::AllocError;
pub use stepping::test_packet;
pub use waiting::Waiting;
pub use words_read::{ChangeFault, WordsRead};

/// What is made, unless a growth is refused.
pub(crate) type Made<T> = Result<T, AllocError>;
