//! The commands of pfctl(8): their effect on a configuration, and the arguments that spell them.
//!
//! # Organization
//!
//! - [`apply`] changes a configuration by a command, as it is in an entry's bytes, and counts what was added to a table
//!   and went from it: [`Applied`], or [`ApplyFault`]. [`place_at`]: as what a ruleset for a path is read.
//! - [`CommandArguments`]: a command in pfctl's arguments, without `pfctl`, a load's ruleset counted alone;
//!   [`TableArguments`] and [`PathArguments`]: the options for a table and for a path.
//! - Of the crates below: [`Command`], [`Entry`] and their bytes (`pf_entry`); [`pfctl_args`], [`from_matches`] and the
//!   [`Action`] that arguments ask for (`pf_arguments`).
//! - `specs/Effect` is what is to be believed: `effect`, a command's change or its refusal, and `after`, the
//!   configuration after a log. [`a_log_goes_on`]: one entry more is one command more.
//!
//! Within: `counts` is how many entries a table has before and after a command.
//!
//! # Why
//!
//! - How many entries a command adds and removes is found without memory, or before its change is made: a change can't
//!   be undone, so nothing after it may run out of memory.
//! - The two flushes of `-F all` are one call of a configuration, for the same reason.
//! - Arguments are read without the grammar, and entries without a configuration; so `pf_arguments` and `pf_entry` are
//!   proved beside the grammar, and this crate hands out all three.
#![tactic(auto)]

mod arguments;
mod commands;
mod counts;
mod fault;
mod laws;

pub use arguments::{CommandArguments, PathArguments, TableArguments};
pub use commands::{Applied, apply, place_at};
pub use fault::ApplyFault;
pub use laws::a_log_goes_on;
pub use pf_arguments::{Action, CommandFault, from_matches, pfctl_args};
pub use pf_entry::{
    Addresses, BadEntry, Command, CommandView, EncodeFault, Entry, EntryView, Names, Path, Profile,
    SomeAddresses, SomeAddressesView, TableName, TableNameView, decode, encode,
};
