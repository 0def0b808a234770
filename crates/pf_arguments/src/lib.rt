//! The arguments of pfctl(8), read to the action that they ask for.
//!
//! # Organization
//!
//! - [`pfctl_args`] adds pfctl's options to a command line that `clap` reads.
//! - [`from_matches`] answers the [`Action`] that its matches ask for, or the first fault. [`read_addresses`] reads the
//!   addresses that arguments spell.
//! - Of the crates below: [`Command`], [`Entry`] and their bytes.
//!
//! Within: `given` is what was given for each option, `chosen` the one operation that the options choose, `reading` its
//! action, `fault` why there is none.
//!
//! # Why
//!
//! - Arguments are read without the grammar, so they are proved beside it; what a command does is pf_command's, which
//!   hands out these calls too.
//! - A path's text is read by a function of `pf_config`, beside its refusal 24; the type of paths is
//!   `pf_rules`'s.
//! - A value of `-F`, `-T` or `-s` that is none of its values is 40, as is a name of `-t` that is no table's, and
//!   so are `-h` and `--help` in a script.
//! - A change is too long (41) where its entry of origin 0 and number 0 has no spelling: an entry's length doesn't
//!   depend on either.
#![tactic(auto)]

mod action;
mod addresses;
mod args;
mod chosen;
mod fault;
mod given;
mod reading;

pub use action::Action;
pub use addresses::read_addresses;
pub use args::pfctl_args;
pub use fault::{CommandFault, USAGE};
pub use pf_entry::{
    Command, CommandView, EncodeFault, Entry, EntryView, Path, TableName, decode, encode,
};
pub use reading::from_matches;
