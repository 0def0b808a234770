//! What the program's subcommands share: input, files, how a run ends, and the refusals by their numbers.
//!
//! # Organization
//!
//! - [`Status`]: how a run ends, and the exit status.
//! - [`read_all`]: the whole input, up to a limit; [`source_named`]: the text that an option names, of the input or of
//!   [`Sources`].
//! - [`open_regular`], [`make_private`]: a file that isn't waited for, and one that its owner alone may read;
//!   [`knock`]: why nobody answers at a socket.
//! - [`Shown`]: a foreign string, its control characters escaped.
//! - [`Argument`], [`with_options`]: the options of a subcommand; [`program_with`]: the program with one. [`given_in`]:
//!   what is given with it; [`value_in`], [`values_in`], [`number_in`], [`has_flag`]: what one option has.
//! - [`write_bytes`]: all of an output, or its first bytes; [`misused`], [`out_of_memory`]: what is written of
//!   arguments that aren't understood, and of out of memory.
//! - [`REFUSALS`]: the table, which has each refusal that the program answers once, by its number. [`explanation`],
//!   [`named`]: its row for a number, and for a number's digits; [`explain_all`]: all its rows. An [`Explanation`] is
//!   shown as its paragraph; [`Remark`]: one line on standard error about a refusal.
//! - The numbers that have names: [`NO_PACKET`], [`WAITING_FULL`], [`ROUNDS_SPENT`], [`POSITIONS_SPENT`],
//!   [`UNREADABLE`], [`NO_SCRIPT`].
//!
//! # Why
//!
//! - Each subcommand has a crate of its own, so that they are proved side by side; what is here is theirs together.
//! - **A regular file is recognized before it is opened**, since std opens without `O_NONBLOCK`, and a pipe would be
//!   waited for; a process that may write in the folder can put another file there in between. The ruleset of `-f` may
//!   be a pipe.
#![tactic(auto)]

mod files;
mod input;
mod lookup;
mod numbers;
mod options;
mod paragraph;
mod remark;
mod shown;
mod sources;
mod status;
mod table;
mod writing;

pub use files::{knock, make_private, open_regular};
pub use input::{InputFault, read_all};
pub use lookup::{explain_all, explanation, named};
pub use numbers::{
    BAD_ADDRESS, BAD_CONTROL_SOCKET, BAD_INTERFACES, BAD_KEY, BAD_ROW, BAD_SETTINGS, BROKEN_ANSWER,
    FILE_EXISTS, INVALID_ARGUMENTS, NO_PACKET, NO_SCRIPT, NO_STORE, NOBODY_ANSWERS, NODE_FAILED,
    POSITIONS_SPENT, ROUNDS_SPENT, STORE_FAILED, UNKNOWN_STORE, UNREADABLE, WAITING_FULL,
};
pub use options::{
    Argument, given_in, has_flag, number_in, program_with, value_in, values_in, with_options,
};
pub use paragraph::Explanation;
pub use remark::Remark;
pub use shown::Shown;
pub use sources::{Sources, source_named};
pub use status::Status;
pub use table::REFUSALS;
pub use writing::{misused, out_of_memory, write_bytes};
