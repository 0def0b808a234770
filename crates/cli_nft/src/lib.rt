//! `check --nft`: a ruleset as what nft(8) loads on a machine.
//!
//! # Organization
//!
//! - [`run_nft`]: the subcommand, over any reader and writer; [`asks_nft`] tests whether arguments are of it.
//! - [`machine_in`]: the interfaces of a machine, as a file lists them; [`read_file`]: such a file. [`members_in`]:
//!   members from strings.
//! - [`nft_output`]: what is written of a ruleset for a machine: three lines, or a refusal; [`config_output`]: the same
//!   of a configuration, as `show --nft` and `follow` write it.
//!
//! Within: `options` has the arguments as `clap` reads them.
//!
//! # Why
//!
//! - nft_text renders a configuration; here it is made of a ruleset and a list of interfaces, which are refused by
//!   number.
#![tactic(auto)]

mod machines;
mod members;
mod options;
mod outputs;
mod running;

pub use machines::{INTERFACES_MAX, machine_in};
pub use members::members_in;
pub use nft_rules::Member;
pub use outputs::{Written, config_output, nft_output};
pub use running::{Contents, asks_nft, read_file, run_nft};
