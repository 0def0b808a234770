//! The files of a node beside its store: its settings, the cluster's key, and the starts of its members.
//!
//! # Organization
//!
//! - [`NodeFile`]: a file of settings in TOML that was read, and its value of each setting by name.
//!   [`FileFault`]: why a string is none, and in which line.
//! - [`read_cluster_key`]: the key of a cluster that the secret in a file makes, which its owner alone may read;
//!   [`cluster_key_in`]: the same of a [`SecretFile`]; [`cluster_key_from`]: over any reader and mode; [`key_from`]:
//!   the secret; [`KeyFault`]. [`new_key`]: a new one, of a source of [`RandomBytes`]; [`key_text`]: what a file has of
//!   it. [`key_laws`]: what is written is read.
//! - [`raise_start`]: a member's next start, written into the file of starts first; [`raise_at`]: the same at any
//!   [`StartsPlace`], exactly. [`starts_in`], [`starts_at`], [`starts_path`]; [`RaiseFault`]. [`next_start`]: the start
//!   that follows a start. [`read_starts`] and [`write_starts`]: what the file has of each member, [`KnownMember`];
//!   [`StartsFault`].
//! - `specs/Settings` defines the settings, `specs/KeyTexts` the text of a key, `specs/StartsTexts` that of starts,
//!   `specs/Next` the next start, `specs/Raising` what raising one does.
//!
//! Within: `kinds` has the names of the settings with what each may be, `lines` the line of a key.
//!
//! # The file of starts
//!
//! The line `pfx starts 1`, and for each member of the cluster, in order, a line of 32 hexadecimal digits in lower
//! case: the number of its last known start (8), that start's salt (8), and the birth of its record (16). What isn't
//! known is 0. The member's own line has its own last start. Nothing follows the last line.
//!
//! # Why
//!
//! - Each of these files is read before a store is opened, and its refusals are the program's.
//! - **TOML by the kit's port**, whose `table_from_slice` answers exactly what its grammar gives for the text.
//!   `NodeFile` keeps that table, and its value of a setting is what the table has at that key: the port's
//!   contract carries the equation.
//! - **A setting has its option's name**, and its value the option's range. `members` is the list of addresses.
//!   `turns` is none, since a node that ends by itself is nothing that a machine is set up with; `config` and
//!   `help` are none.
//! - **An unknown key is refused**, since nothing else would report a misspelt one. Of several wrong keys the first by
//!   its bytes is reported, since that is the table's order.
//! - **The line** of what isn't TOML is the port's. The port's table doesn't keep where a key is, so the line
//!   of a wrong key is the first that begins with it; a key that is written with escapes has none. No clause states
//!   which line it is.
//! - **An option goes before the file**, flags only towards true: `unsealed = true` has no option against it.
//! - **What clap asks for** (`--me`, `--cluster`, `--store`) it asks for where no file is named. With a file these are
//!   required of both together (92, without a line). A control socket for `--metrics` and a key for `--other-key` and
//!   `--new-starts` are required in any case: 92 where a file is named, else 40.
//! - **90 before 92**, and both before the refusals of a node's arguments.
//! - **A start's number is above the last one's**: the other members drop what is of a start below the one that they
//!   know. A number that is at least the time in seconds goes on above the old ones where a file was lost and made
//!   anew; one that only counts would begin at 1 again, and nobody would hear the member. The file is made before its
//!   store, so that a store without it is one whose file was lost. It is replaced, not written over: a process that is
//!   killed leaves the old one or the new one.
//! - **What the system's files and random source give is behind traits** ([`StartsPlace`], [`SecretFile`],
//!   [`RandomBytes`]), of which the clauses speak: the calls that decide something are generic, and only the few lines
//!   of the system's impls are believed.
//! - **The tags' key is made of the list as it is written**, since a name may have different addresses on different
//!   machines.
//! - **A key's file that others may read is refused** (83), as ssh does it; standard error has which of the three
//!   reasons it was. A key that `pfx key` makes is what the random source gave; of that nothing is promised.
//! - **The file of starts is text**, a line for each member, so that it can be read; there is one spelling.
#![tactic(auto)]

mod cluster;
mod key_fault;
mod key_file;
pub mod key_laws;
mod key_making;
mod key_reading;
mod kinds;
mod known;
mod lines;
mod next;
mod raise;
mod raising;
mod random_bytes;
mod settings;
mod settings_fault;
mod starts_fault;
mod starts_file;
mod starts_place;
mod starts_reading;
mod starts_writing;

pub use cluster::cluster_key_from;
pub use key_fault::KeyFault;
pub use key_file::{SecretFile, cluster_key_in, read_cluster_key};
pub use key_making::{key_text, new_key};
pub use key_reading::key_from;
pub use known::KnownMember;
pub use next::next_start;
pub use raise::RaiseFault;
pub use raising::{Known, raise_at, starts_at};
pub use random_bytes::RandomBytes;
pub use settings::NodeFile;
pub use settings_fault::FileFault;
pub use starts_fault::StartsFault;
pub use starts_file::{raise_start, starts_in, starts_path};
pub use starts_place::StartsPlace;
pub use starts_reading::read_starts;
pub use starts_writing::write_starts;
