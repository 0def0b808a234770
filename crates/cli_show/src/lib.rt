//! `show`: what a node's store holds, read while no node runs on it.
//!
//! # Organization
//!
//! - [`run_show`]: the subcommand, over any writer, any files and any stores: those of [`Databases`]
//!   are [`Stores`].
//! - [`show_store`]: what is shown of the record in a database; a refusal is [`Closed`].
//! - [`show_record`]: what is shown of a record, as [`Wanted`]; the record is given back as it was. [`show_node`]: the
//!   same of a node.
//!
//! Within: `arguments` has the arguments as `clap` reads them, `wanted` what they ask for, `file` opens the store,
//! `store` has whose it is and takes its record, `outcome` has what is written; `pfctl` has pfctl's listings and
//! packets, `logged` the log, `texts` rulesets for pfctl(8) that give the configuration, `scripts` a script that gives
//! the configuration, `figures` how far it is.
//!
//! # Why
//!
//! - `show` opens a record as its node would: the configuration is then that after the learned positions up to the
//!   first gap, by the clauses of `Node::open`, and the record comes back as it was. A reader of its own would need
//!   no slots, and would have no such clause.
//! - The library opens a database for writing alone. So `show` takes the node's lock, which refuses a store in use,
//!   writes nothing, and lets the connection go without closing it, which would copy the log of writes.
//! - Only a store of format 3 with its row is shown, since to take any other one writes.
//! - **A script and rulesets are checked, not proved to give the configuration.** What is written of it is done by the
//!   definition of `ctl` on an empty one, and the two are compared; what doesn't give the same is not shown. It costs a
//!   replay.
//! - Main's load is last in a script, since a load removes each table that no rule names: the rules of the
//!   other paths have to be there.
#![tactic(auto)]

mod arguments;
mod figures;
mod file;
mod logged;
mod outcome;
mod pfctl;
mod running;
mod scripts;
mod showing;
mod shown;
mod store;
mod texts;
mod wanted;

pub use file::{Databases, Stores};
pub use px_replica::{Membership, NodeFault};
pub use running::run_show;
pub use showing::{show_node, show_record};
pub use shown::{Shown, Wanted};
pub use store::{Closed, show_store};
