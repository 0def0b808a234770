//! Laws over several crates: of rulesets and configurations, and of nodes with any record over any network.
//!
//! # Organization
//!
//! - [`nodes`]: any events of nodes are a run of px_model's world, the members never differ, equally many applied
//!   positions give one configuration. `specs/Clusters` defines what may happen to the nodes of a cluster, in the terms
//!   of a node's contracts: a call that answered, one that a stop or a failing store cut short, an opening of what was
//!   left. `specs/Members` has runs of members that stop and start again, `specs/Sockets` and `specs/Sealed` the law in
//!   terms of what goes over their sockets, without a key and with one.
//! - [`nine_levels_are_all`], [`one_walk`]: the hits of a verdict are those of one equation over all paths.
//!   [`flat_verdicts_are_verdicts`]: the verdict of rules alone is that of a configuration.
//! - [`changes_keep_a_map`], [`commands_keep_a_map`], [`logs_leave_maps`], [`logs_have_targets`]: the configuration
//!   after a log is a map. [`spelled_logs_have_paths`]: entries that have an encoding are such a log.
//! - [`shown_is_read_again`]: what is shown of a ruleset is read as that ruleset.
//! - [`labels_are_unambiguous`], [`logs_never_lead_back`]: labels in nftables' text name one chain or set, and no log
//!   gives a ruleset that nftables would refuse for a loop.
//!
//! # Why
//!
//! - No crate depends on a law, so a law costs no other crate its proof.
//! - **The law at sockets counts runs, not members.** What happens at the members' sockets is one list, in which a
//!   run's start is an event too. So the order of a member's runs, and the key that it has when a packet comes, are
//!   read off the list (`specs/Members`). A packet of an earlier start may come at any time; that no two runs of a
//!   member have one start is what the file of starts is for.
#![tactic(auto)]

mod levels;
mod maps;
mod nftables;
pub mod nodes;
mod shown;

pub use levels::{flat_verdicts_are_verdicts, nine_levels_are_all, one_walk};
pub use maps::{
    changes_keep_a_map, commands_keep_a_map, logs_have_targets, logs_leave_maps,
    spelled_logs_have_paths,
};
pub use nftables::{labels_are_unambiguous, logs_never_lead_back};
pub use shown::shown_is_read_again;
