//! A configuration as a ruleset of nftables (nft(8)).
//!
//! # Organization
//!
//! - [`NftRuleset`] and its parts: the part of nftables in which a configuration is written.
//! - [`MachineInterface`]: an interface of the machine for which it is written, with its groups.
//! - [`render`]: the ruleset of a configuration, or why there is none.
//! - [`Member`]: a member of the cluster, for the guard that is before the ruleset.
//! - [`top`], [`address`]: the greatest address of a family, and the address of a number.
//! - [`rendered_as_judged`], [`sets_hold_tables`], [`guard_passes_members`]: what the ruleset of a configuration
//!   decides, what its sets hold, and what the guard lets through.
//!
//! Within: `base` is the chain at the hook, `chains` those of a path, `targets` those that an anchor rule jumps to,
//! `sets` the sets of tables, `names` their names. A rule's conditions are lists of matches of which one has to hold
//! (`alternative`), by `asked` for each condition and `hosts` for addresses; `rules` makes a rule of each. `asking`
//! bounds how many rules one packet is compared with.
//!
//! # Why
//!
//! - The rules of a path are in two chains: in one, forwards, what may end the evaluation, that is quick rules and
//!   the jumps of anchor rules; in the other, the last one first, the rules that aren't quick and the jumps again.
//!   The first rule that decides a packet is then the one that decides its verdict. Of a quick anchor rule both
//!   jumps are forwards.
//! - Where a rule's conditions hold in several ways, of TCP or of UDP, of either family, of TCP by its flags or of
//!   what isn't TCP, there is a rule for each.
//! - nftables knows no groups of interfaces, nor names without their digits. So a ruleset is one for a machine, and
//!   a rule's interface is written as the names of those of the machine's interfaces that it means. A packet on an
//!   interface that isn't listed is dropped.
//! - An nftables set is rendered from its table's cuts: which address is in a table changes only where an entry
//!   begins or has ended, so one question at each cut gives the intervals.
//! - An ICMP type is asked as the first byte of the transport header (`@th,0,8`) behind `meta l4proto 1`, since
//!   `icmp type` asks for IPv4 too.
//! - There is a jump only where the target has rules. A configuration in which an anchor rule's target is its own
//!   anchor isn't rendered (87): nftables refuses the loop.
//! - What is limited (88) is what one packet may be asked of from the hook on, 100,000 rules, not the ruleset's
//!   size.
//! - Every interval is written `low-high`, single addresses too. A comment leaves out a path of more than some 110
//!   bytes.
//! - One rule in front accepts whatever is part of a state, where any rule keeps state; so `no state` on one rule
//!   has no effect while another keeps state. Marks on connections would distinguish them.
//! - The members' guard has rules of its own with a definition of its own (`guard_holds`), since it asks for
//!   fragments, hop limits and ICMPv6 types, which no pf rule can and no packet of `pf_eval` has. Its law is of
//!   whatever is behind it.
//! - The guard's later fragments are matched by addresses alone. To match them by ports they would have to be
//!   reassembled first, which costs a connection table where no rule keeps state.
//! - It takes anonymous sets of addresses with ports, one rule for either family, rather than a rule for each pair
//!   of members: 15 members have 225 pairs.
//! - Neighbour discovery is bounded by the hop limit, not by addresses: Linux probes from its link-local address,
//!   and the next hop may be a router.
//! - `check --nft` knows no ruleset before its own: its third line is the end of its own names, kept until the next
//!   one's second line was loaded.
#![tactic(auto)]

mod alternative;
mod asked;
mod asking;
mod base;
mod chains;
mod elements;
mod guard;
mod hosts;
mod laws;
mod machine;
mod names;
mod rendering;
mod rules;
mod sets;
mod subset;
mod targets;

pub use elements::{address, top};
pub use guard::Member;
pub use laws::{guard_passes_members, rendered_as_judged, sets_hold_tables};
pub use machine::MachineInterface;
pub use names::{same_chain, same_set};
pub use rendering::{ASKED_MAX, RenderFault, render};
use std::alloc::AllocError;
pub use subset::{
    Chain, ChainName, Interval, Match, NamedSet, NftRule, NftRuleset, Note, Outcome, Pass, SetName,
    Side, Statement, Where,
};

/// What is made, unless a growth is refused.
pub(crate) type Made<T> = Result<T, AllocError>;
