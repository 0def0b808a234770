//! What is answered about a packet.

use pf_rules::Name;

/// Where the deciding rule is: the path of its anchor, which has no name where that is the main ruleset, and the
/// rule's place among the anchor's rules in their expanded order, from 0.
#[derive(Clone, Copy)]
pub struct Spot<'c> {
    /// The path of its anchor.
    pub names: &'c [Name],
    /// Its place.
    pub index: u32,
}

/// What is done with a packet, and why.
#[derive(Clone, Copy)]
pub enum Verdict<'c> {
    /// It passes, since its interface is skipped (pf.conf(5), `set skip`).
    Skip,
    /// It passes, since no rule matches.
    Default,
    /// A pass rule decides.
    Pass(Spot<'c>),
    /// A block rule decides, and the packet is dropped silently.
    Drop(Spot<'c>),
    /// A block rule decides, and the sender is notified.
    Return(Spot<'c>),
}
