//! Profiles of the grammar.

/// Which keywords a ruleset may use. Rulesets of a log keep the profile that they were written for.
#[derive(Clone, Copy, PartialEq, Eq)]
pub enum Profile {
    /// The grammar without types of ICMP.
    One,
    /// The grammar with types of ICMP; `icmp-type` is a reserved word.
    Two,
}
