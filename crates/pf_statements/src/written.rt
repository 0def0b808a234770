//! Statements as they are written, before lists are expanded.

use crate::conditions::{WrittenConditions, WrittenType};
use pf_rules::{FlagTest, InterfaceName, Policy, TableEntry, TableName, Target};
use pf_tokens::Listed;

/// What a rule does, as written.
#[derive(Clone, Copy, PartialEq, Eq)]
pub enum WrittenAction {
    /// `pass`.
    Pass,
    /// `block`, with what it does, if that is given.
    Block(Option<Policy>),
}

/// The options behind a rule's hosts.
#[derive(Drop, Default)]
pub struct RuleOptions {
    /// The test of a TCP packet's flags, if it is given.
    pub flags: Option<FlagTest>,
    /// Whether a state is kept, if it is given: `keep state` or `no state`.
    pub state: Option<bool>,
    /// The types of ICMP, if they are written.
    pub types: Option<Listed<WrittenType>>,
}

/// A rule as it is written.
#[derive(Drop)]
pub struct WrittenRule {
    /// What it does.
    pub action: WrittenAction,
    /// Whether `quick` is given.
    pub quick: bool,
    /// Its conditions on packets.
    pub conditions: WrittenConditions,
    /// Whether a state is kept, if it is given: `keep state` or `no state`.
    pub state: Option<bool>,
}

/// An anchor rule without a block, as it is written.
#[derive(Drop)]
pub struct WrittenAnchor {
    /// The anchors that it evaluates.
    pub target: Target,
    /// Whether `quick` is given.
    pub quick: bool,
    /// Its conditions on packets.
    pub conditions: WrittenConditions,
}

/// An anchor rule up to its block, as it is written (pf.conf(5), ANCHORS).
#[derive(Drop)]
pub struct WrittenHeading {
    /// The anchors that it evaluates, if they are named: the name of a block may be left out.
    pub target: Option<Target>,
    /// Whether `quick` is given.
    pub quick: bool,
    /// Its conditions on packets.
    pub conditions: WrittenConditions,
}

/// A rule of any kind as it is written.
#[derive(Drop)]
pub enum WrittenItem {
    /// A filter rule.
    Rule(WrittenRule),
    /// An anchor rule without a block.
    Anchor(WrittenAnchor),
    /// An anchor rule with the rules of its block.
    Block(WrittenHeading, Vec<WrittenItem>),
}

/// A table statement as it is written (pf.conf(5), TABLES).
#[derive(Drop)]
pub struct WrittenTable {
    /// The table's name.
    pub name: TableName,
    /// Whether `persist` is given.
    pub persist: bool,
    /// Whether `const` is given.
    pub is_const: bool,
    /// The entries, if they are listed.
    pub entries: Option<Listed<TableEntry>>,
}

/// The setting of a `set` statement.
#[derive(Drop)]
pub enum Setting {
    /// `set block-policy`.
    Policy(Policy),
    /// `set skip on`.
    Skip(Listed<InterfaceName>),
}

/// A statement that defines no macro.
#[derive(Drop)]
pub enum Statement {
    /// `set`.
    Sets(Setting),
    /// `table`.
    Tables(WrittenTable),
    /// A filter rule.
    Rules(WrittenRule),
    /// An anchor rule without a block.
    Anchors(WrittenAnchor),
    /// An anchor rule with the rules of its block.
    Blocks(WrittenHeading, Vec<WrittenItem>),
}
