//! The part of nftables in which a configuration is written (nft(8)).

ghost use Rattle.std.specs.Prelude.{◌≡◌};
ghost use Rattle.nft_rules.specs.Seen.{chain_name_of, note_of, statement_of};
ghost use Rattle.nft_rules.specs.Subset as subset;

use pf_addr::Family;
use pf_rules::{InterfaceName, Name, TcpFlags};
use std::rc::Rc;

/// Of the two ends of a packet.
#[derive(Clone, Copy, PartialEq, Eq)]
pub enum Side {
    /// Where it comes from.
    Source,
    /// Where it goes.
    Destination,
}

/// Of the chains of a path one holds what may end the evaluation, forwards, and one the rest, backwards.
#[derive(Clone, Copy, PartialEq, Eq)]
pub enum Pass {
    /// Quick rules, and what anchor rules evaluate.
    Forward,
    /// Rules that aren't quick, the last one first.
    Backward,
}

/// What is done with a packet.
#[derive(Clone, Copy, PartialEq, Eq)]
pub enum Outcome {
    /// `accept`.
    Accept,
    /// `drop`.
    Drop,
    /// `reject`: with tcp reset, or icmpx port-unreachable.
    Reject,
}

/// From the first number to the last.
#[derive(Clone, Copy, PartialEq, Eq)]
pub struct Interval {
    /// The first.
    pub low: u128,
    /// The last.
    pub high: u128,
}

/// The name of a set: whose table it holds, and of which family the addresses are.
#[derive(Clone, Copy)]
pub struct SetName<'c> {
    /// The path of the table's anchor.
    pub owner: &'c [Name],
    /// The table's name.
    pub table: &'c str,
    /// The family.
    pub family: Family,
}

/// A set of addresses.
#[derive(Drop)]
pub struct NamedSet<'c> {
    /// Its name.
    pub name: SetName<'c>,
    /// Its elements, which rise and don't meet.
    pub elements: Vec<Interval>,
}

/// A place among addresses.
#[derive(Clone, Copy)]
pub enum Where<'c> {
    /// `low-high`, both included.
    From(u128, u128),
    /// `@name`.
    InSet(SetName<'c>),
}

/// An expression that matches (nft(8), PAYLOAD EXPRESSIONS, META EXPRESSIONS). A `bool` is whether it is negated.
#[derive(Clone, Drop)]
pub enum Match<'c> {
    /// `iifname { .. }` of packets in, `oifname { .. }` of packets out: the names of interfaces.
    OnInterface(Rc<Vec<InterfaceName>>, bool),
    /// `meta nfproto`.
    OfFamily(Family),
    /// `meta l4proto`: the protocol's number.
    OfProtocol(u8, bool),
    /// `ip saddr`, `ip6 saddr`, `ip daddr`, `ip6 daddr`: whose address, of which family, and where it is.
    AtAddress(Side, Family, Where<'c>, bool),
    /// `th sport`, `th dport`: whose port, from the first number to the second, both included.
    AtPort(Side, u16, u16, bool),
    /// `tcp flags & mask == value`: mask and value.
    WithFlags(TcpFlags, TcpFlags),
    /// The first byte of an ICMP header: `@th,0,8`.
    OfType(u8),
}

/// The name of a chain.
#[derive(Clone, Copy)]
pub enum ChainName<'c> {
    /// The chain at the hook.
    Base,
    /// One of the two of a path.
    At(Pass, &'c [Name]),
}

impl<'c> ChainName<'c> {
    /// The chain of a path in this pass.
    pub(crate) fn at(pass: Pass, path: &'c [Name]) -> ChainName<'c>
        ensures { chain_name_of result ≡ subset.At pass path.now }
    {
        ChainName::At(pass, path)
    }
}

/// What a rule's counter and comment are for.
#[derive(Clone, Copy)]
pub enum Note<'c> {
    /// A packet on an interface that the machine's list lacks.
    Unknown,
    /// One on a skipped interface.
    Skip,
    /// One that no rule matches.
    Default,
    /// `path@index`.
    Spot { path: &'c [Name], index: u32 },
}

/// What a rule does with packets that it matches (nft(8), VERDICT STATEMENT).
#[derive(Clone, Copy)]
pub enum Statement<'c> {
    /// The packet is decided.
    Ends { outcome: Outcome, note: Note<'c> },
    /// It goes to another chain, and, where that decides nothing, on.
    Jump(ChainName<'c>),
}

impl<'c> Statement<'c> {
    /// The packet is decided.
    pub(crate) fn ends(outcome: Outcome, note: Note<'c>) -> Statement<'c>
        ensures { statement_of result ≡ subset.Ends (record { outcome = outcome; note = note_of note.entry }) }
    {
        Statement::Ends { outcome, note }
    }
}

/// A rule.
#[derive(Drop)]
pub struct NftRule<'c> {
    /// What must all hold.
    pub matches: Vec<Match<'c>>,
    /// What is done then.
    pub statement: Statement<'c>,
}

/// A chain.
#[derive(Drop)]
pub struct Chain<'c> {
    /// Its name.
    pub name: ChainName<'c>,
    /// Its rules.
    pub rules: Vec<NftRule<'c>>,
}

/// A ruleset: of one direction.
pub struct NftRuleset<'c> {
    /// The sets that its rules name.
    pub sets: Vec<NamedSet<'c>>,
    /// Its chains, that at the hook first.
    pub chains: Vec<Chain<'c>>,
}

impl<'c> Drop for NftRuleset<'c> {
    fn drop(self) {
        let NftRuleset { sets: _, chains: _ } = self;
    }
}
