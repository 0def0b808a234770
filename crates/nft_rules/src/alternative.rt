//! What a rule asks of a packet, as lists of matches of which one has to hold.

ghost use Rattle.std.specs.Prelude.{◌≡◌, ◌++◌, ◌∷◌, [], IfOk, OnOk, map};
ghost use Rattle.std.specs.List.{flat_map};
ghost use Rattle.nft_rules.specs.Alternatives.{both_families, both_protocols, joined, both};
ghost use Rattle.nft_rules.specs.Seen.{match_of};
ghost use Rattle.nft_rules.specs.inner.Asked.{alternative_of};

use crate::Made;
use crate::hosts::is_same;
use crate::subset::Match;
use pf_addr::Family;

/// What is asked of the protocol.
#[derive(Clone, Copy, PartialEq, Eq)]
pub enum Protocol {
    /// Nothing.
    AnyProtocol,
    /// That it is this one.
    Only(u8),
    /// That it isn't TCP.
    NotTcp,
}

/// What is asked of the family and of the protocol, and what else.
#[derive(Drop)]
pub(crate) struct Alternative<'c> {
    pub(crate) family: Option<Family>,
    pub(crate) protocol: Protocol,
    pub(crate) tests: Vec<Match<'c>>,
}

/// Alternatives, unless a growth is refused.
pub(crate) type Alternatives<'c> = Made<Vec<Alternative<'c>>>;

impl<'c> Alternative<'c> {
    /// Both of these, and the tests.
    pub(crate) fn of(
        family: Option<Family>,
        protocol: Protocol,
        tests: Vec<Match<'c>>,
    ) -> Alternative<'c>
        ensures { alternative_of result ≡
            record { family = family; protocol = protocol; tests = map match_of tests.entry.items } }
    {
        Alternative {
            family,
            protocol,
            tests,
        }
    }
}

/// What both ask of the family, none if it can't hold.
fn both_families(one: Option<Family>, other: Option<Family>) -> Option<Option<Family>>
    ensures { result ≡ both_families one other }
{
    match (one, other) {
        (None, family) | (family, None) => Some(family),
        (Some(family), Some(wanted)) => is_same(family, wanted).then(|| one),
    }
}

/// What both ask of the protocol, none if it can't hold.
fn both_protocols(one: Protocol, other: Protocol) -> Option<Protocol>
    ensures { result ≡ both_protocols one other }
{
    match (one, other) {
        (Protocol::AnyProtocol, protocol) | (protocol, Protocol::AnyProtocol) => Some(protocol),
        (Protocol::Only(n), Protocol::Only(m)) => (n == m).then(|| one),
        (Protocol::Only(n), Protocol::NotTcp) | (Protocol::NotTcp, Protocol::Only(n)) => (n
            != 6).then(|| Protocol::Only(n)),
        (Protocol::NotTcp, Protocol::NotTcp) => Some(one),
    }
}

/// Puts the same matches behind those that are there.
pub(crate) fn push_matches<'c>(all: &mut Vec<Match<'c>>, more: &[Match<'c>]) -> Made<()>
    ensures { OnOk result (map match_of all.new.items ≡ map match_of all.old.items ++ map match_of more.now) }
{
    for test in more {
        all.push(test.clone()?)?;
    }
    Ok(())
}

/// Puts what both ask behind what is there, unless it can't hold.
fn push_both<'c>(
    all: &mut Vec<Alternative<'c>>,
    one: &Alternative<'c>,
    other: &Alternative<'c>,
) -> Made<()>
    ensures { OnOk result (map alternative_of all.new.items
        ≡ map alternative_of all.old.items ++ joined (alternative_of one.now) (alternative_of other.now)) }
{
    let family = both_families(one.family, other.family);
    let protocol = both_protocols(one.protocol, other.protocol);
    if let (Some(family), Some(protocol)) = (family, protocol) {
        let mut tests = Vec::new(*all.allocator());
        push_matches(&mut tests, &one.tests)?;
        push_matches(&mut tests, &other.tests)?;
        all.push(Alternative::of(family, protocol, tests))?;
    }
    Ok(())
}

/// Puts one joined to each of the others behind what is there.
fn push_each<'c>(
    all: &mut Vec<Alternative<'c>>,
    one: &Alternative<'c>,
    others: &[Alternative<'c>],
) -> Made<()>
    ensures { OnOk result (map alternative_of all.new.items
        ≡ map alternative_of all.old.items
        ++ flat_map (joined (alternative_of one.now)) (map alternative_of others.now)) }
{
    for other in others {
        push_both(all, one, other)?;
    }
    Ok(())
}

/// One of these and one of those.
#[tactic(auto, unfolding(crate::specs::Alternatives::both))]
pub(crate) fn both<'c>(these: Vec<Alternative<'c>>, those: &[Alternative<'c>]) -> Alternatives<'c>
    ensures { IfOk result (λ v. map alternative_of v.items
        ≡ both (map alternative_of these.entry.items) (map alternative_of those.now)) }
{
    let mut all = Vec::new(*these.allocator());
    for one in &these {
        push_each(&mut all, one, those)?;
    }
    Ok(all)
}
