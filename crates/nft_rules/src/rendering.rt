//! A whole ruleset, or why there is none.

ghost use Rattle.std.specs.Prelude.{◌≡◌, ◌++◌, IfOk, List, OnOk, map, Some};
ghost use Rattle.std.specs.List.{list_any};
ghost use Rattle.pf_rules.specs.Seen.{rule_of};
ghost use Rattle.pf_config.specs.Map.{rules_at, paths_in};
ghost use Rattle.nft_rules.specs.Rendering.{rendered, chains_of, sets_of};
ghost use Rattle.nft_rules.specs.inner.Rendering.{chain_in};
ghost use Rattle.nft_rules.specs.Deciding.{DecidesAs, DecidesBehindGuard, leads_back, some_leads_back};
ghost use Rattle.nft_rules.specs.Guard.{Member};
ghost use Rattle.nft_rules.specs.Refusing.{Renders, render, is_costly, fault_code};
ghost use Rattle.nft_rules.specs.declared.rendering.RenderFault.TheVariants.{Memory};
ghost use Rattle.nft_rules.specs.Seen.{chain_of, named_set_of, ruleset_of, machine_of};

use crate::Made;
use crate::asking::left_after;
use crate::base::base_chain;
use crate::chains::{Place, chain_in};
use crate::machine::MachineInterface;
use crate::sets::sets_of;
use crate::subset::{Chain, ChainName, NftRuleset, Pass};
use pf_config::Config;
use pf_rules::{Direction, Item, Name};
use std::alloc::{AllocError, AllocFailed, Global};

/// Of how many rules a packet may be asked at most: rules of nftables, one after the other.
pub const ASKED_MAX: u32 = 100_000;

/// Why a configuration isn't rendered.
#[derive(Clone, Copy, PartialEq, Eq)]
pub enum RenderFault {
    /// 87: an anchor rule's target is the anchor that holds it, a loop that nftables refuses.
    LeadsBack,
    /// 88: anchors multiply, so that a packet may be asked of more than `ASKED_MAX` rules.
    Costly,
    /// A growth was refused.
    Memory,
}

impl RenderFault {
    /// The number of the refusal; none when out of memory.
    pub fn code(self) -> Option<u8>
        ensures { result ≡ fault_code self }
    {
        match self {
            RenderFault::LeadsBack => Some(87),
            RenderFault::Costly => Some(88),
            RenderFault::Memory => None,
        }
    }
}

impl From<AllocError> for RenderFault {
    ghost from_gives = { λ _ e. e ≡ Memory };

    fn from(_e: AllocError) -> RenderFault {
        RenderFault::Memory
    }
}

/// Whether the rule is an anchor rule whose target is the anchor that holds it.
#[tactic(auto, using(crate::proofs::Refused::filter_stays, crate::proofs::Refused::anchor_leads))]
fn leads_back(item: &Item) -> bool
    ensures { result ≡ leads_back (rule_of item.now) }
{
    match item {
        Item::Filter(_) => false,
        Item::Anchor(anchor) => {
            let target = &anchor.heading.target;
            !target.children && target.names.is_empty()
        }
    }
}

/// Whether one of these rules leads back.
fn any_leads_back(items: &[Item]) -> bool
    ensures { result ≡ list_any leads_back (map rule_of items.now) }
{
    items.iter().any(|item| leads_back(item))
}

/// Whether a rule at one of these paths leads back.
fn some_leads_back(config: &Config, paths: &[&[Name]]) -> bool
    ensures { result ≡ list_any (λ p. list_any leads_back (rules_at config.now p)) (map (λ p. p.now) paths.now) }
{
    paths.iter().any(|path| any_leads_back(config.items(path)))
}

/// Puts the chains of these paths in this pass behind those that are there.
fn push_chains<'c>(
    place: Place<'c>,
    pass: Pass,
    paths: &[&'c [Name]],
    chains: &mut Vec<Chain<'c>>,
) -> Made<()>
    ensures { OnOk result (map chain_of chains.new.items ≡ map chain_of chains.old.items
        ++ map (chain_in pass place.entry.config.now (machine_of place.entry.machine.now) place.entry.direction)
        (map (λ p. p.now) paths.now)) }
{
    for path in paths {
        chains.push(chain_in(Place { path, ..place }, pass)?)?;
    }
    Ok(())
}

/// The ruleset of these paths, which are all that have rules or tables.
#[tactic(auto, unfolding(crate::specs::Rendering::chains_of, crate::specs::Rendering::sets_of))]
fn rendered<'c>(place: Place<'c>, paths: &[&'c [Name]]) -> Made<NftRuleset<'c>>
    requires { map (λ p. p.now) paths.now ≡ paths_in place.config.now.anchors }
    ensures { IfOk result (λ r. ruleset_of r
        ≡ rendered place.entry.config.now (machine_of place.entry.machine.now) place.entry.direction) }
{
    let sets = sets_of(place, paths)?;
    let mut chains = Vec::new(place.alloc);
    chains.push(base_chain(place)?)?;
    push_chains(place, Pass::Forward, paths, &mut chains)?;
    push_chains(place, Pass::Backward, paths, &mut chains)?;
    Ok(NftRuleset { sets, chains })
}

/// Whether a packet may be asked of more rules than it may cost.
#[tactic(auto, using(crate::proofs::Refused::enough))]
fn is_costly(whole: &NftRuleset<'_>) -> bool
    ensures { result ≡ is_costly (ruleset_of whole.now) }
{
    left_after(whole, 10, ChainName::Base, ASKED_MAX).is_none()
}

/// The ruleset of nftables for packets of a direction, on a machine with these interfaces. What it decides of a packet
/// on one of them is the configuration's verdict, with the deciding rule; at a hook with the guard of any members in
/// front of it theirs are accepted, and of every other packet it decides so. Refused is a rule that leads back to its
/// own anchor, and anchors that multiply beyond `ASKED_MAX` rules a packet; nothing is rendered then.
#[tactic(auto, unfolding(crate::specs::Refusing::render))]
pub fn render<'c>(
    alloc: Global,
    config: &'c Config,
    machine: &'c [MachineInterface],
    direction: Direction,
) -> Result<NftRuleset<'c>, RenderFault>
    ensures whole { Renders ruleset_of result (render config.now (machine_of machine.now) direction) }
    ensures judged { IfOk result (λ r. DecidesAs config.now (machine_of machine.now) direction (ruleset_of r)) }
    ensures guarded { IfOk result (λ r. (ms : List Member) →
        DecidesBehindGuard config.now (machine_of machine.now) direction ms (ruleset_of r)) }
{
    let paths = config.paths()?;
    if some_leads_back(config, &paths) {
        return Err(RenderFault::LeadsBack);
    }
    let place = Place {
        alloc,
        config,
        machine,
        direction,
        path: &[],
    };
    let whole = rendered(place, &paths)?;
    if is_costly(&whole) {
        return Err(RenderFault::Costly);
    }
    Ok(whole)
}
