//! The chain at the hook.

ghost use Rattle.std.specs.Prelude.{◌≡◌, ◌++◌, ◌∷◌, [], IfOk, OnOk, map};
ghost use Rattle.nft_rules.specs.Subset.{Unknown, Default};
ghost use Rattle.nft_rules.specs.declared.subset.Outcome.TheVariants.{Accept, Drop};
ghost use Rattle.nft_rules.specs.Rendering.{known, ending, unknown_matches, skip_rules, always, jump_rules};
ghost use Rattle.nft_rules.specs.Rendering.{main_chains};
ghost use Rattle.nft_rules.specs.Rendering.{base_chain};
ghost use Rattle.nft_rules.specs.Seen.{match_of, chain_name_of, nft_rule_of, chain_of, machine_of};

use crate::Made;
use crate::asked::{always, on_names, on_some};
use crate::chains::Place;
use crate::machine::interfaces_named;
use crate::rules::{push_jumps, push_rules};
use crate::subset::{Chain, ChainName, Match, NftRule, Note, Outcome, Pass, Statement};
use pf_config::Config;
use pf_rules::InterfaceName;
use std::alloc::Global;

/// A packet that is on none of the machine's interfaces.
#[tactic(auto, using(crate::proofs::Named::all_known))]
fn unknown_matches<'c>(place: Place<'c>) -> Made<Vec<Match<'c>>>
    ensures { IfOk result (λ v. map match_of v.items ≡ unknown_matches (known (machine_of place.entry.machine.now))) }
{
    let names = interfaces_named(place.alloc, place.machine, &[], true)?;
    if names.is_empty() {
        return Ok(Vec::new(place.alloc));
    }
    on_names(names, true)
}

/// The two chains of the main ruleset, if it has rules.
#[tactic(auto, using(crate::proofs::Targeted::any_rules))]
fn main_chains<'c>(alloc: Global, config: &Config) -> Made<Vec<ChainName<'c>>>
    ensures { IfOk result (λ v. map chain_name_of v.items ≡ main_chains config.now) }
{
    if config.items(&[]).is_empty() {
        return Ok(Vec::new(alloc));
    }
    Ok(vec![in alloc;
        ChainName::at(Pass::Forward, &[]),
        ChainName::at(Pass::Backward, &[]),
    ]?)
}

/// The chain at the hook: packets on no interface of the machine's list are dropped, those on skipped ones pass, the
/// main ruleset's two chains are asked, if it has rules, and what no rule matches passes.
pub(crate) fn base_chain<'c>(place: Place<'c>) -> Made<Chain<'c>>
    ensures { IfOk result (λ v. chain_of v
        ≡ base_chain place.entry.config.now (machine_of place.entry.machine.now)) }
{
    let alloc = place.alloc;
    let matches = unknown_matches(place)?;
    let statement = Statement::ends(Outcome::Drop, Note::Unknown);
    let mut rules = Vec::new(alloc);
    rules.push(NftRule { matches, statement })?;
    let skipped = interfaces_named(alloc, place.machine, place.config.skip(), false)?;
    let statement = Statement::ends(Outcome::Accept, Note::Skip);
    push_rules(&mut rules, &on_some(skipped)?, statement)?;
    push_jumps(
        &mut rules,
        &always(alloc)?,
        &main_chains(alloc, place.config)?,
    )?;
    let (matches, note) = (Vec::new(alloc), Note::Default);
    let statement = Statement::ends(Outcome::Accept, note);
    rules.push(NftRule { matches, statement })?;
    Ok(Chain {
        name: ChainName::Base,
        rules,
    })
}
