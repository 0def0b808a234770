//! The chains to which an anchor rule leads.

ghost use Rattle.std.specs.Prelude.{◌≡◌, ◌++◌, ◌∷◌, [], IfOk, OnOk, map, filter};
ghost use Rattle.pf_rules.specs.Seen.{target_of};
ghost use Rattle.pf_config.specs.Trees.{paths_of, shared};
ghost use Rattle.nft_rules.specs.Rendering.{is_chained, chained_targets, forward_chains, backward_chains};
ghost use Rattle.nft_rules.specs.inner.Rendering.{is_member};
ghost use Rattle.nft_rules.specs.Seen.{chain_name_of};

use crate::Made;
use crate::chains::Place;
use crate::subset::{ChainName, Pass};
use pf_config::{Anchor, Config, joined};
use pf_rules::{Name, PATH_MAX, Target};
use std::rc::Rc;

/// Puts the path behind those that are there, if a jump may lead to it: some rule is there, and it has 8 names at most.
#[tactic(auto, using(crate::proofs::Targeted::any_rules))]
fn push_chained<'c>(config: &'c Config, paths: &mut Vec<&'c [Name]>, path: &'c [Name]) -> Made<()>
    ensures { OnOk result (map (λ p. p.now) paths.new.items
        ≡ map (λ p. p.now) paths.old.items ++ filter (is_chained config.now) (path.now ∷ [])) }
{
    if path.len() <= PATH_MAX && !config.items(path).is_empty() {
        paths.push(path)?;
    }
    Ok(())
}

/// Puts the chains of these paths behind those that are there.
pub(crate) fn push_forward<'c>(chains: &mut Vec<ChainName<'c>>, paths: &[&'c [Name]]) -> Made<()>
    ensures { OnOk result (map chain_name_of chains.new.items
        ≡ map chain_name_of chains.old.items ++ forward_chains (map (λ p. p.now) paths.now)) }
{
    for path in paths {
        chains.push(ChainName::at(Pass::Forward, path))?;
    }
    Ok(())
}

/// Puts the chains of these paths behind those that are there, the last path's first.
#[tactic(auto, using(crate::proofs::Targeted::first_last))]
pub(crate) fn push_backward<'c>(chains: &mut Vec<ChainName<'c>>, paths: &[&'c [Name]]) -> Made<()>
    ensures { OnOk result (map chain_name_of chains.new.items
        ≡ map chain_name_of chains.old.items ++ backward_chains (map (λ p. p.now) paths.now)) }
{
    let [path, rest @ ..] = paths else {
        return Ok(());
    };
    push_backward(chains, rest)?;
    Ok(chains.push(ChainName::at(Pass::Backward, path))?)
}

/// Puts the paths of these anchors, but for unnamed blocks, behind those that are there, if a jump may lead to them.
fn push_members<'c>(
    config: &'c Config,
    paths: &mut Vec<&'c [Name]>,
    kids: &'c [Rc<Anchor>],
) -> Made<()>
    ensures { OnOk result (map (λ p. p.now) paths.new.items
        ≡ map (λ p. p.now) paths.old.items
        ++ filter (is_chained config.now) (filter is_member (paths_of (shared kids.now)))) }
{
    for kid in kids {
        if !kid.is_unnamed() {
            push_chained(config, paths, kid.names())?;
        }
    }
    Ok(())
}

/// The paths that an anchor rule evaluates and to which a jump may lead, in their order.
#[tactic(auto, using(crate::proofs::Targeted::named_paths, crate::proofs::Targeted::path_there, crate::proofs::Targeted::none_there))]
pub(crate) fn chained_targets<'c>(place: Place<'c>, target: &Target) -> Made<Vec<&'c [Name]>>
    ensures { IfOk result (λ v. map (λ p. p.now) v.items
        ≡ chained_targets place.entry.config.now place.entry.path.now (target_of target.now)) }
{
    let names = joined(place.alloc, place.path, &target.names)?;
    let mut paths = Vec::new(place.alloc);
    if target.children {
        push_members(place.config, &mut paths, place.config.kids(&names))?;
    } else if let Some(anchor) = place.config.anchor(&names) {
        push_chained(place.config, &mut paths, anchor.names())?;
    }
    Ok(paths)
}
