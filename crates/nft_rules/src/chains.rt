//! The chains of a path.

ghost use Rattle.std.specs.Prelude.{◌≡◌, ◌≤◌, ◌+◌, ◌++◌, IfOk, OnOk, length, map};
ghost use Rattle.nft_rules.specs.Rendering.{alternatives, outcome_of, filter_rules, anchor_chains};
ghost use Rattle.nft_rules.specs.inner.Rendering.{rule_in, rules_in, chain_in};
ghost use Rattle.pf_config.specs.declared.config.TheConstants.{RULES_MAX};
ghost use Rattle.pf_rules.specs.Items.{AnchorRule};
ghost use Rattle.pf_rules.specs.Seen.{heading_of, rule_of};
ghost use Rattle.nft_rules.specs.Seen.{chain_of, machine_of, nft_rule_of};

use crate::Made;
use crate::asked::alternatives;
use crate::machine::MachineInterface;
use crate::rules::{push_jumps, push_rules};
use crate::subset::{Chain, ChainName, NftRule, Note, Outcome, Pass, Statement};
use crate::targets::{chained_targets, push_backward, push_forward};
use pf_config::Config;
use pf_rules::{Action, AnchorHeading, Direction, Item, Name};
use std::alloc::Global;

/// What the rules of a path are rendered for: the configuration, the machine and the direction.
#[derive(Clone, Copy)]
pub(crate) struct Place<'c> {
    pub(crate) alloc: Global,
    pub(crate) config: &'c Config,
    pub(crate) machine: &'c [MachineInterface],
    pub(crate) direction: Direction,
    pub(crate) path: &'c [Name],
}

fn outcome_of(action: Action) -> Outcome
    ensures { result ≡ outcome_of action }
{
    match action {
        Action::Pass => Outcome::Accept,
        Action::Drop => Outcome::Drop,
        Action::Return => Outcome::Reject,
    }
}

/// Puts the jumps of an anchor rule in this pass behind the rules that are there: of a quick one all are forwards, since
/// the last hit within it ends the evaluation too.
fn push_anchor<'c>(
    place: Place<'c>,
    pass: Pass,
    index: u32,
    heading: &'c AnchorHeading,
    rules: &mut Vec<NftRule<'c>>,
) -> Made<()>
    ensures { OnOk result (map nft_rule_of rules.new.items ≡ map nft_rule_of rules.old.items
        ++ rule_in pass place.entry.config.now (machine_of place.entry.machine.now) place.entry.direction
        place.entry.path.now index (AnchorRule (heading_of heading.now))) }
{
    let paths = chained_targets(place, &heading.target)?;
    let mut chains = Vec::new(place.alloc);
    match (pass, heading.quick) {
        (Pass::Forward, false) => push_forward(&mut chains, &paths)?,
        (Pass::Forward, true) => {
            push_forward(&mut chains, &paths)?;
            push_backward(&mut chains, &paths)?;
        }
        (Pass::Backward, false) => push_backward(&mut chains, &paths)?,
        (Pass::Backward, true) => return Ok(()),
    }
    push_jumps(rules, &alternatives(place, &heading.conditions)?, &chains)
}

/// Puts what a rule gives in this pass behind the rules that are there: what may end the evaluation, or the rest.
#[tactic(auto, using(crate::proofs::Targeted::forward_filter, crate::proofs::Targeted::backward_filter, crate::proofs::Targeted::either_anchor))]
fn push_rule<'c>(
    place: Place<'c>,
    pass: Pass,
    index: u32,
    item: &'c Item,
    rules: &mut Vec<NftRule<'c>>,
) -> Made<()>
    ensures { OnOk result (map nft_rule_of rules.new.items ≡ map nft_rule_of rules.old.items
        ++ rule_in pass place.entry.config.now (machine_of place.entry.machine.now) place.entry.direction
        place.entry.path.now index (rule_of item.now)) }
{
    match (pass, item) {
        (Pass::Forward, Item::Filter(rule)) if !rule.quick => Ok(()),
        (Pass::Backward, Item::Filter(rule)) if rule.quick => Ok(()),
        (_, Item::Filter(rule)) => {
            let asked = alternatives(place, &rule.conditions)?;
            let path = place.path;
            let statement = Statement::ends(outcome_of(rule.action), Note::Spot { path, index });
            push_rules(rules, &asked, statement)
        }
        (_, Item::Anchor(anchor)) => push_anchor(place, pass, index, &anchor.heading, rules),
    }
}

/// Puts what these rules give in this pass, of which the first has this index, behind the rules that are there: the
/// first rule's first forwards, the last one's first backwards.
fn push_rules_in<'c>(
    place: Place<'c>,
    pass: Pass,
    index: u32,
    items: &'c [Item],
    rules: &mut Vec<NftRule<'c>>,
) -> Made<()>
    requires { index + length items.now ≤ RULES_MAX }
    ensures { OnOk result (map nft_rule_of rules.new.items ≡ map nft_rule_of rules.old.items
        ++ rules_in pass (rule_in pass place.entry.config.now (machine_of place.entry.machine.now)
        place.entry.direction place.entry.path.now) index (map rule_of items.now)) }
{
    let [item, rest @ ..] = items else {
        return Ok(());
    };
    match pass {
        Pass::Forward => {
            push_rule(place, pass, index, item, rules)?;
            push_rules_in(place, pass, index + 1, rest, rules)
        }
        Pass::Backward => {
            push_rules_in(place, pass, index + 1, rest, rules)?;
            push_rule(place, pass, index, item, rules)
        }
    }
}

/// The chain of a path in this pass.
pub(crate) fn chain_in<'c>(place: Place<'c>, pass: Pass) -> Made<Chain<'c>>
    ensures { IfOk result (λ v. chain_of v ≡ chain_in pass place.entry.config.now (machine_of place.entry.machine.now)
        place.entry.direction place.entry.path.now) }
{
    let mut rules = Vec::new(place.alloc);
    push_rules_in(place, pass, 0, place.config.items(place.path), &mut rules)?;
    let name = ChainName::at(pass, place.path);
    Ok(Chain { name, rules })
}
