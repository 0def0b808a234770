//! Rules of their conditions.

ghost use Rattle.std.specs.Prelude.{◌≡◌, map, IfOk, IfErr, ◌+◌, ◌≤◌, length, None, Some};
ghost use Rattle.pf_expansion.specs.Causes.{lowest, rule_causes};
ghost use Rattle.pf_expansion.specs.Expansion.{resolved, keeps_state, tested_flags, rule_flags, rule_with, expanded};
ghost use Rattle.pf_statements.specs.Seen.{text_of};
ghost use Rattle.pf_expansion.specs.declared.judge.TheConstants.{MOST_RULES};

use crate::cause::{Cause, Made};
use crate::judge::judge_conditions;
use pf_rules::{Action, Conditions, FlagTest, Policy, Rule};
use pf_statements::{WrittenAction, WrittenRule};
use std::alloc::{AllocError, Global};

/// What the rule does: a plain `block` follows the policy.
fn resolved(policy: Policy, action: WrittenAction) -> Action
    ensures { result ≡ resolved policy action }
{
    match (policy, action) {
        (_, WrittenAction::Pass) => Action::Pass,
        (Policy::Drop, WrittenAction::Block(None)) => Action::Drop,
        (Policy::Return, WrittenAction::Block(None)) => Action::Return,
        (_, WrittenAction::Block(Some(Policy::Drop))) => Action::Drop,
        (_, WrittenAction::Block(Some(Policy::Return))) => Action::Return,
    }
}

/// Whether a state would be kept.
fn keeps_state(action: WrittenAction, state: Option<bool>) -> bool
    ensures { result ≡ keeps_state action state }
{
    matches!(action, WrittenAction::Pass) && state.unwrap_or(true)
}

/// The flags that are asked for.
pub(crate) fn tested_flags(keep: bool, written: Option<FlagTest>) -> FlagTest
    ensures { result ≡ tested_flags keep written }
{
    match written {
        Some(test) => test,
        None if keep => FlagTest::SYN_OF_SYN_ACK,
        None => FlagTest::Any,
    }
}

/// What is asked of the flags in a rule.
pub(crate) fn rule_flags(text: &WrittenRule) -> FlagTest
    ensures { result ≡ rule_flags (text_of text.now) }
{
    tested_flags(keeps_state(text.action, text.state), text.conditions.flags)
}

/// The rules with these conditions.
#[inline(always)]
pub fn rules_with(policy: Policy, text: &WrittenRule, found: Vec<Conditions>) -> Made<Vec<Rule>>
    ensures { IfOk result (λ rules. rules.items ≡ map (rule_with policy (text_of text.now)) found.items) }
{
    let mut rules = Vec::with_capacity(*found.allocator(), found.len())?;
    for conditions in found {
        rules.push(Rule {
            action: resolved(policy, text.action),
            quick: text.quick,
            conditions,
            keeps_state: keeps_state(text.action, text.state),
        })?;
    }
    Ok(rules)
}

/// The rules of a written rule behind that many others, one for each combination of what it lists (pf.conf(5), lists),
/// or the lowest cause that refuses it. A growth that is refused is the error.
#[tactic(auto, unfolding(crate::specs::Expansion::expanded), using(crate::proofs::Counting::as_many))]
pub fn judge_rule(
    alloc: Global,
    policy: Policy,
    before: usize,
    text: &WrittenRule,
) -> Result<Result<Vec<Rule>, Cause>, AllocError>
    ensures allowed { IfOk result (λ judged. IfOk judged (λ rules. lowest (rule_causes before (text_of text.now)) ≡
        None)) }
    ensures rules { IfOk result (λ judged. IfOk judged (λ rules. rules.items ≡
        expanded policy (text_of text.now))) }
    ensures few { IfOk result (λ judged. IfOk judged (λ rules. before + length rules.items ≤ MOST_RULES)) }
    ensures refused { IfOk result (λ judged. IfErr judged (λ cause. lowest (rule_causes before (text_of text.now)) ≡
        Some cause)) }
{
    match judge_conditions(alloc, rule_flags(text), before, false, &text.conditions)? {
        Ok(found) => Ok(Ok(rules_with(policy, text, found)?)),
        Err(cause) => Ok(Err(cause)),
    }
}
