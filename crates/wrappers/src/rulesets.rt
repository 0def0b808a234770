//! Reading a ruleset.

ghost use Rattle.std.specs.Prelude.{◌≡◌, IfOk};
ghost use Rattle.pf_expansion.specs.Expansion.{expanded};
ghost use Rattle.pf_grammar.specs.Reading.{Answers, reading};
ghost use Rattle.pf_statements.specs.Seen.{text_of};

use pf_expansion::{Cause, judge_rule};
use pf_grammar::{ParseFault, Place, Profile, Rule, Ruleset};
use pf_rules::Policy;
use pf_statements::WrittenRule;
use std::alloc::{AllocError, Global};

/// [`pf_grammar::parse`]: a ruleset, or the line and the cause of its first refused statement.
pub fn parse(
    alloc: Global,
    text: &[u8],
    place: Place,
    profile: Profile,
) -> Result<Ruleset, ParseFault>
    ensures { Answers result (reading place profile text.now) }
{
    pf_grammar::parse(alloc, text, place, profile)
}

/// [`judge_rule`]: the rules that a written rule gives.
pub fn rules_of(
    alloc: Global,
    policy: Policy,
    before: usize,
    text: &WrittenRule,
) -> Result<Result<Vec<Rule>, Cause>, AllocError>
    ensures { IfOk result (λ judged. IfOk judged (λ rules. rules.items ≡ expanded policy (text_of text.now))) }
{
    judge_rule(alloc, policy, before, text)
}
