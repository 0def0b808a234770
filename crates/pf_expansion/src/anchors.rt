//! Anchor rules of their conditions.

ghost use Rattle.std.specs.Prelude.{◌≡◌, ◌+◌, ◌≤◌, map, length, IfOk, IfErr, None, Some};
ghost use Rattle.pf_rules.specs.Seen.{heading_of, target_of};
ghost use Rattle.pf_statements.specs.Seen.{anchor_text_of};
ghost use Rattle.pf_expansion.specs.Anchors.{heading_from, headings, is_reserved, anchor_causes};
ghost use Rattle.pf_expansion.specs.Causes.{lowest};
ghost use Rattle.pf_expansion.specs.declared.judge.TheConstants.{MOST_RULES};

use crate::block_names::is_misnamed;
use crate::cause::{Cause, Made};
use crate::judge::judge_conditions;
use crate::rules::tested_flags;
use pf_rules::{AnchorHeading, Conditions, Target};
use pf_statements::WrittenAnchor;
use std::alloc::{AllocError, Global};

/// Whether the target has the name of an unnamed block.
pub(crate) fn is_reserved(target: &Target) -> bool
    ensures { result ≡ is_reserved (target_of target.now) }
{
    target.names.iter().any(|name| name.is_unnamed())
}

/// The anchor rules with these conditions.
#[tactic(auto, using(crate::proofs::Counting::headings_push))]
pub fn headings_of(target: &Target, quick: bool, found: Vec<Conditions>) -> Made<Vec<AnchorHeading>>
    ensures { IfOk result (λ hs. map heading_of hs.items ≡
        map (heading_from (target_of target.now) quick) found.items) }
{
    let alloc = *found.allocator();
    let mut headings = Vec::new(alloc);
    for conditions in found {
        headings.push(AnchorHeading {
            target: target.copied(alloc)?,
            quick,
            conditions,
        })?;
    }
    Ok(headings)
}

/// The anchor rules of a written one behind that many others and that many unnamed blocks, one for each combination of
/// what it lists (pf.conf(5), lists), or the lowest cause that refuses it. A growth that is refused is the error.
#[tactic(auto, unfolding(crate::specs::Anchors::headings), using(crate::proofs::Counting::as_many_headings))]
pub fn judge_anchor(
    alloc: Global,
    before: usize,
    unnamed: u32,
    text: &WrittenAnchor,
) -> Result<Result<Vec<AnchorHeading>, Cause>, AllocError>
    ensures allowed { IfOk result (λ judged. IfOk judged (λ hs. lowest (anchor_causes before unnamed
        (anchor_text_of text.now)) ≡ None)) }
    ensures rules { IfOk result (λ judged. IfOk judged (λ hs. map heading_of hs.items ≡
        headings (anchor_text_of text.now))) }
    ensures few { IfOk result (λ judged. IfOk judged (λ hs. before + length hs.items ≤ MOST_RULES)) }
    ensures refused { IfOk result (λ judged. IfErr judged (λ cause. lowest (anchor_causes before unnamed
        (anchor_text_of text.now)) ≡ Some cause)) }
{
    let test = tested_flags(false, text.conditions.flags);
    let misnamed = is_misnamed(alloc, unnamed, &text.target)?;
    match judge_conditions(alloc, test, before, misnamed, &text.conditions)? {
        Ok(found) => Ok(Ok(headings_of(&text.target, text.quick, found)?)),
        Err(cause) => Ok(Err(cause)),
    }
}
