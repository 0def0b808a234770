//! Lists after a keyword that introduces them, and lists of one element.

ghost use Rattle.std.specs.Prelude.{◌≡◌, ◌∷◌, [], IfOk};
ghost use Rattle.pf_tokens.specs.Lists.{some_at, elements_of};
ghost use Rattle.pf_tokens.specs.Parsing.{left, later, Parses};
ghost use Rattle.pf_statements.specs.Conditions.{behind_word};
ghost use Rattle.pf_statements.specs.ConditionsSeen.{list_of};

use crate::common::{Context, Read};
use pf_tokens::{Element, Listed, Parser, some};
use std::alloc::{AllocError, Global};

/// The list after the keyword, if the keyword comes next.
#[tactic(auto, unfolding(pf_tokens::specs::Productions::option_at))]
pub(crate) fn read_behind<'t: 's, 's, E: Element>(
    cx: Context,
    word: &[u8],
    parser: &mut Parser<'t, 's>,
) -> Read<Option<Listed<E::Value>>>
    ensures read { Parses list_of result (left parser.new) (behind_word word.now (some_at (E.read cx.profile))
        (left parser.old)) }
    ensures later { later parser.new ≡ later parser.old }
{
    if !parser.accept(word) {
        return Ok(None);
    }
    Ok(Some(some::<E>(cx.alloc, cx.profile, parser)?))
}

/// The list of one element, without braces.
pub(crate) fn lone<E: Drop>(alloc: Global, item: E) -> Result<Listed<E>, AllocError>
    ensures { IfOk result (λ list. elements_of list ≡ record { items = item ∷ []; deepest = 0 }) }
{
    let mut items = Vec::with_capacity(alloc, 1)?;
    items.push(item)?;
    Ok(Listed { items, deepest: 0 })
}
