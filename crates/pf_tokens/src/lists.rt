//! Lists in braces.

ghost use Rattle.std.specs.Prelude.{◌≡◌, ◌↔◌, ◌<◌, Bool, Some, List, length};
ghost use Rattle.pf_rules.specs.declared.profile.Profile.{Profile};
ghost use Rattle.pf_tokens.specs.Tokens.{Token};
ghost use Rattle.pf_tokens.specs.Productions.{Read};
ghost use Rattle.pf_tokens.specs.Lists.{Elements, list_at, some_at, elements_of};
ghost use Rattle.pf_tokens.specs.ListGrammar.{IsElement, IsReadAs, IsListBefore};
ghost use Rattle.pf_tokens.specs.Parsing.{left, later, Parses};

use crate::parser::Parser;
use crate::stop::Stop;
use crate::symbol::Symbol;
use pf_rules::Profile;
use std::alloc::Global;

/// How many elements are kept at most: a statement has no more tokens.
const ELEMENTS_MAX: usize = 65_536;

/// A production whose values may be in a list. It is a type of its own where the values are in a crate below.
pub trait Element {
    /// What is read.
    type Value: Drop;

    /// How it is read from the front of the tokens, in a profile.
    ghost read: { Profile → List Token → Read Self.Value };

    /// Reads one. `Syntax` where the tokens don't spell it, `Memory` where a growth is refused.
    fn read<'t: 's, 's>(
        alloc: Global,
        profile: Profile,
        parser: &mut Parser<'t, 's>,
    ) -> Result<Self::Value, Stop>
        ensures read { Parses (λ x. x) result (left parser.new) (read profile (left parser.old)) }
        ensures later { later parser.new ≡ later parser.old };

    /// It takes a token at least.
    ghost shorter: { (profile : Profile) (ts rest : List Token) (x : Self.Value) → read profile ts ≡
        Some (x, rest) → length rest < length ts };
}

/// What a list has.
#[derive(Drop)]
pub struct Listed<E> {
    /// The elements in order, with those of the lists in it.
    pub items: Vec<E>,
    /// How many lists are in one another at the deepest: 0 for an element without braces, 1 for a list of elements.
    pub deepest: u64,
}

/// The elements of a list in braces, with those of the lists in it (`pf.conf(5)`, GRAMMAR). Newlines in it are blanks.
pub fn list<'t: 's, 's, E: Element>(
    alloc: Global,
    profile: Profile,
    parser: &mut Parser<'t, 's>,
) -> Result<Listed<E::Value>, Stop>
    ensures read { Parses elements_of result (left parser.new) (list_at (E.read profile) (left parser.old)) }
    ensures later { later parser.new ≡ later parser.old }
{
    if !parser.open_list() {
        return Err(Stop::Syntax);
    }
    let mut items = Vec::new(alloc);
    let mut depth = 1u64;
    let mut deepest = 1u64;
    let mut wanted = true;
    'elements: loop {
        if parser.accept_symbol(Symbol::Open) {
            // No memory holds a source with more open braces than can be counted.
            let Some(deeper) = depth.checked_add(1) else {
                return Err(Stop::Memory);
            };
            depth = deeper;
            deepest = deepest.max(deeper);
            wanted = true;
        } else if parser.accept_symbol(Symbol::Comma) {
            if wanted {
                return Err(Stop::Syntax);
            }
            wanted = true;
        } else if parser.accept_symbol(Symbol::Close) {
            if wanted {
                return Err(Stop::Syntax);
            }
            if depth == 1 {
                return Ok(Listed { items, deepest });
            }
            depth -= 1;
        } else {
            if items.len() >= ELEMENTS_MAX {
                return Err(Stop::TooMany);
            }
            let item = E::read(alloc, profile, parser)?;
            items.push(item)?;
            wanted = false;
        }
    }
}

/// An element, or a list of elements.
#[tactic(auto, unfolding(crate::specs::Lists::some_at))]
pub fn some<'t: 's, 's, E: Element>(
    alloc: Global,
    profile: Profile,
    parser: &mut Parser<'t, 's>,
) -> Result<Listed<E::Value>, Stop>
    ensures read { Parses elements_of result (left parser.new) (some_at (E.read profile) (left parser.old)) }
    ensures later { later parser.new ≡ later parser.old }
{
    if parser.begins_symbol(Symbol::Open) {
        return list::<E>(alloc, profile, parser);
    }
    let item = E::read(alloc, profile, parser)?;
    let mut items = Vec::with_capacity(alloc, 1)?;
    items.push(item)?;
    Ok(Listed { items, deepest: 0 })
}

/// A list is read exactly where the grammar spells it: what is read is no more than the relation says, and no less.
/// What spells an element are the tokens that alone are read as it.
pub fn lists_as_spelled<E: Element>()
    ensures { (profile : Profile) (follows : List Token → Bool) → IsElement (E.read profile) follows →
        (ts rest : List Token) (l : Elements E.Value) →
        ((list_at (E.read profile) ts ≡ Some (l, rest)) ↔ IsListBefore (IsReadAs (E.read profile)) ts l rest) }
{}
