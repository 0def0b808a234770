//! The anchors directly below one, in the order of their names.

ghost use Rattle.std.specs.Prelude.{◌≡◌, ◌≤◌, ◌++◌, ◌∷◌, [], IfOk, OnOk};
ghost use Rattle.std.specs.Prelude.{find, option_map, length, take, drop, IfSome, is_some};
ghost use Rattle.std.specs.List.{list_any};
ghost use Rattle.std.specs.Option.{option_copied};
ghost use Rattle.pf_rules.specs.Names.{begins_below};
ghost use Rattle.pf_config.specs.Trees.{shared, last_name};
ghost use Rattle.pf_config.specs.inner.Trees.{is_named, kids_before, kids_behind, some_kid, anchors_of, passes};
ghost use Rattle.pf_config.specs.inner.KidOrder.{AreInOrder};

use crate::Made;
use crate::anchor::Anchor;
use crate::paths::followed_by;
use pf_rules::Name;
use std::alloc::Global;
use std::cmp::Ordering;
use std::rc::Rc;

/// Whether one of the anchors is an unnamed block.
pub(crate) fn any_unnamed(kids: &[Rc<Anchor>]) -> bool
    ensures { result ≡ list_any (passes begins_below) (shared kids.now) }
{
    for kid in kids {
        if kid.is_unnamed() {
            return true;
        }
    }
    false
}

/// The last of the names.
pub(crate) fn last_name(names: &[Name]) -> &[u8]
    ensures { result.now ≡ last_name names.now }
{
    match names.last() {
        Some(own) => own.as_bytes(),
        None => &[],
    }
}

/// The anchors once more, shared.
pub(crate) fn shared_kids(alloc: Global, kids: &[Rc<Anchor>]) -> Made<Vec<Rc<Anchor>>>
    ensures { IfOk result (λ v. shared v.items ≡ shared kids.now) }
{
    let mut next = Vec::new(alloc);
    for kid in kids {
        next.push(kid.clone()?)?;
    }
    Ok(next)
}

/// Appends the anchor, unless it holds nothing.
pub(crate) fn push_some(next: &mut Vec<Rc<Anchor>>, kid: Rc<Anchor>) -> Made<()>
    ensures { OnOk result (shared next.new.items ≡ shared next.old.items ++ some_kid kid.value) }
{
    if !kid.is_nothing() {
        next.push(kid)?;
    }
    Ok(())
}

/// How many of the anchors have names before this one. They are counted by halves.
pub(crate) fn count_before(kids: &[Rc<Anchor>], name: &Name) -> usize
    requires { AreInOrder (shared kids.now) }
    ensures { result ≡ length (kids_before name.now (shared kids.now)) }
{
    kids.partition_point(|kid| kid.is_before(name))
}

/// Whether the anchor of that name is there. Its place is after those with names before it.
pub(crate) fn is_at(kids: &[Rc<Anchor>], at: usize, name: &Name) -> bool
    requires order { AreInOrder (shared kids.now) }
    requires place { at ≡ length (kids_before name.now (shared kids.now)) }
    ensures { result ≡ is_some (find (is_named name.now) (shared kids.now)) }
{
    match kids.get(at) {
        Some(kid) => kid.is_named(name),
        None => false,
    }
}

/// Takes the anchor of that name out from among the others, if it is there.
pub(crate) fn take_named(kids: &mut Vec<Rc<Anchor>>, at: usize, name: &Name) -> Option<Rc<Anchor>>
    requires order { AreInOrder (shared kids.old.items) }
    requires place { at ≡ length (kids_before name.now (shared kids.old.items)) }
    ensures removed { option_map (λ k. k.value) result ≡ find (is_named name.now) (shared kids.old.items) }
    ensures left { shared kids.new.items ≡ kids_before name.now (shared kids.old.items) ++
        kids_behind name.now (shared kids.old.items) }
{
    if !is_at(kids, at, name) {
        return None;
    }
    Some(kids.remove(at))
}

/// Puts the anchor in its place among the others, unless it holds nothing.
pub(crate) fn put_kid(kids: &mut Vec<Rc<Anchor>>, at: usize, kid: Rc<Anchor>) -> Made<()>
    requires { at ≤ length kids.old.items }
    ensures { OnOk result (shared kids.new.items ≡ take at (shared kids.old.items) ++
        (some_kid kid.value ++ drop at (shared kids.old.items))) }
{
    if !kid.is_nothing() {
        kids.insert(at, kid)?;
    }
    Ok(())
}

/// The anchor itself where nobody shares it, else a copy.
fn owned(alloc: Global, anchor: Rc<Anchor>) -> Made<Anchor>
    ensures { IfOk result (λ a. a ≡ anchor.value) }
{
    match Rc::try_unwrap(anchor) {
        Ok(own) => Ok(own),
        Err(shared) => shared.copied(alloc),
    }
}

/// The anchor that was taken out, to be changed, or one with nothing in it where none was there.
pub(crate) fn owned_or_empty(
    alloc: Global,
    names: &[Name],
    name: &Name,
    kid: Option<Rc<Anchor>>,
) -> Made<Anchor>
    requires { IfSome kid (λ k. k.value.names ≡ names.now ++ name.now ∷ []) }
    ensures { IfOk result (λ a. a ≡ record {
      names = names.now ++ name.now ∷ [];
      anchors = anchors_of (option_map (λ k. k.value) kid);
    }) }
{
    match kid {
        Some(kid) => owned(alloc, kid),
        None => Anchor::empty(alloc, followed_by(alloc, names, name)?),
    }
}

/// The anchor of that name, which is looked for at this place first and then by halves.
pub(crate) fn kid_named<'c>(kids: &'c [Rc<Anchor>], name: &str, place: usize) -> Option<&'c Anchor>
    requires { AreInOrder (shared kids.now) }
    ensures { option_copied result ≡ find (is_named name.now) (shared kids.now) }
{
    let mut left = kids;
    let mut at = place;
    while !left.is_empty() {
        let (front, back) = left.split_at(at.min(left.len() - 1));
        let [middle, behind @ ..] = back else {
            return None;
        };
        match last_name(middle.names()).cmp(name.as_bytes()) {
            Ordering::Equal => return Some(middle),
            Ordering::Less => {
                at = behind.len() / 2;
                left = behind;
            }
            Ordering::Greater => {
                at = front.len() / 2;
                left = front;
            }
        }
    }
    None
}
