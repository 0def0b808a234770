//! How deep the blocks of a ruleset stand.

ghost use Rattle.std.specs.Prelude.{◌≡◌, ◌≤◌, ◌||◌, length, nat_lt};
ghost use Rattle.pf_rules.specs.Items.{values_of};
ghost use Rattle.pf_rules.specs.Seen.{item_of, items_of};
ghost use Rattle.pf_config.specs.inner.Depths.{any_deep, is_deep};
ghost use Rattle.pf_config.specs.declared.depths.TheConstants.{DEEPEST};

use pf_rules::{Item, Name};

/// How deep a path may be.
pub(crate) const DEEPEST: usize = 8;

/// Whether a path is too deep, or a block in the rules at it. No path is made.
pub(crate) fn go_too_deep(path: &[Name], items: &[Item]) -> bool
    ensures { result ≡ (nat_lt 8 (length path.now) || any_deep (length path.now) (values_of (items_of items.now))) }
{
    path.len() > DEEPEST || any_deep(path.len(), items)
}

/// Whether a block in the rules is too deep where they are at a path of that many names.
#[cycle(depths)]
fn any_deep(names: usize, items: &[Item]) -> bool
    requires { names ≤ DEEPEST }
    ensures { result ≡ any_deep names (values_of (items_of items.now)) }
{
    for item in items {
        if is_deep(names, item) {
            return true;
        }
    }
    false
}

/// Whether the rule's block or one in it is too deep where the rule is at a path of that many names.
#[cycle(depths)]
fn is_deep(names: usize, item: &Item) -> bool
    requires { names ≤ DEEPEST }
    ensures { result ≡ is_deep names (item_of item.now) }
{
    match item {
        Item::Filter(_) => false,
        Item::Anchor(anchor) => match &anchor.block {
            None => false,
            Some(items) => {
                let more = anchor.heading.target.names.len();
                if more > DEEPEST - names {
                    return true;
                }
                any_deep(names + more, items)
            }
        },
    }
}
