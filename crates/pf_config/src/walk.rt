//! Walks down the tree.

ghost use Rattle.std.specs.Prelude.{◌≡◌};
ghost use Rattle.std.specs.Option.{option_copied};
ghost use Rattle.pf_config.specs.Trees.{tree_at};

use crate::anchor::Anchor;
use pf_rules::Name;

/// The anchor at a path below this one.
pub(crate) fn descend<'c>(from: &'c Anchor, rest: &[Name]) -> Option<&'c Anchor>
    ensures { option_copied result ≡ tree_at from.now rest.now }
{
    let mut at = from;
    for name in rest {
        at = at.child(name.as_str())?;
    }
    Some(at)
}
