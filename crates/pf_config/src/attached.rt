//! The anchors below an anchor, and those directly attached to a path.

ghost use Rattle.std.specs.Prelude.{◌≡◌, ◌++◌, find, map, option_map};
ghost use Rattle.pf_config.specs.Map.{kids, followed_by, is_above};
ghost use Rattle.pf_config.specs.Trees.{and_then, last_name, path_in, paths_of, shared, tree_at};
ghost use Rattle.pf_config.specs.inner.Trees.{names_held};
ghost use Rattle.std.specs.Option.{option_copied};

use crate::anchor::Anchor;
use crate::below::last_name;
use crate::config::Config;
use crate::walk::descend;
use pf_rules::Name;
use std::cmp::Ordering;
use std::rc::Rc;

impl Config {
    /// The path followed by the rest, as the configuration has it. None where no path of the configuration begins so.
    pub fn find(&self, path: &[Name], rest: &[Name]) -> Option<&[Name]>
        ensures { option_copied result ≡ path_in self.now.anchors (path.now ++ rest.now) }
    {
        found(self.anchor(path), rest)
    }

    /// The path of the first anchor directly attached to the path, in byte order, of those above a name if one is
    /// given.
    #[tactic(auto, unfolding(crate::specs::Map::kids))]
    pub fn kid(&self, path: &[Name], after: Option<&Name>) -> Option<&[Name]>
        ensures { option_copied result ≡ option_map (followed_by path.now)
            (find (is_above (option_copied after.entry)) (kids self.now path.now)) }
    {
        first_above(self.kids(path), after)
    }

    /// The anchors directly attached to the path, in byte order.
    #[tactic(auto, using(crate::proofs::Descents::kids_found, crate::proofs::Descents::no_kids_found), unfolding(crate::specs::Map::kids))]
    pub fn kids(&self, path: &[Name]) -> &[Rc<Anchor>]
        ensures { paths_of (shared result.now) ≡ map (followed_by path.now) (kids self.now path.now) }
    {
        self.anchor(path).map_or(&[], |anchor| anchor.kids())
    }
}

impl Anchor {
    /// The anchor that an anchor rule leads to, by the rule's index and the path that it names below this anchor: the
    /// anchor itself where the path has no name. None where no path of the configuration begins so. Of the index no
    /// more depends than how soon the first name is found.
    pub fn below(&self, index: u32, rest: &[Name]) -> Option<&Anchor>
        ensures { option_copied result ≡ tree_at self.now rest.now }
    {
        let [first, names @ ..] = rest else {
            return Some(self);
        };
        descend(self.target(index, first.as_str())?, names)
    }
}

/// The names of the anchor at a path below this one, where it holds something.
fn found<'c>(anchor: Option<&'c Anchor>, rest: &[Name]) -> Option<&'c [Name]>
    ensures { option_copied result ≡
        and_then (and_then (option_copied anchor.entry) (λ t. tree_at t rest.now)) names_held }
{
    let at = descend(anchor?, rest)?;
    if at.is_nothing() {
        None
    } else {
        Some(at.names())
    }
}

/// Whether the anchor's last name is above this one, where one is given.
fn is_above(after: Option<&Name>, kid: &Anchor) -> bool
    ensures { result ≡ is_above (option_copied after.entry) (last_name kid.now.names) }
{
    after.is_none_or(|name| name.as_bytes().cmp(last_name(kid.names())) == Ordering::Less)
}

/// The names of the first of the anchors whose last name is above this one, where one is given.
fn first_above<'c>(kids: &'c [Rc<Anchor>], after: Option<&Name>) -> Option<&'c [Name]>
    ensures { option_copied result ≡ find (λ q. is_above (option_copied after.entry) (last_name q))
        (paths_of (shared kids.now)) }
{
    for kid in kids {
        if is_above(after, kid) {
            return Some(kid.names());
        }
    }
    None
}
