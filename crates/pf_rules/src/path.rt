//! Paths of anchors.

ghost use Rattle.std.specs.Prelude.{◌≡◌, ◌≤◌, [], length, true};
ghost use Rattle.std.specs.List.{list_all};
ghost use Rattle.pf_rules.specs.Names.{is_path_name, path_if};

use crate::name::Name;
use std::alloc::Global;
use std::marker::Model;

/// How many names a path has at most.
pub const PATH_MAX: usize = 8;

/// The path of an anchor that commands may name: the names of the anchors that lead to it, 8 at most, none of an
/// unnamed block. The main ruleset's path has no name (pf.conf(5), ANCHORS).
pub struct Path {
    names: Vec<Name>,
    ghost few: { length names.items ≤ 8 },
    ghost named: { list_all is_path_name names.items ≡ true },
}

impl Drop for Path {
    fn drop(self) {
        let Path { names: _ } = self;
    }
}

impl Model for Path {
    ghost use Rattle.std.specs.Prelude.{List, ℕ};

    ghost Value = { List (List ℕ) };

    ghost view = { λ p. p.names.items };
}

/// Whether commands may name it in a path: it isn't an unnamed block's.
fn is_path_name(name: &Name) -> bool
    ensures { result ≡ is_path_name name.now }
{
    let _form = name.as_bytes();
    !name.is_unnamed()
}

/// Whether commands may name each.
fn are_path_names(names: &[Name]) -> bool
    ensures { result ≡ list_all is_path_name names.now }
{
    names.iter().all(is_path_name)
}

impl Path {
    /// The path of the main ruleset.
    pub fn main(alloc: Global) -> Path
        ensures { result ≡ [] }
    {
        Path {
            names: Vec::new(alloc),
        }
    }

    /// The path of these names; none where there are more than 8, or one is an unnamed block's.
    pub fn new(names: Vec<Name>) -> Option<Path>
        ensures { result ≡ path_if names.items }
    {
        if names.len() > PATH_MAX || !are_path_names(&names) {
            return None;
        }
        Some(Path { names })
    }

    /// Its names.
    pub fn names(&self) -> &[Name]
        ensures names { result.now ≡ self.now }
        ensures few { length self.now ≤ 8 }
        ensures named { list_all is_path_name self.now ≡ true }
    {
        &self.names
    }
}
