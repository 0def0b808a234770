//! Paths: lists of names.

ghost use Rattle.std.specs.Prelude.{◌≡◌, ◌++◌, ◌∷◌, [], IfOk};

use crate::Made;
use pf_rules::Name;
use std::alloc::{AllocError, Global};

/// The names once more.
pub fn copied_path(alloc: Global, path: &[Name]) -> Result<Vec<Name>, AllocError>
    ensures { IfOk result (λ v. v.items ≡ path.now) }
{
    let mut names = Vec::new(alloc);
    for name in path {
        names.push(name.copied(alloc)?)?;
    }
    Ok(names)
}

/// The names, and one name more.
pub(crate) fn followed_by(alloc: Global, path: &[Name], name: &Name) -> Made<Vec<Name>>
    ensures { IfOk result (λ v. v.items ≡ path.now ++ name.now ∷ []) }
{
    let mut names = copied_path(alloc, path)?;
    names.push(name.copied(alloc)?)?;
    Ok(names)
}

/// The names, and more names behind them.
pub fn joined(alloc: Global, path: &[Name], more: &[Name]) -> Result<Vec<Name>, AllocError>
    ensures { IfOk result (λ v. v.items ≡ path.now ++ more.now) }
{
    let mut names = copied_path(alloc, path)?;
    for name in more {
        names.push(name.copied(alloc)?)?;
    }
    Ok(names)
}
