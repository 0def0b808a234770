//! The interfaces that are skipped.

ghost use Rattle.std.specs.Prelude.{◌≡◌, [], IfOk};
ghost use Rattle.pf_config.specs.SkippedNames.{is_listed};
ghost use Rattle.pf_config.specs.inner.RisingNames.{AreRising};

use crate::Made;
use pf_rules::InterfaceName;
use std::alloc::Global;
use std::cmp::Ordering;
use std::marker::Model;

/// Names of interfaces as a ruleset lists them, of which one is found in the logarithm of their number: they are kept a
/// second time in byte order, where one is found by binary search.
#[derive(Drop)]
pub(crate) struct Skipped {
    names: Vec<InterfaceName>,
    rising: Vec<InterfaceName>,
}

impl Model for Skipped {
    ghost use Rattle.std.specs.Prelude.{List};
    ghost use Rattle.pf_rules.specs.Names.{Name};
    ghost use Rattle.pf_config.specs.inner.RisingNames.{IsIndex};

    ghost Value = { List Name };

    ghost view = { λ s. s.names.items };

    ghost invariant = { λ s. IsIndex s.rising.items s.names.items };
}

impl Skipped {
    /// None.
    #[tactic(auto, using(crate::proofs::SkippedNames::index_none))]
    pub(crate) fn new(alloc: Global) -> Skipped
        ensures { result ≡ [] }
    {
        Skipped {
            names: Vec::new(alloc),
            rising: Vec::new(alloc),
        }
    }

    /// These names.
    pub(crate) fn of(alloc: Global, names: Vec<InterfaceName>) -> Made<Skipped>
        ensures { IfOk result (λ s. s ≡ names.items) }
    {
        let mut rising = copied_names(alloc, &names)?;
        rising.sort_unstable_by(|a, b| a.as_bytes().cmp(b.as_bytes()));
        Ok(Skipped { names, rising })
    }

    /// The names.
    pub(crate) fn names(&self) -> &[InterfaceName]
        ensures { result.now ≡ self.now }
    {
        &self.names
    }

    /// Whether the name is among them.
    pub(crate) fn contains(&self, name: &[u8]) -> bool
        ensures { result ≡ is_listed name.now self.now }
    {
        is_among(&self.rising, name)
    }
}

/// The names once more, without room for others.
fn copied_names(alloc: Global, names: &[InterfaceName]) -> Made<Vec<InterfaceName>>
    ensures { IfOk result (λ v. v.items ≡ names.now) }
{
    let mut next = Vec::with_capacity(alloc, names.len())?;
    for name in names {
        next.push(name.copied())?;
    }
    Ok(next)
}

/// Whether the name is among these in byte order, where it is looked for by halves.
fn is_among(names: &[InterfaceName], name: &[u8]) -> bool
    requires { AreRising names.now }
    ensures { result ≡ is_listed name.now names.now }
{
    let mut left = names;
    while !left.is_empty() {
        let (front, back) = left.split_at(left.len() / 2);
        let [middle, behind @ ..] = back else {
            return false;
        };
        match middle.as_bytes().cmp(name) {
            Ordering::Equal => return true,
            Ordering::Less => left = behind,
            Ordering::Greater => left = front,
        }
    }
    false
}
