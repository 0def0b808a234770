//! Numbers for paths, so that paths are compared as numbers.

ghost use Rattle.pf_expansion.specs.inner.Numbers.{AreApart, AreWithin};

use crate::cause::Made;
use pf_rules::Name;
use std::alloc::{AllocError, Global};
use std::collections::BTreeMap;

/// Numbers for paths: the empty path has 0, and each step from a numbered path to a name behind it one of its own.
#[derive(Drop)]
pub(crate) struct Numbers {
    pub(crate) alloc: Global,
    pub(crate) steps: BTreeMap<(usize, Vec<u8>), usize>,
    /// The numbers of the paths of blocks, in the order in which the blocks came.
    pub(crate) found: Vec<usize>,
    ghost within: { AreWithin steps },
    ghost apart: { AreApart steps },
}

impl Numbers {
    ghost use Rattle.std.specs.Prelude.{◌≡◌, IfOk, OnOk, Some, None, []};
    ghost use Rattle.pf_expansion.specs.inner.Numbers.{Grows, step_from, walk};

    /// None but the empty path's.
    pub(crate) fn new(alloc: Global) -> Numbers
        ensures { result.found.items ≡ [] }
    {
        Numbers {
            alloc,
            steps: BTreeMap::new(alloc),
            found: Vec::new(alloc),
        }
    }

    /// The number behind the path of this number by the name, if it has one.
    fn next(&self, from: usize, name: &Name) -> Result<Option<usize>, AllocError>
        ensures { IfOk result (λ at. at ≡ step_from self.now.steps from name.now) }
    {
        let key = (from, name.as_bytes().to_vec(self.alloc)?);
        Ok(self.steps.get(&key).copied())
    }

    /// The number behind the path of this number by the name, which is given one unless it has one.
    fn push(&mut self, from: usize, name: &Name) -> Result<usize, AllocError>
        ensures grows { OnOk result (Grows self.old.steps self.new.steps) }
        ensures found { IfOk result (λ at. step_from self.new.steps from name.now ≡ Some at) }
        ensures kept { self.new.found ≡ self.old.found }
    {
        if let Some(at) = self.next(from, name)? {
            return Ok(at);
        }
        let key = (from, name.as_bytes().to_vec(self.alloc)?);
        let at = self.steps.len() + 1;
        match self.steps.insert(key, at) {
            Ok(_) => Ok(at),
            Err(_) => Err(AllocError),
        }
    }

    /// The number behind the path of this number by the names, if it has one.
    pub(crate) fn walk(&self, from: usize, names: &[Name]) -> Made<Option<usize>>
        ensures { IfOk result (λ at. at ≡ walk self.now.steps (Some from) names.now) }
    {
        let mut at = from;
        for name in names {
            match self.next(at, name)? {
                Some(next) => at = next,
                None => return Ok(None),
            }
        }
        Ok(Some(at))
    }

    /// The number behind the path of this number by the names, which are given numbers unless they have them.
    pub(crate) fn push_walk(&mut self, from: usize, names: &[Name]) -> Made<usize>
        ensures grows { OnOk result (Grows self.old.steps self.new.steps) }
        ensures found { IfOk result (λ at. walk self.new.steps (Some from) names.now ≡ Some at) }
        ensures kept { self.new.found ≡ self.old.found }
    {
        let mut at = from;
        for name in names {
            at = self.push(at, name)?;
        }
        Ok(at)
    }
}
