//! Macros.

ghost use Rattle.std.specs.Prelude.{◌≡◌, map};
ghost use Rattle.pf_tokens.specs.Defined.{definition_of};
ghost use Rattle.pf_tokens.specs.inner.Indexed.{IsIndex, IsWithin};

use crate::macro_text::Macro;
use std::alloc::{AllocError, Global};
use std::collections::BTreeMap;

/// The macros that are known, in the order of their definitions.
pub struct Macros {
    all: Vec<Macro>,
    /// The place of the last definition of each name.
    last: BTreeMap<Vec<u8>, usize>,
    ghost found: { IsIndex (map definition_of all.items) last },
    ghost within: { IsWithin (map definition_of all.items) last },
}

impl Drop for Macros {
    fn drop(self) {
        let Macros { all: _, last: _ } = self;
    }
}

impl Macros {
    ghost use Rattle.std.specs.Prelude.{◌≡◌, ◌++◌, ◌∷◌, [], OnOk};
    ghost use Rattle.std.specs.Option.{option_copied};
    ghost use Rattle.pf_tokens.specs.Macros.{text_of};
    ghost use Rattle.pf_tokens.specs.inner.Indexed.{HasTokensOf};
    ghost use Rattle.pf_tokens.specs.Defined.{definition_of};
    ghost use Rattle.pf_tokens.specs.Known.{definitions_of};

    /// None.
    pub fn new(alloc: Global) -> Macros
        ensures { definitions_of result ≡ [] }
    {
        Macros {
            all: Vec::new(alloc),
            last: BTreeMap::new(alloc),
        }
    }

    /// With one definition more. An error is out of memory.
    pub fn push(&mut self, alloc: Global, made: Macro) -> Result<(), AllocError>
        ensures { OnOk result (definitions_of self.new ≡ definitions_of self.old ++ definition_of made ∷ []) }
    {
        let name = made.name.to_vec(alloc)?;
        let at = self.all.len();
        self.all.push(made)?;
        match self.last.insert(name, at) {
            Ok(_) => Ok(()),
            Err(_) => {
                self.all.pop();
                Err(AllocError)
            }
        }
    }

    /// The text of the last macro of that name.
    pub(crate) fn text_of(&self, name: &[u8]) -> Option<&[u8]>
        ensures { option_copied result ≡ text_of (definitions_of self.now) name.now }
    {
        Some(self.all.get(*self.last.get(name)?)?.text.as_slice())
    }

    /// A value with the tokens of the last macro of that name, with no byte where there is none of them.
    pub(crate) fn tokens_of(&self, name: &[u8]) -> Option<&[u8]>
        ensures { HasTokensOf (option_copied result) (text_of (definitions_of self.now) name.now) }
    {
        let one = self.all.get(*self.last.get(name)?)?;
        if one.is_blank() {
            Some(&[])
        } else {
            Some(one.text.as_slice())
        }
    }
}
