//! Names of anchors.

ghost use Rattle.std.specs.Prelude.{◌≡◌, IfOk, true, string_bytes};
ghost use Rattle.pf_rules.specs.Words.{is_anchor_text};
ghost use Rattle.pf_rules.specs.Names.{name_if, is_before, begins_below};

use crate::names::is_anchor_text;
use crate::text::ascii_text;
use std::alloc::{AllocError, Global};
use std::cmp::Ordering;
use std::marker::Model;

/// The name of an anchor within another: 1 to 63 letters, digits, `_`, `-` and `.`, but not `.` and `..` (pf.conf(5),
/// ANCHORS). It is seen as its bytes.
pub struct Name {
    text: String,
    ghost form: { is_anchor_text (string_bytes text) ≡ true },
}

impl Drop for Name {
    fn drop(self) {
        let Name { text: _ } = self;
    }
}

impl Model for Name {
    ghost use Rattle.std.specs.Prelude.{List, ℕ, string_bytes};

    ghost Value = { List ℕ };

    ghost view = { λ n. string_bytes n.text };
}

impl PartialEq for Name {
    ghost use Rattle.std.specs.Str.{bytes_eq};
    ghost use Rattle.std.proofs.lemmas.Cmp.{nat_list_eq_equiv};
    ghost use Rattle.std.specs.Cmp.{partial_equiv_from_equiv};

    ghost eq = { λ a b. bytes_eq a b };

    ghost laws = { partial_equiv_from_equiv nat_list_eq_equiv };

    fn eq(&self, other: &Name) -> bool {
        self.as_bytes() == other.as_bytes()
    }
}

impl Eq for Name {
    ghost use Rattle.std.proofs.lemmas.Cmp.{nat_list_eq_equiv};

    ghost laws = { nat_list_eq_equiv };
}

impl Name {
    /// The name that the bytes are, none where they have another form. A growth that is refused is the error.
    #[tactic(auto, using(crate::proofs::Ascii::anchor_text_ascii))]
    pub fn new(alloc: Global, bytes: &[u8]) -> Result<Option<Name>, AllocError>
        ensures { IfOk result (λ name. name ≡ name_if is_anchor_text bytes.now) }
    {
        if !is_anchor_text(bytes) {
            return Ok(None);
        }
        let text = ascii_text(alloc, bytes)?;
        Ok(Some(Name { text }))
    }

    /// Its bytes.
    pub fn as_bytes(&self) -> &[u8]
        ensures bytes { result.now ≡ self.now }
        ensures form { is_anchor_text self.now ≡ true }
    {
        self.text.as_bytes()
    }

    /// The name as text.
    pub fn as_str(&self) -> &str
        ensures { result.now ≡ self.now }
    {
        self.text.as_str()
    }

    /// Whether it comes before the other, byte by byte.
    pub fn is_before(&self, other: &Name) -> bool
        ensures { result ≡ is_before self.now other.now }
    {
        self.as_bytes().cmp(other.as_bytes()) == Ordering::Less
    }

    /// Whether it is an unnamed block's: such a name begins with `_`.
    pub fn is_unnamed(&self) -> bool
        ensures { result ≡ begins_below self.now }
    {
        match self.as_bytes() {
            [first, ..] => *first == b'_',
            [] => false,
        }
    }

    /// The same name once more. A growth that is refused is the error.
    pub fn copied(&self, alloc: Global) -> Result<Name, AllocError>
        ensures { IfOk result (λ name. name ≡ self.now) }
    {
        let text = String::from_str(alloc, self.text.as_str())?;
        Ok(Name { text })
    }
}
