//! Names of interfaces.

ghost use Rattle.std.specs.Prelude.{◌≡◌, ◌≤◌, take, true};
ghost use Rattle.pf_rules.specs.Words.{is_interface_text};
ghost use Rattle.pf_rules.specs.Names.{name_if};

use crate::names::is_interface_text;
use std::marker::Model;

/// The name of an interface or of a group of them: a letter, and up to 14 letters, digits, `_`, `-` and `.`
/// (pf.conf(5), `on`). It is seen as its bytes, which are in it: nothing is allocated for it.
pub struct InterfaceName {
    bytes: [u8; 15],
    len: u8,
    ghost fits: { len ≤ 15 },
    ghost form: { is_interface_text (take len bytes) ≡ true },
}

impl Drop for InterfaceName {
    fn drop(self) {
        let InterfaceName { bytes: _, len: _ } = self;
    }
}

impl Model for InterfaceName {
    ghost use Rattle.std.specs.Prelude.{List, ℕ, take};

    ghost Value = { List ℕ };

    ghost view = { λ n. take n.len n.bytes };
}

impl PartialEq for InterfaceName {
    ghost use Rattle.std.specs.Str.{bytes_eq};
    ghost use Rattle.std.proofs.lemmas.Cmp.{nat_list_eq_equiv};
    ghost use Rattle.std.specs.Cmp.{partial_equiv_from_equiv};

    ghost eq = { λ a b. bytes_eq a b };

    ghost laws = { partial_equiv_from_equiv nat_list_eq_equiv };

    fn eq(&self, other: &InterfaceName) -> bool {
        self.as_bytes() == other.as_bytes()
    }
}

impl Eq for InterfaceName {
    ghost use Rattle.std.proofs.lemmas.Cmp.{nat_list_eq_equiv};

    ghost laws = { nat_list_eq_equiv };
}

impl InterfaceName {
    /// The name that the bytes are, none where they have another form.
    #[tactic(auto, using(crate::proofs::Texts::interface_text_short))]
    pub fn new(bytes: &[u8]) -> Option<InterfaceName>
        ensures { result ≡ name_if is_interface_text bytes.now }
    {
        if !is_interface_text(bytes) {
            return None;
        }
        let mut own = [0u8; 15];
        own[..bytes.len()].copy_from_slice(bytes);
        Some(InterfaceName {
            bytes: own,
            len: bytes.len() as u8,
        })
    }

    /// Its bytes.
    pub fn as_bytes(&self) -> &[u8]
        ensures bytes { result.now ≡ self.now }
        ensures form { is_interface_text self.now ≡ true }
    {
        &self.bytes[..self.len as usize]
    }

    /// The name as text.
    #[tactic(auto, using(crate::proofs::Texts::interface_text_utf8))]
    pub fn as_str(&self) -> &str
        ensures { result.now ≡ self.now }
    {
        match str::from_utf8(self.as_bytes()) {
            Ok(text) => text,
            Err(_) => "",
        }
    }

    /// The same name once more.
    pub fn copied(&self) -> InterfaceName
        ensures { result ≡ self.now }
    {
        InterfaceName {
            bytes: self.bytes,
            len: self.len,
        }
    }
}
