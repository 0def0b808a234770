//! Names of tables.

ghost use Rattle.std.specs.Prelude.{◌≡◌, IfOk, true, string_bytes};
ghost use Rattle.pf_rules.specs.declared.profile.Profile.TheVariants.{One};
ghost use Rattle.pf_rules.specs.Words.{is_table_name};
ghost use Rattle.std.specs.Str.{bytes_eq};
ghost use Rattle.pf_rules.specs.Names.{name_if, is_before};

use crate::names::is_table_name;
use crate::profile::Profile;
use crate::text::ascii_text;
use std::alloc::{AllocError, Global};
use std::cmp::Ordering;
use std::marker::Model;

/// The name of a table: 1 to 31 letters, digits, `_` and `-`, but no word that both profiles reserve (pf.conf(5),
/// TABLES). It is seen as its bytes.
pub struct TableName {
    text: String,
    ghost form: { is_table_name One (string_bytes text) ≡ true },
}

impl Drop for TableName {
    fn drop(self) {
        let TableName { text: _ } = self;
    }
}

impl Model for TableName {
    ghost use Rattle.std.specs.Prelude.{List, ℕ, string_bytes};

    ghost Value = { List ℕ };

    ghost view = { λ n. string_bytes n.text };
}

impl PartialEq for TableName {
    ghost use Rattle.std.specs.Str.{bytes_eq};
    ghost use Rattle.std.proofs.lemmas.Cmp.{nat_list_eq_equiv};
    ghost use Rattle.std.specs.Cmp.{partial_equiv_from_equiv};

    ghost eq = { λ a b. bytes_eq a b };

    ghost laws = { partial_equiv_from_equiv nat_list_eq_equiv };

    fn eq(&self, other: &TableName) -> bool {
        self.as_bytes() == other.as_bytes()
    }
}

impl Eq for TableName {
    ghost use Rattle.std.proofs.lemmas.Cmp.{nat_list_eq_equiv};

    ghost laws = { nat_list_eq_equiv };
}

impl TableName {
    /// The name that the bytes are, none where they have another form. A growth that is refused is the error.
    #[tactic(auto, using(crate::proofs::Ascii::table_name_ascii))]
    pub fn new(alloc: Global, bytes: &[u8]) -> Result<Option<TableName>, AllocError>
        ensures { IfOk result (λ name. name ≡ name_if (is_table_name One) bytes.now) }
    {
        if !is_table_name(Profile::One, bytes) {
            return Ok(None);
        }
        let text = ascii_text(alloc, bytes)?;
        Ok(Some(TableName { text }))
    }

    /// Its bytes.
    pub fn as_bytes(&self) -> &[u8]
        ensures bytes { result.now ≡ self.now }
        ensures form { is_table_name One self.now ≡ true }
    {
        self.text.as_bytes()
    }

    /// The name as text.
    pub fn as_str(&self) -> &str
        ensures { result.now ≡ self.now }
    {
        self.text.as_str()
    }

    /// Whether this is the text.
    pub fn is_text(&self, text: &str) -> bool
        ensures { result ≡ bytes_eq self.now text.now }
    {
        self.as_bytes() == text.as_bytes()
    }

    /// Whether it comes before the other, byte by byte.
    pub fn is_before(&self, other: &TableName) -> bool
        ensures { result ≡ is_before self.now other.now }
    {
        self.as_bytes().cmp(other.as_bytes()) == Ordering::Less
    }

    /// The same name once more. A growth that is refused is the error.
    pub fn copied(&self, alloc: Global) -> Result<TableName, AllocError>
        ensures { IfOk result (λ name. name ≡ self.now) }
    {
        let text = String::from_str(alloc, self.text.as_str())?;
        Ok(TableName { text })
    }
}
