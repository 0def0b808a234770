//! Forms of names.

ghost use Rattle.std.specs.Prelude.{◌≡◌};
ghost use Rattle.std.specs.List.{list_all};
ghost use Rattle.pf_rules.specs.Words.{is_anchor_byte, is_anchor_text, is_interface_text, is_interface_name};
ghost use Rattle.pf_rules.specs.Words.{is_table_byte, is_table_text, is_table_name, begins_with_letter};

use crate::profile::Profile;
use crate::words::is_reserved;

/// How many bytes the name of an interface has at most.
const INTERFACE_NAME_MAX: usize = 15;

/// How many bytes the name of a table has at most.
const TABLE_NAME_MAX: usize = 31;

/// How many bytes the name of an anchor within another has at most.
const ANCHOR_NAME_MAX: usize = 63;

/// Whether the byte may be in the name of a table.
fn is_table_byte(b: u8) -> bool
    ensures { result ≡ is_table_byte b }
{
    b.is_ascii_alphanumeric() || b == b'_' || b == b'-'
}

/// Whether each byte may be in the name of a table.
fn are_table_bytes(text: &[u8]) -> bool
    ensures { result ≡ list_all is_table_byte text.now }
{
    text.iter().all(|b| is_table_byte(*b))
}

/// Whether the byte may be in the name of an anchor or of an interface.
fn is_anchor_byte(b: u8) -> bool
    ensures { result ≡ is_anchor_byte b }
{
    is_table_byte(b) || b == b'.'
}

/// Whether each byte may be in the name of an anchor or of an interface.
fn are_anchor_bytes(text: &[u8]) -> bool
    ensures { result ≡ list_all is_anchor_byte text.now }
{
    text.iter().all(|b| is_anchor_byte(*b))
}

/// Whether a letter is at the front.
fn begins_with_letter(text: &[u8]) -> bool
    ensures { result ≡ begins_with_letter text.now }
{
    match text {
        [first, ..] => first.is_ascii_alphabetic(),
        [] => false,
    }
}

/// Whether the text has the form of an interface's name: a letter and up to 14 letters, digits, `_`, `-` and `.`.
#[tactic(auto, unfolding(crate::specs::Words::is_interface_text))]
pub fn is_interface_text(text: &[u8]) -> bool
    ensures { result ≡ is_interface_text text.now }
{
    begins_with_letter(text) && text.len() <= INTERFACE_NAME_MAX && are_anchor_bytes(text)
}

/// Whether the text may name an interface: it has the form, and the profile doesn't keep it for itself.
#[tactic(auto, unfolding(crate::specs::Words::is_interface_name))]
pub fn is_interface_name(profile: Profile, text: &[u8]) -> bool
    ensures { result ≡ is_interface_name profile text.now }
{
    is_interface_text(text) && !is_reserved(profile, text)
}

/// Whether the text has the form of a table's name: 1 to 31 letters, digits, `_` and `-`.
#[tactic(auto, unfolding(crate::specs::Words::is_table_text))]
pub fn is_table_text(text: &[u8]) -> bool
    ensures { result ≡ is_table_text text.now }
{
    !text.is_empty() && text.len() <= TABLE_NAME_MAX && are_table_bytes(text)
}

/// Whether the text may name a table: it has the form, and the profile doesn't keep it for itself.
#[tactic(auto, unfolding(crate::specs::Words::is_table_name))]
pub fn is_table_name(profile: Profile, text: &[u8]) -> bool
    ensures { result ≡ is_table_name profile text.now }
{
    is_table_text(text) && !is_reserved(profile, text)
}

/// Whether the text may name an anchor within another: 1 to 63 letters, digits, `_`, `-` and `.`, but not `.` and `..`.
#[tactic(auto, unfolding(crate::specs::Words::is_anchor_text))]
pub fn is_anchor_text(text: &[u8]) -> bool
    ensures { result ≡ is_anchor_text text.now }
{
    !text.is_empty()
        && text.len() <= ANCHOR_NAME_MAX
        && are_anchor_bytes(text)
        && text != b".".as_slice()
        && text != b"..".as_slice()
}
