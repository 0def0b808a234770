//! The entry of some bytes.

ghost use Rattle.std.specs.Prelude.{◌≡◌, ◌++◌, ℕ, List, [], IfOk, IsOkAnd, Some, option_map};
ghost use Rattle.std.specs.Result.{result_ok};
ghost use Rattle.pf_entry.specs.Entry.{Entry, Fits, EntryBytes, spelling};
ghost use Rattle.pf_entry.specs.Reading.{reading};
ghost use Rattle.pf_entry.specs.Seen.{entry_of};

use crate::fault::BadEntry;
use crate::reading::entry_in;
use crate::view::EntryView;

/// The entry that all of the bytes spell, or `BadEntry` where they spell none. Allocates nothing: the view borrows from
/// the bytes.
pub fn decode(bytes: &[u8]) -> Result<EntryView<'_>, BadEntry>
    // What is answered is what the bytes spell.
    ensures found { IfOk result (λ v. EntryBytes (entry_of v) bytes.now) }
    // What the bytes spell is answered.
    ensures only { (e : Entry) → EntryBytes e bytes.now → IsOkAnd result (λ v. entry_of v ≡ e) }
    // The same as a function of the bytes.
    ensures exact { option_map entry_of (result_ok result) ≡ reading bytes.now }
{
    decode_exact(bytes)
}

fn decode_exact(bytes: &[u8]) -> Result<EntryView<'_>, BadEntry>
    ensures { option_map entry_of (result_ok result) ≡ reading bytes.now }
{
    match entry_in(bytes) {
        Some(entry) => Ok(entry),
        None => Err(BadEntry),
    }
}

/// What is spelled is read as itself.
pub fn what_is_spelled_is_read()
    ensures { (e : Entry) → Fits e → reading (spelling e) ≡ Some e }
{}

/// No two entries have one spelling, and no spelling is a proper front of another.
pub fn no_spelling_begins_another()
    ensures { (e f : Entry) (bytes more : List ℕ) →
        EntryBytes e bytes → EntryBytes f (bytes ++ more) → (more ≡ []) × (e ≡ f) }
{}
