//! One entry is added or removed in place: wholly, or not at all.

ghost use Rattle.std.specs.Prelude.{◌≡◌, true, is_ok, if◌then◌else◌, IfOk, IfSome, slice_get};
ghost use Rattle.pf_addr.specs.Blocks.{IsBlock};
ghost use Rattle.pf_tables.specs.declared.edits.Edit.TheVariants.{Insert, Remove};
ghost use Rattle.pf_tables.specs.Tables.{is_of, is_v6, bool_eq};
ghost use Rattle.pf_tables.specs.Contents.{edited};
ghost use Rattle.pf_tables.specs.Parts.{joined, AreParts};
ghost use Rattle.pf_tables.specs.inner.Parts.{IsPart, IsPlace, HasMoved, edited_if};

use crate::Made;
use crate::keys::{bits_of, insert_at, remove_at};
use crate::part::Part;
use crate::parted::{is_key, is_v6};
use pf_rules::TableEntry;
use std::rc::Rc;

/// A change of one entry of a table.
#[derive(Clone, Copy)]
pub enum Edit {
    /// The entry is added, unless its prefix is in the table.
    Insert,
    /// The entry is removed, if it is in the table with its sign.
    Remove,
}

/// Adds an entry to the part of its family and length, unless its prefix is there.
fn put(part: &mut Part, entry: &TableEntry) -> Made<()>
    requires part { IsPart part.old }
    requires own { is_of part.old.v6 part.old.len entry.now ≡ true }
    ensures family { part.new.v6 ≡ part.old.v6 }
    ensures len { part.new.len ≡ part.old.len }
    ensures entries { part.new.entries.items ≡ (if is_ok result then edited Insert entry.now part.old.entries.items
        else part.old.entries.items) }
{
    match part.keys.binary_search(&bits_of(entry.prefix.base())) {
        Ok(_) => Ok(()),
        Err(at) => insert_at(
            &mut part.entries,
            &mut part.keys,
            &mut part.filter,
            at,
            entry,
        ),
    }
}

/// Whether the entry at that index has the sign.
fn has_sign(entries: &[TableEntry], at: usize, negated: bool) -> bool
    ensures { IfSome (slice_get entries.now at) (λ e. result ≡ bool_eq e.negated negated) }
{
    match entries.get(at) {
        Some(entry) => entry.negated == negated,
        None => false,
    }
}

/// Removes an entry from the part of its family and length, if it is there with its sign.
fn take(part: &mut Part, entry: &TableEntry)
    requires part { IsPart part.old }
    requires own { is_of part.old.v6 part.old.len entry.now ≡ true }
    ensures family { part.new.v6 ≡ part.old.v6 }
    ensures len { part.new.len ≡ part.old.len }
    ensures entries { part.new.entries.items ≡ edited Remove entry.now part.old.entries.items }
{
    match part.keys.binary_search(&bits_of(entry.prefix.base())) {
        Ok(at) => {
            if has_sign(&part.entries, at, entry.negated) {
                remove_at(&mut part.entries, &mut part.keys, at);
            }
        }
        Err(_) => {}
    }
}

/// Edits the part of the entry's family and length.
fn edit_part(part: &mut Part, entry: &TableEntry, edit: Edit) -> Made<()>
    requires part { IsPart part.old }
    requires own { is_of part.old.v6 part.old.len entry.now ≡ true }
    ensures family { part.new.v6 ≡ part.old.v6 }
    ensures len { part.new.len ≡ part.old.len }
    ensures entries { part.new.entries.items ≡ (if is_ok result then edited edit entry.now part.old.entries.items
        else part.old.entries.items) }
{
    match edit {
        Edit::Insert => put(part, entry),
        Edit::Remove => {
            take(part, entry);
            Ok(())
        }
    }
}

#[tactic(auto, using(crate::proofs::OneEdit::place_here))]
/// The index of the part of that family and length, if there are entries in it.
fn place_of(parts: &[Part], v6: bool, len: u8) -> Option<usize>
    ensures { IfSome result (λ at. IsPlace parts.now at v6 len) }
{
    let mut at = 0usize;
    for part in parts {
        if is_key(part, v6, len) && !part.entries.is_empty() {
            return Some(at);
        }
        at += 1;
    }
    None
}

/// Edits the part with that index, and returns how many entries it had and has.
fn edit_at(parts: &mut Vec<Part>, at: usize, entry: &TableEntry, edit: Edit) -> Made<(usize, usize)>
    requires parts { AreParts parts.old.items }
    requires place { IsPlace parts.old.items at (is_v6 entry.now.prefix.base) entry.now.prefix.len }
    requires block { IsBlock entry.now.prefix.base entry.now.prefix.len }
    ensures parts { AreParts parts.new.items }
    ensures entries { joined parts.new.items ≡ (if is_ok result then edited edit entry.now (joined parts.old.items)
        else joined parts.old.items) }
    ensures counts { IfOk result (λ n. HasMoved n.0 n.1 (joined parts.old.items) (joined parts.new.items)) }
{
    let part = &mut parts[at];
    let before = part.entries.len();
    edit_part(part, entry, edit)?;
    let after = part.entries.len();
    Ok((before, after))
}

/// Edits the part of the entry's family and length, and returns how many entries it had and has. None, and nothing is
/// changed, where it has no entries, or the parts are shared.
pub(crate) fn edit_in_place(
    parts: &mut Rc<Vec<Part>>,
    entry: &TableEntry,
    edit: Edit,
) -> Made<Option<(usize, usize)>>
    requires { AreParts parts.old.value.items }
    ensures parts { AreParts parts.new.value.items }
    ensures entries { joined parts.new.value.items ≡ edited_if result edit entry.now (joined parts.old.value.items) }
    ensures counts { IfOk result (λ o. IfSome o (λ n. HasMoved n.0 n.1 (joined parts.old.value.items)
        (joined parts.new.value.items))) }
{
    let v6 = is_v6(entry.prefix.base());
    let Some(at) = place_of(parts, v6, entry.prefix.len()) else {
        return Ok(None);
    };
    let Some(own) = Rc::get_mut(parts) else {
        return Ok(None);
    };
    let counts = edit_at(own, at, entry, edit)?;
    Ok(Some(counts))
}
