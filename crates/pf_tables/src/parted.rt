//! A table's entries cut into parts, one for each family and length.

ghost use Rattle.std.specs.Prelude.{◌≡◌, ◌==◌, ◌&&◌, IfOk, take};
ghost use Rattle.std.specs.List.{prefix_len};
ghost use Rattle.pf_addr.specs.Blocks.{IsBlock};
ghost use Rattle.pf_tables.specs.Tables.{is_of, is_v6, bool_eq};
ghost use Rattle.pf_tables.specs.Parts.{joined, IsOrdered, AreBlocks, AreParts};

use crate::Made;
use crate::bloom::BloomFilter;
use crate::keys::keys_of;
use crate::part::Part;
use pf_addr::Addr;
use pf_rules::TableEntry;
use std::alloc::Global;

/// Whether the address is of the second family.
pub(crate) fn is_v6(addr: Addr) -> bool
    ensures { result ≡ is_v6 addr }
{
    match addr {
        Addr::V4(_) => false,
        Addr::V6(_) => true,
    }
}

/// Whether the part is of that family and length.
pub(crate) fn is_key(part: &Part, v6: bool, len: u8) -> bool
    ensures { result ≡ (bool_eq part.now.v6 v6 && (part.now.len == len)) }
{
    part.v6 == v6 && part.len == len
}

/// Whether the entry is of that family and length.
fn is_of(entry: &TableEntry, v6: bool, len: u8) -> bool
    ensures value { result ≡ is_of v6 len entry.now }
    ensures block { IsBlock entry.now.prefix.base entry.now.prefix.len }
{
    let base = entry.prefix.base();
    v6 == is_v6(base) && entry.prefix.len() == len
}

/// How many entries at the front are of that family and length.
fn front_len(entries: &[TableEntry], v6: bool, len: u8) -> usize
    ensures value { result ≡ prefix_len (is_of v6 len) entries.now }
    ensures blocks { AreBlocks (take result entries.now) }
{
    let mut count = 0usize;
    for entry in entries {
        if !is_of(entry, v6, len) {
            return count;
        }
        count += 1;
    }
    count
}

/// The part with these entries.
fn part_with(alloc: Global, v6: bool, len: u8, entries: &[TableEntry]) -> Made<Part>
    ensures family { IfOk result (λ p. p.v6 ≡ v6) }
    ensures len { IfOk result (λ p. p.len ≡ len) }
    ensures entries { IfOk result (λ p. p.entries.items ≡ entries.now) }
{
    let own = Vec::from_slice(alloc, entries)?;
    let keys = keys_of(alloc, &own)?;
    let filter = BloomFilter::of(alloc, &keys)?;
    Ok(Part {
        v6,
        len,
        entries: own,
        keys,
        filter,
    })
}

/// The entries, which are in order, apart by family and length.
pub(crate) fn parted(alloc: Global, entries: &[TableEntry]) -> Made<Vec<Part>>
    requires { IsOrdered entries.now }
    ensures value { IfOk result (λ ps. joined ps.items ≡ entries.now) }
    ensures parts { IfOk result (λ ps. AreParts ps.items) }
{
    let mut parts = Vec::new(alloc);
    let mut rest = entries;
    while let [first, ..] = rest {
        let v6 = is_v6(first.prefix.base());
        let len = first.prefix.len();
        let (front, back) = rest.split_at(front_len(rest, v6, len));
        parts.push(part_with(alloc, v6, len, front)?)?;
        rest = back;
    }
    Ok(parts)
}

/// The entries of all parts.
pub(crate) fn gathered(alloc: Global, parts: &[Part]) -> Made<Vec<TableEntry>>
    ensures { IfOk result (λ v. v.items ≡ joined parts.now) }
{
    let mut entries = Vec::new(alloc);
    for part in parts {
        entries.extend_from_slice(&part.entries)?;
    }
    Ok(entries)
}
