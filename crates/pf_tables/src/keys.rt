//! Entries of one family and length are searched by the numbers of their first addresses.

ghost use Rattle.std.specs.Prelude.{◌≡◌, ◌≤◌, ◌<◌, IfOk, map, length, is_ok, if◌then◌else◌};
ghost use Rattle.std.specs.List.{insert, remove};
ghost use Rattle.pf_addr.specs.Order.{bits_of};
ghost use Rattle.pf_tables.specs.inner.Keys.{key_of};
ghost use Rattle.pf_tables.specs.inner.Bloom.{MayContainAll};
ghost use Rattle.pf_tables.specs.declared.bloom.BloomFilter.{BloomFilter};

use crate::Made;
use crate::bloom::BloomFilter;
use pf_addr::Addr;
use pf_rules::TableEntry;
use std::alloc::{AllocError, Global};

/// The address as a number.
#[inline]
pub(crate) fn bits_of(addr: Addr) -> u128
    ensures { result ≡ bits_of addr }
{
    match addr {
        Addr::V4(bits) => u128::from(bits),
        Addr::V6(bits) => bits,
    }
}

/// The number of each entry's first address.
pub(crate) fn keys_of(alloc: Global, entries: &[TableEntry]) -> Made<Vec<u128>>
    ensures { IfOk result (λ v. v.items ≡ map key_of entries.now) }
{
    let mut keys = Vec::new(alloc);
    for entry in entries {
        keys.push(bits_of(entry.prefix.base()))?;
    }
    Ok(keys)
}

#[tactic(auto, using(crate::proofs::OneEdit::undone, crate::proofs::OneEdit::keys_insert, crate::proofs::OneEdit::keys_long, crate::proofs::Filtering::all_insert, crate::proofs::Filtering::all_kept))]
/// Inserts an entry and its number at an index, and the number into the filter. An error leaves both lists as they
/// were.
pub(crate) fn insert_at(
    entries: &mut Vec<TableEntry>,
    keys: &mut Vec<u128>,
    filter: &mut BloomFilter,
    at: usize,
    entry: &TableEntry,
) -> Made<()>
    requires place { at ≤ length entries.old.items }
    requires keyed { keys.old.items ≡ map key_of entries.old.items }
    requires filtered { MayContainAll filter.old keys.old.items }
    ensures entries { entries.new.items ≡ (if is_ok result then insert entries.old.items at entry.now
        else entries.old.items) }
    ensures keyed { keys.new.items ≡ map key_of entries.new.items }
    ensures filtered { MayContainAll filter.new keys.new.items }
{
    let key = bits_of(entry.prefix.base());
    filter.grow(keys)?;
    entries.insert(at, *entry)?;
    if keys.insert(at, key).is_err() {
        entries.remove(at);
        return Err(AllocError);
    }
    filter.insert(key);
    Ok(())
}

#[tactic(auto, using(crate::proofs::OneEdit::keys_remove, crate::proofs::OneEdit::keys_long, crate::proofs::Filtering::all_remove))]
/// Removes the entry and the number at an index.
pub(crate) fn remove_at(entries: &mut Vec<TableEntry>, keys: &mut Vec<u128>, at: usize)
    requires place { at < length entries.old.items }
    requires keyed { keys.old.items ≡ map key_of entries.old.items }
    ensures entries { entries.new.items ≡ remove entries.old.items at }
    ensures keyed { keys.new.items ≡ map key_of entries.new.items }
    ensures filtered { (f : BloomFilter) → MayContainAll f keys.old.items → MayContainAll f keys.new.items }
{
    entries.remove(at);
    keys.remove(at);
}
