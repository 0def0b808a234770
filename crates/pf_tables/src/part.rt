//! The entries of one family and length.

ghost use Rattle.std.specs.Prelude.{◌≡◌, map};
ghost use Rattle.pf_tables.specs.inner.Keys.{key_of};
ghost use Rattle.pf_tables.specs.inner.Bloom.{MayContainAll};

use crate::bloom::BloomFilter;
use pf_rules::TableEntry;

/// The entries of one family and length, in order of address, and beside them their first addresses as numbers, and
/// a filter of these.
#[derive(Drop)]
pub(crate) struct Part {
    pub(crate) v6: bool,
    pub(crate) len: u8,
    pub(crate) entries: Vec<TableEntry>,
    pub(crate) keys: Vec<u128>,
    pub(crate) filter: BloomFilter,
    pub(crate) ghost keyed: { keys.items ≡ map key_of entries.items },
    pub(crate) ghost filtered: { MayContainAll filter keys.items },
}
