//! Whether an address is in a table: the longest entry that contains it decides.

ghost use Rattle.std.specs.Prelude.{◌≡◌, not, slice_get};
ghost use Rattle.std.specs.Option.{option_copied};
ghost use Rattle.pf_tables.specs.Tables.{bool_eq, is_v6};
ghost use Rattle.pf_tables.specs.inner.Tables.{last_with};
ghost use Rattle.pf_tables.specs.Parts.{joined, AreParts};
ghost use Rattle.pf_tables.specs.inner.Parts.{IsPart};

use crate::keys::bits_of;
use crate::part::Part;
use crate::parted::is_v6;
use pf_addr::{Addr, Prefix};
use pf_rules::TableEntry;

/// Whether the address is of the other family.
#[inline]
fn is_other(v6: bool, addr: Addr) -> bool
    ensures { result ≡ not (bool_eq v6 (is_v6 addr)) }
{
    v6 != is_v6(addr)
}

/// The entry at that place.
#[inline]
fn nth(entries: &[TableEntry], at: usize) -> Option<&TableEntry>
    ensures { option_copied result ≡ slice_get entries.now at }
{
    entries.get(at)
}

/// The entry of a part that contains the address.
#[inline]
fn in_part(part: &Part, addr: Addr) -> Option<&TableEntry>
    requires { IsPart part.now }
    ensures { option_copied result ≡ last_with addr part.now.entries.items }
{
    if is_other(part.v6, addr) {
        return None;
    }
    let prefix = Prefix::containing(addr, part.len);
    let key = bits_of(prefix.base());
    if !part.filter.may_contain(key) {
        return None;
    }
    match part.keys.binary_search(&key) {
        Ok(at) => nth(&part.entries, at),
        Err(_) => None,
    }
}

/// The longest entry that contains the address: it is searched for in one part after another, the longest first.
pub(crate) fn decides(parts: &[Part], addr: Addr) -> Option<&TableEntry>
    requires { AreParts parts.now }
    ensures { option_copied result ≡ last_with addr (joined parts.now) }
{
    let mut left = parts;
    while !left.is_empty() {
        let (front, back) = left.split_at(left.len() - 1);
        let [part, ..] = back else {
            return None;
        };
        if let Some(entry) = in_part(part, addr) {
            return Some(entry);
        }
        left = front;
    }
    None
}
