//! The entry of a prefix, found by binary search.

ghost use Rattle.std.specs.Prelude.{◌≡◌};
ghost use Rattle.std.specs.Option.{option_copied};
ghost use Rattle.pf_tables.specs.inner.Contents.{entry_at};
ghost use Rattle.pf_tables.specs.Parts.{IsOrdered};

use pf_addr::Prefix;
use pf_rules::TableEntry;
use std::cmp::Ordering;

/// The entry of that prefix among these, which are in order.
#[inline]
pub(crate) fn entry_at<'c>(entries: &'c [TableEntry], prefix: &Prefix) -> Option<&'c TableEntry>
    requires { IsOrdered entries.now }
    ensures { option_copied result ≡ entry_at prefix.now entries.now }
{
    let mut left = entries;
    while !left.is_empty() {
        let (front, back) = left.split_at(left.len() / 2);
        let [middle, behind @ ..] = back else {
            return None;
        };
        match middle.prefix.order(prefix) {
            Ordering::Equal => return Some(middle),
            Ordering::Less => left = behind,
            Ordering::Greater => left = front,
        }
    }
    None
}
