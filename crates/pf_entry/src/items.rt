//! The names and the addresses of a view, one after the other.

use crate::reading::{address_at, name_at};
use crate::view::{Addresses, Names};
use pf_rules::TableEntry;

impl<'a> Iterator for Names<'a> {
    type Item = &'a [u8];

    ghost use Rattle.std.specs.Iterator.{YieldsFirstBy, item_count};
    ghost use Rattle.pf_entry.specs.Seen.{names_of};

    ghost next_gives = { YieldsFirstBy (λ x. x.now) names_of };

    ghost remaining = { item_count names_of };

    fn next(&mut self) -> Option<&'a [u8]> {
        if self.count == 0 {
            return None;
        }
        let (name, rest) = name_at(self.bytes)?;
        *self = Names {
            count: self.count - 1,
            bytes: rest,
        };
        Some(name)
    }
}

impl Iterator for Addresses<'_> {
    type Item = TableEntry;

    ghost use Rattle.std.specs.Iterator.{YieldsFirstBy, item_count};
    ghost use Rattle.pf_entry.specs.Seen.{address_of, addresses_of};

    ghost next_gives = { YieldsFirstBy address_of addresses_of };

    ghost remaining = { item_count addresses_of };

    fn next(&mut self) -> Option<TableEntry> {
        if self.count == 0 {
            return None;
        }
        let Some((address, rest)) = address_at(self.bytes) else {
            return None;
        };
        *self = Addresses {
            count: self.count - 1,
            bytes: rest,
        };
        Some(address)
    }
}
