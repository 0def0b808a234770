//! Look-ups in a table of 4,096 entries: a third single addresses, a third of 24 bits (IPv6: 64), a third shorter, a
//! tenth of them negated.
ghost use Rattle.std.specs.Prelude.{◌≤◌};

use pf_addr::{Addr, Prefix};
use pf_rules::TableEntry;
use pf_tables::Table;
use std::alloc::{AllocError, Global};

/// The number after this one, of numbers that look random.
fn next(x: u32) -> u32 {
    x.wrapping_mul(1_664_525).wrapping_add(1_013_904_223)
}

/// The bits of an IPv6 address of a number.
fn wide(x: u32) -> u128 {
    let bits = x as u128;
    (bits << 96) | (bits << 64) | (bits << 32) | bits
}

/// The address of a number.
fn addr_of(v6: bool, x: u32) -> Addr {
    if v6 { Addr::V6(wide(x)) } else { Addr::V4(x) }
}

/// The length of the IPv4 entry at a place.
fn len_in_v4(place: u32) -> u8
    ensures { result ≤ 32 }
{
    match place % 3 {
        0 => 32,
        1 => 24,
        _ => 8 + (place % 16) as u8,
    }
}

/// The length of the IPv6 entry at a place.
fn len_in_v6(place: u32) -> u8
    ensures { result ≤ 128 }
{
    match place % 3 {
        0 => 128,
        1 => 64,
        _ => 32 + (place % 16) as u8,
    }
}

/// The prefix of the entry at a place, around the address of a number.
fn prefix_of(v6: bool, x: u32, place: u32) -> Prefix {
    if v6 {
        Prefix::containing(Addr::V6(wide(x)), len_in_v6(place))
    } else {
        Prefix::containing(Addr::V4(x), len_in_v4(place))
    }
}

/// The entries, in the order of their places.
fn entries(alloc: Global, v6: bool) -> Result<Vec<TableEntry>, AllocError> {
    let mut list = Vec::new(alloc);
    let mut x = 1u32;
    for place in 0..4_096u32 {
        x = next(x);
        list.push(TableEntry {
            negated: place % 10 == 9,
            prefix: prefix_of(v6, x, place),
        })?;
    }
    Ok(list)
}

/// How many of that many addresses are in the table: every second one is an entry's, in turn.
fn count(table: &Table, v6: bool, lookups: u32) -> u32 {
    let mut own = 1u32;
    let mut other = 7u32;
    let mut found = 0u32;
    for turn in 0..lookups {
        if turn % 8_192 == 0 {
            own = 1;
        }
        let x = if turn % 2 == 0 {
            own = next(own);
            own
        } else {
            other = next(other);
            other
        };
        if table.holds(addr_of(v6, x)) {
            found = found.wrapping_add(1);
        }
    }
    found
}

/// The table is made so often, and that many addresses are looked up in the last one: how many are in it.
pub(crate) fn found_after(
    alloc: Global,
    v6: bool,
    builds: u32,
    lookups: u32,
) -> Result<u32, AllocError> {
    let list = entries(alloc, v6)?;
    let mut table = Table::new(alloc, true, false)?;
    for _ in 0..builds {
        table = Table::of(alloc, true, false, &list)?;
    }
    Ok(count(&table, v6, lookups))
}
