//! Reading an entry from its bytes, without memory.

ghost use Rattle.std.specs.Prelude.{◌≡◌, ◌≤◌, ◌<◌, IfSome, IsTrue, option_map};
ghost use Rattle.std.specs.Int.{w16, w32, w64};
ghost use Rattle.pf_entry.specs.Entry.{is_name, is_origin};
ghost use Rattle.pf_rules.specs.Names.{begins_below};
ghost use Rattle.pf_entry.specs.Reading.{byte_at, number_at, text_at, counted_at, name_at, names_at, path_at, table_at};
ghost use Rattle.pf_entry.specs.Reading.{sign_at, base_at, address_at, addresses_at, list_at, load_at, change_at};
ghost use Rattle.pf_entry.specs.Reading.{add_at, delete_at, replace_at, flush_table_at, rest_at, command_at, asked_at};
ghost use Rattle.pf_entry.specs.Reading.{entry_at, reading};
ghost use Rattle.pf_entry.specs.Seen.{address_of, names_of, addresses_of, command_of, entry_of};
ghost use Rattle.pf_entry.specs.declared.limits.TheConstants.{ADDRESSES, NAMES, NUMBERS};

use crate::limits::{ADDRESSES, CLIENT, ENTRY_BYTES, HALF, LAST_MEMBER, NAMES, NUMBERS};
use crate::view::{Addresses, CommandView, EntryView, Names, SomeAddressesView, TableNameView};
use pf_addr::{Addr, Prefix};
use pf_rules::{Profile, TableEntry, is_anchor_text, is_table_name};

fn byte_at(bytes: &[u8]) -> Option<(u8, &[u8])>
    ensures { option_map (λ x. (x.0, x.1.now)) result ≡ byte_at bytes.now }
{
    match bytes {
        [] => None,
        [first, rest @ ..] => Some((*first, rest)),
    }
}

fn text_at(count: usize, bytes: &[u8]) -> Option<(&[u8], &[u8])>
    ensures { option_map (λ x. (x.0.now, x.1.now)) result ≡ text_at count bytes.now }
{
    if bytes.len() < count {
        return None;
    }
    Some(bytes.split_at(count))
}

fn u16_at(bytes: &[u8]) -> Option<(u16, &[u8])>
    ensures { option_map (λ x. (x.0, x.1.now)) result ≡ number_at w16 bytes.now }
{
    if bytes.len() < 2 {
        return None;
    }
    let (front, rest) = bytes.split_at(2);
    Some((u16::from_be_bytes([front[0], front[1]]), rest))
}

fn u32_at(bytes: &[u8]) -> Option<(u32, &[u8])>
    ensures { option_map (λ x. (x.0, x.1.now)) result ≡ number_at w32 bytes.now }
{
    if bytes.len() < 4 {
        return None;
    }
    let (front, rest) = bytes.split_at(4);
    let number = u32::from_be_bytes([front[0], front[1], front[2], front[3]]);
    Some((number, rest))
}

fn u64_at(bytes: &[u8]) -> Option<(u64, &[u8])>
    ensures { option_map (λ x. (x.0, x.1.now)) result ≡ number_at w64 bytes.now }
{
    if bytes.len() < 8 {
        return None;
    }
    let (front, rest) = bytes.split_at(8);
    let number = u64::from_be_bytes([
        front[0], front[1], front[2], front[3], front[4], front[5], front[6], front[7],
    ]);
    Some((number, rest))
}

/// Whether the bytes may be a name of a path: an anchor's, and not an unnamed block's.
fn is_name(name: &[u8]) -> bool
    ensures { result ≡ is_name name.now }
{
    is_anchor_text(name) && !begins_below(name)
}

/// Whether the first byte is `_`.
fn begins_below(name: &[u8]) -> bool
    ensures { result ≡ begins_below name.now }
{
    match name {
        [first, ..] => *first == b'_',
        [] => false,
    }
}

#[tactic(auto, unfolding(crate::specs::Reading::counted_at))]
fn counted_at(bytes: &[u8]) -> Option<(&[u8], &[u8])>
    ensures { option_map (λ x. (x.0.now, x.1.now)) result ≡ counted_at bytes.now }
{
    let (count, rest) = byte_at(bytes)?;
    text_at(usize::from(count), rest)
}

#[tactic(auto, unfolding(crate::specs::Reading::name_at))]
pub(crate) fn name_at(bytes: &[u8]) -> Option<(&[u8], &[u8])>
    ensures { option_map (λ x. (x.0.now, x.1.now)) result ≡ name_at bytes.now }
{
    let (name, rest) = counted_at(bytes)?;
    if is_name(name) {
        Some((name, rest))
    } else {
        None
    }
}

#[tactic(auto, unfolding(crate::specs::Reading::table_at))]
fn table_at(bytes: &[u8]) -> Option<(TableNameView<'_>, &[u8])>
    ensures { option_map (λ x. (x.0.bytes.now, x.1.now)) result ≡ table_at bytes.now }
{
    let (name, rest) = counted_at(bytes)?;
    if is_table_name(Profile::One, name) {
        Some((TableNameView { bytes: name }, rest))
    } else {
        None
    }
}

#[tactic(auto, unfolding(crate::specs::Reading::sign_at))]
fn sign_at(bytes: &[u8]) -> Option<(bool, &[u8])>
    ensures { option_map (λ x. (x.0, x.1.now)) result ≡ sign_at bytes.now }
{
    match bytes {
        [0, rest @ ..] => Some((false, rest)),
        [1, rest @ ..] => Some((true, rest)),
        _ => None,
    }
}

#[tactic(auto, unfolding(crate::specs::Reading::base_at))]
fn base_at(family: u8, bytes: &[u8]) -> Option<(Addr, &[u8])>
    ensures { option_map (λ x. (x.0, x.1.now)) result ≡ base_at family bytes.now }
{
    match family {
        4 => {
            let (bits, rest) = u32_at(bytes)?;
            Some((Addr::V4(bits), rest))
        }
        6 => {
            let (high, rest) = u64_at(bytes)?;
            let (low, rest) = u64_at(rest)?;
            let bits = u128::from(high) * HALF + u128::from(low);
            Some((Addr::V6(bits), rest))
        }
        _ => None,
    }
}

#[tactic(auto, unfolding(crate::specs::Reading::address_at))]
pub(crate) fn address_at(bytes: &[u8]) -> Option<(TableEntry, &[u8])>
    ensures { option_map (λ x. (address_of x.0, x.1.now)) result ≡ address_at bytes.now }
{
    let (negated, rest) = sign_at(bytes)?;
    let (family, rest) = byte_at(rest)?;
    let (len, rest) = byte_at(rest)?;
    let (base, rest) = base_at(family, rest)?;
    let prefix = Prefix::new(base, len)?;
    Some((TableEntry { negated, prefix }, rest))
}

/// Passes over that many names.
fn names_at(count: u8, bytes: &[u8]) -> Option<(Names<'_>, &[u8])>
    requires { count ≤ NAMES }
    ensures { option_map (λ x. (names_of x.0, x.1.now)) result ≡ names_at count bytes.now }
{
    let mut rest = bytes;
    for _ in 0..count {
        let (_, after) = name_at(rest)?;
        rest = after;
    }
    Some((Names { count, bytes }, rest))
}

/// Passes over that many addresses.
fn addresses_at(count: u16, bytes: &[u8]) -> Option<(Addresses<'_>, &[u8])>
    requires { count ≤ ADDRESSES }
    ensures count { IfSome result (λ x. x.0.count ≡ count) }
    ensures addresses { option_map (λ x. (addresses_of x.0, x.1.now)) result ≡ addresses_at count bytes.now }
{
    let mut rest = bytes;
    for _ in 0..count {
        let Some((_, after)) = address_at(rest) else {
            return None;
        };
        rest = after;
    }
    Some((Addresses { count, bytes }, rest))
}

#[tactic(auto, unfolding(crate::specs::Reading::path_at))]
fn path_at(bytes: &[u8]) -> Option<(Names<'_>, &[u8])>
    ensures { option_map (λ x. (names_of x.0, x.1.now)) result ≡ path_at bytes.now }
{
    let (count, rest) = byte_at(bytes)?;
    if count > NAMES {
        return None;
    }
    names_at(count, rest)
}

#[tactic(auto, unfolding(crate::specs::Reading::list_at))]
fn list_at(least: u16, bytes: &[u8]) -> Option<(Addresses<'_>, &[u8])>
    ensures least { IfSome result (λ x. least ≤ x.0.count) }
    ensures list { option_map (λ x. (addresses_of x.0, x.1.now)) result ≡ list_at least bytes.now }
{
    let (count, rest) = u16_at(bytes)?;
    if count < least || usize::from(count) > ADDRESSES {
        return None;
    }
    addresses_at(count, rest)
}

#[tactic(auto, unfolding(crate::specs::Reading::load_at))]
fn load_at<'a>(
    profile: Profile,
    path: Names<'a>,
    bytes: &'a [u8],
) -> Option<(CommandView<'a>, &'a [u8])>
    ensures { option_map (λ x. (command_of x.0, x.1.now)) result ≡ load_at profile (names_of path.entry) bytes.now }
{
    let (count, rest) = u32_at(bytes)?;
    let (text, rest) = text_at(count as usize, rest)?;
    Some((CommandView::Load(path, profile, text), rest))
}

/// A table and its addresses.
#[tactic(auto, unfolding(crate::specs::Reading::change_at))]
fn change_at(least: u16, bytes: &[u8]) -> Option<(TableNameView<'_>, Addresses<'_>, &[u8])>
    ensures least { IfSome result (λ x. least ≤ x.1.count) }
    ensures change { option_map (λ x. (x.0.bytes.now, addresses_of x.1, x.2.now)) result ≡ change_at least bytes.now }
{
    let (table, rest) = table_at(bytes)?;
    let (addresses, rest) = list_at(least, rest)?;
    Some((table, addresses, rest))
}

#[tactic(auto, unfolding(crate::specs::Reading::add_at))]
fn add_at<'a>(path: Names<'a>, bytes: &'a [u8]) -> Option<(CommandView<'a>, &'a [u8])>
    ensures { option_map (λ x. (command_of x.0, x.1.now)) result ≡ add_at (names_of path.entry) bytes.now }
{
    let (table, addresses, rest) = change_at(1, bytes)?;
    Some((
        CommandView::Add(path, table, SomeAddressesView { items: addresses }),
        rest,
    ))
}

#[tactic(auto, unfolding(crate::specs::Reading::delete_at))]
fn delete_at<'a>(path: Names<'a>, bytes: &'a [u8]) -> Option<(CommandView<'a>, &'a [u8])>
    ensures { option_map (λ x. (command_of x.0, x.1.now)) result ≡ delete_at (names_of path.entry) bytes.now }
{
    let (table, addresses, rest) = change_at(1, bytes)?;
    Some((
        CommandView::Delete(path, table, SomeAddressesView { items: addresses }),
        rest,
    ))
}

#[tactic(auto, unfolding(crate::specs::Reading::replace_at))]
fn replace_at<'a>(path: Names<'a>, bytes: &'a [u8]) -> Option<(CommandView<'a>, &'a [u8])>
    ensures { option_map (λ x. (command_of x.0, x.1.now)) result ≡ replace_at (names_of path.entry) bytes.now }
{
    let (table, addresses, rest) = change_at(0, bytes)?;
    Some((CommandView::Replace(path, table, addresses), rest))
}

#[tactic(auto, unfolding(crate::specs::Reading::flush_table_at))]
fn flush_table_at<'a>(path: Names<'a>, bytes: &'a [u8]) -> Option<(CommandView<'a>, &'a [u8])>
    ensures { option_map (λ x. (command_of x.0, x.1.now)) result ≡ flush_table_at (names_of path.entry) bytes.now }
{
    let (table, rest) = table_at(bytes)?;
    Some((CommandView::FlushTable(path, table), rest))
}

/// What follows the path, by format and kind.
#[tactic(auto, unfolding(crate::specs::Reading::rest_at))]
fn rest_at<'a>(
    format: u8,
    kind: u8,
    path: Names<'a>,
    bytes: &'a [u8],
) -> Option<(CommandView<'a>, &'a [u8])>
    ensures { option_map (λ x. (command_of x.0, x.1.now)) result ≡
        rest_at format kind (names_of path.entry) bytes.now }
{
    match (format, kind) {
        (1, 1) => load_at(Profile::One, path, bytes),
        (2, 1) => load_at(Profile::Two, path, bytes),
        (1, 2) => Some((CommandView::FlushRules(path), bytes)),
        (1, 3) => Some((CommandView::FlushTables(path), bytes)),
        (1, 4) => Some((CommandView::FlushAll(path), bytes)),
        (1, 5) => add_at(path, bytes),
        (1, 6) => delete_at(path, bytes),
        (1, 7) => replace_at(path, bytes),
        (1, 8) => flush_table_at(path, bytes),
        _ => None,
    }
}

#[tactic(auto, unfolding(crate::specs::Reading::command_at))]
fn command_at(format: u8, bytes: &[u8]) -> Option<(CommandView<'_>, &[u8])>
    ensures { option_map (λ x. (command_of x.0, x.1.now)) result ≡ command_at format bytes.now }
{
    let (kind, rest) = byte_at(bytes)?;
    let (path, rest) = path_at(rest)?;
    rest_at(format, kind, path, rest)
}

/// Who asked, and the number there.
#[tactic(auto, unfolding(crate::specs::Reading::asked_at))]
fn asked_at(bytes: &[u8]) -> Option<((u8, u64), &[u8])>
    ensures origin { IfSome result (λ x. IsTrue (is_origin x.0.0)) }
    ensures number { IfSome result (λ x. x.0.1 < NUMBERS) }
    ensures asked { option_map (λ x. (x.0, x.1.now)) result ≡ asked_at bytes.now }
{
    let (origin, rest) = byte_at(bytes)?;
    let (number, rest) = u64_at(rest)?;
    if (origin <= LAST_MEMBER || origin == CLIENT) && number < NUMBERS {
        Some(((origin, number), rest))
    } else {
        None
    }
}

#[tactic(auto, unfolding(crate::specs::Reading::entry_at))]
fn entry_at(bytes: &[u8]) -> Option<(EntryView<'_>, &[u8])>
    ensures { option_map (λ x. (entry_of x.0, x.1.now)) result ≡ entry_at bytes.now }
{
    let (format, rest) = byte_at(bytes)?;
    let ((origin, number), rest) = asked_at(rest)?;
    let (command, rest) = command_at(format, rest)?;
    Some((
        EntryView {
            origin,
            number,
            command,
        },
        rest,
    ))
}

/// The entry that all of the bytes spell.
#[tactic(auto, unfolding(crate::specs::Reading::reading))]
pub(crate) fn entry_in(bytes: &[u8]) -> Option<EntryView<'_>>
    ensures { option_map entry_of result ≡ reading bytes.now }
{
    if bytes.len() > ENTRY_BYTES {
        return None;
    }
    let (entry, rest) = entry_at(bytes)?;
    if rest.is_empty() { Some(entry) } else { None }
}
