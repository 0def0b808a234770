//! Entries that borrow from the bytes that spell them.

ghost use Rattle.std.specs.Prelude.{◌≤◌, ◌<◌, ◌^◌, IsTrue, is_some};
ghost use Rattle.pf_entry.specs.Entry.{is_origin, is_table};
ghost use Rattle.pf_entry.specs.Reading.{names_at, addresses_at};
ghost use Rattle.pf_entry.specs.declared.limits.TheConstants.{ADDRESSES, NAMES};

use pf_rules::Profile;

/// The names of a path, eight at most, that begin some bytes, each with its length. As an iterator it gives them in
/// order.
#[derive(Clone, Copy)]
pub struct Names<'a> {
    pub(crate) count: u8,
    pub(crate) bytes: &'a [u8],
    ghost few: { count ≤ NAMES },
    ghost spelled: { IsTrue (is_some (names_at count bytes.now)) },
}

/// A table's name, lent.
#[derive(Clone, Copy)]
pub struct TableNameView<'a> {
    /// The name.
    pub bytes: &'a [u8],
    pub ghost valid: { IsTrue (is_table bytes.now) },
}

/// Addresses that begin some bytes, 4,096 at most. As an iterator it gives them in order.
#[derive(Clone, Copy)]
pub struct Addresses<'a> {
    pub(crate) count: u16,
    pub(crate) bytes: &'a [u8],
    ghost few: { count ≤ ADDRESSES },
    ghost spelled: { IsTrue (is_some (addresses_at count bytes.now)) },
}

/// One address or more, lent.
#[derive(Clone, Copy)]
pub struct SomeAddressesView<'a> {
    /// The addresses, in their order.
    pub items: Addresses<'a>,
    ghost some: { 0 < items.count },
}

/// A command; the first of each is its anchor's path. Names, addresses and text are in the bytes that were read, the
/// addresses in their order.
#[derive(Clone, Copy)]
pub enum CommandView<'a> {
    /// A ruleset, read by a profile, becomes the anchor's rules and tables.
    Load(Names<'a>, Profile, &'a [u8]),
    /// The anchor's rules go.
    FlushRules(Names<'a>),
    /// The anchor's tables go.
    FlushTables(Names<'a>),
    /// Both go.
    FlushAll(Names<'a>),
    /// Addresses are added to a table.
    Add(Names<'a>, TableNameView<'a>, SomeAddressesView<'a>),
    /// Addresses go from a table.
    Delete(Names<'a>, TableNameView<'a>, SomeAddressesView<'a>),
    /// A table has these addresses alone.
    Replace(Names<'a>, TableNameView<'a>, Addresses<'a>),
    /// A table is emptied.
    FlushTable(Names<'a>, TableNameView<'a>),
}

/// A command, who asked for it (a member, or 255), and its number there, below 2^48.
#[derive(Clone, Copy)]
pub struct EntryView<'a> {
    /// Who was asked: a member, 0 to 14, or 255.
    pub origin: u8,
    /// Its number there, below 2^48.
    pub number: u64,
    /// The command, lent.
    pub command: CommandView<'a>,
    pub ghost asked: { IsTrue (is_origin origin) },
    pub ghost numbered: { number < 2 ^ 48 },
}
