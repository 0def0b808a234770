//! Tables of addresses.

ghost use Rattle.std.specs.Prelude.{◌≡◌, IfOk, OnErr, [], length, filter};
ghost use Rattle.std.specs.Prelude.{if◌then◌else◌};
ghost use Rattle.pf_tables.specs.Tables.{in_table, is_of};
ghost use Rattle.pf_tables.specs.Contents.{with_entries, contents_of, without_entries, count_without, edited};
ghost use Rattle.pf_tables.specs.Parts.{joined, IsOrdered, AreParts};

use crate::Made;
use crate::contents::{contents_of, count_without, with_entries, without_entries};
use crate::decided::decides;
use crate::edits::{Edit, edit_in_place};
use crate::part::Part;
use crate::parted::{gathered, is_key, parted};
use pf_addr::Addr;
use pf_rules::TableEntry;
use std::alloc::{AllocError, Global};
use std::marker::Model;
use std::rc::Rc;

/// A table: a set of signed prefixes, and two flags.
pub struct Table {
    persist: bool,
    is_const: bool,
    entry_count: usize,
    parts: Rc<Vec<Part>>,
}

impl Drop for Table {
    fn drop(self) {
        let Table {
            persist: _,
            is_const: _,
            entry_count: _,
            parts: _,
        } = self;
    }
}

impl Model for Table {
    ghost use Rattle.pf_tables.specs.Tables.{TableValue};
    ghost use Rattle.pf_tables.specs.Parts.{joined, AreParts};

    ghost Value = { TableValue };

    ghost view = { λ t. record { persist = t.persist; is_const = t.is_const; entries = joined t.parts.value.items } };

    ghost use Rattle.std.specs.Prelude.{◌≡◌, length};

    ghost invariant = { λ t. AreParts t.parts.value.items × (t.entry_count ≡ length (joined t.parts.value.items)) };
}

impl Table {
    /// A table with these flags and nothing in it.
    pub fn new(alloc: Global, persist: bool, is_const: bool) -> Result<Table, AllocError>
        ensures { IfOk result (λ t. t ≡ record { persist = persist; is_const = is_const; entries = [] }) }
    {
        Table::made(alloc, persist, is_const, &[])
    }

    /// A table with these flags and the entries of a list, of which the first of each prefix counts.
    pub fn of(
        alloc: Global,
        persist: bool,
        is_const: bool,
        list: &[TableEntry],
    ) -> Result<Table, AllocError>
        ensures { IfOk result (λ t. t ≡ record {
          persist = persist;
          is_const = is_const;
          entries = contents_of list.now;
        }) }
    {
        let entries = contents_of(alloc, list)?;
        Table::made(alloc, persist, is_const, &entries)
    }

    /// A table of these entries, which are in order.
    fn made(alloc: Global, persist: bool, is_const: bool, entries: &[TableEntry]) -> Made<Table>
        requires { IsOrdered entries.now }
        ensures { IfOk result (λ t. t ≡ record { persist = persist; is_const = is_const; entries = entries.now }) }
    {
        let parts = Rc::new(alloc, parted(alloc, entries)?)?;
        Ok(Table {
            persist,
            is_const,
            entry_count: entries.len(),
            parts,
        })
    }

    /// The same table once more, with these flags. It shares the entries.
    pub fn flagged(&self, persist: bool, is_const: bool) -> Result<Table, AllocError>
        ensures { IfOk result (λ t. t ≡ record {
          persist = persist;
          is_const = is_const;
          entries = self.now.entries;
        }) }
    {
        let parts = self.parts.clone()?;
        Ok(Table {
            persist,
            is_const,
            entry_count: self.entry_count,
            parts,
        })
    }

    /// The entries of all parts, in order of family, length and address.
    pub fn gathered(&self, alloc: Global) -> Result<Vec<TableEntry>, AllocError>
        ensures value { IfOk result (λ v. v.items ≡ self.now.entries) }
        ensures ordered { IfOk result (λ v. IsOrdered v.items) }
    {
        gathered(alloc, &self.parts)
    }

    /// The table with the entries of a list put in, but for those whose prefix is there.
    pub fn with_entries(&self, alloc: Global, list: &[TableEntry]) -> Result<Table, AllocError>
        ensures { IfOk result (λ t. t ≡ record {
          persist = self.now.persist;
          is_const = self.now.is_const;
          entries = with_entries self.now.entries list.now;
        }) }
    {
        let own = self.gathered(alloc)?;
        let entries = with_entries(alloc, &own, list)?;
        Table::made(alloc, self.persist(), self.is_const(), &entries)
    }

    /// The table without the entries that are listed with their sign, of which the first of each prefix counts.
    pub fn without_entries(&self, alloc: Global, list: &[TableEntry]) -> Result<Table, AllocError>
        ensures { IfOk result (λ t. t ≡ record {
          persist = self.now.persist;
          is_const = self.now.is_const;
          entries = without_entries self.now.entries list.now;
        }) }
    {
        let own = self.gathered(alloc)?;
        let entries = without_entries(alloc, &own, list)?;
        Table::made(alloc, self.persist(), self.is_const(), &entries)
    }

    /// Adds or removes one entry in place. False, and nothing is changed, where that can't be done: the entries are
    /// shared, or none of them is of its family and length. An error changes nothing.
    pub fn edit(&mut self, entry: &TableEntry, edit: Edit) -> Result<bool, AllocError>
        ensures done { IfOk result (λ done. self.new ≡ (if done then record {
          persist = self.old.persist;
          is_const = self.old.is_const;
          entries = edited edit entry.now self.old.entries;
        } else self.old)) }
        ensures same { OnErr result (self.new ≡ self.old) }
    {
        if self.entry_count == usize::MAX {
            return Ok(false);
        }
        match edit_in_place(&mut self.parts, entry, edit)? {
            None => Ok(false),
            Some((before, after)) => {
                self.entry_count = self.entry_count - before + after;
                Ok(true)
            }
        }
    }

    /// How many entries, with their signs, this table has and the other lacks.
    pub fn count_without(&self, alloc: Global, other: &Table) -> Result<usize, AllocError>
        ensures { IfOk result (λ n. n ≡ count_without self.now.entries other.now.entries) }
    {
        let own = self.gathered(alloc)?;
        let others = other.gathered(alloc)?;
        Ok(count_without(&own, &others))
    }

    /// Whether it stays where no rule refers to it.
    pub fn persist(&self) -> bool
        ensures { result ≡ self.now.persist }
    {
        self.persist
    }

    /// Whether its entries may not be changed.
    pub fn is_const(&self) -> bool
        ensures { result ≡ self.now.is_const }
    {
        self.is_const
    }

    /// How many entries it has.
    pub fn entry_count(&self) -> usize
        ensures { result ≡ length self.now.entries }
    {
        self.entry_count
    }

    /// The entries of that family and length, by address: none for a length that the family hasn't.
    #[tactic(auto, using(crate::proofs::Lookups::ordered_filter))]
    pub fn part(&self, v6: bool, len: u8) -> &[TableEntry]
        ensures value { result.now ≡ filter (is_of v6 len) self.now.entries }
        ensures ordered { IsOrdered result.now }
    {
        part_of(&self.parts, v6, len)
    }

    /// Whether the address is in the table: the longest entry that contains it decides, and if that one is negated or
    /// there is none, the address isn't in the table (pf.conf(5), TABLES).
    #[tactic(auto, using(crate::proofs::Deciding::holds_is))]
    pub fn holds(&self, addr: Addr) -> bool
        ensures { result ≡ in_table addr self.now.entries }
    {
        match decides(&self.parts, addr) {
            None => false,
            Some(entry) => !entry.negated,
        }
    }
}

/// The entries of that family and length.
fn part_of(parts: &[Part], v6: bool, len: u8) -> &[TableEntry]
    requires { AreParts parts.now }
    ensures { result.now ≡ filter (is_of v6 len) (joined parts.now) }
{
    for part in parts {
        if is_key(part, v6, len) {
            return &part.entries;
        }
    }
    &[]
}
