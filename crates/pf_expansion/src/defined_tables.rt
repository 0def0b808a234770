//! The tables that a ruleset has defined so far.

ghost use Rattle.std.specs.Prelude.{map};
ghost use Rattle.pf_rules.specs.Rulesets.{table_of};
ghost use Rattle.pf_expansion.specs.inner.Tables.{AreNames};

use pf_rules::{TableDef, TableName};
use std::alloc::{AllocError, Global};
use std::collections::BTreeSet;

/// Tables in the order of their definitions, of which one is found by its name at the logarithm of their number.
#[derive(Drop)]
pub struct DefinedTables {
    all: Vec<TableDef>,
    names: BTreeSet<Vec<u8>>,
    ghost known: { AreNames names (map table_of all.items) },
}

impl DefinedTables {
    ghost use Rattle.std.specs.Prelude.{◌≡◌, ◌++◌, ◌∷◌, [], map, OnOk};
    ghost use Rattle.pf_rules.specs.Rulesets.{table_of};
    ghost use Rattle.pf_expansion.specs.Tables.{is_defined};
    ghost use Rattle.pf_expansion.specs.Defined.{tables_of};

    /// None.
    pub fn new(alloc: Global) -> DefinedTables
        ensures { tables_of result ≡ [] }
    {
        DefinedTables {
            all: Vec::new(alloc),
            names: BTreeSet::new(alloc),
        }
    }

    /// With one table more. An error is out of memory.
    pub fn push(&mut self, alloc: Global, table: TableDef) -> Result<(), AllocError>
        ensures { OnOk result (tables_of self.new ≡ tables_of self.old ++ table_of table ∷ []) }
    {
        let name = table.name.as_bytes().to_vec(alloc)?;
        self.all.push(table)?;
        match self.names.insert(name) {
            Ok(_) => Ok(()),
            Err(_) => {
                self.all.pop();
                Err(AllocError)
            }
        }
    }

    /// Whether one of them has this name.
    pub(crate) fn is_defined(&self, name: &TableName) -> bool
        ensures { result ≡ is_defined (tables_of self.now) name.now }
    {
        self.names.contains(name.as_bytes())
    }

    /// The tables themselves. Allocates nothing.
    pub fn into_list(self) -> Vec<TableDef>
        ensures { map table_of result.items ≡ tables_of self }
    {
        self.all
    }
}
