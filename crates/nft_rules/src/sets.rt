//! The sets of a configuration's tables.

ghost use Rattle.std.specs.Prelude.{◌≡◌, ◌++◌, IfOk, OnOk, map};
ghost use Rattle.std.specs.List.{flat_map};
ghost use Rattle.nft_rules.specs.Rendering.{table_set, table_sets, path_sets};
ghost use Rattle.nft_rules.specs.Seen.{named_set_of};

use crate::Made;
use crate::chains::Place;
use crate::elements::elements;
use crate::subset::{NamedSet, SetName};
use pf_addr::Family;
use pf_rules::Name;

/// The set of a table's addresses of one family.
#[tactic(auto, using(crate::proofs::Spanning::elements_none))]
fn table_set<'c>(place: Place<'c>, table: &'c str, family: Family) -> Made<NamedSet<'c>>
    ensures { IfOk result (λ s. named_set_of s
        ≡ table_set place.entry.config.now place.entry.path.now table.now family) }
{
    let elements = match place.config.table(place.path, table) {
        Some(there) => elements(place.alloc, family, there)?,
        None => Vec::new(place.alloc),
    };
    let name = SetName {
        owner: place.path,
        table,
        family,
    };
    Ok(NamedSet { name, elements })
}

/// Puts the sets of a path's tables behind those that are there.
fn push_path_sets<'c>(place: Place<'c>, sets: &mut Vec<NamedSet<'c>>) -> Made<()>
    ensures { OnOk result (map named_set_of sets.new.items
        ≡ map named_set_of sets.old.items ++ path_sets place.entry.config.now place.entry.path.now) }
{
    let tables = place.config.table_names(place.path)?;
    for table in &tables {
        sets.push(table_set(place, table, Family::Inet)?)?;
        sets.push(table_set(place, table, Family::Inet6)?)?;
    }
    Ok(())
}

/// The sets of these paths' tables.
pub(crate) fn sets_of<'c>(place: Place<'c>, paths: &[&'c [Name]]) -> Made<Vec<NamedSet<'c>>>
    ensures { IfOk result (λ v. map named_set_of v.items
        ≡ flat_map (path_sets place.entry.config.now) (map (λ p. p.now) paths.now)) }
{
    let mut sets = Vec::new(place.alloc);
    for path in paths {
        push_path_sets(Place { path, ..place }, &mut sets)?;
    }
    Ok(sets)
}
