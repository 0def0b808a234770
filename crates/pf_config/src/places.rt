//! Where the anchors may be that anchor rules lead to: guesses, on which nothing depends but time.

use crate::Made;
use pf_rules::Item;
use std::alloc::Global;

/// For each rule of a path, the place of its target's first name among those of all anchor rules there, in byte order.
/// That is its place among the anchors below, if just these rules lead to them. With no anchor rule there is none.
#[derive(Drop)]
pub(crate) struct Places {
    list: Vec<usize>,
}

/// The first name of the target, if it is an anchor rule that has one.
fn front(item: &Item) -> Option<&[u8]> {
    match item {
        Item::Anchor(rule) => rule
            .heading
            .target
            .names
            .first()
            .map(|first| first.as_bytes()),
        Item::Filter(_) => None,
    }
}

impl Places {
    /// Those of these rules.
    pub(crate) fn of(alloc: Global, items: &[Item]) -> Made<Places> {
        let mut fronts: Vec<&[u8]> = items.iter().filter_map(|item| front(item)).collect(alloc)?;
        fronts.sort_unstable_by(|a, b| a.cmp(b));
        fronts.dedup();
        let mut list = Vec::new(alloc);
        if fronts.is_empty() {
            return Ok(Places { list });
        }
        for item in items {
            let name = front(item).unwrap_or(&[]);
            list.push(fronts.binary_search_by(|held| held.cmp(name)).unwrap_or(0))?;
        }
        Ok(Places { list })
    }

    /// That of the rule with this index.
    pub(crate) fn of_rule(&self, index: u32) -> usize {
        self.list.get(index as usize).copied().unwrap_or(0)
    }
}
