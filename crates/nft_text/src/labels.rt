//! The names of chains and sets in a ruleset.

ghost use Rattle.std.specs.Prelude.{◌≡◌, Some, map};
ghost use Rattle.nft_rules.specs.Seen.{chain_name_of, chain_of, set_name_of, named_set_of, ruleset_of};
ghost use Rattle.nft_text.specs.Texts.{chain_index, set_index, generation, chain_label, set_label};

use nft_rules::{Chain, ChainName, NamedSet, NftRuleset, SetName, same_chain, same_set};
use pf_rules::Direction;
use std::fmt;

/// How many chains are before the first of that name.
fn chain_index<'c>(chains: &[Chain<'c>], name: ChainName<'c>) -> usize
    ensures { result ≡ chain_index (chain_name_of name.entry) (map chain_of chains.now) }
{
    let mut index = 0usize;
    for chain in chains {
        if same_chain(chain.name, name) {
            return index;
        }
        index += 1;
    }
    index
}

/// How many sets are before the first of that name.
fn set_index<'c>(sets: &[NamedSet<'c>], name: SetName<'c>) -> usize
    ensures { result ≡ set_index (set_name_of name.entry) (map named_set_of sets.now) }
{
    let mut index = 0usize;
    for set in sets {
        if same_set(set.name, name) {
            return index;
        }
        index += 1;
    }
    index
}

/// What a ruleset is of: a ruleset, its direction, and the position in the names.
#[derive(Clone, Copy)]
pub(crate) struct Whole<'r, 'c> {
    pub(crate) position: u32,
    pub(crate) direction: Direction,
    pub(crate) parts: &'r NftRuleset<'c>,
}

/// What names of a position begin with.
#[derive(Clone, Copy)]
pub(crate) struct Generation(pub(crate) u32);

impl fmt::Display for Generation {
    ghost output = { λ g. Some (generation g.0) };

    fn fmt<W: fmt::Write>(&self, f: &mut fmt::Formatter<W>) -> fmt::Result {
        write!(f, "g{}_", self.0)
    }
}

/// The name of a chain.
#[derive(Clone, Copy)]
pub(crate) struct ChainLabel<'r, 'c>(pub(crate) Whole<'r, 'c>, pub(crate) ChainName<'c>);

impl fmt::Display for ChainLabel<'_, '_> {
    ghost output = { λ x. Some (chain_label x.0.position x.0.direction (ruleset_of x.0.parts.now)
        (chain_name_of x.1)) };

    fn fmt<W: fmt::Write>(&self, f: &mut fmt::Formatter<W>) -> fmt::Result {
        let generation = Generation(self.0.position);
        let index = chain_index(&self.0.parts.chains, self.1);
        match self.0.direction {
            Direction::In => write!(f, "{generation}i{index}"),
            Direction::Out => write!(f, "{generation}o{index}"),
        }
    }
}

/// The name of a set.
#[derive(Clone, Copy)]
pub(crate) struct SetLabel<'r, 'c>(pub(crate) Whole<'r, 'c>, pub(crate) SetName<'c>);

impl fmt::Display for SetLabel<'_, '_> {
    ghost output = { λ x. Some (set_label x.0.position (ruleset_of x.0.parts.now) (set_name_of x.1)) };

    fn fmt<W: fmt::Write>(&self, f: &mut fmt::Formatter<W>) -> fmt::Result {
        let generation = Generation(self.0.position);
        write!(f, "{generation}s{}", set_index(&self.0.parts.sets, self.1))
    }
}
