//! Names of sets and chains.

ghost use Rattle.std.specs.Prelude.{◌≡◌};
ghost use Rattle.nft_rules.specs.Evaluation.{pass_eq, same_chain, same_set};
ghost use Rattle.nft_rules.specs.Seen.{chain_name_of, set_name_of};

use crate::hosts::is_same;
use crate::subset::{ChainName, Pass, SetName};

/// Whether they are the same.
fn same_pass(one: Pass, other: Pass) -> bool
    ensures { result ≡ pass_eq one other }
{
    one == other
}

/// Whether they are the names of one chain.
pub fn same_chain<'c>(one: ChainName<'c>, other: ChainName<'c>) -> bool
    ensures { result ≡ same_chain (chain_name_of one.entry) (chain_name_of other.entry) }
{
    match (one, other) {
        (ChainName::Base, ChainName::Base) => true,
        (ChainName::Base, ChainName::At(_, _)) | (ChainName::At(_, _), ChainName::Base) => false,
        (ChainName::At(pass, path), ChainName::At(wanted, place)) => same_pass(pass, wanted)
            && path == place,
    }
}

/// Whether they are the names of one set.
pub fn same_set<'c>(one: SetName<'c>, other: SetName<'c>) -> bool
    ensures { result ≡ same_set (set_name_of one.entry) (set_name_of other.entry) }
{
    one.owner == other.owner && one.table == other.table && is_same(one.family, other.family)
}
