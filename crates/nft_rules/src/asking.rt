//! With how many rules one packet may be compared: 100,000 at most.

ghost use Rattle.std.specs.Prelude.{◌≡◌, map, find, option_map};
ghost use Rattle.nft_rules.specs.Evaluation.{is_chain};
ghost use Rattle.nft_rules.specs.Refusing.{most_asked};
ghost use Rattle.nft_rules.specs.inner.Left.{minus};
ghost use Rattle.nft_rules.specs.Seen.{chain_name_of, chain_of, ruleset_of};

use crate::names::same_chain;
use crate::subset::{Chain, ChainName, NftRuleset, Statement};

/// The first of these chains that has the name.
fn chain_named<'r, 'c>(chains: &'r [Chain<'c>], name: ChainName<'c>) -> Option<&'r Chain<'c>>
    ensures { option_map (λ c. chain_of c.now) result
        ≡ find (is_chain (chain_name_of name.entry)) (map chain_of chains.now) }
{
    for chain in chains {
        if same_chain(chain.name, name) {
            return Some(chain);
        }
    }
    None
}

/// What is left of that many questions, behind a chain; none if they aren't enough.
#[cycle(asking)]
#[tactic(auto, using(crate::proofs::Refused::some_rules, crate::proofs::Refused::one_rule))]
pub(crate) fn left_after<'r, 'c>(
    whole: &'r NftRuleset<'c>,
    depth: u8,
    name: ChainName<'c>,
    left: u32,
) -> Option<u32>
    ensures { result ≡ minus left (most_asked depth (ruleset_of whole.now) (chain_name_of name.entry)) }
{
    if depth == 0 {
        return Some(left);
    }
    let Some(chain) = chain_named(&whole.chains, name) else {
        return Some(left);
    };
    let mut now = left;
    for rule in &chain.rules {
        if now == 0 {
            return None;
        }
        now -= 1;
        if let Statement::Jump(chain) = rule.statement {
            now = left_after(whole, depth - 1, chain, now)?;
        }
    }
    Some(now)
}
