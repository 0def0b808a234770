//! Rules that do one thing under each of some alternatives.

ghost use Rattle.std.specs.Prelude.{◌≡◌, ◌++◌, ◌∷◌, [], OnOk, map};
ghost use Rattle.nft_rules.specs.Rendering.{with_statement, jump_each, jump_rules};
ghost use Rattle.nft_rules.specs.Seen.{statement_of, chain_name_of, nft_rule_of};
ghost use Rattle.nft_rules.specs.inner.Asked.{alternative_of};

use crate::Made;
use crate::alternative::{Alternative, Protocol, push_matches};
use crate::subset::{ChainName, Match, NftRule, Statement};

/// Puts a rule behind those that are there: of its matches those of the family and of the protocol are first.
#[tactic(auto, unfolding(crate::specs::Rendering::with_statement))]
fn push_rule<'c>(
    rules: &mut Vec<NftRule<'c>>,
    alternative: &Alternative<'c>,
    statement: Statement<'c>,
) -> Made<()>
    ensures { OnOk result (map nft_rule_of rules.new.items ≡ map nft_rule_of rules.old.items
        ++ with_statement (statement_of statement.entry) (alternative_of alternative.now) ∷ []) }
{
    let mut matches = Vec::new(*rules.allocator());
    if let Some(family) = alternative.family {
        matches.push(Match::OfFamily(family))?;
    }
    match alternative.protocol {
        Protocol::AnyProtocol => {}
        Protocol::Only(number) => matches.push(Match::OfProtocol(number, false))?,
        Protocol::NotTcp => matches.push(Match::OfProtocol(6, true))?,
    }
    push_matches(&mut matches, &alternative.tests)?;
    Ok(rules.push(NftRule { matches, statement })?)
}

/// Puts a rule with this statement for each alternative behind those that are there.
pub(crate) fn push_rules<'c>(
    rules: &mut Vec<NftRule<'c>>,
    alternatives: &[Alternative<'c>],
    statement: Statement<'c>,
) -> Made<()>
    ensures { OnOk result (map nft_rule_of rules.new.items ≡ map nft_rule_of rules.old.items
        ++ map (with_statement (statement_of statement.entry)) (map alternative_of alternatives.now)) }
{
    for alternative in alternatives {
        push_rule(rules, alternative, statement)?;
    }
    Ok(())
}

#[tactic(auto, unfolding(crate::specs::Rendering::jump_each))]
/// Puts a jump to each chain, in their order, under one alternative behind the rules that are there.
fn push_each<'c>(
    rules: &mut Vec<NftRule<'c>>,
    alternative: &Alternative<'c>,
    chains: &[ChainName<'c>],
) -> Made<()>
    ensures { OnOk result (map nft_rule_of rules.new.items ≡ map nft_rule_of rules.old.items
        ++ jump_each (map chain_name_of chains.now) (alternative_of alternative.now)) }
{
    for chain in chains {
        push_rule(rules, alternative, Statement::Jump(*chain))?;
    }
    Ok(())
}

/// Puts the jumps to these chains under each alternative behind the rules that are there.
pub(crate) fn push_jumps<'c>(
    rules: &mut Vec<NftRule<'c>>,
    alternatives: &[Alternative<'c>],
    chains: &[ChainName<'c>],
) -> Made<()>
    ensures { OnOk result (map nft_rule_of rules.new.items ≡ map nft_rule_of rules.old.items
        ++ jump_rules (map alternative_of alternatives.now) (map chain_name_of chains.now)) }
{
    for alternative in alternatives {
        push_each(rules, alternative, chains)?;
    }
    Ok(())
}
