//! Chains as text.

ghost use Rattle.std.specs.Prelude.{◌≡◌, ◌≤◌, ◌++◌, OnOk, length, map, string_bytes};
ghost use Rattle.std.specs.List.{flat_map};
ghost use Rattle.nft_rules.specs.Seen.{chain_name_of, chain_of, nft_rule_of, ruleset_of, statement_of};
ghost use Rattle.nft_text.specs.Texts.{asks_interface, first_rules, front_text, states_text, chain_text, chain_gone};

use crate::Pushed;
use crate::labels::{ChainLabel, Generation, Whole};
use nft_rules::{Chain, ChainName, NftRule, Note, Statement};

/// Whether a rule that does this asks for the interface alone.
fn asks_interface(statement: Statement<'_>) -> bool
    ensures { result ≡ asks_interface (statement_of statement.entry) }
{
    match statement {
        Statement::Jump(_) => false,
        Statement::Ends { note, .. } => matches!(note, Note::Unknown | Note::Skip),
    }
}

/// How many rules at the front ask for the interface alone.
fn first_rules(rules: &[NftRule<'_>]) -> usize
    ensures value { result ≡ first_rules (map nft_rule_of rules.now) }
    ensures there { result ≤ length rules.now }
{
    let mut count = 0usize;
    for rule in rules {
        if !asks_interface(rule.statement) {
            return count;
        }
        count += 1;
    }
    count
}

/// What lets through what belongs to a connection, where a rule keeps state.
fn states_text(keeps: bool) -> &'static str
    ensures { result.now ≡ states_text keeps }
{
    if keeps {
        "ct state established,related counter accept comment \"state\"; "
    } else {
        ""
    }
}

impl<'c> Whole<'_, 'c> {
    /// Puts what is at the hook behind the rules that ask for the interface alone behind the text.
    fn push_front(self, out: &mut String, keeps: bool, name: ChainName<'c>) -> Pushed
        ensures { OnOk result (string_bytes out.new ≡ string_bytes out.old
            ++ front_text self.entry.position keeps (chain_name_of name.entry)) }
    {
        if let ChainName::Base = name {
            let generation = Generation(self.position);
            write!(out, "jump {generation}guard; {}", states_text(keeps))?;
        }
        Ok(())
    }

    /// Puts a chain behind the text.
    #[tactic(auto, using(crate::proofs::Parting::parted), unfolding(crate::specs::Texts::chain_text))]
    fn push_chain(self, out: &mut String, keeps: bool, chain: &Chain<'c>) -> Pushed
        ensures { OnOk result (string_bytes out.new ≡ string_bytes out.old
            ++ chain_text self.entry.position keeps self.entry.direction (ruleset_of self.entry.parts.now)
            (chain_of chain.now)) }
    {
        let (first, rest) = chain.rules.split_at(first_rules(&chain.rules));
        write!(out, "chain {} {{ ", ChainLabel(self, chain.name))?;
        self.push_rules(out, first)?;
        self.push_front(out, keeps, chain.name)?;
        self.push_rules(out, rest)?;
        out.push_str("}; ")
    }

    /// Puts the ruleset's chains, one behind the other, behind the text.
    pub(crate) fn push_chains(self, out: &mut String, keeps: bool) -> Pushed
        ensures { OnOk result (string_bytes out.new ≡ string_bytes out.old
            ++ flat_map (chain_text self.entry.position keeps self.entry.direction (ruleset_of self.entry.parts.now))
            (map chain_of self.entry.parts.now.chains.items)) }
    {
        for chain in &self.parts.chains {
            self.push_chain(out, keeps, chain)?;
        }
        Ok(())
    }

    /// Puts the end of a chain behind the text.
    #[tactic(auto, unfolding(crate::specs::Texts::chain_gone))]
    fn push_chain_gone(self, out: &mut String, chain: &Chain<'c>) -> Pushed
        ensures { OnOk result (string_bytes out.new ≡ string_bytes out.old ++ chain_gone self.entry.position
            self.entry.direction (ruleset_of self.entry.parts.now) (chain_of chain.now)) }
    {
        let label = ChainLabel(self, chain.name);
        write!(out, "delete chain inet reltzuma {label}; ")
    }

    /// Puts the end of the ruleset's chains behind the text.
    pub(crate) fn push_chains_gone(self, out: &mut String) -> Pushed
        ensures { OnOk result (string_bytes out.new ≡ string_bytes out.old
            ++ flat_map (chain_gone self.entry.position self.entry.direction (ruleset_of self.entry.parts.now))
            (map chain_of self.entry.parts.now.chains.items)) }
    {
        for chain in &self.parts.chains {
            self.push_chain_gone(out, chain)?;
        }
        Ok(())
    }
}
