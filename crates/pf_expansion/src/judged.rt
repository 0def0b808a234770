//! What is wrong with rules, at every depth of their blocks.

ghost use Rattle.std.specs.Prelude.{◌≡◌};
ghost use Rattle.pf_rules.specs.declared.parts.FlagTest.{FlagTest};
ghost use Rattle.pf_statements.specs.ConditionsSeen.{conditions_of};
ghost use Rattle.pf_statements.specs.Seen.{item_text_of, item_texts_of};
ghost use Rattle.pf_expansion.specs.Blocks.{both, conditions_judged, item_judged, block_judged, nothing_wrong};
ghost use Rattle.pf_expansion.specs.Blocks.{rule_count, ruleset_judged};
ghost use Rattle.pf_expansion.specs.Causes.{lowest};
ghost use Rattle.pf_expansion.specs.inner.Judged.{judged_causes};

use crate::cause::Cause;
use crate::counts::count_combined;
use crate::judge::{MOST_RULES, bad_ports, bad_types, has_deep_list, is_too_wide};
use pf_statements::{WrittenConditions, WrittenItem};

/// One rule more than a ruleset may have.
const TOO_MANY_RULES: usize = 1_025;

/// What is wrong with rules, and how many they give, of which no more than 1,025 are distinguished.
#[derive(Clone, Copy, PartialEq, Eq, Default)]
pub struct Judged {
    /// A port is no port, or is in a rule without protocols that have ports.
    pub ports: bool,
    /// No combination of what a rule lists is of one family.
    pub combination: bool,
    /// There are too many combinations, nested lists, or rules in a block.
    pub many: bool,
    /// A type of ICMP is no type, or is in a rule of another protocol.
    pub types: bool,
    /// How many rules there are.
    pub rules: usize,
}

impl Judged {
    /// What is wrong with either.
    #[tactic(auto, using(crate::proofs::Capped::twice_capped))]
    fn and(self, other: Judged) -> Judged
        ensures { result ≡ both self other }
    {
        Judged {
            ports: self.ports || other.ports,
            combination: self.combination || other.combination,
            many: self.many || other.many,
            types: self.types || other.types,
            rules: self.rules.saturating_add(other.rules).min(TOO_MANY_RULES),
        }
    }

    /// The lowest cause that refuses what is judged behind that many rules, where a name is reserved or not, and a path
    /// comes again or not.
    #[tactic(auto, using(crate::proofs::Capped::first_chosen, crate::proofs::Products::below_cap))]
    pub(crate) fn cause(self, before: usize, reserved: bool, twice: bool) -> Option<Cause>
        ensures { result ≡ lowest (judged_causes self before reserved twice) }
    {
        let many = self.many || before.saturating_add(self.rules) > MOST_RULES;
        self.ports
            .then_some(Cause::Ports)
            .or(self.combination.then_some(Cause::NoCombination))
            .or(reserved.then_some(Cause::Reserved))
            .or(twice.then_some(Cause::Twice))
            .or(many.then_some(Cause::TooMany))
            .or(self.types.then_some(Cause::IcmpType))
    }

    /// The same of a ruleset of its own.
    fn of_ruleset(self) -> Judged
        ensures { result ≡ ruleset_judged self }
    {
        let mut judged = self;
        judged.many = self.many || self.rules >= TOO_MANY_RULES;
        judged.rules = 0;
        judged
    }
}

/// How many rules the conditions give, where they aren't refused for their width.
#[tactic(auto, unfolding(crate::specs::Blocks::rule_count))]
fn rule_count(text: &WrittenConditions) -> usize
    ensures { (test : FlagTest) → result ≡ rule_count test (conditions_of text.now) }
{
    if is_too_wide(text) {
        return 0;
    }
    count_combined(text)
}

/// What is wrong with the conditions of a rule, whatever is asked of the flags.
#[tactic(auto, unfolding(crate::specs::Blocks::conditions_judged), using(crate::proofs::Capped::none_counted))]
pub(crate) fn conditions_judged(text: &WrittenConditions) -> Judged
    ensures { (test : FlagTest) → result ≡ conditions_judged test (conditions_of text.now) }
{
    let rules = rule_count(text);
    Judged {
        ports: bad_ports(text),
        combination: !is_too_wide(text) && rules == 0,
        many: is_too_wide(text) || has_deep_list(text),
        types: bad_types(text),
        rules,
    }
}

/// What is wrong with a rule, or with one in its block.
#[cycle(judged)]
pub(crate) fn item_judged(item: &WrittenItem) -> Judged
    ensures { result ≡ item_judged (item_text_of item.now) }
{
    match item {
        WrittenItem::Rule(rule) => conditions_judged(&rule.conditions),
        WrittenItem::Anchor(anchor) => conditions_judged(&anchor.conditions),
        WrittenItem::Block(heading, items) => {
            conditions_judged(&heading.conditions).and(items_judged(items).of_ruleset())
        }
    }
}

/// What is wrong with the rules of a block.
#[cycle(judged)]
fn items_judged(items: &[WrittenItem]) -> Judged
    ensures { result ≡ block_judged nothing_wrong (item_texts_of items.now) }
{
    let mut judged = Judged::default();
    for item in items {
        judged = judged.and(item_judged(item));
    }
    judged
}
