//! Whether a rule keeps state.

ghost use Rattle.std.specs.Prelude.{◌≡◌, map};
ghost use Rattle.std.specs.List.{list_any};
ghost use Rattle.pf_rules.specs.Seen.{rule_of};
ghost use Rattle.pf_config.specs.Map.{rules_at};
ghost use Rattle.nft_text.specs.States.{passes, keeps_state};

use pf_config::Config;
use pf_rules::{Action, Item, Name};

fn passes(action: Action) -> bool
    ensures { result ≡ passes action }
{
    matches!(action, Action::Pass)
}

/// Whether it is a pass rule that keeps state.
#[tactic(auto, using(crate::proofs::Keeping::filter_keeps, crate::proofs::Keeping::anchor_keeps))]
fn keeps_state(item: &Item) -> bool
    ensures { result ≡ keeps_state (rule_of item.now) }
{
    match item {
        Item::Filter(rule) => passes(rule.action) && rule.keeps_state,
        Item::Anchor(_) => false,
    }
}

/// Whether one of these rules keeps state.
fn any_keeps_state(items: &[Item]) -> bool
    ensures { result ≡ list_any keeps_state (map rule_of items.now) }
{
    items.iter().any(|item| keeps_state(item))
}

/// Whether a rule at one of these paths keeps state.
pub(crate) fn some_keep_state(config: &Config, paths: &[&[Name]]) -> bool
    ensures { result ≡ list_any (λ p. list_any keeps_state (rules_at config.now p)) (map (λ p. p.now) paths.now) }
{
    paths.iter().any(|path| any_keeps_state(config.items(path)))
}
