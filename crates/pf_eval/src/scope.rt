//! Where a rule is evaluated.

ghost use Rattle.std.specs.Prelude.{◌≡◌, []};
ghost use Rattle.pf_eval.specs.inner.Seen.{tables_of};
ghost use Rattle.pf_eval.specs.Verdicts.{no_tables, tables_in};

use pf_config::Config;
use pf_rules::Name;

/// The anchor whose rules are evaluated, and the configuration that has its tables; without one there is no table.
#[derive(Clone, Copy)]
pub(crate) struct Scope<'c> {
    pub(crate) config: Option<&'c Config>,
    pub(crate) path: &'c [Name],
}

/// The scope of the rules at a path.
#[tactic(auto, unfolding(crate::specs::inner::Seen::tables_of))]
pub(crate) fn scope_at<'c>(config: &'c Config, path: &'c [Name]) -> Scope<'c>
    ensures tables { tables_of result ≡ tables_in config.now path.now }
    ensures path { result.path.now ≡ path.now }
{
    Scope {
        config: Some(config),
        path,
    }
}

/// The scope of rules without tables and anchors.
#[tactic(auto, unfolding(crate::specs::inner::Seen::tables_of))]
pub(crate) fn nowhere<'r>() -> Scope<'r>
    ensures tables { tables_of result ≡ no_tables }
    ensures path { result.path.now ≡ [] }
{
    Scope {
        config: None,
        path: &[],
    }
}
