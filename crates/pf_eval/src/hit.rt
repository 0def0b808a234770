//! A filter rule that matches.

ghost use Rattle.std.specs.Prelude.{◌≡◌};
ghost use Rattle.pf_eval.specs.inner.Seen.{tables_of};
ghost use Rattle.pf_eval.specs.inner.TwoWalks.{rule_spot, spot_in};

use crate::matching::matches;
use crate::packet::Packet;
use crate::scope::Scope;
use pf_rules::{Action, Name, Rule};

/// A filter rule that matches: its place, and what it does.
#[derive(Clone, Copy)]
pub(crate) struct Hit<'c> {
    pub(crate) names: &'c [Name],
    pub(crate) index: u32,
    pub(crate) action: Action,
}

/// The hit of a filter rule, if it matches.
#[inline(never)]
pub(crate) fn rule_hit<'c>(
    scope: Scope<'c>,
    packet: &Packet,
    index: u32,
    rule: &Rule,
) -> Option<Hit<'c>>
    ensures { spot_in result ≡ rule_spot (tables_of scope.entry) packet.now scope.entry.path.now index rule.now }
{
    if !matches(scope, &rule.conditions, packet) {
        return None;
    }
    Some(Hit {
        names: scope.path,
        index,
        action: rule.action,
    })
}
