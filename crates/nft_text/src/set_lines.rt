//! Sets as text.

ghost use Rattle.std.specs.Prelude.{◌≡◌, ◌++◌, OnOk, map, string_bytes};
ghost use Rattle.std.specs.List.{flat_map};
ghost use Rattle.nft_rules.specs.Seen.{named_set_of, ruleset_of};
ghost use Rattle.nft_text.specs.Texts.{elements_text, type_text, set_text, set_gone};

use crate::Pushed;
use crate::labels::{SetLabel, Whole};
use crate::numbers::push_interval;
use nft_rules::{Interval, NamedSet};
use pf_addr::Family;

/// Puts the elements of a set, if it has any, each with a comma behind it, behind the text.
#[tactic(auto, using(crate::proofs::Parting::some_elements))]
fn push_elements(out: &mut String, family: Family, elements: &[Interval]) -> Pushed
    ensures { OnOk result (string_bytes out.new ≡ string_bytes out.old ++ elements_text family elements.now) }
{
    if elements.is_empty() {
        return Ok(());
    }
    out.push_str("elements = { ")?;
    for element in elements {
        push_interval(out, family, element.low, element.high)?;
        out.push_str(", ")?;
    }
    out.push_str("}; ")
}

/// Of which type a set is.
fn type_text(family: Family) -> &'static str
    ensures { result.now ≡ type_text family }
{
    match family {
        Family::Inet => "type ipv4_addr; flags interval; ",
        Family::Inet6 => "type ipv6_addr; flags interval; ",
    }
}

impl<'c> Whole<'_, 'c> {
    /// Puts a set behind the text.
    #[tactic(auto, unfolding(crate::specs::Texts::set_text))]
    fn push_set(self, out: &mut String, set: &NamedSet<'c>) -> Pushed
        ensures { OnOk result (string_bytes out.new ≡ string_bytes out.old
            ++ set_text self.entry.position (ruleset_of self.entry.parts.now) (named_set_of set.now)) }
    {
        let family = set.name.family;
        let (label, what) = (SetLabel(self, set.name), type_text(family));
        write!(out, "set {label} {{ {what}")?;
        push_elements(out, family, &set.elements)?;
        out.push_str("}; ")
    }

    /// Puts the ruleset's sets, one behind the other, behind the text.
    pub(crate) fn push_sets(self, out: &mut String) -> Pushed
        ensures { OnOk result (string_bytes out.new ≡ string_bytes out.old
            ++ flat_map (set_text self.entry.position (ruleset_of self.entry.parts.now))
            (map named_set_of self.entry.parts.now.sets.items)) }
    {
        for set in &self.parts.sets {
            self.push_set(out, set)?;
        }
        Ok(())
    }

    /// Puts the end of a set behind the text.
    #[tactic(auto, unfolding(crate::specs::Texts::set_gone))]
    fn push_set_gone(self, out: &mut String, set: &NamedSet<'c>) -> Pushed
        ensures { OnOk result (string_bytes out.new ≡ string_bytes out.old
            ++ set_gone self.entry.position (ruleset_of self.entry.parts.now) (named_set_of set.now)) }
    {
        let label = SetLabel(self, set.name);
        write!(out, "delete set inet reltzuma {label}; ")
    }

    /// Puts the end of the ruleset's sets behind the text.
    pub(crate) fn push_sets_gone(self, out: &mut String) -> Pushed
        ensures { OnOk result (string_bytes out.new ≡ string_bytes out.old
            ++ flat_map (set_gone self.entry.position (ruleset_of self.entry.parts.now))
            (map named_set_of self.entry.parts.now.sets.items)) }
    {
        for set in &self.parts.sets {
            self.push_set_gone(out, set)?;
        }
        Ok(())
    }
}
