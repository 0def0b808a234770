//! Laws over the definitions.

ghost use Rattle.pf_rules.specs.Rulesets.{RulesetValue};
ghost use Rattle.pf_grammar.specs.Again.{FitsStatement};
ghost use Rattle.pf_grammar.specs.Reading.{reading};
ghost use Rattle.std.specs.List.{AllByRecursion};
ghost use Rattle.pf_show.specs.Shown.{shown};
ghost use Rattle.pf_grammar.specs.declared.place.Place.{Place as IPlace};
ghost use Rattle.pf_rules.specs.declared.profile.Profile.{Profile as IProfile};
ghost use Rattle.std.specs.Prelude.{List, Ok, length, ◌≡◌, ◌≤◌, ℕ};

/// A ruleset that was read is the same after it is shown and read again at the same place and profile, where the line
/// of the skipped interfaces has no more than the 65,536 tokens that a statement may have, and neither have the lines
/// of a rule with its block, nor more than 64 open braces.
pub fn reading_again()
    ensures { (place : IPlace) (profile : IProfile) (text : List ℕ) (r : RulesetValue) → length r.skip ≤ 65531 →
        AllByRecursion FitsStatement r.items → reading place profile text ≡ Ok r →
        reading place profile (shown r) ≡ Ok r }
{}
