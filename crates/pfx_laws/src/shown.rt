//! What is shown of a ruleset is read as that ruleset.

ghost use Rattle.std.specs.Prelude.{List, Ok, length, true, ◌≡◌, ◌≤◌, ℕ};
ghost use Rattle.std.specs.List.{list_all};
ghost use Rattle.pf_rules.specs.declared.profile.Profile.{Profile as IProfile};
ghost use Rattle.pf_rules.specs.Rulesets.{RulesetValue};
ghost use Rattle.pf_show.specs.Shown.{shown};
ghost use Rattle.pf_grammar.specs.declared.place.Place.{Place as IPlace};
ghost use Rattle.pf_grammar.specs.Reading.{reading};
ghost use Rattle.pfx_laws.specs.Lengths.{is_short};

/// A ruleset that was read is the same after it is shown and read again at the same place and profile, where the line
/// of the skipped interfaces and each rule with a block have no more tokens than a statement may have. That no line has
/// a bad token, an unknown macro or more than 64 open braces, and that a rule without a block is short, follows from
/// the text.
pub fn shown_is_read_again()
    ensures { (place : IPlace) (profile : IProfile) (text : List ℕ) (r : RulesetValue) → length r.skip ≤ 65531 →
        list_all is_short r.items ≡ true → reading place profile text ≡ Ok r →
        reading place profile (shown r) ≡ Ok r }
{}
