//! Anchor rules nest no deeper than the definition of a verdict goes.

ghost use Rattle.std.specs.Prelude.{◌≡◌, ◌≤◌, List, length, true};
ghost use Rattle.std.specs.List.{list_all};
ghost use Rattle.pf_rules.specs.Items.{AnyRule};
ghost use Rattle.pf_rules.specs.Names.{Name};
ghost use Rattle.pf_config.specs.Map.{Configuration, Path};
ghost use Rattle.pf_eval.specs.Packets.{PacketValue};
ghost use Rattle.pf_eval.specs.Verdicts.{Hit, flat_judgement, hits, judgement};
ghost use Rattle.pfx_laws.specs.Alone.{alone};
ghost use Rattle.pfx_laws.specs.Targets.{has_target, have_targets};
ghost use Rattle.pfx_laws.specs.Walks.{AreHits, judged_by};

/// The hits of a verdict, which the definition follows through nine levels of anchors, are what the rules of each path
/// give with the hits at their targets: nothing is cut off at the ninth. The target of each anchor rule has 1 to 8
/// names, as the grammar has it.
pub fn nine_levels_are_all()
    ensures { (c : Configuration) (k : PacketValue) → have_targets c ≡ true → AreHits c k (hits 9 c k) }
{}

/// There is no other answer to that equation, at main and at every path of up to 8 names: the verdict is that of
/// whatever satisfies it.
pub fn one_walk()
    ensures hits { (c : Configuration) (k : PacketValue) (at : Path → List Hit) → have_targets c ≡ true →
        AreHits c k at → (p : Path) → length p ≤ 8 → at p ≡ hits 9 c k p }
    ensures judged { (c : Configuration) (k : PacketValue) (at : Path → List Hit) → have_targets c ≡ true →
        AreHits c k at → judgement c k ≡ judged_by c k at }
{}

/// The verdict of rules alone, without a configuration, is that of the configuration that has them at main, and no
/// table and no other anchor.
pub fn flat_verdicts_are_verdicts()
    ensures { (skip : List Name) (rules : List AnyRule) (k : PacketValue) → list_all has_target rules ≡ true →
        flat_judgement skip rules k ≡ judgement (alone skip rules) k }
{}
