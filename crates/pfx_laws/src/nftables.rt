//! What is between a configuration and the kernel: labels in nftables' text, and anchor rules that lead back.

ghost use Rattle.std.specs.Prelude.{◌≡◌, ◌≢◌, ◌<◌, ◌^◌, ◌++◌, ℕ, List, codes, false, length, true};
ghost use Rattle.pf_rules.specs.declared.parts.Direction.{Direction};
ghost use Rattle.pf_entry.specs.Entry.{Entry};
ghost use Rattle.pf_command.specs.Effect.{after};
ghost use Rattle.nft_rules.specs.Deciding.{some_leads_back};
ghost use Rattle.nft_rules.specs.Subset.{ChainName, SetName, NftRuleset};
ghost use Rattle.nft_text.specs.Texts.{generation, chain_label, set_label};
ghost use Rattle.pfx_laws.specs.Labels.{has_chain, has_set};
ghost use Rattle.pfx_laws.specs.Logs.{have_paths};

/// In nftables' text each chain and each set has a label of its own: labels of two chains are equal only for one
/// position and direction, and in one ruleset only for one name; none is the label of a chain that every text has.
pub fn labels_are_unambiguous()
    ensures positions { (p q : ℕ) (d e : Direction) (r s : NftRuleset) (n m : ChainName) → p < 2 ^ 32 → q < 2 ^ 32 →
        chain_label p d r n ≡ chain_label q e s m → (p ≡ q) × (d ≡ e) }
    ensures chains { (p : ℕ) (d : Direction) (r : NftRuleset) (n m : ChainName) → length r.chains < 2 ^ 64 →
        has_chain r n ≡ true → has_chain r m ≡ true → chain_label p d r n ≡ chain_label p d r m → n ≡ m }
    ensures fixed { (p q : ℕ) (d : Direction) (r : NftRuleset) (n : ChainName) → p < 2 ^ 32 → q < 2 ^ 32 →
        (chain_label p d r n ≢ generation q ++ codes "guard") × (chain_label p d r n ≢ generation q ++ codes "refuse") ×
        (chain_label p d r n ≢ generation q ++ codes "members") }
    ensures set_positions { (p q : ℕ) (r s : NftRuleset) (n m : SetName) → p < 2 ^ 32 → q < 2 ^ 32 →
        set_label p r n ≡ set_label q s m → p ≡ q }
    ensures sets { (p : ℕ) (r : NftRuleset) (n m : SetName) → length r.sets < 2 ^ 64 →
        has_set r n ≡ true → has_set r m ≡ true → set_label p r n ≡ set_label p r m → n ≡ m }
{}

/// After no log does an anchor rule lead back to the anchor that holds it, so rendering never refuses one for that.
pub fn logs_never_lead_back()
    ensures { (entries : List Entry) → have_paths entries ≡ true → some_leads_back (after entries) ≡ false }
{}
