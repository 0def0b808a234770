//! Laws over the definitions.

ghost use Rattle.std.specs.Prelude.{List, Option, Some, ℕ, false, ◌≡◌, ◌≤◌};
ghost use Rattle.std.specs.List.{list_any};
ghost use Rattle.pf_addr.specs.declared.addr.Family.{Family};
ghost use Rattle.pf_rules.specs.declared.ruleset.TableEntry.{TableEntry};
ghost use Rattle.pf_tables.specs.Tables.{in_table};
ghost use Rattle.pf_config.specs.Map.{Configuration};
ghost use Rattle.pf_eval.specs.Packets.{PacketValue};
ghost use Rattle.pf_eval.specs.Verdicts.{judgement};
ghost use Rattle.nft_rules.specs.Subset.{Base, Decision};
ghost use Rattle.nft_rules.specs.Evaluation.{run};
ghost use Rattle.nft_rules.specs.Rendering.{Machine, rendered, decision_of};
ghost use Rattle.nft_rules.specs.Deciding.{IsPacketOn, some_leads_back};
ghost use Rattle.nft_rules.specs.Guard.{Member, HookPacket, GuardPasses};
ghost use Rattle.nft_rules.specs.Cuts.{is_within, address, top, elements};

/// The intervals of a table's set hold an address exactly where the table does: its most specific entry decides.
pub fn sets_hold_tables()
    ensures { (f : Family) (a : ℕ) (entries : List TableEntry) → a ≤ top f →
        list_any (is_within a) (elements f entries) ≡ in_table (address f a) entries }
{}

/// What a rendered ruleset decides of a packet on one of the machine's interfaces is the verdict of the configuration:
/// accept, drop or reject, and the deciding rule as `path@index`. Jumps may nest 10 deep or deeper. Left out are
/// configurations in which an anchor rule's target is the anchor that holds it.
pub fn rendered_as_judged()
    ensures { (c : Configuration) (m : Machine) (k : PacketValue) (depth : ℕ) → some_leads_back c ≡ false →
        IsPacketOn m k → 10 ≤ depth →
        run depth (rendered c m k.direction) k Base ≡ Some (decision_of (judgement c k)) }
{}

/// Whatever is behind the members' guard, it accepts the members' packets, and of every other packet it is decided
/// as without it.
pub fn guard_passes_members()
    ensures { (ms : List Member) (behind : HookPacket → Option Decision) → GuardPasses ms behind }
{}
