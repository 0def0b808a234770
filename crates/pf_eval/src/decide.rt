//! The verdict for a packet.

ghost use Rattle.std.specs.Prelude.{◌≡◌, [], map};
ghost use Rattle.pf_rules.specs.Seen.{rule_of};
ghost use Rattle.pf_eval.specs.Verdicts.{Decided, judgement, flat_judgement, is_skipped, hits, last_spot};
ghost use Rattle.pf_eval.specs.Seen.{judgement_of};
ghost use Rattle.pf_eval.specs.inner.TwoWalks.{spot_in};

use crate::answer::{Spot, Verdict};
use crate::flat::deciding_flat;
use crate::hit::Hit;
use crate::packet::Packet;
use crate::skipping;
use crate::walk::{Rules, Walk};
use pf_config::Config;
use pf_rules::{Action, InterfaceName, Ruleset};

/// How deep rules nest: the main ruleset, and the rules of paths of up to 8 names.
const NESTED: u8 = 9;

/// The verdict that the deciding hit gives.
fn decided(found: Option<Hit<'_>>) -> Verdict<'_>
    ensures { judgement_of result ≡ Decided (spot_in found.entry) }
{
    let Some(hit) = found else {
        return Verdict::Default;
    };
    let spot = Spot {
        names: hit.names,
        index: hit.index,
    };
    match hit.action {
        Action::Pass => Verdict::Pass(spot),
        Action::Drop => Verdict::Drop(spot),
        Action::Return => Verdict::Return(spot),
    }
}

/// The hit that decides: the first that ends the evaluation, else the last.
#[tactic(auto, using(crate::proofs::Deciding::decided_first, crate::proofs::Deciding::decided_second, crate::proofs::Anchors::anchor_is, crate::proofs::Anchors::anchor_names, crate::proofs::Anchors::main_there))]
fn deciding<'c>(config: &'c Config, packet: &Packet) -> Option<Hit<'c>>
    ensures { spot_in result ≡ last_spot (hits 9 config.now packet.now []) }
{
    let main = config.anchor(&[])?;
    let all = Rules {
        config,
        packet,
        depth: NESTED,
    };
    match all.found(Walk::Stops, main) {
        Some(hit) => Some(hit),
        None => all.found(Walk::Others, main),
    }
}

/// Whether the packet is on an interface that is skipped: each of them is compared in turn.
fn is_skipped(skip: &[InterfaceName], packet: &Packet) -> bool
    ensures { result ≡ is_skipped skip.now packet.now }
{
    skip.iter().any(|name| packet.is_on(name.as_bytes()))
}

/// The verdict of a configuration for a packet: a packet on a skipped interface passes at once; else the last matching
/// rule decides, and a matching `quick` rule ends the evaluation; where no rule matches the packet passes (pf.conf(5),
/// PACKET FILTERING). An anchor rule is evaluated in its place for packets that its own conditions match, and a quick
/// one ends the evaluation if a filter rule within it matched (pf.conf(5), ANCHORS). A rule that names a table means
/// that of its own anchor, else the main ruleset's.
pub fn verdict<'c>(config: &'c Config, packet: &Packet) -> Verdict<'c>
    ensures { judgement_of result ≡ judgement config.now packet.now }
{
    if skipping::is_skipped(config, packet) {
        return Verdict::Skip;
    }
    decided(deciding(config, packet))
}

/// The verdict of a ruleset for a packet, its tables taken as empty and its anchors passed over. Each skipped interface
/// is compared in turn, where `verdict` looks the packet's names up.
pub fn verdict_flat<'r>(ruleset: &'r Ruleset, packet: &Packet) -> Verdict<'r>
    ensures { judgement_of result ≡
        flat_judgement «ruleset».now.skip.items (map rule_of «ruleset».now.items.items) packet.now }
{
    if is_skipped(&ruleset.skip, packet) {
        return Verdict::Skip;
    }
    decided(deciding_flat(&ruleset.items, packet))
}
