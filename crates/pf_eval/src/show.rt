//! Verdicts as text.

ghost use Rattle.std.specs.Prelude.{◌≡◌, IfOk, Some, option_map, string_bytes};
ghost use Rattle.pf_eval.specs.Seen.{judgement_of, path_text, verdict_text, verdict_for};

use crate::answer::Verdict;
use crate::decide::verdict;
use crate::fault::PacketFault;
use crate::reading::parse_packet;
use pf_config::Config;
use pf_rules::Name;
use std::alloc::{AllocError, Global};
use std::fmt;

/// A path, a slash between its names.
#[derive(Clone, Copy)]
struct PathText<'a>(&'a [Name]);

impl fmt::Display for PathText<'_> {
    ghost output = { λ p. Some (path_text p.0.now) };

    fn fmt<W: fmt::Write>(&self, f: &mut fmt::Formatter<W>) -> fmt::Result {
        match self.0 {
            [] => Ok(()),
            [first, others @ ..] => {
                f.write_str(first.as_str())?;
                for name in others {
                    write!(f, "/{}", name.as_str())?;
                }
                Ok(())
            }
        }
    }
}

impl fmt::Display for Verdict<'_> {
    ghost output = { λ v. Some (verdict_text (judgement_of v)) };

    fn fmt<W: fmt::Write>(&self, f: &mut fmt::Formatter<W>) -> fmt::Result {
        match *self {
            Verdict::Skip => f.write_str("pass skip"),
            Verdict::Default => f.write_str("pass default"),
            Verdict::Pass(spot) => write!(f, "pass {}@{}", PathText(spot.names), spot.index),
            Verdict::Drop(spot) => write!(f, "block drop {}@{}", PathText(spot.names), spot.index),
            Verdict::Return(spot) => write!(
                f,
                "block return {}@{}",
                PathText(spot.names),
                spot.index
            ),
        }
    }
}

/// A verdict as text: `pass skip`, `pass default`, or what is done, a blank, the path of the deciding rule's anchor,
/// `@`, and the rule's place. Main's path is empty. A growth that is refused is the error.
pub fn show_verdict(alloc: Global, verdict: &Verdict<'_>) -> Result<String, AllocError>
    ensures { IfOk result (λ text. string_bytes text ≡ verdict_text (judgement_of verdict.now)) }
{
    format!(in alloc; "{verdict}")
}

/// The verdict of a configuration for a packet's text, as text; none where it is no packet.
#[tactic(auto, unfolding(crate::specs::Seen::verdict_for))]
pub fn verdict_for(
    alloc: Global,
    config: &Config,
    packet: &str,
) -> Result<Option<String>, AllocError>
    ensures { IfOk result (λ found. option_map string_bytes found ≡ verdict_for config.now packet.now) }
{
    match parse_packet(alloc, packet) {
        Ok(packet) => {
            let shown = show_verdict(alloc, &verdict(config, &packet))?;
            Ok(Some(shown))
        }
        Err(PacketFault::Memory) => Err(AllocError),
        Err(PacketFault::BadPacket) => Ok(None),
    }
}
