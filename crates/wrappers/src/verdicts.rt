//! Verdicts.

ghost use Rattle.std.specs.Prelude.{◌≡◌};
ghost use Rattle.pf_eval.specs.Seen.{judgement_of};
ghost use Rattle.pf_eval.specs.Verdicts.{judgement};

use pf_config::Config;
use pf_eval::{Packet, Verdict};

/// [`pf_eval::verdict`]: what becomes of a packet in a configuration.
pub fn verdict<'c>(config: &'c Config, packet: &Packet) -> Verdict<'c>
    ensures { judgement_of result ≡ judgement config.now packet.now }
{
    pf_eval::verdict(config, packet)
}
