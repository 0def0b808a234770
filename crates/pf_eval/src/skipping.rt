//! Packets on skipped interfaces.

ghost use Rattle.std.specs.Prelude.{◌≡◌};
ghost use Rattle.std.specs.List.{list_any};
ghost use Rattle.pf_config.specs.SkippedNames.{is_listed};
ghost use Rattle.pf_eval.specs.Verdicts.{is_skipped};

use crate::packet::Packet;
use pf_config::Config;
use pf_rules::InterfaceName;

/// Whether one of the names is one of a skipped interface.
fn any_skipped(config: &Config, names: &[InterfaceName]) -> bool
    ensures { result ≡ list_any (λ m. is_listed m config.now.skip) names.now }
{
    names.iter().any(|name| config.is_skipped(name.as_bytes()))
}

/// Whether the packet is on an interface that is skipped: each name of its interface is looked for at the logarithm of
/// their number.
pub(crate) fn is_skipped(config: &Config, packet: &Packet) -> bool
    ensures { result ≡ is_skipped config.now.skip packet.now }
{
    let own = packet.interface.as_bytes();
    if config.is_skipped(own) {
        return true;
    }
    let stem = &own[..packet.stem];
    if config.is_skipped(stem) {
        return true;
    }
    any_skipped(config, &packet.groups)
}
