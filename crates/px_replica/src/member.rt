//! A core with the membership that it sends to.

ghost use Rattle.std.specs.Prelude.{◌≡◌, ◌<◌};
ghost use Rattle.px_core.specs.Planning.{state_of};
ghost use Rattle.px_core.specs.Fitting.{CoreFits};
ghost use Rattle.px_wire.specs.Sent.{is_command};
ghost use Rattle.px_replica.specs.inner.Props.{core_prop};

use px_core::Core;
use px_wire::Membership;

/// A member, with the group that it sends to. All that it keeps can be spelled.
#[derive(Drop)]
pub(crate) struct Member {
    pub(crate) core: Core,
    pub(crate) group: Membership,
    ghost here: { group.me < group.members },
    ghost members: { (state_of core).members ≡ group.members },
    ghost me: { (state_of core).me ≡ group.me },
    ghost fits: { CoreFits is_command (state_of core) } by { core_prop (state_of core) },
}
