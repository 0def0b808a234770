//! What is true of the packets that are accepted.

ghost use Rattle.px_packet.specs.ReplayLaws.{HeardOnce, OnceAStart, FreshIsHeard};

/// Over restarts of either side no packet is accepted twice but of kind state, if no start of the receiver is an
/// earlier one.
pub fn heard_once()
    ensures { HeardOnce }
{}

/// Within one start of the receiver no packet is accepted twice, of whatever kind.
pub fn once_a_start()
    ensures { OnceAStart }
{}

/// A packet that was sealed for this start of the receiver is accepted, if its counter is ahead of all that were.
pub fn fresh_is_heard()
    ensures { FreshIsHeard }
{}
