//! What is true of the packets that a member sends.

ghost use Rattle.px_transport.specs.SendingLaws.{CountersFollow};

/// A member's packets have consecutive counters, whatever is sent to others between them: none is used twice.
pub fn counters_follow()
    ensures { CountersFollow }
{}
