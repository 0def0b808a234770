//! What is true of the bytes that a cluster's key is made of.

ghost use Rattle.px_packet.specs.GroupLaws.{GroupsDiffer};

/// The bytes that a cluster's key is made of determine its number and its members' addresses, in order.
pub fn groups_differ()
    ensures { GroupsDiffer }
{}
