//! What holds of every lab.

ghost use Rattle.pf_lab.specs.Same.{LabsAgree, EquallyApplied};

/// Whatever happened to a lab: each entry that a member learned was chosen there and asked, at most one was chosen at a
/// position, and no entry is learned at two positions.
///
/// Source: Paxos Made Simple, 2.1.
pub fn labs_agree()
    ensures { LabsAgree }
{}

/// Whatever happened to a lab: two of its members that have applied equally many positions have one configuration, and
/// so give one verdict for every packet.
pub fn equally_applied_are_equal()
    ensures { EquallyApplied }
{}
