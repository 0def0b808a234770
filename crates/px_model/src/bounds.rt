//! Tests of ranges, for readers of what others may have written: a member whose values are within them sends only what
//! can be spelled.
ghost use Rattle.std.specs.Prelude.{◌≡◌, ◌≤◌, ◌↔◌, Bool, true, IfSome, IsTrue};
ghost use Rattle.px_model.specs.Bounds.{AnyCommand};
ghost use Rattle.px_model.specs.Fits.{Passes, IsBallot, IsPromise, EntryFits, ProposalFits, MetaFits, SlotFits};
ghost use Rattle.px_model.specs.Spelling.{Bytes};
ghost use Rattle.px_model.specs.Entries.{view_of};
ghost use Rattle.px_model.specs.Seen.{meta_of, slot_of, proposal_of};

use crate::entry::{Entry, EntryView};
use crate::record::{Meta, Proposal, Slot};

/// Rounds and numbers are below 2^48.
const NUMBERS: u64 = 1 << 48;

/// Whether one of that many members made the ballot.
fn is_ballot(members: u8, ballot: u64) -> bool
    ensures { IsTrue result ↔ IsBallot members ballot }
{
    let round = ballot / 256;
    1 <= round && round < NUMBERS && ballot % 256 < members as u64
}

/// Whether it is such a ballot, or 0 for none.
fn is_promise(members: u8, ballot: u64) -> bool
    ensures { IsTrue result ↔ IsPromise members ballot }
{
    ballot == 0 || is_ballot(members, ballot)
}

impl EntryView<'_> {
    /// Whether the command was submitted to one of n members, and its number is below 2^48. The command isn't looked
    /// at.
    pub fn fits(&self, members: u8) -> bool
        ensures exact { IsTrue result ↔ EntryFits AnyCommand members (view_of self.now) }
        ensures spelled { (test : Bytes → Bool) → IsTrue result → test (view_of self.now).command ≡ true →
            EntryFits (Passes test) members (view_of self.now) }
    {
        self.origin() < members && self.number() < NUMBERS
    }
}

/// Whether the ballot is one of that many members, not above what is promised, and the entry fits.
fn is_accepted(members: u8, promised: u64, proposal: &Proposal<Entry>) -> bool
    ensures exact { IsTrue result ↔
        (ProposalFits AnyCommand members (proposal_of proposal.now) × (proposal.now.ballot ≤ promised)) }
    ensures spelled { (test : Bytes → Bool) → IsTrue result →
        test (proposal_of proposal.now).entry.command ≡ true →
        ProposalFits (Passes test) members (proposal_of proposal.now) × (proposal.now.ballot ≤ promised) }
{
    proposal.ballot <= promised
        && is_ballot(members, proposal.ballot)
        && proposal.entry.view().fits(members)
}

impl Meta {
    /// Whether the round is below 2^48, the number at most that, and the floor 0 or a ballot of one of that many
    /// members.
    pub fn fits(&self, members: u8) -> bool
        ensures { IsTrue result ↔ MetaFits members (meta_of self.now) }
    {
        self.round < NUMBERS && self.number <= NUMBERS && is_promise(members, self.floor)
    }
}

impl Slot {
    /// Whether what is promised is 0 or a ballot of one of that many members, and what is accepted has a ballot of
    /// theirs that isn't above it, and an entry that fits. The entry's command isn't looked at.
    pub fn fits(&self, members: u8) -> bool
        ensures exact { IsTrue result ↔ SlotFits AnyCommand members (slot_of self.now) }
        ensures spelled { (test : Bytes → Bool) → IsTrue result →
            IfSome (slot_of self.now).accepted (λ x. test x.entry.command ≡ true) →
            SlotFits (Passes test) members (slot_of self.now) }
    {
        if !is_promise(members, self.promised) {
            return false;
        }
        match &self.accepted {
            None => true,
            Some(proposal) => is_accepted(members, self.promised, proposal),
        }
    }
}
