//! What messages show of how far other members are.

ghost use Rattle.std.specs.Prelude.{◌≡◌};
ghost use Rattle.node_loop.specs.Progress.{shown_by, looked, reaching, lacking, lacked};

use crate::packet::MEMBERS;
use px_wire::{Head, Kind};

/// What was seen of other members since the start, by the messages that came to this one. It decides when the clock
/// ticks and what is sent again, and nothing else.
#[derive(Clone, Copy, PartialEq, Eq, Default)]
pub(crate) struct PeerProgress {
    /// A position below which some member has learned all, as far as is seen.
    pub(crate) reached: u32,
    /// Whether an entry that was asked for has come since the last look.
    pub(crate) has_learned: bool,
    /// One more than the last position of another's accept request that has come since the last look; 0 for none.
    pub(crate) accepting: u32,
    /// For each member that has shown since the last look how far it is: one more than the position from which on it is
    /// to be sent what it lacks; 0 for the others.
    lacking: [u32; MEMBERS],
}

impl PeerProgress {
    /// What has come is looked at.
    pub(crate) fn looked(self) -> PeerProgress
        ensures { result ≡ looked self }
    {
        PeerProgress::default().reaching(self.reached)
    }

    /// The position from which on this member is to be sent what it lacks, if it lacks any of those below the front.
    pub(crate) fn lacks(&self, member: u8, front: u32) -> Option<u32>
        ensures { result ≡ lacked member front self.now }
    {
        let next = *self.lacking.get(usize::from(member))?;
        (next > 0 && next <= front).then(|| next - 1)
    }

    /// This member lacks the positions from one less than this on.
    fn lacking(self, member: u8, next: u32) -> PeerProgress
        ensures { result ≡ lacking member next self }
    {
        let place = usize::from(member);
        if place >= MEMBERS {
            return self;
        }
        let mut lacking = self.lacking;
        lacking[place] = next;
        PeerProgress { lacking, ..self }
    }

    /// A member has learned all below this position.
    fn reaching(self, position: u32) -> PeerProgress
        ensures { result ≡ reaching position self }
    {
        let reached = self.reached.max(position);
        PeerProgress { reached, ..self }
    }

    /// With what a message with this head shows of its sender: how far it is, and what else one about a position shows.
    /// A need is answered with its own entry.
    pub(crate) fn after(self, head: &Head) -> PeerProgress
        ensures { result ≡ shown_by head.now self }
    {
        let seen = self.reaching(head.learned_below());
        let Some(position) = head.position else {
            return seen;
        };
        let next = position.saturating_add(1);
        match head.kind {
            Kind::Prepare | Kind::PrepareAll => seen.lacking(head.from, next),
            Kind::Need => seen.lacking(head.from, position.saturating_add(2)),
            Kind::Accept if head.from != head.to => {
                let accepting = seen.accepting.max(next);
                PeerProgress { accepting, ..seen }
            }
            Kind::Learned => PeerProgress {
                has_learned: true,
                ..seen
            },
            _ => seen,
        }
    }
}
