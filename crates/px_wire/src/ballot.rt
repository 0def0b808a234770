//! Ballots.

ghost use Rattle.std.specs.Prelude.{◌≡◌, ◌↔◌, ◌<◌, ◌≤◌, ◌+◌, ◌*◌, ◌^◌, ℕ, IfSome};
ghost use Rattle.std.specs.Prelude.{IsSome};
ghost use Rattle.px_wire.specs.declared.limits.TheConstants.{NUMBERS, FIRST_BALLOT, BALLOTS};

use crate::limits::{BALLOTS, FIRST_BALLOT};

/// A round of a member. Ballots are compared by round, then by node. In messages and records a ballot is one number,
/// `round * 256 + node`, and 0 is none.
///
/// Source: Paxos Made Simple, 2.5, where proposers have numbers of their own.
#[derive(Clone, Copy, PartialEq, Eq, PartialOrd, Ord)]
pub struct Ballot {
    /// The round, 1 to 2^48-1.
    pub round: u64,
    /// The member that made it.
    pub node: u8,
}

impl Ballot {
    /// The ballot as one number.
    pub fn number(self) -> u64
        requires { self.round < NUMBERS }
        ensures { result ≡ self.round * 256 + self.node }
    {
        self.round * 256 + u64::from(self.node)
    }

    /// The ballot of that number; none where its round isn't 1 to 2^48-1.
    pub fn from_number(number: u64) -> Option<Ballot>
        ensures some { IfSome result (λ b. b.round * 256 + b.node ≡ number) }
        ensures none { IsSome result ↔ (FIRST_BALLOT ≤ number) × (number < BALLOTS) }
    {
        if number < FIRST_BALLOT || number >= BALLOTS {
            return None;
        }
        Some(Ballot {
            round: number / 256,
            node: (number % 256) as u8,
        })
    }
}
