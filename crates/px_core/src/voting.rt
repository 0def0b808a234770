//! Keeping and counting votes.
ghost use Rattle.std.specs.Prelude.{◌≡◌, ℕ, ◌+◌, ◌*◌, ◌<◌, ◌≤◌, if◌then◌else◌, nat_lt};
ghost use Rattle.std.specs.Prelude.{nat_eq, IfOk};
ghost use Rattle.px_core.specs.Cells.{kept_in};
ghost use Rattle.px_core.specs.inner.Cells.{forgotten_below};
ghost use Rattle.px_model.specs.Step.{keep, is_majority};
ghost use Rattle.px_core.specs.declared.limits.TheConstants.{MEMBERS, WINDOW};

use crate::votes::{Cell, Votes};
use std::alloc::{AllocError, Global};

impl Votes {
    /// No vote is kept, and the front is 0.
    pub(crate) fn new(alloc: Global) -> Result<Votes, AllocError>
        ensures front { IfOk result (λ v. v.front ≡ 0) }
        ensures kept { IfOk result (λ v. kept_in v.front v.cells.items ≡ (λ p m. 0)) }
    {
        let cells = vec![in alloc; Cell {
            position: 0,
            ballot: 0
        }; 960]?;
        Ok(Votes { front: 0, cells })
    }

    /// No vote is kept any more. The front stays.
    pub(crate) fn forget(&mut self)
        ensures kept { kept_in self.new.front self.new.cells.items ≡ (λ p m. 0) }
        ensures front { self.new.front ≡ self.old.front }
    {
        self.cells.fill(Cell {
            position: 0,
            ballot: 0,
        });
    }

    /// The member's kept ballot at the position, 0 for none.
    pub(crate) fn kept(&self, position: u32, member: u8) -> u64
        requires front { self.now.front ≤ position }
        requires member { member < MEMBERS }
        ensures { result ≡ kept_in self.now.front self.now.cells.items position member }
    {
        let cell = self.cells[(position % 64) as usize * 15 + member as usize];
        if cell.position == position {
            cell.ballot
        } else {
            0
        }
    }

    /// Keeps the ballot if it is above the kept one. The position is in the window.
    pub(crate) fn keep(&mut self, position: u32, member: u8, ballot: u64)
        requires front { self.old.front ≤ position }
        requires window { position < self.old.front + WINDOW }
        requires member { member < MEMBERS }
        ensures kept { kept_in self.new.front self.new.cells.items ≡
            keep (kept_in self.old.front self.old.cells.items) position member ballot }
        ensures front { self.new.front ≡ self.old.front }
    {
        let kept = self.kept(position, member);
        if kept < ballot {
            self.cells[(position % 64) as usize * 15 + member as usize] = Cell { position, ballot };
        }
    }

    /// The front moves up, and votes below it are forgotten.
    pub(crate) fn advance(&mut self, front: u32)
        requires { self.old.front ≤ front }
        ensures kept { kept_in self.new.front self.new.cells.items ≡
            forgotten_below front (kept_in self.old.front self.old.cells.items) }
        ensures front { self.new.front ≡ front }
    {
        self.front = front;
    }

    /// The ballot that the member would have kept at this position after the voter's vote.
    fn with_vote(&self, position: u32, voter: u8, ballot: u64, member: u8) -> u64
        requires front { self.now.front ≤ position }
        requires member { member < MEMBERS }
        ensures { result ≡
            keep (kept_in self.now.front self.now.cells.items) position voter ballot position member }
    {
        let kept = self.kept(position, member);
        if member == voter && kept < ballot {
            ballot
        } else {
            kept
        }
    }

    /// Whether the members whose kept ballot is this one would be a majority after the voter's vote.
    pub(crate) fn would_agree(&self, members: u8, position: u32, voter: u8, ballot: u64) -> bool
        requires front { self.now.front ≤ position }
        requires members { members ≤ MEMBERS }
        ensures { result ≡ is_majority members (λ m.
            nat_eq (keep (kept_in self.now.front self.now.cells.items) position voter ballot position m) ballot) }
    {
        let mut votes: usize = 0;
        for member in 0..members {
            if self.with_vote(position, voter, ballot, member) == ballot {
                votes += 1;
            }
        }
        (members as usize) < 2 * votes
    }
}
