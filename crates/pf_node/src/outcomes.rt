//! What came of commands.

ghost use Rattle.std.specs.Prelude.{◌≡◌, ◌⊎◌, ◌<◌, ◌↔◌, [], ◌∷◌, IfSome, IsSome, take, length, slice_index_or};

use std::alloc::Global;
use std::collections::VecDeque;

/// What came of the command at a position, when it was applied.
#[derive(Clone, Copy, PartialEq, Eq)]
pub enum Outcome {
    /// It was done: how many entries, with their signs, were added to its table and removed from it, 0 and 0 where it
    /// isn't on one table.
    Done(usize, usize),
    /// It was refused, and changed nothing: the number of the refusal, and the line of a refused text, else 0.
    Refused(u8, u64),
    /// The entry spells no command, and changed nothing.
    NoCommand,
}

/// How many outcomes are kept.
const OUTCOMES: usize = 4096;

/// The outcomes of the last positions that were applied, the last one first.
#[derive(Drop)]
pub(crate) struct Outcomes {
    pub(crate) kept: VecDeque<Outcome>,
}

impl Outcomes {
    /// Those of no position.
    pub(crate) fn new(alloc: Global) -> Outcomes
        ensures { result.kept.items ≡ [] }
    {
        Outcomes {
            kept: VecDeque::new(alloc),
        }
    }

    /// Keeps one more, and lets the eldest go where there are too many. When out of memory all are let go.
    pub(crate) fn put(&mut self, outcome: Outcome)
        ensures { (self.new.kept.items ≡ outcome ∷ take 4095 self.old.kept.items) ⊎ (self.new.kept.items ≡ []) }
    {
        self.kept.truncate(OUTCOMES - 1);
        if self.kept.push_front(outcome).is_err() {
            self.kept.clear();
        }
    }

    /// The outcome that many positions before the last one.
    pub(crate) fn before(&self, back: usize) -> Option<Outcome>
        ensures kept { IsSome result ↔ (back < length self.now.kept.items) }
        ensures value { IfSome result (λ o. o ≡ slice_index_or self.now.kept.items back o) }
    {
        self.kept.get(back).copied()
    }
}
