//! A lab with what was delivered and shown of its messages.

ghost use Rattle.std.specs.Prelude.{◌≡◌, ◌||◌, nat_lt, nat_eq};
ghost use Rattle.std.specs.List.{list_any};

use crate::state::Lab;

/// A lab, and of its messages what was delivered and what was shown.
#[derive(Drop)]
pub(crate) struct Bench {
    pub(crate) lab: Lab,
    /// How many members it has.
    pub(crate) members: u8,
    /// All messages below this number were delivered.
    pub(crate) passed: usize,
    /// The numbers of others that were delivered.
    pub(crate) delivered: Vec<usize>,
    /// All messages below this number were shown.
    pub(crate) shown: usize,
}

/// Whether the number is in the list.
fn has(numbers: &[usize], k: usize) -> bool
    ensures { result ≡ list_any (λ j. nat_eq j k) numbers.now }
{
    numbers.iter().any(|j| *j == k)
}

impl Bench {
    /// Whether the message was delivered, be it to a stopped node or under a stop.
    pub(crate) fn is_delivered(&self, k: usize) -> bool
        ensures { result ≡ (nat_lt k self.now.passed || list_any (λ j. nat_eq j k) self.now.delivered.items) }
    {
        k < self.passed || has(&self.delivered, k)
    }
}
