//! Who takes part.

ghost use Rattle.std.specs.Prelude.{◌≡◌, ◌≤◌, ◌<◌, ◌==◌, ◌||◌, ◌&&◌, nat_le, nat_lt};
ghost use Rattle.std.specs.Prelude.{IsTrue, IsSome, IfSome, ◌↔◌};

use crate::limits::{CLIENT, MEMBERS};

/// A cluster's number, how many members it has, and the number of the one that reads and writes: a member's, or 255.
#[derive(Clone, Copy, PartialEq, Eq)]
pub struct Membership {
    cluster: u32,
    members: u8,
    me: u8,
    ghost counted: { IsTrue (nat_le 1 members && nat_le members 15) },
    ghost placed: { IsTrue (nat_lt me members || me == 255) },
}

impl Membership {
    /// `None` unless there are 1 to 15 members and `me` is below them or 255.
    pub fn new(cluster: u32, members: u8, me: u8) -> Option<Membership>
        ensures some { IfSome result (λ m. (m.cluster ≡ cluster) × (m.members ≡ members) × (m.me ≡ me)) }
        ensures none { IsSome result ↔
            IsTrue (nat_le 1 members && nat_le members 15 && (nat_lt me members || me == 255)) }
    {
        if members >= 1 && members <= MEMBERS && (me < members || me == CLIENT) {
            Some(Membership {
                cluster,
                members,
                me,
            })
        } else {
            None
        }
    }

    /// The number that keeps clusters apart.
    pub fn cluster(&self) -> u32
        ensures { result ≡ self.now.cluster }
    {
        self.cluster
    }

    /// How many members there are, 1 to 15.
    pub fn members(&self) -> u8
        ensures { result ≡ self.now.members }
    {
        self.members
    }

    /// Who reads and writes: a member, or 255.
    pub fn me(&self) -> u8
        ensures { result ≡ self.now.me }
    {
        self.me
    }
}
