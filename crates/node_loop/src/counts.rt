//! What went over the wire in a round of the loop.

ghost use Rattle.std.specs.Prelude.{◌≡◌};
ghost use Rattle.node_loop.specs.Counts.{nothing_of, one_in, one_out};

use crate::packet::MEMBERS;

/// What went over the wire in a round, for counters. What is sent again isn't included.
#[derive(Clone, Copy, PartialEq, Eq, Default)]
pub struct RoundCounts {
    /// The member itself: what is sent to it is in memory.
    pub(crate) me: u8,
    /// How many datagrams came.
    pub came: u32,
    /// How many of these were empty, as a wire gives one in place of one that it drops, or asks where these aren't
    /// heard.
    pub dropped: u32,
    /// How many of them were requests that had come before, byte for byte, and were answered again.
    pub answered: u32,
    /// How many datagrams were not sent.
    pub unsent: u32,
    /// How many were handed to the wire for each member.
    pub sent: [u32; MEMBERS],
    /// The most bytes of one for another member.
    pub longest: usize,
}

impl RoundCounts {
    /// Nothing went over the wire of this member.
    pub(crate) fn new(me: u8) -> RoundCounts
        ensures { result ≡ nothing_of me }
    {
        RoundCounts {
            me,
            ..RoundCounts::default()
        }
    }

    /// One datagram more came, of that many bytes.
    pub(crate) fn count_in(&mut self, length: usize)
        ensures { self.new ≡ one_in length self.old }
    {
        self.came = self.came.saturating_add(1);
        if length == 0 {
            self.dropped = self.dropped.saturating_add(1);
        }
    }

    /// One more was handed over for this member, of that many bytes.
    pub(crate) fn count_out(&mut self, to: u8, length: usize, is_sent: bool)
        ensures { self.new ≡ one_out to length is_sent self.old }
    {
        self.unsent = self.unsent.saturating_add(u32::from(!is_sent));
        let place = usize::from(to);
        if place < MEMBERS {
            self.sent[place] = self.sent[place].saturating_add(1);
            if to != self.me {
                self.longest = self.longest.max(length);
            }
        }
    }
}
