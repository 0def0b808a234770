//! What a sender has of one receiver.

ghost use Rattle.std.specs.Prelude.{◌≡◌, ◌+◌, ◌^◌, [], None, Some, IfOk, IfSome, IfNone, MatchOption, option_map};
ghost use Rattle.std.specs.Prelude.{replicate};
ghost use Rattle.px_packet.specs.Sending.{name_of, sent_after, cut_with};
ghost use Rattle.px_transport.specs.Sending.{new_to, named, counted, next_state, stated, refilled};

use px_packet::{SendBuffer, Start};
use std::alloc::{AllocError, Global};
use std::marker::Model;

/// How many milliseconds after a packet of kind state the next one is sent.
const STATE_EACH: u64 = 1_000;

/// How many, where the receiver showed a new start since.
const STATE_SOONEST: u64 = 20;

/// How many packets may go to a receiver in [`BURST_TIME`]: a socket buffers that many before they are read, where
/// nobody set another size (212,992 bytes, of which Linux counts 2,304 for a packet of 1,232).
const BURST: u8 = 92;

/// In how many milliseconds a receiver reads them.
const BURST_TIME: u64 = 5;

/// What a sender has of one receiver: how many packets it sealed for it, the datagrams that it cut for it last, when it
/// sent a packet of kind state, with which echo, and how many pieces may still go to it.
#[derive(Drop)]
pub(crate) struct Outgoing {
    counter: u64,
    buffer: SendBuffer,
    stated: Option<u64>,
    echoed: Start,
    /// Since when its packets are counted, in milliseconds.
    since: u64,
    left: u8,
}

impl Model for Outgoing {
    ghost use Rattle.px_transport.specs.Sending.{ToMember};

    ghost Value = { ToMember };

    ghost view = { λ o. record {
      counter = o.counter;
      sent = o.buffer;
      stated = o.stated;
      echoed = o.echoed;
      since = o.since;
      left = o.left;
    } };
}

impl Outgoing {
    /// Nothing was sent. Allocates nothing.
    pub(crate) fn new(alloc: Global) -> Outgoing
        ensures { result ≡ new_to }
    {
        Outgoing {
            counter: 0,
            buffer: SendBuffer::new(alloc),
            stated: None,
            echoed: Start::NEVER,
            since: 0,
            left: BURST,
        }
    }

    /// The counter of the next packet; none where all were used.
    pub(crate) fn next(&self) -> Option<u64>
        ensures next { IfSome result (λ n. n ≡ self.now.counter + 1) }
        ensures none { IfNone result (self.now.counter ≡ 18446744073709551615) }
    {
        self.counter.checked_add(1)
    }

    /// The next counter is used.
    pub(crate) fn count(&mut self, counter: u64)
        requires { counter ≡ self.old.counter + 1 }
        ensures { self.new ≡ counted self.old }
    {
        self.counter = counter;
        self.left = self.left.saturating_sub(1);
    }

    /// It is this time: after each [`BURST_TIME`] a [`BURST`] may go to it again.
    pub(crate) fn refill(&mut self, now: u64)
        ensures { self.new ≡ refilled now self.old }
    {
        if now.saturating_sub(self.since) >= BURST_TIME {
            self.since = now;
            self.left = BURST;
        }
    }

    /// How many pieces may still go to it.
    pub(crate) fn left(&self) -> u8
        ensures { result ≡ self.now.left }
    {
        self.left
    }

    /// The name of a datagram that is cut, which is kept.
    pub(crate) fn name(&mut self, datagram: &[u8]) -> Option<u32>
        ensures name { IfSome result (λ n. n ≡ name_of self.old.sent datagram.now) }
        ensures after { IfSome result (λ n. self.new ≡ named datagram.now self.old) }
        ensures refused { IfNone result (self.new ≡ self.old) }
    {
        self.buffer.name(datagram).ok()
    }

    /// The datagram with a name, while it is kept.
    pub(crate) fn get(&self, name: u32) -> Option<&[u8]>
        ensures { option_map (λ b. b.now) result ≡ cut_with self.now.sent name }
    {
        self.buffer.get(name)
    }

    /// When a packet of kind state is to be sent next, to a receiver with this start.
    pub(crate) fn due(&self, start: Start) -> u64
        ensures { result ≡ next_state self.now start }
    {
        let Some(stated) = self.stated else {
            return 0;
        };
        if start == self.echoed {
            return stated.saturating_add(STATE_EACH);
        }
        stated.saturating_add(STATE_SOONEST)
    }

    /// A packet of kind state is sent at this time, to a receiver with this start.
    pub(crate) fn state(&mut self, now: u64, start: Start)
        ensures { self.new ≡ stated now start self.old }
    {
        self.stated = Some(now);
        self.echoed = start;
    }
}

/// Nothing was sent to the given number of members.
pub(crate) fn none_sent(alloc: Global, members: u8) -> Result<Vec<Outgoing>, AllocError>
    ensures { IfOk result (λ os. os.items ≡ replicate members new_to) }
{
    let mut outgoing = Vec::with_capacity(alloc, usize::from(members))?;
    for _ in 0..members {
        outgoing.push(Outgoing::new(alloc))?;
    }
    Ok(outgoing)
}
