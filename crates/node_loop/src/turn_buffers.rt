//! What one turn after another uses.

ghost use Rattle.std.specs.Prelude.{◌≡◌, [], IfOk, length};
ghost use Rattle.node_loop.specs.Counts.{nothing_of};
ghost use Rattle.node_loop.specs.Resends.{kept_of, me_of, members_of, requests_of};

use crate::counts::RoundCounts;
use crate::peer_progress::PeerProgress;
use crate::resender::Resender;
use px_replica::Datagram;
use px_wire::{Head, Membership};
use std::alloc::{AllocError, Global};

/// One byte more than the longest datagram has with a tag of 32 bytes behind it, so that a longer one is never taken
/// for a whole one.
const BUFFER_BYTES: usize = 33_057;

/// How many datagrams are handled in a round at most.
const HEADS: usize = 64;

/// Buffers for the datagram that a turn receives and for what it sends; and what is sent again, what was seen of other
/// members, and what went over the wire. They are kept from turn to turn: no turn clears the bytes of an earlier one,
/// which remain behind what came.
pub struct TurnBuffers {
    pub(crate) bytes: Vec<u8>,
    pub(crate) out: Vec<Datagram>,
    /// What was seen of other members.
    pub(crate) peer_progress: PeerProgress,
    /// The heads of the messages that were handled in the last round.
    pub(crate) heads: Vec<Head>,
    pub(crate) resender: Resender,
    /// Whether asks from outside are heard.
    pub(crate) hears_asks: bool,
    pub(crate) counts: RoundCounts,
    ghost whole: { length bytes.items ≡ 33057 },
}

impl Drop for TurnBuffers {
    fn drop(self) {
        let TurnBuffers {
            bytes: _,
            out: _,
            peer_progress: _,
            heads: _,
            resender: _,
            hears_asks: _,
            counts: _,
        } = self;
    }
}

impl TurnBuffers {
    /// Allocates the buffers once, of 33,057 bytes and 64 heads, for this member; whether asks from outside are heard.
    pub fn new(alloc: Global, m: &Membership, hears_asks: bool) -> Result<TurnBuffers, AllocError>
        ensures kept { IfOk result (λ r. kept_of r.resender ≡ []) }
        ensures requests { IfOk result (λ r. requests_of r.resender ≡ []) }
        ensures of { IfOk result (λ r. (me_of r.resender ≡ m.now.me) × (members_of r.resender ≡ m.now.members)) }
        ensures hears { IfOk result (λ r. r.hears_asks ≡ hears_asks) }
        ensures counts { IfOk result (λ r. r.counts ≡ nothing_of m.now.me) }
    {
        Ok(TurnBuffers {
            bytes: vec![in alloc; 0; BUFFER_BYTES]?,
            out: Vec::new(alloc),
            peer_progress: PeerProgress::default(),
            heads: Vec::with_capacity(alloc, HEADS)?,
            resender: Resender::new(alloc, m.members(), m.me()),
            hears_asks,
            counts: RoundCounts::new(m.me()),
        })
    }
}
