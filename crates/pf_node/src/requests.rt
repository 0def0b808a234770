//! Where requests were learned.

ghost use Rattle.std.specs.Prelude.{◌≡◌, ◌⊎◌, ◌+◌, ◌*◌, ◌≤◌, [], ◌∷◌, ◌++◌, IfSome, IsTrue, None, length};
ghost use Rattle.px_model.specs.Node.{Log};
ghost use Rattle.px_model.specs.Spelling.{Bytes};
ghost use Rattle.px_replica.specs.Replicas.{learned_by};
ghost use Rattle.pf_node.specs.Requests.{is_request, place_below};
ghost use Rattle.pf_node.specs.inner.Requests.{AreWithin, AreBounds};

use px_records::Records;
use px_replica::Replica;
use std::alloc::Global;

/// The positions of a stretch.
const STRETCH: usize = 256;

/// Bounds on the numbers of one member's requests that are applied. A request that waits has a greater number than
/// those that were learned before it was asked, so it is sought in the last stretches of the log alone.
#[derive(Drop)]
pub(crate) struct Numbers {
    pub(crate) origin: u8,
    /// None that is applied has a greater number.
    pub(crate) last: u64,
    /// The same for each stretch: of those at its positions and below.
    pub(crate) bounds: Vec<u64>,
}

impl Numbers {
    /// Those of a member, where nothing is applied.
    pub(crate) fn new(alloc: Global, origin: u8) -> Numbers
        ensures bounds { result.bounds.items ≡ [] }
    {
        Numbers {
            origin,
            last: 0,
            bounds: Vec::new(alloc),
        }
    }

    /// A request is applied, so that all below `end` are. When out of memory a stretch has no bound, or that of more
    /// positions.
    pub(crate) fn put(&mut self, end: u32, origin: u8, number: u64)
        ensures origin { self.new.origin ≡ self.old.origin }
        ensures grows { self.old.last ≤ self.new.last }
        ensures here { origin ≡ self.old.origin → number ≤ self.new.last }
        ensures bounds { (self.new.bounds.items ≡ self.old.bounds.items) ⊎
            ((self.new.bounds.items ≡ self.old.bounds.items ++ (self.new.last ∷ [])) ×
            (256 * (length self.old.bounds.items + 1) ≤ end)) }
    {
        if origin == self.origin && number > self.last {
            self.last = number;
        }
        if self.bounds.len() < end as usize / STRETCH {
            let _kept = self.bounds.push(self.last);
        }
    }

    /// The bound of the numbers at the positions below this one, if there is one.
    fn bound_below(&self, position: u32) -> Option<u64>
        ensures { (log : Log Bytes) → AreBounds log self.now.origin self.now.bounds.items →
            IfSome result (λ n. AreWithin log self.now.origin position n) }
    {
        let stretches = position as usize / STRETCH;
        if stretches == 0 || stretches * STRETCH != position as usize {
            return None;
        }
        self.bounds.get(stretches - 1).copied()
    }

    /// Whether the request isn't below the position, as its number passes the bound there.
    fn is_above(&self, position: u32, origin: u8, number: u64) -> bool
        ensures { (log : Log Bytes) → AreBounds log self.now.origin self.now.bounds.items → IsTrue result →
            place_below log origin number position ≡ None }
    {
        if origin != self.origin {
            return false;
        }
        match self.bound_below(position) {
            Some(bound) => bound < number,
            None => false,
        }
    }
}

/// Whether the entry at a position is the request.
#[tactic(auto, using(crate::proofs::Places::request_some, crate::proofs::Places::request_none))]
fn is_request<R: Records>(replica: &Replica<R>, position: u32, origin: u8, number: u64) -> bool
    ensures { result ≡ is_request origin number (learned_by replica.now position) }
{
    let learned = replica.learned(position);
    learned.is_some_and(|entry| entry.origin() == origin && entry.number() == number)
}

/// The last position below an end at which a request was learned.
pub(crate) fn place_below<R: Records>(
    replica: &Replica<R>,
    numbers: &Numbers,
    end: u32,
    origin: u8,
    number: u64,
) -> Option<u32>
    requires bounds { AreBounds (learned_by replica.now) numbers.now.origin numbers.now.bounds.items }
    ensures { result ≡ place_below (learned_by replica.now) origin number end }
{
    let mut left = end;
    while left > 0 {
        if numbers.is_above(left, origin, number) {
            return None;
        }
        left -= 1;
        if is_request(replica, left, origin, number) {
            return Some(left);
        }
    }
    None
}
