//! What a lab shows.

ghost use Rattle.std.specs.Prelude.{◌≡◌, ◌≤◌, ◌<◌, ℕ, List, Some, None, IfSome};
ghost use Rattle.std.specs.Prelude.{length, slice_get, option_map, true, false};
ghost use Rattle.px_model.specs.World.{World, Event};
ghost use Rattle.px_model.specs.Law.{world_after};
ghost use Rattle.px_model.specs.Spelling.{Bytes, spelled};
ghost use Rattle.px_wire.specs.Message.{Group};
ghost use Rattle.px_replica.specs.Made.{same};
ghost use Rattle.pf_lab.specs.Ever.{ever_of, IsEver, IsAgreed};
ghost use Rattle.pf_lab.specs.Labs.{IsWorld, IsShown, cluster_of};
ghost use Rattle.pf_lab.specs.declared.host.Host.{Host};
ghost use Rattle.px_core.specs.declared.limits.TheConstants.{MEMBERS};

use crate::ever::EverLearned;
use crate::state::Lab;
use pf_node::Node;
use px_records::MemoryRecords;
use px_replica::Datagram;

impl Lab {
    /// How many members there are.
    pub fn members(&self) -> usize
        ensures { result ≡ length self.now.hosts.items }
    {
        self.hosts.len()
    }

    /// Every message that a member sent to a member, in order; its place is its number.
    pub fn sent(&self) -> &[Datagram]
        ensures { result.now ≡ self.now.sent.items }
    {
        self.sent.as_slice()
    }

    /// The member `m`, where there is one and it runs.
    pub fn node(&self, m: u8) -> Option<&Node<MemoryRecords>>
        ensures some { IfSome result (λ n. (s : Host) × (slice_get self.now.hosts.items m ≡ Some s) ×
            (s.is_up ≡ true) × (s.node ≡ n.now)) }
        ensures none { result ≡ None → (s : Host) → slice_get self.now.hosts.items m ≡ Some s → s.is_up ≡
            false }
        ensures shows { (g : Group) (w : World Bytes) → IsWorld self.now g w →
            IfSome result (λ n. IsShown (w.nodes m) n.now) }
        ensures stopped { (g : Group) (w : World Bytes) → IsWorld self.now g w → m < g.members →
            result ≡ None → (w.nodes m).is_up ≡ false }
    {
        match self.hosts.get(m as usize) {
            Some(host) => { if host.is_up { Some(&host.node) } else { None } }
            None => None,
        }
    }

    /// What the members ever learned, those that are stopped too. Allocates nothing.
    pub fn ever_learned(&self) -> EverLearned<'_>
        ensures hosts { result.hosts.now ≡ self.now.hosts.items }
        ensures ever { (n : ℕ) → 1 ≤ n → n ≤ MEMBERS → (events : List (Event Bytes)) →
            IsWorld self.now (cluster_of n) (world_after same n events) →
            IsEver (ever_of result.hosts.now) (world_after same n events) }
        ensures agreed { (n : ℕ) → 1 ≤ n → n ≤ MEMBERS → (events : List (Event Bytes)) →
            IsWorld self.now (cluster_of n) (world_after same n events) →
            IsAgreed n (world_after same n events) (ever_of result.hosts.now) }
    {
        let hosts = self.hosts.as_slice();
        EverLearned { hosts }
    }
}

impl<'a> EverLearned<'a> {
    /// The bytes of the entry that the member learned at the position. `None` where it never learned one there, and for
    /// an unknown member.
    pub fn entry(&self, member: u8, position: u32) -> Option<&'a [u8]>
        ensures { option_map (λ b. b.now) result ≡
            option_map spelled (ever_of self.now.hosts.now member position) }
    {
        self.hosts.get(member as usize)?.node.learned(position)
    }
}
