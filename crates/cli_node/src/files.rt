//! The files of a node beside its store: the secret of its key, and its starts.

ghost use Rattle.std.specs.Prelude.{◌<◌, ℕ, Bool, List, IfOk, map};
ghost use Rattle.px_packet.specs.declared.start.Start as declared;
ghost use Rattle.cli_files.specs.Clusters.{IsClusterKey, IsKeyOfFile};

use cli_files::{KeyFault, RaiseFault, raise_start, read_cluster_key};
use node_loop::Membership;
use px_packet::Start;
use std::io::Read;

/// Where the files are of a node beside its store.
pub trait NodeFiles {
    // the secret in the file at this path makes this key of the datagrams of a cluster with this number and these
    // members' addresses
    ghost makes: { Self → (cluster : ℕ) → (members : List (List ℕ)) → (path key : List ℕ) → Type 0 };

    // in a file at this path, which may be made or not, this may be the next start of the member of a cluster of n
    ghost raises: { Self → (path : List ℕ) → (n me : ℕ) → (may_be_made : Bool) → declared.Start → Type 0 };

    /// Reads the key of a cluster, by [`read_cluster_key`].
    fn cluster_key(&self, path: &str, cluster: u32, members: &[&str]) -> Result<[u8; 32], KeyFault>
        ensures { IfOk result (makes self.now cluster (map (λ t. t.now) members.now) path.now) };

    /// Raises the start of the member, by [`raise_start`].
    fn raise(&self, path: &str, m: Membership, may_be_made: bool) -> Result<Start, RaiseFault>
        requires here { m.me < m.members }
        ensures { IfOk result (raises self.now path.now m.members m.me may_be_made) };
}

/// A key that is read of a file.
type ReadKey = Result<[u8; 32], KeyFault>;

impl NodeFiles for HostRuntime {
    // some file's secret makes it; no contract ties a file to its path
    ghost makes = { λ _ cluster members _ key. ((text : List ℕ) × IsClusterKey text cluster members key)
        × IsKeyOfFile ⟦<std::fs::File as Read>⟧.remaining cluster members key };

    // the number of a start is from 1 on; no contract states what the system's files, clock and random source give
    ghost raises = { λ _ _ _ _ _ start. 0 < start.number };

    fn cluster_key(&self, path: &str, cluster: u32, members: &[&str]) -> ReadKey {
        read_cluster_key(self, self.alloc(), path, cluster, members)
    }

    fn raise(&self, path: &str, m: Membership, may_be_made: bool) -> Result<Start, RaiseFault> {
        raise_start(self, self.alloc(), path, m.members(), m.me(), may_be_made)
    }
}
