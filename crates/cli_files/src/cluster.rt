//! The key of a cluster.

ghost use Rattle.std.specs.Prelude.{◌≡◌, ◌↔◌, List, ℕ, Err, IfOk, IfSome, map};
ghost use Rattle.cli_files.specs.KeyTexts.{IsNoKey};
ghost use Rattle.cli_files.specs.Clusters.{IsPrivate, IsClusterKey};

use crate::key_fault::KeyFault;
use crate::key_reading::key_from;
use px_packet::group_key;
use std::alloc::Global;
use std::io::Read;

/// Of a file's mode, what others than its owner may do.
const OTHERS: u32 = 0o077;

/// The key of the datagrams of a cluster with this number and these members' addresses, as they are written, which the
/// secret makes that is all that is left to read of a file of this mode: `Open` where others than its owner may do
/// anything with it, as ssh has it of a private key; else the faults of [`key_from`].
pub fn cluster_key_from<R: Read>(
    alloc: Global,
    reader: &mut R,
    mode: u32,
    cluster: u32,
    members: &[&str],
) -> Result<[u8; 32], KeyFault>
    ensures key { IfOk result (λ k. IfSome (R.remaining reader.old) (λ text.
        IsClusterKey text cluster (map (λ t. t.now) members.now) k)) }
    ensures made { IfOk result (λ k. (text : List ℕ) ×
        IsClusterKey text cluster (map (λ t. t.now) members.now) k) }
    ensures private { (result ≡ Err KeyFault.Open) ↔ (IsPrivate mode → ⊥) }
    ensures none { result ≡ Err KeyFault.NoKey → IfSome (R.remaining reader.new) (λ rest.
        IfSome (R.remaining reader.old) (λ text. IsNoKey text)) }
{
    if mode & OTHERS != 0 {
        return Err(KeyFault::Open);
    }
    let secret = key_from(alloc, reader)?;
    group_key(alloc, &secret, cluster, members).map_err(|_| KeyFault::Memory)
}
