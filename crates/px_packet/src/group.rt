//! The key of a cluster's tags.

ghost use Rattle.std.specs.Prelude.{◌≡◌, IfOk, map};
ghost use Rattle.px_packet.specs.Groups.{group_bytes, group_key};

use crate::hmac::hmac_sha256;
use std::alloc::{AllocError, Global};

/// The cluster's number, and each address behind its length.
fn group_bytes(alloc: Global, cluster: u32, members: &[&str]) -> Result<Vec<u8>, AllocError>
    ensures { IfOk result (λ v. v.items ≡ group_bytes cluster (map (λ t. t.now) members.now)) }
{
    let mut bytes = Vec::from_slice(alloc, &cluster.to_be_bytes())?;
    for text in members {
        let text = text.as_bytes();
        let length = text.len() as u64;
        bytes.extend_from_slice(&length.to_be_bytes())?;
        bytes.extend_from_slice(text)?;
    }
    Ok(bytes)
}

/// The key of the tags of a cluster with this number and these members' addresses, as they are written, in order. Where
/// the secret, the number or an address of the list differs, so does what the key is made of: a member that was started
/// with another hears nobody.
pub fn group_key(
    alloc: Global,
    secret: &[u8; 32],
    cluster: u32,
    members: &[&str],
) -> Result<[u8; 32], AllocError>
    ensures { IfOk result (λ k. k ≡ group_key secret.now cluster (map (λ t. t.now) members.now)) }
{
    let bytes = group_bytes(alloc, cluster, members)?;
    Ok(hmac_sha256(secret, bytes.as_slice()))
}
