//! A key's file.

ghost use Rattle.std.specs.Prelude.{◌≡◌, List, ℕ, Err, IfOk, IfSome, map};
ghost use Rattle.std.specs.Fs.{metadata_mode};
ghost use Rattle.std.specs.declared.fs.attrs.Metadata.{Metadata};
ghost use Rattle.cli_files.specs.Clusters.{IsPrivate, IsClusterKey, IsKeyOfFile};

use crate::cluster::cluster_key_from;
use crate::key_fault::KeyFault;
use cli_io::open_regular;
use std::alloc::Global;
use std::fs::OpenFile;
use std::io::Read;
use std::os::unix::fs::PermissionsExt;
use std::rt::Files;

/// An opened file with a secret.
pub trait SecretFile: Read {
    // this may be its mode
    ghost has_mode: { Self → ℕ → Type 0 };

    /// Its mode, none where the system doesn't report it.
    fn mode(&self) -> Option<u32>
        ensures { IfSome result (has_mode self.now) };
}

impl<T: OpenFile + Read> SecretFile for T {
    // some file's whole mode; no contract ties it to this file
    ghost has_mode = { λ _ mode. (about : Metadata) × (mode ≡ metadata_mode about) };

    fn mode(&self) -> Option<u32> {
        Some(self.metadata().ok()?.permissions().mode())
    }
}

/// The key of a cluster that the secret in an opened file makes, by [`cluster_key_from`] with the file's own mode:
/// `Unread` where that isn't reported.
pub fn cluster_key_in<F: SecretFile>(
    alloc: Global,
    file: &mut F,
    cluster: u32,
    members: &[&str],
) -> Result<[u8; 32], KeyFault>
    ensures key { IfOk result (λ k. IfSome (F.remaining file.old) (λ text.
        IsClusterKey text cluster (map (λ t. t.now) members.now) k)) }
    ensures made { IfOk result (λ k. (text : List ℕ) ×
        IsClusterKey text cluster (map (λ t. t.now) members.now) k) }
    ensures private { IfOk result (λ k. (mode : ℕ) × F.has_mode file.old mode × IsPrivate mode) }
    ensures open { result ≡ Err KeyFault.Open → (mode : ℕ) × F.has_mode file.old mode × (IsPrivate mode → ⊥) }
{
    let mode = file.mode().ok_or(KeyFault::Unread)?;
    cluster_key_from(alloc, file, mode, cluster, members)
}

/// The key of a cluster that the secret in a file makes, by [`cluster_key_in`]: `Unread` where the file isn't there, is
/// no regular file or can't be read.
pub fn read_cluster_key<F: Files>(
    files: &F,
    alloc: Global,
    path: &str,
    cluster: u32,
    members: &[&str],
) -> Result<[u8; 32], KeyFault>
    ensures made { IfOk result (λ k. (text : List ℕ) ×
        IsClusterKey text cluster (map (λ t. t.now) members.now) k) }
    ensures read { IfOk result (IsKeyOfFile F.File.remaining cluster (map (λ t. t.now) members.now)) }
{
    let mut file = open_regular(files, path).map_err(|_| KeyFault::Unread)?;
    cluster_key_in(alloc, &mut file, cluster, members)
}
