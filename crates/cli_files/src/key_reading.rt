//! A key that is read.

ghost use Rattle.std.specs.Prelude.{◌≡◌, ◌≢◌, ℕ, List, Err, IfSome, IfOk};
ghost use Rattle.cli_files.specs.KeyTexts.{IsKey, IsNoKey};

use crate::key_fault::KeyFault;
use cli_io::{InputFault, read_all};
use px_packet::parse_key;
use std::alloc::Global;
use std::io::Read;

/// The key that is all that is left to read: 64 hexadecimal digits, which a newline may follow. `NoKey` for every
/// other text, `Unread` where a read fails, and `Memory`.
pub fn key_from<R: Read>(alloc: Global, reader: &mut R) -> Result<[u8; 32], KeyFault>
    ensures key { IfOk result (λ k. IfSome (R.remaining reader.old) (λ text. IsKey text k)) }
    ensures none { result ≡ Err KeyFault.NoKey → IfSome (R.remaining reader.new) (λ rest.
        IfSome (R.remaining reader.old) (λ text. IsNoKey text)) }
    ensures spelled { IfOk result (λ k. (text : List ℕ) × IsKey text k) }
    ensures private { result ≢ Err KeyFault.Open }
{
    let text = read_all(alloc, reader).map_err(|fault| match fault {
        InputFault::Memory => KeyFault::Memory,
        InputFault::Failed => KeyFault::Unread,
        InputFault::TooLong => KeyFault::NoKey,
    })?;
    parse_key(text.as_slice()).ok_or(KeyFault::NoKey)
}
