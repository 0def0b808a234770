//! A new key.

ghost use Rattle.std.specs.Prelude.{◌≡◌, IfOk, string_bytes};
ghost use Rattle.cli_files.specs.KeyTexts.{key_text};

use crate::random_bytes::RandomBytes;
use std::alloc::{AllocError, Global};
use std::io;

/// A new key: the source's next 32 bytes.
pub fn new_key<R: RandomBytes>(source: &R) -> io::Result<[u8; 32]>
    ensures { IfOk result (R.gives source.now) }
{
    let mut key = [0u8; 32];
    source.fill(&mut key)?;
    Ok(key)
}

/// The key as a file has it: 64 hexadecimal digits and a newline.
pub fn key_text(alloc: Global, key: &[u8; 32]) -> Result<String, AllocError>
    ensures { IfOk result (λ text. string_bytes text ≡ key_text key.now) }
{
    format!(in alloc; "{}\n", hex::encode(alloc, *key)?)
}
