//! Texts of names.

ghost use Rattle.std.specs.Prelude.{◌≡◌, IfOk, string_bytes, IsAscii};

use std::alloc::{AllocError, Global};

/// The text of these bytes. A growth that is refused is the error.
pub(crate) fn ascii_text(alloc: Global, bytes: &[u8]) -> Result<String, AllocError>
    requires { IsAscii bytes.now }
    ensures { IfOk result (λ text. string_bytes text ≡ bytes.now) }
{
    let text = String::from_utf8_lossy(alloc, bytes)?;
    Ok(text)
}
