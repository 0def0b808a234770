//! What a test refuses.

use std::test::Fail;

/// Fails with this text where something isn't so.
pub(crate) fn expect(is_so: bool, text: &str) -> Result<(), Fail> {
    if is_so { Ok(()) } else { Err(Fail::new(text)) }
}
