//! Arguments that are sent as lines: addresses, packets.

ghost use Rattle.std.specs.Prelude.{◌≡◌, IfOk, false, map};
ghost use Rattle.std.specs.List.{list_any};
ghost use Rattle.cli_ask.specs.Sending.{has_control, lines_of};

use std::alloc::{AllocError, Global};

/// Whether a string has a control character: U+0000 to U+001F, U+007F to U+009F.
pub(crate) fn has_control(text: &str) -> bool
    ensures { result ≡ has_control text.now }
{
    text.chars().any(|c| c.is_control())
}

/// Whether one of the strings has one.
pub(crate) fn have_control(texts: &[&str]) -> bool
    ensures { result ≡ list_any has_control (map (λ t. t.now) texts.now) }
{
    texts.iter().any(|text| has_control(text))
}

/// Each argument in a line of its own. A node reads these lines as the arguments, since none has a control character.
pub(crate) fn lines_of(alloc: Global, words: &[&str]) -> Result<Vec<u8>, AllocError>
    requires { list_any has_control (map (λ w. w.now) words.now) ≡ false }
    ensures { IfOk result (λ body. body.items ≡ lines_of (map (λ w. w.now) words.now)) }
{
    let mut lines = String::new(alloc);
    for word in words {
        writeln!(lines, "{word}")?;
    }
    Ok(lines.into_bytes())
}
