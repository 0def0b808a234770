//! Text of others for a terminal.

ghost use Rattle.std.specs.Prelude.{◌≡◌, ◌++◌, IfOk, OnOk, option_map, string_bytes};
ghost use Rattle.cli_ask.specs.Showing.{shown_char, shown_text, shown};

use crate::reply::text_in;
use std::alloc::{AllocError, Global};

/// Puts a character as it is printed behind a string: control characters but newline and tab as their numbers.
fn push_shown(out: &mut String, c: char) -> Result<(), AllocError>
    ensures { OnOk result (string_bytes out.new ≡ string_bytes out.old ++ shown_char c) }
{
    if c.is_control() && c != '\n' && c != '\t' {
        return write!(out, "\\u{{{:x}}}", u32::from(c));
    }
    out.push(c)
}

/// A text as it is printed.
fn shown_text(alloc: Global, text: &str) -> Result<String, AllocError>
    ensures { IfOk result (λ out. string_bytes out ≡ shown_text text.now) }
{
    let mut out = String::with_capacity(alloc, text.len())?;
    for c in text.chars() {
        push_shown(&mut out, c)?;
    }
    Ok(out)
}

/// Bytes as they are printed, each control character but newline and tab as `\u{HEX}`; none where they aren't UTF-8.
pub(crate) fn shown(alloc: Global, bytes: &[u8]) -> Result<Option<String>, AllocError>
    ensures { IfOk result (λ text. option_map string_bytes text ≡ shown bytes.now) }
{
    text_in(bytes)
        .map(|text| shown_text(alloc, text))
        .transpose()
}
