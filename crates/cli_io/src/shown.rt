//! A foreign string, as messages show it.

ghost use Rattle.std.specs.Prelude.{Some};
ghost use Rattle.cli_io.specs.Shown.{shown, shown_char};

use std::fmt;

/// A string of others, as a file's name, as messages show it: each control character is shown as its number, `\u{1b}`,
/// so that it does nothing to a terminal and ends no line.
#[derive(Clone, Copy)]
pub struct Shown<'a>(pub &'a str);

/// A character of such a string.
#[derive(Clone, Copy)]
struct ShownChar(char);

impl fmt::Display for ShownChar {
    ghost output = { λ c. Some (shown_char c.0) };

    fn fmt<W: fmt::Write>(&self, f: &mut fmt::Formatter<W>) -> fmt::Result {
        if self.0.is_control() {
            write!(f, "\\u{{{:x}}}", u32::from(self.0))
        } else {
            write!(f, "{}", self.0)
        }
    }
}

impl fmt::Display for Shown<'_> {
    ghost output = { λ s. Some (shown s.0.now) };

    fn fmt<W: fmt::Write>(&self, f: &mut fmt::Formatter<W>) -> fmt::Result {
        for c in self.0.chars() {
            write!(f, "{}", ShownChar(c))?;
        }
        Ok(())
    }
}
