//! One line about a refusal that came.

ghost use Rattle.std.specs.Prelude.{Some};
ghost use Rattle.cli_io.specs.Explained.{remark};

use std::fmt;

/// The message on a refusal: where, and which. It is shown in pfctl's manner, `stdin:3: bad port (13)`, without
/// a newline.
#[derive(Clone, Copy)]
pub struct Remark<'a> {
    /// The text that is refused: a file's name, or `stdin`.
    pub source: &'a str,
    /// The line of the text, from 1, where the refusal names one.
    pub line: Option<u64>,
    /// Its short name.
    pub name: &'a str,
    /// The number of the refusal.
    pub code: u8,
}

impl fmt::Display for Remark<'_> {
    ghost output = { λ r. Some (remark r.source.now r.line r.name.now r.code) };

    fn fmt<W: fmt::Write>(&self, f: &mut fmt::Formatter<W>) -> fmt::Result {
        write!(f, "{}", self.source)?;
        if let Some(line) = self.line {
            write!(f, ":{line}")?;
        }
        write!(f, ": {} ({})", self.name, self.code)
    }
}
