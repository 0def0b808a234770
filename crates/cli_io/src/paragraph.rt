//! The explanation of a refusal, and its paragraph.

ghost use Rattle.std.specs.Prelude.{Some};
ghost use Rattle.cli_io.specs.Explained.{paragraph};

use std::fmt;

/// The explanation of a refusal. It is shown as a paragraph of four lines or more, the last one with its newline.
#[derive(Clone, Copy)]
pub struct Explanation {
    /// Its number, 1 to 255.
    pub code: u8,
    /// A short name, for one line.
    pub name: &'static str,
    /// Where it comes.
    pub meaning: &'static str,
    /// What holds after it.
    pub after: &'static str,
    /// What to do.
    pub remedy: &'static str,
}

impl fmt::Display for Explanation {
    ghost output = { λ r. Some (paragraph r) };

    fn fmt<W: fmt::Write>(&self, f: &mut fmt::Formatter<W>) -> fmt::Result {
        write!(f, "{}: {}\n", self.code, self.name)?;
        write!(f, "  where  {}\n", self.meaning)?;
        write!(f, "  then   {}\n", self.after)?;
        write!(f, "  do     {}\n", self.remedy)
    }
}
