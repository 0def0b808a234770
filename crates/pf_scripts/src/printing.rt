//! What lines print.

ghost use Rattle.std.specs.Prelude.{◌≡◌, ◌++◌, OnOk, string_bytes};
ghost use Rattle.pf_scripts.specs.Lines.{line, refused_line};
ghost use Rattle.pf_scripts.specs.Ctl.{text_of};
ghost use Rattle.pf_scripts.specs.Seen.{printed_value};

use std::alloc::AllocError;

/// What a line of a script prints.
#[derive(Drop)]
pub enum Printed {
    /// The number of a refusal, and the line of a refused ruleset, 0 where there is none.
    Refused(u8, u64),
    /// Lines, each with its newline.
    Lines(String),
}

/// Puts a line behind the text.
pub fn push_line(out: &mut String, shown: &str) -> Result<(), AllocError>
    ensures { OnOk result (string_bytes out.new ≡ string_bytes out.old ++ line shown.now) }
{
    writeln!(out, "{shown}")
}

/// Puts a refusal behind the text: its number, and the line of a refused text, 0 where there is none.
pub fn push_refusal(out: &mut String, code: u8, at: u64) -> Result<(), AllocError>
    ensures { OnOk result (string_bytes out.new ≡ string_bytes out.old ++ refused_line code at) }
{
    if at == 0 {
        return writeln!(out, "refused {code}");
    }
    writeln!(out, "refused {code} line {at}")
}

impl Printed {
    /// Puts it behind the text.
    pub fn push_to(&self, out: &mut String) -> Result<(), AllocError>
        ensures { OnOk result (string_bytes out.new ≡ string_bytes out.old ++ text_of (printed_value self.now)) }
    {
        match self {
            Printed::Refused(code, at) => push_refusal(out, *code, *at),
            Printed::Lines(text) => out.push_str(text.as_str()),
        }
    }
}
