//! What a run writes.

ghost use Rattle.std.specs.Prelude.{◌≡◌, [], None, IfOk, OnOk, string_bytes};
ghost use Rattle.pf_grammar.specs.declared.fault.Refusal.{Refusal};
ghost use Rattle.pf_tool.specs.Tool.{refused, refused_ruleset, refused_text, unread};
ghost use Rattle.pf_tool.specs.declared.output.Ending.TheVariants as ending;
ghost use Rattle.pf_tool.specs.inner.Output.{written, rendered, quieted_bytes, both};

use crate::reporting::Reporter;
use cli_io::UNREADABLE;
use pf_grammar::Refusal;
use std::alloc::{AllocError, Global};

/// What was made, unless it was out of memory.
pub(crate) type Made<T> = Result<T, AllocError>;

/// How a run ends that wrote all of its output.
#[derive(Clone, Copy)]
pub(crate) enum Ending {
    Done,
    Refused,
}

/// All that is to be written, and how the run ends then.
#[derive(Drop)]
pub(crate) struct Output {
    pub(crate) text: String,
    /// The lines for standard error.
    pub(crate) messages: String,
    pub(crate) ending: Ending,
}

impl Output {
    /// All that is to be written.
    pub(crate) fn new(text: String, messages: String, ending: Ending) -> Output
        ensures { written result ≡ record { text = string_bytes text; messages = string_bytes messages; ending = ending } }
    {
        Output {
            text,
            messages,
            ending,
        }
    }

    /// Puts another output behind this one; the run ends as refused where one of them does.
    pub(crate) fn append(&mut self, other: &Output) -> Made<()>
        ensures { OnOk result (written self.new ≡ both (written self.old) (written other.now)) }
    {
        self.text.push_str(other.text.as_str())?;
        self.messages.push_str(other.messages.as_str())?;
        if matches!(other.ending, Ending::Refused) {
            self.ending = Ending::Refused;
        }
        Ok(())
    }

    /// With `-q` nothing is written but messages, and the run ends alike.
    pub(crate) fn quieted(self, quiet: bool) -> Output
        ensures { written result ≡ quieted_bytes quiet (written self) }
    {
        if quiet {
            let text = String::new(*self.text.allocator());
            return Output::new(text, self.messages, self.ending);
        }
        self
    }
}

/// The line of a refusal.
fn refused_text(alloc: Global, line: Option<u64>, code: u8) -> Made<String>
    ensures { IfOk result (λ text. string_bytes text ≡ refused_text line code) }
{
    let mut text = String::new(alloc);
    match line {
        Some(line) => writeln!(text, "refused {code} line {line}")?,
        None => writeln!(text, "refused {code}")?,
    }
    Ok(text)
}

impl Reporter<'_> {
    /// What is written where nothing is refused.
    pub(crate) fn answered(&self, text: String) -> Output
        ensures { written result ≡ record { text = string_bytes text; messages = []; ending = ending.Done } }
    {
        Output::new(text, String::new(self.alloc), Ending::Done)
    }

    /// A source is refused with this number, at its line where the refusal names one.
    pub(crate) fn refused(&self, source: &str, line: Option<u64>, code: u8) -> Made<Output>
        ensures { IfOk result (λ o. written o ≡ rendered self.now (refused source.now line code)) }
    {
        let text = refused_text(self.alloc, line, code)?;
        let messages = self.refusal(source, line, code)?;
        Ok(Output::new(text, messages, Ending::Refused))
    }

    /// The text of a ruleset is refused.
    pub(crate) fn refused_ruleset(&self, source: &str, refusal: Refusal) -> Made<Output>
        ensures { IfOk result (λ o. written o ≡ rendered self.now (refused_ruleset source.now refusal)) }
    {
        self.refused(source, Some(refusal.line), refusal.cause.code())
    }

    /// What is written of a source that can't be read.
    pub(crate) fn unread(&self, source: &str) -> Made<Output>
        ensures { IfOk result (λ o. written o ≡ rendered self.now (unread source.now)) }
    {
        self.refused(source, None, UNREADABLE)
    }
}
