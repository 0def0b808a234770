//! A line of a script.

ghost use Rattle.std.specs.Prelude.{◌≡◌, IfOk, OnOk, map, option_map, string_bytes};
ghost use Rattle.pf_scripts.specs.Seen.{line_of};
ghost use Rattle.pf_scripts.specs.inner.Seen.{waiting_of};
ghost use Rattle.pf_lab.specs.LabLines.{is_followed};
ghost use Rattle.pf_lab.specs.Scripts.{LabValue, words_done, at_words, stepped};
ghost use Rattle.pf_lab.specs.inner.Benches.{IsBench, Does, Steps};

use crate::bench::Bench;
use crate::fault::{LineFault, Pushed};
use crate::reading::{LabLine, line_in};
use pf_arguments::USAGE;
use pf_scripts::{Line, Waiting, push_bytes, push_refusal, takes_text, words_in};
use std::alloc::{AllocError, Global};

/// Whether a ruleset follows a line with these arguments: one of an ask, `ask` in pfctl's place.
fn is_followed(alloc: Global, words: &[&str]) -> Result<bool, AllocError>
    ensures { IfOk result (λ b. b ≡ is_followed (map (λ w. w.now) words.now)) }
{
    match words {
        [first, ..] if *first == "ask" => takes_text(alloc, words),
        _ => Ok(false),
    }
}

/// The line that waits for its text, if any.
type Waits<'a> = Result<Option<Waiting<'a>>, AllocError>;

impl Bench {
    /// Does what a line's arguments ask for, or prints its refusal; `text` is what follows it.
    pub(crate) fn run_words(&mut self, words: &[&str], text: &[u8], out: &mut String) -> Pushed
        ensures { (v : LabValue) → IsBench self.old v → OnOk result
            (Does (words_done v (map (λ w. w.now) words.now) text.now) self.new
            (string_bytes out.old) (string_bytes out.new)) }
    {
        match line_in(self.lab.alloc, words, text) {
            Ok(LabLine::Happens(event)) => self.happen(&event, out),
            Ok(LabLine::Run) => self.run(),
            Ok(LabLine::Test(m, packet)) => self.show_verdict(m, packet, out),
            Ok(LabLine::State) => self.show_state(out),
            Ok(LabLine::Log(m)) => self.show_log(m, out),
            Ok(LabLine::Sent) => self.show_sent(out),
            Err(LineFault::Refused(code)) => push_refusal(out, code, 0),
            Err(LineFault::Memory) => Err(AllocError),
        }
    }

    /// Runs a line with these arguments, unless a ruleset follows it.
    fn begin<'a>(&mut self, words: Option<Vec<&'a str>>, out: &mut String) -> Waits<'a>
        ensures { (v : LabValue) → IsBench self.old v → IfOk result (λ w. Steps
            (at_words v (option_map (λ u. map (λ x. x.now) u.items) words.entry))
            self.new (option_map waiting_of w) (string_bytes out.old) (string_bytes out.new)) }
    {
        let Some(words) = words else {
            push_refusal(out, USAGE, 0)?;
            return Ok(None);
        };
        if words.is_empty() {
            return Ok(None);
        }
        if is_followed(self.lab.alloc, &words)? {
            let text = Vec::new(self.lab.alloc);
            return Ok(Some(Waiting { words, text }));
        }
        self.run_words(&words, &[], out)?;
        Ok(None)
    }

    /// Runs a line: one of a ruleset, or one with arguments. Returns the line that waits for its text then.
    pub(crate) fn step_line<'a>(
        &mut self,
        waiting: Option<Waiting<'a>>,
        line: Line<'a>,
        out: &mut String,
    ) -> Waits<'a>
        ensures { (v : LabValue) → IsBench self.old v → IfOk result (λ w. Steps
            (stepped v (option_map waiting_of waiting.entry) (line_of line.entry))
            self.new (option_map waiting_of w) (string_bytes out.old) (string_bytes out.new)) }
    {
        let Some(mut waiting) = waiting else {
            let words = words_in(self.lab.alloc, line.content)?;
            return self.begin(words, out);
        };
        if line.content == b".".as_slice() {
            self.run_words(&waiting.words, &waiting.text, out)?;
            return Ok(None);
        }
        push_bytes(&mut waiting.text, line)?;
        Ok(Some(waiting))
    }
}
