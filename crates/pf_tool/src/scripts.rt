//! The subcommands `ctl` and `lab`: what a script prints.

ghost use Rattle.std.specs.Prelude.{◌≡◌, ◌++◌, None, IfOk, OnOk, map, string_bytes};
ghost use Rattle.std.specs.List.{flat_map};
ghost use Rattle.pf_scripts.specs.Ctl.{printed, text_of};
ghost use Rattle.pf_scripts.specs.Lines.{ScriptLine, lines};
ghost use Rattle.pf_scripts.specs.Seen.{printed_value, printed_values};
ghost use Rattle.pf_lab.specs.Scripts as lab;
ghost use Rattle.pf_tool.specs.Tool.{answered, marks, refusals_in, scripted};
ghost use Rattle.pf_tool.specs.inner.Output.{written, rendered, reported};

use crate::output::{Ending, Made, Output};
use crate::reporting::Reporter;
use pf_lab::lab_script;
use pf_scripts::{Printed, ctl, cut_line};
use std::alloc::Global;

/// The text of what a script prints.
fn text_of(alloc: Global, printed: &[Printed]) -> Made<String>
    ensures { IfOk result (λ text. string_bytes text ≡ flat_map text_of (printed_values printed.now)) }
{
    let mut text = String::new(alloc);
    for piece in printed {
        piece.push_to(&mut text)?;
    }
    Ok(text)
}

/// Puts a mark for each of these lines behind the others: it is no refusal.
fn push_unmarked(marks: &mut Vec<Option<u8>>, text: &str) -> Made<()>
    ensures { OnOk result (marks.new.items ≡ marks.old.items ++ map (λ (l : ScriptLine). None) (lines text.now)) }
{
    let mut left = text.as_bytes();
    while let Some((_line, rest)) = cut_line(left) {
        marks.push(None)?;
        left = rest;
    }
    Ok(())
}

/// Puts the marks of the lines of a piece behind the others.
fn push_marks(found: &mut Vec<Option<u8>>, piece: &Printed) -> Made<()>
    ensures { OnOk result (found.new.items ≡ found.old.items ++ marks (printed_value piece.now)) }
{
    match piece {
        Printed::Refused(code, _) => Ok(found.push(Some(*code))?),
        Printed::Lines(text) => push_unmarked(found, text.as_str()),
    }
}

/// For each printed line the number of the refusal that it is, if it is one.
fn marks(alloc: Global, printed: &[Printed]) -> Made<Vec<Option<u8>>>
    ensures { IfOk result (λ v. v.items ≡ flat_map marks (printed_values printed.now)) }
{
    let mut found = Vec::new(alloc);
    for piece in printed {
        push_marks(&mut found, piece)?;
    }
    Ok(found)
}

impl Reporter<'_> {
    /// The messages of the refusals among printed lines, by their places from 1.
    fn refusals_in(&self, marks: &[Option<u8>]) -> Made<String>
        ensures { IfOk result (λ text. string_bytes text ≡ reported self.now (refusals_in 1 marks.now)) }
    {
        let mut messages = String::new(self.alloc);
        for (i, mark) in marks.iter().enumerate() {
            if let Some(code) = mark {
                let message = self.refusal("stdout", Some((i + 1) as u64), *code)?;
                messages.push_str(message.as_str())?;
            }
        }
        Ok(messages)
    }

    /// The messages of the refusals that a script prints; none are looked for where refusals aren't reported.
    fn script_messages(&self, printed: &[Printed]) -> Made<String>
        ensures { IfOk result (λ text. string_bytes text ≡ reported self.now
            (refusals_in 1 (flat_map marks (printed_values printed.now)))) }
    {
        if self.has_refusals() {
            let found = marks(self.alloc, printed)?;
            return self.refusals_in(&found);
        }
        Ok(String::new(self.alloc))
    }

    /// What `ctl` writes over this input: what the script's lines print over one configuration.
    #[tactic(auto, unfolding(crate::specs::Tool::scripted))]
    pub(crate) fn script_output(&self, input: &[u8]) -> Made<Output>
        ensures { IfOk result (λ o. written o ≡ rendered self.now (scripted (printed input.now))) }
    {
        let printed = ctl(self.alloc, input)?;
        let text = text_of(self.alloc, &printed)?;
        let messages = self.script_messages(&printed)?;
        Ok(Output::new(text, messages, Ending::Done))
    }

    /// What `lab` writes over this input: what the script's lines print over one lab.
    pub(crate) fn lab_output(&self, input: &[u8]) -> Made<Output>
        ensures { IfOk result (λ o. written o ≡ rendered self.now (answered (lab.printed input.now))) }
    {
        Ok(self.answered(lab_script(self.alloc, input)?))
    }
}
