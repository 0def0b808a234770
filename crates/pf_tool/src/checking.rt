//! The subcommand `check`: what a ruleset gives.

ghost use Rattle.std.specs.Prelude.{◌≡◌, IfOk, map};
ghost use Rattle.pf_tool.specs.Tool.{check_output, checked_sources};
ghost use Rattle.pf_tool.specs.inner.Output.{written, rendered};
ghost use Rattle.pf_tool.specs.inner.Sources.{source_in};

use crate::output::{Made, Output};
use crate::reporting::Reporter;
use crate::source::Source;
use pf_grammar::{ParseFault, Place, Profile, parse, show};
use std::alloc::AllocError;

impl Reporter<'_> {
    /// What `check` writes over the text of this source: the ruleset that it gives at the place, or its refusal.
    #[tactic(auto, unfolding(crate::specs::Tool::check_output))]
    pub(crate) fn check_output(&self, source: &str, place: Place, text: &[u8]) -> Made<Output>
        ensures { IfOk result (λ o. written o ≡ rendered self.now (check_output source.now place text.now)) }
    {
        match parse(self.alloc, text, place, Profile::Two) {
            Ok(loaded) => Ok(self.answered(show(self.alloc, &loaded)?)),
            Err(ParseFault::Memory) => Err(AllocError),
            Err(ParseFault::Refused(refusal)) => self.refused_ruleset(source, refusal),
        }
    }

    /// What `check` writes over these rulesets in turn, of which some may not be readable.
    #[tactic(auto, unfolding(crate::specs::Tool::checked_sources))]
    pub(crate) fn checked_sources(&self, place: Place, sources: &[Source<'_>]) -> Made<Output>
        ensures { IfOk result (λ o. written o
            ≡ rendered self.now (checked_sources place (map source_in sources.now))) }
    {
        let mut all = self.answered(String::new(self.alloc));
        for source in sources {
            let one = match source.text.as_deref() {
                Some(text) => self.check_output(source.name, place, text)?,
                None => self.unread(source.name)?,
            };
            all.append(&one)?;
        }
        Ok(all)
    }
}
