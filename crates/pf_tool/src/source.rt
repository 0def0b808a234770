//! The rulesets that arguments name.

ghost use Rattle.std.specs.Prelude.{IfOk, map};
ghost use Rattle.std.specs.Option.{option_copied};
ghost use Rattle.pf_tool.specs.Tool.{AreRules, AreTexts};
ghost use Rattle.pf_tool.specs.inner.Sources.{source_in};

use crate::output::Made;
use crate::reporting::Reporter;
use cli_io::{InputFault, Sources};
use std::alloc::AllocError;

/// A ruleset or packets, and the name that messages have for it: a file's path, or `stdin`.
#[derive(Drop)]
pub(crate) struct Source<'a> {
    pub(crate) name: &'a str,
    /// None where it can't be read.
    pub(crate) text: Option<Vec<u8>>,
}

/// What answers calls: where the files are that they name, and how messages are written.
#[derive(Drop)]
pub(crate) struct Runner<'r, T> {
    pub(crate) sources: &'r T,
    pub(crate) reporter: Reporter<'r>,
}

impl<T: Sources> Runner<'_, T> {
    /// The text of a file; without a file the input.
    pub(crate) fn source_or<'a>(&self, file: Option<&'a str>, input: &[u8]) -> Made<Source<'a>>
        ensures { IfOk result (λ s. AreRules (T.has self.now.sources.now) (option_copied file.entry) (source_in s)
            input.now) }
    {
        let name = file.unwrap_or("stdin");
        let text = match file {
            Some(path) => match self.sources.source_at(self.reporter.alloc, path) {
                Ok(text) => Some(text),
                Err(InputFault::Memory) => return Err(AllocError),
                Err(InputFault::Failed | InputFault::TooLong) => None,
            },
            None => Some(Vec::from_slice(self.reporter.alloc, input)?),
        };
        Ok(Source { name, text })
    }

    /// The rulesets of files, in turn; without files that of the input.
    pub(crate) fn sources_or<'a>(&self, paths: &[&'a str], input: &[u8]) -> Made<Vec<Source<'a>>>
        ensures { IfOk result (λ v. AreTexts (T.has self.now.sources.now) (map (λ p. p.now) paths.now)
            (map source_in v.items) input.now) }
    {
        let mut all = Vec::new(self.reporter.alloc);
        for path in paths {
            all.push(self.source_or(Some(*path), input)?)?;
        }
        if paths.is_empty() {
            all.push(self.source_or(None, input)?)?;
        }
        Ok(all)
    }
}
