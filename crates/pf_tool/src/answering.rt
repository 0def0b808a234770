//! What a call writes over the input and over files.

ghost use Rattle.std.specs.Prelude.{IfOk, IfSome, map};
ghost use Rattle.std.specs.Option.{option_copied};
ghost use Rattle.pf_tool.specs.Options.{check_as};
ghost use Rattle.pf_tool.specs.Tool.{IsAnswer};
ghost use Rattle.pf_tool.specs.inner.Calls.{asked, test_value};
ghost use Rattle.pf_tool.specs.inner.Output.{Renders};

use crate::call::{Call, Check, Test};
use crate::output::{Made, Output};
use crate::source::Runner;
use cli_io::{InputFault, Sources, read_all};
use std::io::Read;

impl<T: Sources> Runner<'_, T> {
    /// `check FILE..`, or `check` of the input.
    fn check(&self, check: &Check<'_, '_>, input: &[u8]) -> Made<Output>
        ensures { IfOk result (λ o. Renders self.now.reporter o (IsAnswer (T.has self.now.sources.now)
            self.now.reporter.table.now
            (check_as check.now.place check.now.quiet (map (λ f. f.now) check.now.files.now)) input.now)) }
    {
        let sources = self.sources_or(check.files, input)?;
        let output = self.reporter.checked_sources(check.place, &sources)?;
        Ok(output.quieted(check.quiet))
    }

    /// `test` under the rules of a file or of the input, for packets given as arguments and in lines: those of a file;
    /// without a file and without arguments, the input's.
    fn test(&self, test: &Test<'_, '_>, input: &[u8]) -> Made<Output>
        ensures { IfOk result (λ o. Renders self.now.reporter o (IsAnswer (T.has self.now.sources.now)
            self.now.reporter.table.now
            (test_value (option_copied test.now.file) (option_copied test.now.more) test.now.quiet
            (map (λ p. p.now) test.now.packets.now)) input.now)) }
    {
        let rules = self.source_or(test.file, input)?;
        let lines = match test.packets {
            [] => self.source_or(test.more, input)?,
            [_, ..] => self.source_or(test.more, &[])?,
        };
        let output = self.reporter.tested_sources(test.packets, &rules, &lines)?;
        Ok(output.quieted(test.quiet))
    }

    /// What a call writes over this input and over files.
    fn output_over(&self, call: &Call<'_, '_>, input: &[u8]) -> Made<Output>
        ensures { IfOk result (λ o. Renders self.now.reporter o (IsAnswer (T.has self.now.sources.now)
            self.now.reporter.table.now (asked call.now) input.now)) }
    {
        match call {
            Call::Check(check) => self.check(check, input),
            Call::Test(test) => self.test(test, input),
            Call::Ctl => self.reporter.script_output(input),
            Call::Lab => self.reporter.lab_output(input),
            Call::Explain(row) => self.reporter.explained(*row),
        }
    }

    /// What a call writes over the input, where it reads that, and over files.
    pub(crate) fn output_for<R: Read>(
        &self,
        call: &Call<'_, '_>,
        reader: &mut R,
    ) -> Result<Output, InputFault>
        ensures { IfOk result (λ o. IfSome (R.remaining reader.old) (λ input. Renders self.now.reporter o
            (IsAnswer (T.has self.now.sources.now) self.now.reporter.table.now (asked call.now) input))) }
    {
        let mut input = Vec::new(self.reporter.alloc);
        if call.reads_input() {
            input = read_all(self.reporter.alloc, reader)?;
        }
        self.output_over(call, &input)
            .map_err(|_| InputFault::Memory)
    }
}
