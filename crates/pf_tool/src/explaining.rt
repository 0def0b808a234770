//! The subcommand `explain`: what refusals mean.

ghost use Rattle.std.specs.Prelude.{◌≡◌, IfOk};
ghost use Rattle.std.specs.Option.{option_copied};
ghost use Rattle.pf_tool.specs.Tool.{explained};
ghost use Rattle.pf_tool.specs.inner.Output.{written, rendered};

use crate::output::{Made, Output};
use crate::reporting::Reporter;
use cli_io::{Explanation, explain_all};

impl Reporter<'_> {
    /// What `explain` writes: a refusal's paragraph, or all of the table.
    pub(crate) fn explained(&self, row: Option<&Explanation>) -> Made<Output>
        ensures { IfOk result (λ o. written o ≡ rendered self.now
            (explained self.now.table.now (option_copied row.entry))) }
    {
        let text = match row {
            Some(row) => format!(in self.alloc; "{row}")?,
            None => explain_all(self.alloc, self.table)?,
        };
        Ok(self.answered(text))
    }
}
