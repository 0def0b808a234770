//! Rulesets as pfctl(8) loads them.

ghost use Rattle.std.specs.Prelude.{IfOk};
ghost use Rattle.pf_dump.specs.Done.{AreDoneTo};
ghost use Rattle.pf_dump.specs.Written.{texts_of};
ghost use Rattle.cli_show.specs.Texts.{ShowsTexts};
ghost use Rattle.cli_show.specs.Writing.{OrNone};

use crate::pfctl::refused;
use crate::shown::{Made, Shown};
use cli_io::NO_SCRIPT;
use pf_command::PathArguments;
use pf_config::Config;
use pf_dump::texts;
use std::alloc::Global;

/// The rulesets of all paths that a command may load, main's last: before each a comment that is the command which
/// loads it, `# pfctl -a PATH -f -`. 91 where they don't give the configuration.
pub(crate) fn show_texts(alloc: Global, config: &Config) -> Made<Shown>
    ensures { IfOk result (λ s. OrNone s (ShowsTexts config.now) (AreDoneTo (texts_of config.now) config.now)) }
{
    let Some(texts) = texts(alloc, config)? else {
        return refused(alloc, NO_SCRIPT);
    };
    let rulesets = texts.as_slice();
    let mut out = String::new(alloc);
    for text in rulesets {
        let path = PathArguments(text.path);
        write!(out, "# pfctl {path}-f -\n{}", text.text)?;
    }
    Ok(Shown::new(out.into_bytes(), false))
}
