//! A script over one local configuration.

ghost use Rattle.std.specs.Prelude.{◌≡◌, ◌++◌, IfOk, OnOk, option_map};
ghost use Rattle.pf_scripts.specs.Ctl.{at_end, printed};
ghost use Rattle.pf_scripts.specs.Seen.{printed_values};
ghost use Rattle.pf_scripts.specs.inner.Seen.{waiting_of};

use crate::Made;
use crate::acting::run_words;
use crate::lines::cut_line;
use crate::printing::Printed;
use crate::stepping::step;
use crate::waiting::Waiting;
use pf_config::Config;
use std::alloc::{AllocError, Global};

/// Ends a ruleset that still waits for its last line.
fn finish(
    alloc: Global,
    config: &mut Config,
    waiting: Option<Waiting<'_>>,
    out: &mut Vec<Printed>,
) -> Made<()>
    ensures { OnOk result (printed_values out.new.items
        ≡ printed_values out.old.items ++ at_end config.old (option_map waiting_of waiting.entry)) }
{
    match waiting {
        Some(waiting) => {
            out.push(run_words(alloc, config, &waiting.words, &waiting.text)?)?;
            Ok(())
        }
        None => Ok(()),
    }
}

/// What a script prints over an empty configuration, in order.
///
/// A line is `pfctl` and its arguments, or `test` and a packet's; an empty one is skipped, any other prints `refused
/// 40`. A line of pfctl's with `-f -` is followed by its text, up to a line `.` or the end of the script. A change
/// prints `ok`, one by `-T` the counts after it, a listing its lines, and a refusal `refused CODE`, of a ruleset
/// `refused CAUSE line L`; the script then goes on.
#[tactic(auto, unfolding(crate::specs::Ctl::printed))]
pub fn ctl(alloc: Global, script: &[u8]) -> Result<Vec<Printed>, AllocError>
    ensures { IfOk result (λ v. printed_values v.items ≡ printed script.now) }
{
    let mut out = Vec::new(alloc);
    let mut config = Config::new(alloc)?;
    let mut waiting = None;
    let mut left = script;
    while let Some((line, rest)) = cut_line(left) {
        waiting = step(alloc, &mut config, waiting, line, &mut out)?;
        left = rest;
    }
    finish(alloc, &mut config, waiting, &mut out)?;
    Ok(out)
}
