//! pfctl's listings and packets at a configuration.

ghost use Rattle.std.specs.Prelude.{◌≡◌, IfOk, map};
ghost use Rattle.pf_arguments.specs.Answers.{action_value};
ghost use Rattle.pf_scripts.specs.Listings.{listed};
ghost use Rattle.cli_show.specs.Writing.{refused, answered, verdicts, shown_value};

use crate::shown::{Made, Shown};
use pf_arguments::Action;
use pf_config::Config;
use pf_eval::verdict_for;
use pf_scripts::{list, push_line, push_refusal};
use std::alloc::Global;

/// A refusal.
pub(crate) fn refused(alloc: Global, code: u8) -> Made<Shown>
    ensures { IfOk result (λ s. shown_value s ≡ refused code 0) }
{
    let mut text = String::new(alloc);
    push_refusal(&mut text, code, 0)?;
    Ok(Shown::new(text.into_bytes(), true))
}

/// What an action lists, or its refusal.
pub(crate) fn show_listing(alloc: Global, config: &Config, action: &Action) -> Made<Shown>
    ensures { IfOk result (λ s. shown_value s ≡ answered (listed config.now (action_value action.now))) }
{
    match list(alloc, config, action)? {
        Ok(text) => Ok(Shown::new(text.into_bytes(), false)),
        Err(code) => refused(alloc, code),
    }
}

/// A verdict line for each packet's text in turn, up to the first that is no packet, which is 30.
pub(crate) fn show_verdicts(alloc: Global, config: &Config, packets: &[&str]) -> Made<Shown>
    ensures { IfOk result (λ s. shown_value s ≡ verdicts config.now (map (λ p. p.now) packets.now)) }
{
    let mut text = String::new(alloc);
    for packet in packets {
        match verdict_for(alloc, config, packet)? {
            Some(shown) => push_line(&mut text, shown.as_str())?,
            None => {
                push_refusal(&mut text, 30, 0)?;
                return Ok(Shown::new(text.into_bytes(), true));
            }
        }
    }
    Ok(Shown::new(text.into_bytes(), false))
}
