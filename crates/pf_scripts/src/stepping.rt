//! A line of a script.

ghost use Rattle.std.specs.Prelude.{◌≡◌, IfOk, map, option_map};
ghost use Rattle.pf_scripts.specs.Ctl.{tested, packet_printed, pfctl_line, at_words, stepped};
ghost use Rattle.pf_scripts.specs.Seen.{line_of, printed_value, printed_values};
ghost use Rattle.pf_scripts.specs.inner.Seen.{waiting_of, Steps};

use crate::Made;
use crate::acting::{run_matches, run_words};
use crate::lines::{Line, push_bytes, spaced, words_in};
use crate::pfctl::{matches_in, takes_text_by};
use crate::printing::Printed;
use crate::waiting::Waiting;
use pf_arguments::USAGE;
use pf_config::Config;
use pf_eval::{PacketFault, parse_packet, show_verdict, verdict};
use std::alloc::{AllocError, Global};

/// The verdict for a packet, 30 where the arguments spell no packet.
#[tactic(auto, unfolding(crate::specs::Ctl::tested))]
pub fn test_packet(alloc: Global, config: &Config, words: &[&str]) -> Result<Printed, AllocError>
    ensures { IfOk result (λ p. printed_value p ≡ tested config.now (map (λ w. w.now) words.now)) }
{
    let text = spaced(alloc, words)?;
    match parse_packet(alloc, text.as_str()) {
        Ok(packet) => {
            let mut shown = show_verdict(alloc, &verdict(config, &packet))?;
            shown.push('\n')?;
            Ok(Printed::Lines(shown))
        }
        Err(PacketFault::Memory) => Err(AllocError),
        Err(PacketFault::BadPacket) => Ok(Printed::Refused(30, 0)),
    }
}

/// Runs a line of pfctl's arguments, unless a ruleset follows it.
fn run_pfctl<'a>(
    alloc: Global,
    config: &mut Config,
    words: Vec<&'a str>,
    out: &mut Vec<Printed>,
) -> Made<Option<Waiting<'a>>>
    ensures { IfOk result (λ w. Steps (pfctl_line config.old (map (λ x. x.now) words.entry.items))
        config.new (option_map waiting_of w) (printed_values out.old.items) (printed_values out.new.items)) }
{
    {
        let matches = matches_in(alloc, &words)?;
        if !takes_text_by(&words, matches.as_ref()) {
            out.push(run_matches(alloc, config, matches.as_ref(), &[])?)?;
            return Ok(None);
        }
    }
    Ok(Some(Waiting {
        words,
        text: Vec::new(alloc),
    }))
}

/// Runs a line with these arguments.
fn run_line<'a>(
    alloc: Global,
    config: &mut Config,
    words: Option<Vec<&'a str>>,
    out: &mut Vec<Printed>,
) -> Made<Option<Waiting<'a>>>
    ensures { IfOk result (λ w. Steps
        (at_words config.old (option_map (λ v. map (λ x. x.now) v.items) words.entry))
        config.new (option_map waiting_of w) (printed_values out.old.items) (printed_values out.new.items)) }
{
    let Some(words) = words else {
        out.push(Printed::Refused(USAGE, 0))?;
        return Ok(None);
    };
    match words.as_slice() {
        [] => Ok(None),
        [first, ..] if *first == "pfctl" => run_pfctl(alloc, config, words, out),
        [first, rest @ ..] if *first == "test" => {
            out.push(test_packet(alloc, config, rest)?)?;
            Ok(None)
        }
        [_, ..] => {
            out.push(Printed::Refused(USAGE, 0))?;
            Ok(None)
        }
    }
}

/// Runs a line: one of a ruleset, or one with arguments. Returns the line that waits for its text then.
pub(crate) fn step<'a>(
    alloc: Global,
    config: &mut Config,
    waiting: Option<Waiting<'a>>,
    line: Line<'a>,
    out: &mut Vec<Printed>,
) -> Made<Option<Waiting<'a>>>
    ensures { IfOk result (λ w. Steps
        (stepped config.old (option_map waiting_of waiting.entry) (line_of line.entry))
        config.new (option_map waiting_of w) (printed_values out.old.items) (printed_values out.new.items)) }
{
    match waiting {
        None => {
            let words = words_in(alloc, line.content)?;
            run_line(alloc, config, words, out)
        }
        Some(waiting) => {
            if line.content == b".".as_slice() {
                out.push(run_words(alloc, config, &waiting.words, &waiting.text)?)?;
                return Ok(None);
            }
            let mut text = waiting.text;
            push_bytes(&mut text, line)?;
            Ok(Some(Waiting {
                words: waiting.words,
                text,
            }))
        }
    }
}
