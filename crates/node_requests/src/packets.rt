//! Verdicts for packets.

ghost use Rattle.std.specs.Prelude.{◌≡◌, IfOk, map};
ghost use Rattle.node_requests.specs.Answers.{answer_value, verdicts};
ghost use Rattle.node_requests.specs.Bounded.{verdicts_within};

use crate::answer::Answer;
use crate::bounded::fitting;
use pf_config::Config;
use pf_eval::verdict_for;
use pf_scripts::{push_line, push_refusal};
use std::alloc::{AllocError, Global};

/// A verdict line for each packet's text in turn, up to the first that is no packet, which is 30.
fn verdicts(alloc: Global, config: &Config, packets: &[&str]) -> Result<Answer, AllocError>
    ensures { IfOk result (λ a. answer_value a ≡ verdicts config.now (map (λ p. p.now) packets.now)) }
{
    let mut body = String::new(alloc);
    for packet in packets {
        match verdict_for(alloc, config, packet)? {
            Some(shown) => push_line(&mut body, shown.as_str())?,
            None => {
                push_refusal(&mut body, 30, 0)?;
                return Ok(Answer { code: 400, body });
            }
        }
    }
    Ok(Answer::shown(body))
}

/// The same of as many packets as meet at most [`crate::MET_MAX`] rules together: 88 where one may meet more.
#[tactic(auto, using(crate::proofs::Budget::first_read))]
pub(crate) fn test(alloc: Global, config: &Config, packets: &[&str]) -> Result<Answer, AllocError>
    ensures { IfOk result (λ a. answer_value a ≡ verdicts_within config.now (map (λ p. p.now) packets.now)) }
{
    let fitting = fitting(config) as usize;
    if fitting == 0 {
        return Answer::refused(alloc, 88, 0);
    }
    match packets.get(..fitting) {
        Some(front) => verdicts(alloc, config, front),
        None => verdicts(alloc, config, packets),
    }
}
