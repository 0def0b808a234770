//! Verdicts, which a node answers in parts.

ghost use Rattle.std.specs.Prelude.{◌≡◌, Some};
ghost use Rattle.cli_ask.specs.Calls.{call_value};
ghost use Rattle.cli_ask.specs.Replies.{reply_value};
ghost use Rattle.cli_ask.specs.Asking.{left_by};
ghost use Rattle.cli_ask.specs.Asking.{answer_value, parts_value, BegunParts, AskedVerdicts};

use crate::asking::{Asking, Pauses};
use crate::call::Call;
use crate::control::Control;
use crate::exchange::{Answered, AskFault, Reply};
use pf_scripts::cut_line;

/// How many times verdicts are asked for that a node doesn't answer at once, until all are of one position.
const BEGINNINGS: u32 = 3;

/// The packets, each a line, behind those that have a verdict so far.
fn left_by<'a>(so_far: &Reply, call: &'a Call) -> &'a [u8]
    ensures { result.now ≡ left_by (Some (reply_value so_far.now)) (call_value call.now).body }
{
    let count = so_far.body.iter().filter(|byte| **byte == b'\n').count();
    let mut left = call.body.as_slice();
    for _line in 0..count {
        let Some((_, rest)) = cut_line(left) else {
            return left;
        };
        left = rest;
    }
    left
}

impl<RT: Pauses> Asking<'_, RT> {
    /// Asks for the verdicts behind those that an answer has, as many at a time as the node answers at once; none where
    /// it has applied another position meanwhile, so that they would be verdicts of several configurations.
    fn parts<C: Control>(&self, control: &mut C, call: &Call) -> Result<Option<Reply>, AskFault>
        ensures { BegunParts (C.exchanged control.old) (C.exchanged control.new) (call_value call.now) self.now.is_once
            self.now.deadline.seconds (parts_value result) }
    {
        let mut so_far = self.ask_on(control, call)?;
        for _part in 0..call.body.len() {
            let left = left_by(&so_far, call);
            // it isn't one of verdicts, or leaves no packet
            if so_far.code != 200 || left.is_empty() {
                return Ok(Some(so_far));
            }
            let others = call.with_body(self.alloc, left)?;
            let next = self.ask_on(control, &others)?;
            // as many positions are applied as before
            if next.applied != so_far.applied {
                return Ok(None);
            }
            so_far.body.extend_from_slice(next.body.as_slice())?;
            so_far.code = next.code;
        }
        Err(AskFault::BadAnswer)
    }

    /// The verdicts of one position: they are asked for anew where the node has applied another one meanwhile.
    pub(crate) fn verdicts<C: Control>(&self, control: &mut C, call: &Call) -> Answered
        ensures { AskedVerdicts (C.exchanged control.old) (C.exchanged control.new) (call_value call.now)
            self.now.is_once self.now.deadline.seconds (answer_value result) }
    {
        for _beginning in 0..BEGINNINGS {
            if let Some(reply) = self.parts(control, call)? {
                return Ok(reply);
            }
        }
        Err(AskFault::BadAnswer)
    }
}
