//! An event of a script: it is done, and what came of it is printed.

ghost use Rattle.std.specs.Prelude.{◌≡◌, ◌++◌, OnOk, string_bytes};
ghost use Rattle.pf_lab.specs.Scripts.{LabValue, delivered_by, asked_by, marked, outcome_text, happened};
ghost use Rattle.pf_lab.specs.inner.Seen.{event_value};
ghost use Rattle.pf_lab.specs.inner.Benches.{IsBench, Does};

use crate::bench::Bench;
use crate::event::{LabAction, LabEvent, LabFault, Outcome};
use crate::fault::{NOT_THERE, Pushed};
use pf_scripts::{push_line, push_refusal};
use std::alloc::AllocError;

/// Prints what became of an event: of an ask, not under a stop, its number or that the node is stopped; a refusal;
/// else nothing.
fn push_outcome(out: &mut String, event: &LabEvent, outcome: Outcome) -> Pushed
    ensures { OnOk result
        (string_bytes out.new ≡ string_bytes out.old ++ outcome_text (asked_by (event_value event.now)) outcome) }
{
    match (outcome, event) {
        (Outcome::Refused(code), _) => push_refusal(out, code, 0),
        (Outcome::Asked(number), LabEvent::Runs(LabAction::Ask(m, _))) => writeln!(
            out,
            "asked {m}.{number}"
        ),
        (Outcome::Stopped, LabEvent::Runs(LabAction::Ask(..))) => push_line(out, "stopped"),
        _ => Ok(()),
    }
}

impl Bench {
    /// The message that an event delivers, be it under a stop, counts as delivered.
    fn mark(&mut self, event: &LabEvent) -> Pushed
        ensures { (v : LabValue) → IsBench self.old v →
            OnOk result (IsBench self.new (marked (delivered_by (event_value event.now)) v)) }
    {
        match event {
            LabEvent::Runs(LabAction::Deliver(k))
            | LabEvent::StopBefore(LabAction::Deliver(k))
            | LabEvent::StopAfter(LabAction::Deliver(k)) => Ok(self.delivered.push(*k)?),
            _ => Ok(()),
        }
    }

    /// Makes an event happen, and prints what becomes of it.
    pub(crate) fn happen(&mut self, event: &LabEvent, out: &mut String) -> Pushed
        ensures { (v : LabValue) → IsBench self.old v → OnOk result
            (Does (happened v (event_value event.now)) self.new (string_bytes out.old) (string_bytes out.new)) }
    {
        let outcome = match self.lab.step(event) {
            Ok(outcome) => outcome,
            Err(LabFault::BadEvent) => return push_refusal(out, NOT_THERE, 0),
            Err(LabFault::Memory) => return Err(AllocError),
        };
        self.mark(event)?;
        push_outcome(out, event, outcome)
    }
}
