//! What waits is delivered.

ghost use Rattle.std.specs.Prelude.{◌≢◌, OnOk, Err};
ghost use Rattle.px_model.specs.World.{happens};
ghost use Rattle.px_model.specs.World as worlds;
ghost use Rattle.px_replica.specs.Made.{same};
ghost use Rattle.pf_lab.specs.Scripts.{LabValue, with_world, all_delivered, run_all};
ghost use Rattle.pf_lab.specs.inner.Benches.{IsBench};

use crate::bench::Bench;
use crate::event::{LabAction, LabEvent, LabFault, Outcome};
use std::alloc::AllocError;

/// Whether it was out of memory.
fn unless_memory(outcome: Result<Outcome, LabFault>) -> Result<(), AllocError>
    ensures { OnOk result (outcome ≢ Err LabFault.Memory) }
{
    match outcome {
        Ok(_) | Err(LabFault::BadEvent) => Ok(()),
        Err(LabFault::Memory) => Err(AllocError),
    }
}

impl Bench {
    /// Delivers a message; one that was never sent changes nothing.
    #[tactic(auto, using(crate::proofs::Lines::delivered_step))]
    fn deliver(&mut self, k: usize) -> Result<(), AllocError>
        ensures { (v : LabValue) → IsBench self.old v → OnOk result (IsBench self.new
            (with_world v (happens same v.members v.world (worlds.Event.Runs (worlds.Action.Deliver k))))) }
    {
        let event = LabEvent::Runs(LabAction::Deliver(k));
        unless_memory(self.lab.step(&event))
    }

    /// Delivers, in order, the messages that were sent so far and not delivered yet.
    fn pass(&mut self) -> Result<(), AllocError>
        ensures { (v : LabValue) → IsBench self.old v → OnOk result (IsBench self.new (all_delivered v)) }
    {
        let sent = self.lab.sent().len();
        let first = self.passed.min(sent);
        for k in first..sent {
            if !self.is_delivered(k) {
                self.deliver(k)?;
            }
        }
        self.passed = sent;
        self.delivered.clear();
        Ok(())
    }

    /// Four passes, each over the messages sent before it began.
    pub(crate) fn run(&mut self) -> Result<(), AllocError>
        ensures { (v : LabValue) → IsBench self.old v → OnOk result (IsBench self.new (run_all v)) }
    {
        self.pass()?;
        self.pass()?;
        self.pass()?;
        self.pass()
    }
}
