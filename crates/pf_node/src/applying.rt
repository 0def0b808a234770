//! What is learned is applied in order.

ghost use Rattle.std.specs.Prelude.{◌≡◌, ◌≤◌, ◌*◌, Some, IfOk, OnOk, OnErr, length};
ghost use Rattle.pf_command.specs.Effect.{after_command, effect};
ghost use Rattle.pf_entry.specs.Reading.{reading};
ghost use Rattle.pf_entry.specs.Seen.{command_of};
ghost use Rattle.px_model.specs.Entries.{entry_of};
ghost use Rattle.px_model.specs.Spelling.{spelled};
ghost use Rattle.px_model.specs.Step.{front};
ghost use Rattle.px_replica.specs.Replicas.{learned_by};
ghost use Rattle.pf_node.specs.Applied.{after, entry_applied};
ghost use Rattle.pf_node.specs.Outcomes.{outcome_of, outcome_read};
ghost use Rattle.pf_node.specs.inner.Outcomes.{outcomes_below};
ghost use Rattle.pf_node.specs.inner.Requests.{AreWithin, AreBounds};

use crate::outcomes::{Outcome, Outcomes};
use crate::requests::Numbers;
use pf_command::{ApplyFault, apply};
use pf_config::Config;
use pf_entry::{CommandView, decode};
use px_model::Entry;
use px_records::Records;
use px_replica::Replica;
use std::alloc::{AllocError, Global};

/// The effect of a command, refused or not, and what came of it.
#[tactic(auto, using(crate::proofs::Recording::done_outcome, crate::proofs::Recording::refused_outcome))]
fn apply_command(
    alloc: Global,
    config: &mut Config,
    command: &CommandView,
) -> Result<Outcome, AllocError>
    ensures ok { OnOk result (config.new ≡ after_command config.old (command_of command.now)) }
    ensures outcome { IfOk result (λ o. o ≡ outcome_of (effect config.old (command_of command.now))) }
    ensures err { OnErr result (config.new ≡ config.old) }
{
    match apply(alloc, config, command) {
        Ok(applied) => Ok(Outcome::Done(applied.added, applied.removed)),
        Err(ApplyFault::Refused(code, line)) => Ok(Outcome::Refused(code, line)),
        Err(ApplyFault::Memory) => Err(AllocError),
    }
}

/// The effect of the command that an entry spells, and what came of it.
fn apply_entry(alloc: Global, config: &mut Config, entry: &Entry) -> Result<Outcome, AllocError>
    ensures ok { OnOk result (config.new ≡ entry_applied config.old (entry_of entry.now)) }
    ensures outcome { IfOk result (λ o. o ≡ outcome_read config.old (reading (spelled (entry_of entry.now)))) }
    ensures err { OnErr result (config.new ≡ config.old) }
{
    match decode(entry.bytes()) {
        Ok(view) => apply_command(alloc, config, &view.command),
        Err(_) => Ok(Outcome::NoCommand),
    }
}

/// Applies the learned entries up to the front. When out of memory it stops between two entries. Outcomes are kept
/// as far as memory serves.
#[tactic(auto, using(crate::proofs::Following::after_next, crate::proofs::Following::learned_below, crate::proofs::Recording::recorded_next))]
pub(crate) fn take_up<R: Records>(
    alloc: Global,
    replica: &Replica<R>,
    config: &mut Config,
    applied: &mut u32,
    outcomes: &mut Outcomes,
    numbers: &mut Numbers,
) -> Result<(), AllocError>
    requires configured { after (learned_by replica.now) applied.old ≡ Some config.old }
    requires behind { applied.old ≤ front (learned_by replica.now) }
    requires recorded { outcomes.old.kept.items ≡
        outcomes_below (learned_by replica.now) applied.old (length outcomes.old.kept.items) }
    requires numbered { AreWithin (learned_by replica.now) numbers.old.origin applied.old numbers.old.last }
    requires bounded { AreBounds (learned_by replica.now) numbers.old.origin numbers.old.bounds.items }
    requires stretched { 256 * length numbers.old.bounds.items ≤ applied.old }
    ensures configured { after (learned_by replica.now) applied.new ≡ Some config.new }
    ensures behind { applied.new ≤ front (learned_by replica.now) }
    ensures recorded { outcomes.new.kept.items ≡
        outcomes_below (learned_by replica.now) applied.new (length outcomes.new.kept.items) }
    ensures numbered { AreWithin (learned_by replica.now) numbers.new.origin applied.new numbers.new.last }
    ensures bounded { AreBounds (learned_by replica.now) numbers.new.origin numbers.new.bounds.items }
    ensures stretched { 256 * length numbers.new.bounds.items ≤ applied.new }
    ensures grows { applied.old ≤ applied.new }
    ensures done { OnOk result (applied.new ≡ front (learned_by replica.now)) }
{
    let end = replica.front();
    for position in *applied..end {
        let Some(entry) = replica.learned(position) else {
            return Ok(());
        };
        let outcome = apply_entry(alloc, config, entry)?;
        outcomes.put(outcome);
        numbers.put(position + 1, entry.origin(), entry.number());
        *applied = position + 1;
    }
    Ok(())
}
