//! A record in memory.

ghost use Rattle.std.specs.Prelude.{◌≡◌, ◌<◌, ◌≤◌, ℕ, Some, Err, IfOk, OnOk, OnErr, option_map};
ghost use Rattle.std.proofs.Common.{refl};
ghost use Rattle.std.specs.Ordering.{nat_cmp};
ghost use Rattle.std.specs.BTreeMap.{get};
ghost use Rattle.px_model.specs.Bounds.{AnyCommand};
ghost use Rattle.px_model.specs.Step as step;
ghost use Rattle.px_model.specs.World.{nothing_stored};
ghost use Rattle.px_model.specs.Entries.{entry_of};
ghost use Rattle.px_model.specs.Seen.{slot_of};
ghost use Rattle.px_model.specs.Fits.{RecordFits};
ghost use Rattle.px_records.specs.Records.{IsEnd};
ghost use Rattle.px_records.specs.Memory.{slots_in, learned_in, record_of};
ghost use Rattle.px_records.specs.inner.Memory.{AllFits, Promises, PutsSlot, PutsEntry};
ghost use Rattle.px_records.specs.inner.Memory.{accepted_with};
ghost use Rattle.px_records.specs.inner.Props.{AllFits-prop, IsTop-prop, IsEnd-prop};

use crate::records::{Records, StoreFault};
use px_model::{Change, Entry, Meta, Proposal, Slot};
use std::alloc::Global;
use std::collections::BTreeMap;

/// A record in memory. It never fails: a call answers `Memory` or does what it is for, at the cost of the logarithm of
/// what it holds.
#[derive(Drop)]
pub struct MemoryRecords {
    members: u8,
    meta: Meta,
    slots: BTreeMap<u32, Slot>,
    learned: BTreeMap<u32, Entry>,
    /// One more than the greatest position with an accepted proposal, else 0.
    top: u32,
    /// One more than the greatest position with a learned entry, else 0.
    end: u32,
    ghost top_is: { top ≡ step.top (slots_in slots) } by { IsTop-prop top slots },
    ghost end_is: { IsEnd (learned_in learned) end } by { IsEnd-prop (learned_in learned) end },
    ghost fits: { AllFits members meta slots learned } by { AllFits-prop members meta slots learned },
}

impl MemoryRecords {
    /// The empty record of one of that many members. It allocates nothing.
    pub fn new(alloc: Global, members: u8) -> MemoryRecords
        ensures empty { ⟦<MemoryRecords as Records>⟧.stored result ≡ nothing_stored }
        ensures same { ⟦<MemoryRecords as Records>⟧.members result ≡ members }
    {
        MemoryRecords {
            members,
            meta: Meta {
                round: 0,
                number: 0,
                floor: 0,
            },
            slots: BTreeMap::new(alloc),
            learned: BTreeMap::new(alloc),
            top: 0,
            end: 0,
        }
    }

    /// How many members the group has.
    pub fn members(&self) -> u8
        ensures { result ≡ ⟦<MemoryRecords as Records>⟧.members self.now }
    {
        self.members
    }
}

fn shared(entry: &Entry) -> Result<Entry, StoreFault>
    ensures value { IfOk result (λ e. entry_of e ≡ entry_of entry.now) }
    ensures why { OnErr result (result ≡ Err StoreFault.Memory) }
{
    entry.share().map_err(|_| StoreFault::Memory)
}

fn copy_of(slot: &Slot) -> Result<Slot, StoreFault>
    ensures value { IfOk result (λ s. slot_of s ≡ slot_of slot.now) }
    ensures why { OnErr result (result ≡ Err StoreFault.Memory) }
{
    let accepted = match &slot.accepted {
        None => None,
        Some(proposal) => Some(Proposal {
            ballot: proposal.ballot,
            entry: shared(&proposal.entry)?,
        }),
    };
    Ok(Slot { accepted, ..*slot })
}

fn promise(slots: &mut BTreeMap<u32, Slot>, position: u32, ballot: u64) -> Result<(), StoreFault>
    ensures done { OnOk result (Promises position ballot slots.old slots.new) }
    ensures refused { OnErr result ((p : ℕ) → slots_in slots.new p ≡ slots_in slots.old p) }
    ensures why { OnErr result (result ≡ Err StoreFault.Memory) }
    ensures same { (p : ℕ) → (slots_in slots.new p).accepted ≡ (slots_in slots.old p).accepted }
{
    if let Some(slot) = slots.get_mut(&position) {
        slot.promised = ballot;
        return Ok(());
    }
    let slot = Slot {
        promised: ballot,
        accepted: None,
    };
    slots
        .insert(position, slot)
        .map_err(|_| StoreFault::Memory)?;
    Ok(())
}

fn accept(
    slots: &mut BTreeMap<u32, Slot>,
    position: u32,
    ballot: u64,
    entry: &Entry,
) -> Result<(), StoreFault>
    ensures done { OnOk result (PutsSlot position (accepted_with ballot (entry_of entry.now)) slots.old slots.new) }
    ensures refused { OnErr result ((p : ℕ) → slots_in slots.new p ≡ slots_in slots.old p) }
    ensures why { OnErr result (result ≡ Err StoreFault.Memory) }
{
    let entry = shared(entry)?;
    let slot = Slot {
        promised: ballot,
        accepted: Some(Proposal { ballot, entry }),
    };
    slots
        .insert(position, slot)
        .map_err(|_| StoreFault::Memory)?;
    Ok(())
}

fn learn(learned: &mut BTreeMap<u32, Entry>, position: u32, entry: &Entry) -> Result<(), StoreFault>
    ensures done { OnOk result (PutsEntry position (entry_of entry.now) learned.old learned.new) }
    ensures refused { OnErr result ((p : ℕ) → learned_in learned.new p ≡ learned_in learned.old p) }
    ensures why { OnErr result (result ≡ Err StoreFault.Memory) }
{
    let entry = shared(entry)?;
    learned
        .insert(position, entry)
        .map_err(|_| StoreFault::Memory)?;
    Ok(())
}

impl Records for MemoryRecords {
    ghost is_honest = { λ r. Unit {0} };

    ghost is_trusted = { λ r. Unit {0} };

    ghost stored = { λ r. record_of r.meta r.slots r.learned };

    ghost members = { λ r. r.members };

    ghost may_leave = { λ r d. d ≡ record_of r.meta r.slots r.learned };

    ghost failed = { λ r. 0 };

    ghost may_fail = { λ r. ⊥ };

    ghost is_good = { λ r x. Unit {0} };

    ghost settled = { λ r honest none d left. left };

    ghost stays = { λ r honest none. refl };

    fn failures(&self) -> u64 {
        0
    }

    fn read_meta(&mut self) -> Result<Meta, StoreFault> {
        Ok(self.meta)
    }

    fn read_slot(&mut self, position: u32) -> Result<Slot, StoreFault> {
        match self.slots.get(&position) {
            Some(slot) => copy_of(slot),
            None => Ok(Slot {
                promised: 0,
                accepted: None,
            }),
        }
    }

    fn read_top(&mut self) -> Result<u32, StoreFault> {
        Ok(self.top)
    }

    fn read_learned(&mut self, position: u32) -> Result<Option<Entry>, StoreFault> {
        match self.learned.get(&position) {
            Some(entry) => Ok(Some(shared(entry)?)),
            None => Ok(None),
        }
    }

    fn read_learned_end(&mut self) -> Result<u32, StoreFault> {
        Ok(self.end)
    }

    fn commit(&mut self, change: &Change) -> Result<(), StoreFault> {
        match change {
            Change::Round(round) => {
                self.meta.round = *round;
                Ok(())
            }
            Change::Number(number) => {
                self.meta.number = *number;
                Ok(())
            }
            Change::Floor(ballot) => {
                self.meta.floor = *ballot;
                Ok(())
            }
            Change::Promised(position, ballot) => {
                promise(&mut self.slots, *position, *ballot)?;
                Ok(())
            }
            Change::Accepted(position, ballot, entry) => {
                accept(&mut self.slots, *position, *ballot, entry)?;
                self.top = self.top.max(*position + 1);
                Ok(())
            }
            Change::Learned(position, entry) => {
                learn(&mut self.learned, *position, entry)?;
                self.end = self.end.max(*position + 1);
                Ok(())
            }
        }
    }
}
