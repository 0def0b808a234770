//! A member with a plain record in memory.
use px_core::{Core, CoreFault, Sends};
use px_model::{Change, Event, Meta, Proposal, Reads, Slot};
use std::alloc::{AllocError, Global};

/// A member's record from one position on, below which everything is learned.
#[derive(Drop)]
pub(crate) struct Record {
    meta: Meta,
    first: u32,
    slots: Vec<Slot>,
    empty: Slot,
}

/// The slot of no proposal.
fn empty_slot() -> Slot {
    Slot {
        promised: 0,
        accepted: None,
    }
}

/// The slot that is read, or the empty one.
fn slot_at<'a>(slots: &'a [Slot], empty: &'a Slot, first: u32, reads: Reads) -> &'a Slot {
    let position = match reads {
        Reads::Nothing => return empty,
        Reads::Slot(position) => position,
        Reads::SlotAndTop(position) => position,
    };
    match slots.get(position.saturating_sub(first) as usize) {
        Some(slot) => slot,
        None => empty,
    }
}

impl Record {
    /// The first record, for positions from this one on.
    pub(crate) fn new(alloc: Global, first: u32) -> Record {
        Record {
            meta: Meta {
                round: 0,
                number: 0,
                floor: 0,
            },
            first,
            slots: Vec::new(alloc),
            empty: empty_slot(),
        }
    }

    /// Commits a change that an accept request makes. The others aren't tried here.
    fn commit(&mut self, change: &Option<Change>) -> Result<(), AllocError> {
        let Some(Change::Accepted(position, ballot, entry)) = change else {
            return Ok(());
        };
        let place = position.saturating_sub(self.first) as usize;
        for _ in self.slots.len()..place.saturating_add(1) {
            self.slots.push(empty_slot())?;
        }
        let entry = entry.share()?;
        if let Some(slot) = self.slots.get_mut(place) {
            *slot = Slot {
                promised: *ballot,
                accepted: Some(Proposal {
                    ballot: *ballot,
                    entry,
                }),
            };
        }
        Ok(())
    }

    /// One step of the member, whole. An event that can't come is refused as out of memory.
    pub(crate) fn step(&mut self, core: &mut Core, event: &Event) -> Result<Sends, CoreFault> {
        if !core.takes(event) {
            return Err(CoreFault::Memory);
        }
        let slot = slot_at(&self.slots, &self.empty, self.first, event.reads());
        let plan = core.plan(&self.meta, slot, 0, event)?;
        match self.commit(&plan.change) {
            Ok(()) => Ok(core.settle(plan)),
            Err(_) => Err(CoreFault::Memory),
        }
    }
}
