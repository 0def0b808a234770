//! A member with a plain record.
ghost use Rattle.std.specs.Prelude.{IfOk};
ghost use Rattle.px_core.specs.Planning.{IsFor};

use px_core::{Core, CoreFault, Plan, Sends};
use px_model::{Change, Entry, Event, Meta, Proposal, Reads, Slot};
use std::alloc::Global;

/// As much of a member's record as the first four positions need.
#[derive(Drop)]
pub(crate) struct Stored {
    pub(crate) meta: Meta,
    slots: Vec<Slot>,
    empty: Slot,
}

/// A member with its record.
#[derive(Drop)]
pub(crate) struct Member {
    pub(crate) core: Core,
    pub(crate) stored: Stored,
}

/// The spelling of an entry: a format, who asked, its number, then the command.
pub(crate) fn spelling(origin: u8, number: u8, command: u8) -> [u8; 11] {
    [1, origin, 0, 0, 0, 0, 0, 0, 0, number, command]
}

/// What an event or a record that isn't there is refused by.
const NO_SUCH: u8 = 255;

fn nothing_there() -> Slot {
    Slot {
        promised: 0,
        accepted: None,
    }
}

/// The number of a refusal.
fn number_of(fault: &CoreFault) -> u8 {
    match fault {
        CoreFault::Full => 60,
        CoreFault::BallotsSpent => 61,
        CoreFault::PositionsSpent => 62,
        CoreFault::Memory => NO_SUCH,
    }
}

/// What the event makes of what is stored; or the refusal's number.
fn planned(core: &mut Core, stored: &Stored, event: &Event) -> Result<Plan, u8>
    ensures { IfOk result (λ plan. IsFor plan core.new) }
{
    if !core.takes(event) {
        return Err(NO_SUCH);
    }
    let reads = event.reads();
    let Some(slot) = stored.read(reads) else {
        return Err(NO_SUCH);
    };
    match core.plan(&stored.meta, slot, stored.top_for(reads), event) {
        Ok(plan) => Ok(plan),
        Err(fault) => Err(number_of(&fault)),
    }
}

/// The plan's change is stored, and the core settles.
fn settled(core: &mut Core, stored: &mut Stored, plan: Plan) -> Result<Sends, u8>
    requires { IsFor plan core.old }
{
    if stored.commit(&plan.change) {
        Ok(core.settle(plan))
    } else {
        drop(plan);
        Err(NO_SUCH)
    }
}

impl Member {
    pub(crate) fn new(alloc: Global, members: u8, me: u8) -> Option<Member> {
        if members == 0 || members > 15 || me >= members {
            return None;
        }
        let stored = Stored::new(alloc)?;
        match Core::new(alloc, members, me) {
            Ok(core) => Some(Member { core, stored }),
            Err(_) => None,
        }
    }

    /// One step, whole: planned, committed, settled; or the refusal's number.
    pub(crate) fn take(&mut self, event: &Event) -> Result<Sends, u8> {
        match planned(&mut self.core, &self.stored, event) {
            Ok(plan) => settled(&mut self.core, &mut self.stored, plan),
            Err(code) => Err(code),
        }
    }

    /// Puts these numbers into the record, as by hand.
    pub(crate) fn put_numbers(&mut self, round: u64, number: u64) {
        self.stored.meta = Meta {
            round,
            number,
            floor: self.stored.meta.floor,
        };
    }
}

impl Stored {
    /// An empty record.
    fn new(alloc: Global) -> Option<Stored> {
        let mut slots = Vec::new(alloc);
        for _ in 0..4 {
            slots.push(nothing_there()).ok()?;
        }
        Some(Stored {
            meta: Meta {
                round: 0,
                number: 0,
                floor: 0,
            },
            slots,
            empty: nothing_there(),
        })
    }

    /// The proposal takes the place of the slot. Whether there is one.
    fn accept(&mut self, position: u32, ballot: u64, entry: &Entry) -> bool {
        let Some(slot) = self.slots.get_mut(position as usize) else {
            return false;
        };
        match entry.share() {
            Ok(entry) => {
                *slot = Slot {
                    promised: ballot,
                    accepted: Some(Proposal { ballot, entry }),
                };
                true
            }
            Err(_) => false,
        }
    }

    /// The ballot is promised at the position. Whether there is a slot.
    pub(crate) fn promise(&mut self, position: u32, ballot: u64) -> bool {
        match self.slots.get_mut(position as usize) {
            Some(slot) => {
                slot.promised = ballot;
                true
            }
            None => false,
        }
    }

    /// The change is made. Whether there is a slot for it.
    fn commit(&mut self, change: &Option<Change>) -> bool {
        match change {
            Some(Change::Round(round)) => self.meta.round = *round,
            Some(Change::Number(number)) => self.meta.number = *number,
            Some(Change::Floor(ballot)) => self.meta.floor = *ballot,
            Some(Change::Promised(position, ballot)) => {
                return self.promise(*position, *ballot);
            }
            Some(Change::Accepted(position, ballot, entry)) => return self.accept(
                *position, *ballot, entry,
            ),
            Some(Change::Learned(..)) | None => (),
        }
        true
    }

    /// The slot that an event reads, or the empty one where it reads none.
    fn read(&self, reads: Reads) -> Option<&Slot> {
        match reads {
            Reads::Nothing => Some(&self.empty),
            Reads::Slot(position) => self.slots.get(position as usize),
            Reads::SlotAndTop(position) => self.slots.get(position as usize),
        }
    }

    /// The top, where it is read.
    fn top_for(&self, reads: Reads) -> u32 {
        match reads {
            Reads::SlotAndTop(..) => self.top(),
            _ => 0,
        }
    }

    /// One more than the last position with an accepted proposal.
    pub(crate) fn top(&self) -> u32 {
        let (mut top, mut next) = (0, 0u32);
        for slot in &self.slots {
            next = next.saturating_add(1);
            if slot.accepted.is_some() {
                top = next;
            }
        }
        top
    }
}
