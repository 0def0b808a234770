//! Events through one member: an accept request, a vote and a telling at each position.
use crate::record::Record;
use px_core::{Core, CoreFault};
use px_model::{Entry, EntryView, Event, Message};
use std::alloc::Global;

/// The spelling of the entry at a position, 100 bytes: a format, member 0, the position as its number, and zeros.
fn spelling(position: u32) -> [u8; 100] {
    let mut bytes = [0; 100];
    bytes[0] = 1;
    bytes[2..10].copy_from_slice(&(position as u64).to_be_bytes());
    bytes
}

/// What comes, of three events a position.
fn event_of(kind: u32, position: u32, entry: EntryView<'_>) -> Event<'_> {
    let ballot = 256;
    match kind {
        0 => Event::Comes(0, Message::Accept(ballot, position, entry)),
        1 => Event::Comes(1, Message::Vote(ballot, position, entry)),
        _ => Event::Comes(2, Message::Learned(position, entry)),
    }
}

/// A member of three that has learned that many entries.
fn opened(alloc: Global, learned: u32) -> Result<Core, CoreFault> {
    let Ok(mut core) = Core::new(alloc, 3, 0) else {
        return Err(CoreFault::Memory);
    };
    for position in 0..learned.min(1_000_000) {
        let bytes = spelling(position);
        let Some(view) = EntryView::read(&bytes) else {
            return Err(CoreFault::Memory);
        };
        let Ok(entry) = Entry::from_view(alloc, &view) else {
            return Err(CoreFault::Memory);
        };
        if core.remember(position, entry).is_err() {
            return Err(CoreFault::Memory);
        }
    }
    Ok(core)
}

/// The front after that many events, of a member that has learned that many entries.
pub(crate) fn front_after(alloc: Global, learned: u32, events: u32) -> Result<u32, CoreFault> {
    let mut core = opened(alloc, learned)?;
    let mut record = Record::new(alloc, learned);
    for number in 0..events {
        let position = learned.saturating_add(number / 3);
        let bytes = spelling(position);
        if let Some(entry) = EntryView::read(&bytes) {
            drop(record.step(&mut core, &event_of(number % 3, position, entry))?);
        }
    }
    Ok(core.front())
}
