//! Steps of a run, and what is looked for between them.
//!
//! A line of a run is a keyword and numbers:
//!
//! - `ask MEMBER COMMAND`, `tick MEMBER`, `deliver MESSAGE ..`: it happens, and what is sent goes onto the bus.
//! - The first member receives `promiseall SENDER`, for its first round with nothing accepted, `accept`, of its own
//!   first round, `prepare BALLOT` of member 1, `vote SENDER POSITION` for that round, `need SENDER POSITION`, or
//!   `outside`, an ask of a client.
//! - `numbers ROUND NUMBER`, `promised BALLOT`: put into the first member's record, as by hand. `remember` starts it
//!   anew with an entry learned at the first position, `forget` in place.
//! - `sent MANY`, `line MESSAGE TEXT`, `front MEMBER POSITION`, `learned MEMBER POSITION ORIGIN NUMBER LENGTH`,
//!   `unlearned MEMBER POSITION`, `meta ROUND NUMBER` and `unaccepted`, of the first member's record: it must be so.
//! - `refused CODE`: the first member refuses a tick so. `asked CODE TIMES`: it answers that many askings so, 0 accepts
//!   them.
use crate::bus::Bus;
use crate::member::{Member, spelling};
use px_core::Core;
use px_model::{Entry, EntryView, Event, Message};
use std::alloc::Global;

/// A message arrives at the first member. Whether it isn't refused.
fn receive(bus: &mut Bus, sender: u8, message: Message<EntryView>) -> bool {
    bus.happen(0, &Event::Comes(sender, message))
}

/// The member is asked a command.
fn ask(bus: &mut Bus, member: u8, command: u8) -> bool {
    match EntryView::read(&spelling(0, 0, command)) {
        Some(entry) => bus.happen(member, &Event::Asks(entry)),
        None => false,
    }
}

/// A message with the entry of this origin and number arrives at the first member, if the keyword is that of one.
fn come_with(bus: &mut Bus, word: &str, sender: u8, position: u32) -> Option<bool> {
    let bytes = match word {
        "outside" => spelling(255, 9, 7),
        _ => spelling(0, 0, 7),
    };
    let entry = EntryView::read(&bytes)?;
    let ballot = 256;
    Some(match word {
        "accept" => receive(bus, 0, Message::Accept(ballot, 0, entry)),
        "vote" => receive(bus, sender, Message::Vote(ballot, position, entry)),
        "outside" => receive(bus, 255, Message::Ask(entry)),
        _ => return None,
    })
}

/// Whether the event gives this refusal, 0 where it is taken.
fn comes_to(member: &mut Member, event: &Event, code: u8) -> bool {
    match member.take(event) {
        Ok(_) => code == 0,
        Err(found) => found == code,
    }
}

/// The same of that many askings.
fn all_come_to(member: &mut Member, code: u8, times: u64) -> bool {
    let bytes = spelling(0, 0, 7);
    let Some(entry) = EntryView::read(&bytes) else {
        return false;
    };
    for _ in 0..times {
        if !comes_to(member, &Event::Asks(entry), code) {
            return false;
        }
    }
    true
}

/// The entry of member 2 with number 5.
fn fifth(alloc: Global) -> Option<Entry> {
    let bytes = spelling(2, 5, 7);
    let view = EntryView::read(&bytes)?;
    Entry::from_view(alloc, &view).ok()
}

/// The first member starts anew with that entry at the first position. Whether there was memory for it.
fn start(alloc: Global, bus: &mut Bus) -> bool {
    let Some(member) = bus.member(0) else {
        return false;
    };
    let Ok(core) = Core::new(alloc, 3, 0) else {
        return false;
    };
    member.core = core;
    match fifth(alloc) {
        Some(entry) => member.core.remember(0, entry).is_ok(),
        None => false,
    }
}

/// Up to five numbers between blanks, each 0 where there is none.
fn numbers(text: &str) -> [u64; 5] {
    let mut words = text.split(' ');
    let mut all = [0u64; 5];
    for number in &mut all {
        *number = match words.next() {
            Some(word) => word.parse::<u64>().unwrap_or(0),
            None => 0,
        };
    }
    all
}

/// A number as one of a byte.
fn byte(number: u64) -> u8 {
    (number % 256) as u8
}

/// A number as a position.
fn place(number: u64) -> u32 {
    (number % 1_000_000) as u32
}

/// Something arrives at the first member. None where the keyword is another.
fn come(bus: &mut Bus, word: &str, first: u64, second: u64) -> Option<bool> {
    let position = place(second);
    Some(match word {
        "promiseall" => receive(bus, byte(first), Message::PromiseAll(256, 0, 0, None)),
        "prepare" => receive(bus, 1, Message::Prepare(first, 0)),
        "need" => receive(bus, byte(first), Message::Need(position)),
        _ => return come_with(bus, word, byte(first), position),
    })
}

/// Something is put into the first member, or looked for there, if there is such a member. None where the keyword is
/// another.
fn put(member: &mut Member, word: &str, first: u64, second: u64) -> Option<bool> {
    Some(match word {
        "numbers" => {
            member.put_numbers(first, second);
            true
        }
        "forget" => {
            member.core.forget();
            true
        }
        "promised" => member.stored.promise(0, first),
        "meta" => member.stored.meta.round == first && member.stored.meta.number == second,
        "unaccepted" => member.stored.top() == 0,
        "refused" => comes_to(member, &Event::Ticks, byte(first)),
        "asked" => all_come_to(member, byte(first), second),
        _ => return None,
    })
}

/// Whether what is looked for is so.
fn is_so(bus: &Bus, word: &str, numbers: [u64; 5]) -> bool {
    let [first, second, third, fourth, fifth] = numbers;
    match word {
        "sent" => bus.sent.len() as u64 == first,
        "front" => bus.front(byte(first)) == Some(place(second)),
        "learned" => {
            let wanted = Some((byte(third), fourth, fifth as usize));
            bus.named(byte(first), place(second)) == wanted
        }
        "unlearned" => bus.named(byte(first), place(second)).is_none(),
        _ => false,
    }
}

/// Whether the message has that line.
fn has_line(bus: &Bus, rest: &str) -> bool {
    let (number, wanted) = rest.split_once(' ').unwrap_or((rest, ""));
    bus.has_line(number.parse::<usize>().unwrap_or(usize::MAX), wanted)
}

/// What is done with the first member alone, and whether it is so; or what is looked for of all.
fn done(bus: &mut Bus, word: &str, all: [u64; 5]) -> bool {
    let [first, second, _, _, _] = all;
    if let Some(came) = come(bus, word, first, second) {
        return came;
    }
    let put = match bus.member(0) {
        Some(member) => put(member, word, first, second),
        None => None,
    };
    match put {
        Some(put) => put,
        None => is_so(bus, word, all),
    }
}

/// The step happens, or what is looked for must be so. Whether it is.
pub(crate) fn step(alloc: Global, bus: &mut Bus, line: &str) -> bool {
    let (word, rest) = line.split_once(' ').unwrap_or((line, ""));
    let all = numbers(rest);
    let [first, second, _, _, _] = all;
    match word {
        "line" => has_line(bus, rest),
        "deliver" => bus.deliver_all(rest),
        "ask" => ask(bus, byte(first), byte(second)),
        "tick" => bus.happen(byte(first), &Event::Ticks),
        "remember" => start(alloc, bus),
        _ => done(bus, word, all),
    }
}
