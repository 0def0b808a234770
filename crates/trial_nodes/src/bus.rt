//! Members that hear each other's messages when they are delivered, one by one.
use crate::member::Member;
use crate::shown::push_message;
use px_core::Sends;
use px_model::{Entry, Event, Message};
use std::alloc::Global;

/// The members, and all that they sent, in order.
#[derive(Drop)]
pub(crate) struct Bus {
    alloc: Global,
    members: Vec<Member>,
    /// Who sent a message, to whom, and its place.
    pub(crate) sent: Vec<(u8, u8, usize)>,
    messages: Vec<Message<Entry>>,
}

/// What the message sends where it arrives at the member. None where there is no such, or it is refused.
fn delivered(
    members: &mut [Member],
    messages: &[Message<Entry>],
    sender: u8,
    to: u8,
    place: usize,
) -> Option<Sends> {
    let message = messages.get(place)?;
    let member = members.get_mut(to as usize)?;
    let event = Event::Comes(sender, message.view());
    member.take(&event).ok()
}

impl Bus {
    /// A bus without members.
    pub(crate) fn new(alloc: Global) -> Bus {
        Bus {
            alloc,
            members: Vec::new(alloc),
            sent: Vec::new(alloc),
            messages: Vec::new(alloc),
        }
    }

    /// Members join, that many. Whether they do.
    pub(crate) fn join(&mut self, members: u8) -> bool {
        for me in 0..members {
            let has_joined = match Member::new(self.alloc, members, me) {
                Some(member) => self.members.push(member).is_ok(),
                None => false,
            };
            if !has_joined {
                return false;
            }
        }
        true
    }

    pub(crate) fn member(&mut self, member: u8) -> Option<&mut Member> {
        self.members.get_mut(member as usize)
    }

    pub(crate) fn front(&self, member: u8) -> Option<u32> {
        self.members.get(member as usize).map(|m| m.core.front())
    }

    /// The message of this place goes to every member. Whether there was memory for it.
    fn send_all(&mut self, sender: u8, place: usize) -> bool {
        for to in 0..u8::try_from(self.members.len()).unwrap_or(0) {
            if self.sent.push((sender, to, place)).is_err() {
                return false;
            }
        }
        true
    }

    /// What a member sends goes onto the bus. Whether there was memory for it.
    fn send(&mut self, sender: u8, sends: Sends) -> bool {
        let place = self.messages.len();
        match sends {
            Sends::Nothing => true,
            Sends::One(to, message) => {
                self.messages.push(message).is_ok() && self.sent.push((sender, to, place)).is_ok()
            }
            Sends::All(message) => {
                self.messages.push(message).is_ok() && self.send_all(sender, place)
            }
        }
    }

    /// The event arrives at the member, and what it sends goes onto the bus. Whether it isn't refused.
    pub(crate) fn happen(&mut self, member: u8, event: &Event) -> bool {
        let sends = match self.member(member) {
            Some(member) => member.take(event).ok(),
            None => None,
        };
        match sends {
            Some(sends) => self.send(member, sends),
            None => false,
        }
    }

    /// The addressee receives the message of this number. Whether it isn't refused.
    fn deliver(&mut self, number: usize) -> bool {
        let Some((sender, to, place)) = self.sent.get(number).copied() else {
            return false;
        };
        match delivered(&mut self.members, &self.messages, sender, to, place) {
            Some(sends) => self.send(to, sends),
            None => false,
        }
    }

    /// The addressees receive the messages of these numbers, a blank between, in that order.
    pub(crate) fn deliver_all(&mut self, numbers: &str) -> bool {
        for number in numbers.split(' ') {
            if !self.deliver(number.parse::<usize>().unwrap_or(usize::MAX)) {
                return false;
            }
        }
        true
    }

    /// Whether the message of this number has that line.
    pub(crate) fn has_line(&self, number: usize, wanted: &str) -> bool {
        let Some((sender, to, place)) = self.sent.get(number) else {
            return false;
        };
        let Some(message) = self.messages.get(*place) else {
            return false;
        };
        let mut line = String::new(self.alloc);
        write!(line, "{sender}>{to} ").is_ok()
            && push_message(&mut line, message).is_ok()
            && line.as_str() == wanted
    }

    /// Who asked the entry that the member has learned at the position, and its number and length. None where there is
    /// none.
    pub(crate) fn named(&self, member: u8, position: u32) -> Option<(u8, u64, usize)> {
        let entry = self.members.get(member as usize)?.core.learned(position)?;
        Some((entry.origin(), entry.number(), entry.bytes().len()))
    }
}
