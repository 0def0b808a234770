//! A change is one ask, or a refusal.

ghost use Rattle.std.specs.Prelude.{◌≡◌, IfOk};
ghost use Rattle.pf_entry.specs.Owned.{command_value};
ghost use Rattle.node_requests.specs.Answers.{answer_value};
ghost use Rattle.node_requests.specs.Changing.{Changes, change_answer};

use crate::answer::Answer;
use crate::figures::positions_left;
use pf_node::{Command, Node};
use px_records::Records;
use std::alloc::{AllocError, Global};

/// What became of a change.
#[derive(Clone, Copy, PartialEq, Eq)]
pub enum Changed {
    /// The node accepted the command: its number as a member, and the number that the request got there.
    Asked(u8, u64),
    /// It wasn't accepted: the number of the refusal.
    Refused(u8),
    /// It wasn't accepted: out of memory.
    Memory,
}

/// One ask of the node, or a refusal with nothing changed: 62 where every position that is left is one of a command
/// that waits.
pub(crate) fn change_node<R: Records>(node: &mut Node<R>, command: &Command) -> Changed
    ensures { Changes node.old node.new (command_value command.now) result }
{
    let left = positions_left(node);
    if node.waiting() >= left as usize {
        return Changed::Refused(62);
    }
    let me = node.membership().me();
    match node.ask(command) {
        Ok(number) => Changed::Asked(me, number),
        Err(fault) => fault
            .code()
            .map_or(Changed::Memory, |code| Changed::Refused(code)),
    }
}

impl Changed {
    /// The answer to a change: 202 where it was accepted, else the refusal.
    pub fn to_answer(self, alloc: Global) -> Result<Answer, AllocError>
        ensures { IfOk result (λ a. answer_value a ≡ change_answer self) }
    {
        match self {
            Changed::Asked(origin, number) => {
                let mut body = String::new(alloc);
                writeln!(body, "asked {origin}.{number}")?;
                Ok(Answer { code: 202, body })
            }
            Changed::Refused(code) => Answer::refused(alloc, code, 0),
            Changed::Memory => Answer::of(alloc, 503, ""),
        }
    }
}
