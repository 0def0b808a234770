//! Lines of the log: what its commands did, or its entries as they are spelled.

ghost use Rattle.std.specs.Prelude.{◌≡◌, ◌++◌, ◌+◌, ◌-◌, [], min, IfOk, OnOk, string_bytes};
ghost use Rattle.pf_node.specs.Nodes.{learned_by, applied_of};
ghost use Rattle.node_requests.specs.Answers.{answer_value, shown};
ghost use Rattle.node_requests.specs.EntryLines.{entry_line, line_shown, lines_before, entries_answer, log_answer};

use crate::answer::{Answer, Answered, Pushed};
use crate::handler::RequestHandler;
use crate::positions::push_position;
use pf_node::Node;
use pf_scripts::push_line;
use px_records::Records;

/// How many lines of the log are shown where no first position is given.
const LAST_LINES: u32 = 20;

/// How many lines are shown at most.
pub const ENTRIES_MAX: u32 = 1_000;

/// Once the lines have that many bytes, no further one is shown.
pub const ENTRIES_BYTES: usize = 262_144;

/// What is shown of a position: its command, with what came of it, or the bytes of its entry.
#[derive(Clone, Copy)]
enum Show {
    Command,
    Entry,
}

/// Puts the line of a position's entry behind the text.
fn push_entry<R: Records>(out: &mut String, node: &Node<R>, position: u32) -> Pushed
    ensures { OnOk result (string_bytes out.new ≡ string_bytes out.old ++ entry_line (learned_by node.now) position) }
{
    let Some(bytes) = node.learned(position) else {
        return Ok(());
    };
    let digits = hex::encode(*out.allocator(), bytes)?;
    push_line(out, digits.as_str())
}

/// Puts what is shown of a position behind the text.
fn push_shown<R: Records>(out: &mut String, node: &Node<R>, show: Show, position: u32) -> Pushed
    ensures { OnOk result (string_bytes out.new ≡ string_bytes out.old ++ line_shown show node.now position) }
{
    match show {
        Show::Command => push_position(out, node, position),
        Show::Entry => push_entry(out, node, position),
    }
}

impl<R: Records> RequestHandler<R> {
    /// What is shown of the applied positions from the first on, a line each: `most` lines at most, and none behind the
    /// one with which they have 262,144 bytes.
    fn lines_from(&self, show: Show, first: u32, most: u32) -> Answered
        ensures { IfOk result (λ a. answer_value a ≡ shown (lines_before (line_shown show self.now.node)
            (min (applied_of self.now.node) (first + most))
            (min (applied_of self.now.node) (first + most) - first) [])) }
    {
        let end = self.node.applied().min(first.saturating_add(most));
        let mut body = String::new(self.alloc);
        let mut left = end.saturating_sub(first);
        while left > 0 && body.as_bytes().len() < ENTRIES_BYTES {
            push_shown(&mut body, &self.node, show, end - left)?;
            left -= 1;
        }
        Ok(Answer::shown(body))
    }

    /// The entries at the applied positions, from a position on (0): a line each, the entry's bytes in hexadecimal
    /// digits. It ends after that many lines, 1,000 at most, and after the line with which it has 262,144 bytes.
    pub(crate) fn entries(&self, from: Option<u32>, count: Option<u32>) -> Answered
        ensures { IfOk result (λ a. answer_value a ≡ entries_answer self.now.node from count) }
    {
        let most = count.unwrap_or(ENTRIES_MAX).min(ENTRIES_MAX);
        self.lines_from(Show::Entry, from.unwrap_or(0), most)
    }

    /// The log from a position on, or its last 20 lines: the positions that are applied, each a line with the member
    /// that accepted its command, the number there, the command's arguments and its outcome. It ends after 1,000 lines,
    /// and after the line with which it has 262,144 bytes.
    pub(crate) fn log(&self, from: Option<u32>) -> Answered
        ensures { IfOk result (λ a. answer_value a ≡ log_answer self.now.node from) }
    {
        let first = from.unwrap_or(self.node.applied().saturating_sub(LAST_LINES));
        self.lines_from(Show::Command, first, ENTRIES_MAX)
    }
}
