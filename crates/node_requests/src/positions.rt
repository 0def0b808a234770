//! The lines of a log.

ghost use Rattle.std.specs.Prelude.{◌≡◌, ◌≤◌, ◌++◌, OnOk, string_bytes};
ghost use Rattle.pf_entry.specs.Reading.{reading};
ghost use Rattle.pf_node.specs.Nodes.{learned_by, applied_of, kept_of};
ghost use Rattle.node_requests.specs.Positions.{words_read, behind_words, log_line, lines_before};

use crate::answer::Pushed;
use crate::outcome::push_outcome;
use pf_command::CommandArguments;
use pf_entry::decode;
use pf_node::Node;
use px_records::Records;

/// Puts the arguments of the command that bytes spell behind the text, with a blank before them.
fn push_words(out: &mut String, bytes: &[u8]) -> Pushed
    ensures { OnOk result (string_bytes out.new ≡ string_bytes out.old ++ words_read (reading bytes.now)) }
{
    let Ok(view) = decode(bytes) else {
        return Ok(());
    };
    let entry = view.to_entry(*out.allocator())?;
    write!(out, " {}", CommandArguments(&entry.command))
}

/// Appends a command's outcome to its arguments.
fn push_behind(out: &mut String, outcome: &str) -> Pushed
    ensures { OnOk result (string_bytes out.new ≡ string_bytes out.old ++ behind_words outcome.now) }
{
    if outcome.is_empty() {
        return out.push('\n');
    }
    write!(out, " {outcome}")
}

/// Puts the line of a position behind the text.
pub(crate) fn push_position<R: Records>(out: &mut String, node: &Node<R>, position: u32) -> Pushed
    ensures { OnOk result (string_bytes out.new ≡ string_bytes out.old
        ++ log_line (learned_by node.now) (applied_of node.now) (kept_of node.now) position) }
{
    let mut outcome = String::new(*out.allocator());
    push_outcome(&mut outcome, node, position)?;
    let Some(entry) = node.entry(position) else {
        return Ok(());
    };
    let (origin, number) = (entry.origin(), entry.number());
    write!(out, "{position} {origin}.{number}")?;
    push_words(out, entry.bytes())?;
    push_behind(out, outcome.as_str())
}

/// Puts the lines of the last `count` positions before an end behind the text.
pub fn push_positions<R: Records>(out: &mut String, node: &Node<R>, end: u32, count: u32) -> Pushed
    requires { count ≤ end }
    ensures { OnOk result (string_bytes out.new ≡ string_bytes out.old
        ++ lines_before (learned_by node.now) (applied_of node.now) (kept_of node.now) end count) }
{
    let mut left = count;
    while left > 0 {
        push_position(out, node, end - left)?;
        left -= 1;
    }
    Ok(())
}
