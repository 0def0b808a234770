//! What came of a command, as a line.

ghost use Rattle.std.specs.Prelude.{◌≡◌, ◌++◌, OnOk, string_bytes, option_map};
ghost use Rattle.px_model.specs.Spelling.{spelled};
ghost use Rattle.pf_entry.specs.Reading.{reading};
ghost use Rattle.pf_node.specs.Nodes.{learned_by, applied_of, kept_of};
ghost use Rattle.node_requests.specs.Outcomes.{kept_line};
ghost use Rattle.node_requests.specs.inner.Outcomes.{counts_read, counts_in};

use crate::answer::Pushed;
use pf_command::Applied;
use pf_entry::decode;
use pf_node::{Node, Outcome};
use pf_scripts::{is_counted, push_counts, push_refusal};
use px_records::Records;

/// Whether the counts of the command that bytes spell are shown.
fn counts_read(bytes: &[u8]) -> bool
    ensures { result ≡ counts_read (reading bytes.now) }
{
    decode(bytes).is_ok_and(|entry| is_counted(&entry.command))
}

/// The same of the command at a position.
#[tactic(auto, using(crate::proofs::Lines::counts_some, crate::proofs::Lines::counts_none))]
fn counts_at<R: Records>(node: &Node<R>, position: u32) -> bool
    ensures { result ≡ counts_in (learned_by node.now position) }
{
    node.learned(position)
        .is_some_and(|bytes| counts_read(bytes))
}

/// Puts what came of the command at a position behind the text, a line as a script prints it; nothing where that isn't
/// kept any more.
#[tactic(auto, using(crate::proofs::Lines::line_kept))]
pub fn push_outcome<R: Records>(out: &mut String, node: &Node<R>, position: u32) -> Pushed
    ensures { OnOk result (string_bytes out.new ≡ string_bytes out.old
        ++ kept_line (learned_by node.now) (applied_of node.now) (kept_of node.now) position) }
{
    match node.outcome(position) {
        Some(Outcome::Done(added, removed)) => push_counts(
            out,
            counts_at(node, position),
            Applied { added, removed },
        ),
        Some(Outcome::Refused(code, line)) => push_refusal(out, code, line),
        Some(Outcome::NoCommand) | None => Ok(()),
    }
}
