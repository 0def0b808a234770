//! Lines of the log.

ghost use Rattle.std.specs.Prelude.{◌≡◌, IfOk};
ghost use Rattle.pf_node.specs.Nodes.{learned_by, applied_of, kept_of};
ghost use Rattle.cli_show.specs.Writing.{log_shown, shown_value};

use crate::shown::{Made, Shown};
use node_requests::push_positions;
use pf_node::Node;
use px_records::Records;
use std::alloc::Global;

/// How many lines are shown where neither a position nor a number is given.
const LAST_LINES: u32 = 20;

/// The lines of the log from a position on, and that many at most; without a position the last ones, 20 if no count is
/// given.
pub(crate) fn show_log<R: Records>(
    alloc: Global,
    node: &Node<R>,
    from: Option<u32>,
    count: Option<u32>,
) -> Made<Shown>
    ensures { IfOk result (λ s. shown_value s ≡ log_shown (learned_by node.now) (applied_of node.now)
        (kept_of node.now) from count) }
{
    let applied = node.applied();
    let begin = applied.saturating_sub(count.unwrap_or(LAST_LINES));
    let first = from.map_or(begin, |from| from.min(applied));
    let end = count.map_or(applied, |count| applied.min(first.saturating_add(count)));
    let mut text = String::new(alloc);
    push_positions(&mut text, node, end, end.saturating_sub(first))?;
    Ok(Shown::new(text.into_bytes(), false))
}
