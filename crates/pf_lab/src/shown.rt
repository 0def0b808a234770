//! What a script shows of its lab.

ghost use Rattle.std.specs.Prelude.{◌≡◌, ◌++◌, ◌+◌, IfOk, OnOk, string_bytes, Some, map, length};
ghost use Rattle.std.specs.Option.{option_copied};
ghost use Rattle.px_model.specs.Entries.{view_of};
ghost use Rattle.px_model.specs.Spelling.{Bytes};
ghost use Rattle.px_model.specs.Step.{front};
ghost use Rattle.px_model.specs.World.{NodeState};
ghost use Rattle.pf_node.specs.Nodes.{learned_by};
ghost use Rattle.pf_lab.specs.Shown.{entry_line, log_lines};
ghost use Rattle.pf_lab.specs.Scripts.{LabValue, prints, node_line, state_lines, config_at};
ghost use Rattle.pf_lab.specs.Scripts.{of_node, learned_lines, verdict_line, sent_lines, all_shown};
ghost use Rattle.pf_lab.specs.inner.Benches.{IsBench, Does, IsOfMember};

use crate::bench::Bench;
use crate::fault::{NOT_THERE, Pushed};
use crate::messages::push_datagram;
use pf_config::Config;
use pf_node::Node;
use pf_scripts::{push_line, push_refusal, test_packet};
use px_model::EntryView;
use px_records::MemoryRecords;
use std::alloc::AllocError;

/// Nothing is learned that many positions or more past a node's front.
const WINDOW: u32 = 64;

/// `node N round R front F applied A`, or `node N stopped`; out of memory where less is applied than the front.
fn push_node(out: &mut String, m: u8, node: Option<&Node<MemoryRecords>>) -> Pushed
    ensures { (s : NodeState Bytes) → IsOfMember s (option_copied node.entry) →
        OnOk result (string_bytes out.new ≡ string_bytes out.old ++ node_line m s) }
{
    let Some(node) = node else {
        return writeln!(out, "node {m} stopped");
    };
    let (round, front) = (node.round(), node.front());
    if node.applied() != front {
        return Err(AllocError);
    }
    writeln!(out, "node {m} round {round} front {front} applied {front}")
}

/// `POSITION ORIGIN.NUMBER`
fn push_learned(out: &mut String, position: u32, entry: &EntryView<'_>) -> Pushed
    ensures { OnOk result (string_bytes out.new
        ≡ string_bytes out.old ++ entry_line position (Some (view_of entry.now))) }
{
    writeln!(out, "{position} {}.{}", entry.origin(), entry.number())
}

/// A line for each position that the node has learned, upwards.
fn push_log(out: &mut String, node: &Node<MemoryRecords>) -> Pushed
    ensures { OnOk result (string_bytes out.new
        ≡ string_bytes out.old ++ log_lines (learned_by node.now) (front (learned_by node.now) + 64)) }
{
    for position in 0..node.front() + WINDOW {
        if let Some(bytes) = node.learned(position) {
            if let Some(entry) = EntryView::read(bytes) {
                push_learned(out, position, &entry)?;
            }
        }
    }
    Ok(())
}

/// The configuration of a node that has applied all below its front; out of memory where it hasn't.
#[tactic(auto, using(crate::proofs::Lines::config_is))]
fn configuration(node: &Node<MemoryRecords>) -> Result<&Config, AllocError>
    ensures { IfOk result (λ c. c.now ≡ config_at (learned_by node.now)) }
{
    if node.applied() != node.front() {
        return Err(AllocError);
    }
    Ok(node.config())
}

impl Bench {
    /// Prints how far each node is.
    pub(crate) fn show_state(&self, out: &mut String) -> Pushed
        ensures { (v : LabValue) → IsBench self.now v → OnOk result
            (string_bytes out.new ≡ string_bytes out.old ++ state_lines v.world v.members) }
    {
        for m in 0..self.members {
            push_node(out, m, self.lab.node(m))?;
        }
        Ok(())
    }

    /// Prints what the node has learned, or that it is stopped.
    #[tactic(auto, using(crate::proofs::Lines::learned_shown, crate::proofs::Lines::stopped_shown))]
    pub(crate) fn show_log(&self, m: u8, out: &mut String) -> Pushed
        ensures { (v : LabValue) → IsBench self.now v → OnOk result
            (string_bytes out.new ≡ string_bytes out.old ++ of_node v m learned_lines) }
    {
        if m >= self.members {
            return push_refusal(out, NOT_THERE, 0);
        }
        match self.lab.node(m) {
            Some(node) => push_log(out, node),
            None => push_line(out, "stopped"),
        }
    }

    /// Prints the node's verdict for a packet, or that it is stopped.
    #[tactic(auto, using(crate::proofs::Lines::verdict_shown, crate::proofs::Lines::stopped_shown))]
    pub(crate) fn show_verdict(&self, m: u8, packet: &[&str], out: &mut String) -> Pushed
        ensures { (v : LabValue) → IsBench self.now v → OnOk result (string_bytes out.new
            ≡ string_bytes out.old ++ of_node v m (verdict_line (map (λ w. w.now) packet.now))) }
    {
        if m >= self.members {
            return push_refusal(out, NOT_THERE, 0);
        }
        match self.lab.node(m) {
            Some(node) => test_packet(*out.allocator(), configuration(node)?, packet)?.push_to(out),
            None => push_line(out, "stopped"),
        }
    }

    /// Prints the messages that weren't shown yet, and they count as shown.
    pub(crate) fn show_sent(&mut self, out: &mut String) -> Pushed
        ensures { (v : LabValue) → IsBench self.old v → OnOk result (Does (prints (all_shown v)
            (sent_lines v.world.sent v.shown (length v.world.sent))) self.new
            (string_bytes out.old) (string_bytes out.new)) }
    {
        let sent = self.lab.sent();
        let first = self.shown.min(sent.len());
        for k in first..sent.len() {
            push_datagram(out, self.members, k, &sent[k])?;
        }
        self.shown = sent.len();
        Ok(())
    }
}
