//! A node's status: its figures, and the lines that show them.

ghost use Rattle.std.specs.Prelude.{◌≡◌, ◌++◌, IfOk, OnOk, map, string_bytes};
ghost use Rattle.std.specs.List.{flat_map};
ghost use Rattle.pf_scripts.specs.Lines.{line};
ghost use Rattle.node_requests.specs.Status.{identity, progress, stall, sizes, peer_rows, losses, control, store_word};
ghost use Rattle.node_requests.specs.Status.{written, words, peer_line, status_lines};
ghost use Rattle.node_requests.specs.Answers.{answer_value, shown};

use crate::answer::{Answer, Answered};
use crate::counters::{Counters, PeerCounters};
use crate::figures::Figures;
use crate::health::Health;
use std::alloc::{AllocError, Global};

/// A figure: its name, and its number, none of what never was.
pub(crate) type Row<'a> = (&'a str, Option<u64>);

/// Who the node is; `members` is how the number of its members is called.
#[tactic(auto, unfolding(crate::specs::Status::identity))]
pub(crate) fn identity<'a>(f: &Figures, up: u64, members: &'a str) -> [Row<'a>; 4]
    ensures { map (λ r. (r.0.now, r.1)) result ≡ identity f.now up members.now }
{
    [
        ("node", Some(u64::from(f.node))),
        (members, Some(u64::from(f.members))),
        ("cluster", Some(u64::from(f.cluster))),
        ("up", Some(up)),
    ]
}

/// How far it is.
#[tactic(auto, unfolding(crate::specs::Status::progress))]
pub(crate) fn progress(f: &Figures) -> [Row<'static>; 5]
    ensures { map (λ r. (r.0.now, r.1)) result ≡ progress f.now }
{
    [
        ("front", Some(u64::from(f.front))),
        ("applied", Some(u64::from(f.applied))),
        ("round", Some(f.round)),
        ("waiting", Some(f.waiting as u64)),
        ("left", Some(u64::from(f.left))),
    ]
}

/// Why its front may not move.
#[tactic(auto, unfolding(crate::specs::Status::stall))]
pub(crate) fn stall(t: &Counters) -> [Row<'static>; 3]
    ensures { map (λ r. (r.0.now, r.1)) result ≡ stall t.now }
{
    [
        ("stood", Some(t.stood)),
        ("outrun", Some(t.outrun)),
        ("large", Some(t.large)),
    ]
}

/// How much its configuration has.
#[tactic(auto, unfolding(crate::specs::Status::sizes))]
pub(crate) fn sizes(f: &Figures) -> [Row<'static>; 4]
    ensures { map (λ r. (r.0.now, r.1)) result ≡ sizes f.now }
{
    [
        ("anchors", Some(f.anchors as u64)),
        ("rules", Some(f.rules as u64)),
        ("tables", Some(f.tables as u64)),
        ("addresses", Some(f.addresses as u64)),
    ]
}

/// A peer.
#[tactic(auto, unfolding(crate::specs::Status::peer_rows))]
pub(crate) fn peer_rows<'a>(name: &'a str, p: &PeerCounters) -> [Row<'a>; 4]
    ensures { map (λ r. (r.0.now, r.1)) result ≡ peer_rows name.now p.now }
{
    [
        (name, Some(u64::from(p.node))),
        ("heard", p.heard),
        ("in", Some(p.datagrams_in)),
        ("out", Some(p.datagrams_out)),
    ]
}

/// What the wire counted.
#[tactic(auto, unfolding(crate::specs::Status::losses))]
pub(crate) fn losses(t: &Counters) -> [Row<'static>; 3]
    ensures { map (λ r. (r.0.now, r.1)) result ≡ losses t.now }
{
    [
        ("unsent", Some(t.unsent)),
        ("dropped", Some(t.dropped)),
        ("ignored", Some(t.ignored)),
    ]
}

/// What the control socket counted.
#[tactic(auto, unfolding(crate::specs::Status::control))]
pub(crate) fn control(t: &Counters) -> [Row<'static>; 3]
    ensures { map (λ r. (r.0.now, r.1)) result ≡ control t.now }
{
    [
        ("clients", Some(t.clients)),
        ("served", Some(t.served)),
        ("refused", Some(t.refused)),
    ]
}

/// How the store is.
pub(crate) fn store_word(has_failed: bool) -> &'static str
    ensures { result.now ≡ store_word has_failed }
{
    if has_failed { "failed" } else { "ok" }
}

/// Puts figures behind the output: `first` before the first, `between` before each other, `behind` behind each name,
/// and `never` in place of none.
pub(crate) fn push_rows(
    out: &mut String,
    between: &str,
    behind: &str,
    never: &str,
    first: &str,
    rows: &[Row],
) -> Result<(), AllocError>
    ensures { OnOk result (string_bytes out.new ≡ string_bytes out.old
        ++ written between.now behind.now never.now first.now (map (λ r. (r.0.now, r.1)) rows.now)) }
{
    let mut before = first;
    for (name, number) in rows {
        match number {
            Some(number) => write!(out, "{before}{name}{behind}{number}")?,
            None => write!(out, "{before}{name}{behind}{never}")?,
        }
        before = between;
    }
    Ok(())
}

/// Puts figures as a line behind the output, `first` before the first.
#[tactic(auto, unfolding(crate::specs::Status::words))]
pub(crate) fn push_figures(out: &mut String, first: &str, rows: &[Row]) -> Result<(), AllocError>
    ensures { OnOk result (string_bytes out.new
        ≡ string_bytes out.old ++ line (words first.now (map (λ r. (r.0.now, r.1)) rows.now))) }
{
    push_rows(out, " ", " ", "never", first, rows)?;
    out.push('\n')
}

/// The lines of all peers.
fn push_peers(out: &mut String, peers: &[PeerCounters]) -> Result<(), AllocError>
    ensures { OnOk result (string_bytes out.new ≡ string_bytes out.old ++ flat_map peer_line peers.now) }
{
    for peer in peers {
        push_figures(out, "", &peer_rows("peer", peer))?;
    }
    Ok(())
}

/// The lines of a node's status.
pub(crate) fn status(alloc: Global, f: &Figures, h: Health, t: &Counters) -> Answered
    ensures { IfOk result (λ a. answer_value a ≡ shown (status_lines f.now h t.now)) }
{
    let mut body = String::new(alloc);
    push_figures(&mut body, "", &identity(f, t.up, "of"))?;
    push_figures(&mut body, "", &progress(f))?;
    write!(body, "health {}", h.word())?;
    push_figures(&mut body, " ", &stall(t))?;
    push_figures(&mut body, "config ", &sizes(f))?;
    push_peers(&mut body, &t.peers)?;
    push_figures(&mut body, "wire ", &losses(t))?;
    writeln!(body, "store {}", store_word(f.has_failed))?;
    push_figures(&mut body, "control ", &control(t))?;
    writeln!(body, "members {}", t.members)?;
    Ok(Answer::shown(body))
}
