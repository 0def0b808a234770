//! Numbers for Prometheus, in its text format 0.0.4.

ghost use Rattle.std.specs.Prelude.{◌≡◌, ◌++◌, ℕ, List, IfOk, OnOk, map, string_bytes};
ghost use Rattle.std.specs.List.{flat_map};
ghost use Rattle.node_requests.specs.Metrics.{heading, metrics_of, sample, figure_of};
ghost use Rattle.node_requests.specs.Metrics.{is_at, node_metrics, health_metrics, config_metrics, loop_metrics};
ghost use Rattle.node_requests.specs.Metrics.{control_metrics, peer_heading, peers_of, metrics_text};
ghost use Rattle.node_requests.specs.Answers.{answer_value, shown};

use crate::answer::{Answer, Answered, Pushed};
use crate::counters::{Counters, PeerCounters};
use crate::figures::Figures;
use crate::health::Health;
use std::alloc::Global;

/// Metrics of one kind, a line each: its name, its number, and what it is for.
macro_rules! rows {
    ($($name:literal = $value:expr, $help:literal;)*) => { [$(($name, $help, $value)),*] };
}

/// Puts what a metric is for, and its kind, behind the output.
#[tactic(auto, unfolding(crate::specs::Metrics::heading))]
fn push_heading(out: &mut String, kind: &str, name: &str, help: &str) -> Pushed
    ensures { OnOk result (string_bytes out.new
        ≡ string_bytes out.old ++ heading kind.now name.now help.now) }
{
    write!(out, "# HELP {name} {help}\n# TYPE {name} {kind}\n")
}

/// Puts metrics of one kind behind the output.
fn push_metrics(out: &mut String, kind: &str, rows: &[(&str, &str, u64)]) -> Pushed
    ensures { OnOk result (string_bytes out.new
        ≡ string_bytes out.old ++ metrics_of kind.now (map (λ r. (r.0.now, r.1.now, r.2)) rows.now)) }
{
    for (name, help, value) in rows {
        push_heading(out, kind, name, help)?;
        writeln!(out, "{name} {value}")?;
    }
    Ok(())
}

/// Puts the numbers of one metric behind the output.
#[tactic(auto, unfolding(crate::specs::Metrics::sample))]
fn push_samples(out: &mut String, name: &str, label: &str, rows: &[(&str, u64)]) -> Pushed
    ensures { OnOk result (string_bytes out.new ≡ string_bytes out.old
        ++ flat_map (λ (r : List ℕ × ℕ). sample name.now label.now r.0 r.1)
        (map (λ r. (r.0.now, r.1)) rows.now)) }
{
    for (of, value) in rows {
        writeln!(out, "{name}{{{label}=\"{of}\"}} {value}")?;
    }
    Ok(())
}

/// What is counted of a peer.
#[derive(Clone, Copy)]
enum PeerFigure {
    Heard,
    In,
    Out,
}

/// A figure of a peer, none of what never was.
fn figure_of(peer: &PeerCounters, figure: PeerFigure) -> Option<u64>
    ensures { result ≡ figure_of figure peer.now }
{
    match figure {
        PeerFigure::Heard => peer.heard,
        PeerFigure::In => Some(peer.datagrams_in),
        PeerFigure::Out => Some(peer.datagrams_out),
    }
}

/// The kind, the name and the meaning of a figure of peers.
fn peer_heading(figure: PeerFigure) -> (&'static str, &'static str, &'static str)
    ensures { (result.0.now, result.1.now, result.2.now) ≡ peer_heading figure }
{
    match figure {
        PeerFigure::Heard => (
            "gauge",
            "pfx_peer_heard_seconds",
            "Seconds since the last datagram from the peer.",
        ),
        PeerFigure::In => (
            "counter",
            "pfx_datagrams_in_total",
            "Datagrams from the peer.",
        ),
        PeerFigure::Out => (
            "counter",
            "pfx_datagrams_out_total",
            "Datagrams to the peer.",
        ),
    }
}

/// Puts a figure of peers behind the output, by their numbers as members, but for those that have none.
#[tactic(auto, unfolding(crate::specs::Metrics::peers_of, crate::specs::Metrics::sample))]
fn push_peers(out: &mut String, figure: PeerFigure, peers: &[PeerCounters]) -> Pushed
    ensures { OnOk result (string_bytes out.new ≡ string_bytes out.old ++ peers_of figure peers.now) }
{
    let (kind, name, help) = peer_heading(figure);
    push_heading(out, kind, name, help)?;
    for peer in peers {
        if let Some(value) = figure_of(peer, figure) {
            writeln!(out, "{name}{{peer=\"{}\"}} {value}", peer.node)?;
        }
    }
    Ok(())
}

/// How far the node is, how its store is, and how many members there are.
fn push_node(out: &mut String, f: &Figures) -> Pushed
    ensures { OnOk result (string_bytes out.new ≡ string_bytes out.old ++ node_metrics f.now) }
{
    let rows = rows! {
        "pfx_front" = u64::from(f.front), "Least position not learned.";
        "pfx_applied" = u64::from(f.applied), "Positions applied.";
        "pfx_round" = f.round, "Round of the last prepare.";
        "pfx_waiting" = f.waiting as u64, "Commands asked here and not learned yet.";
        "pfx_failed" = u64::from(f.has_failed), "1 after a fault of the store.";
        "pfx_members" = u64::from(f.members), "Members of the cluster.";
    };
    push_metrics(out, "gauge", &rows)
}

/// 1 of the same health, 0 of another one.
fn is_at(state: Health, health: Health) -> u64
    ensures { result ≡ is_at state health }
{
    u64::from(state == health)
}

/// The node's health: 1 at that one, and 0 at each other.
fn push_health(out: &mut String, health: Health) -> Pushed
    ensures { OnOk result (string_bytes out.new ≡ string_bytes out.old ++ health_metrics health) }
{
    let help = "1 for the health of the node now.";
    push_heading(out, "gauge", "pfx_health", help)?;
    let rows = [
        ("ok", is_at(Health::Works, health)),
        ("behind", is_at(Health::Behind, health)),
        ("alone", is_at(Health::Alone, health)),
        ("stuck", is_at(Health::Stuck, health)),
        ("failed", is_at(Health::Failed, health)),
    ];
    push_samples(out, "pfx_health", "state", &rows)
}

/// How much its configuration has.
fn push_config(out: &mut String, f: &Figures) -> Pushed
    ensures { OnOk result (string_bytes out.new ≡ string_bytes out.old ++ config_metrics f.now) }
{
    let rows = rows! {
        "pfx_anchors" = f.anchors as u64, "Paths with rules or tables.";
        "pfx_rules" = f.rules as u64, "Rules at all paths.";
        "pfx_tables" = f.tables as u64, "Tables at all paths.";
        "pfx_table_addresses" = f.addresses as u64, "Entries in all tables.";
    };
    push_metrics(out, "gauge", &rows)
}

/// What the loop counted.
fn push_loop(out: &mut String, t: &Counters) -> Pushed
    ensures { OnOk result (string_bytes out.new ≡ string_bytes out.old ++ loop_metrics t.now) }
{
    let rows = rows! {
        "pfx_unsent_total" = t.unsent, "Datagrams that the system failed to send.";
        "pfx_dropped_total" = t.dropped, "Datagrams dropped: a wrong tag, an ask, or a part of one.";
        "pfx_ignored_total" = t.ignored, "Datagrams that aren't for this member.";
        "pfx_turns_total" = t.turns, "Turns of the node.";
        "pfx_ticks_total" = t.ticks, "Ticks of its clock.";
    };
    push_metrics(out, "counter", &rows)
}

/// How many requests were answered.
fn push_control(out: &mut String, t: &Counters) -> Pushed
    ensures { OnOk result (string_bytes out.new ≡ string_bytes out.old ++ control_metrics t.now) }
{
    let help = "Requests at the control socket, by HTTP status.";
    push_heading(out, "counter", "pfx_control_requests_total", help)?;
    let rows = [
        ("2xx", t.served),
        ("4xx", t.refused),
        ("5xx", t.unavailable),
    ];
    push_samples(out, "pfx_control_requests_total", "code", &rows)
}

/// A node's numbers for Prometheus.
pub(crate) fn metrics(alloc: Global, f: &Figures, health: Health, t: &Counters) -> Answered
    ensures { IfOk result (λ a. answer_value a ≡ shown (metrics_text f.now health t.now)) }
{
    let mut body = String::new(alloc);
    push_node(&mut body, f)?;
    push_health(&mut body, health)?;
    push_config(&mut body, f)?;
    push_peers(&mut body, PeerFigure::Heard, &t.peers)?;
    push_peers(&mut body, PeerFigure::In, &t.peers)?;
    push_peers(&mut body, PeerFigure::Out, &t.peers)?;
    push_loop(&mut body, t)?;
    push_control(&mut body, t)?;
    Ok(Answer::shown(body))
}
