//! A node's status as JSON (RFC 8259).

ghost use Rattle.std.specs.Prelude.{◌≡◌, ◌++◌, IfOk, OnOk, map, string_bytes};
ghost use Rattle.node_requests.specs.StatusJson.{members, peers_json, status_json};
ghost use Rattle.node_requests.specs.Answers.{answer_value, shown};

use crate::answer::{Answer, Answered, Pushed};
use crate::counters::{Counters, PeerCounters};
use crate::figures::Figures;
use crate::health::Health;
use crate::status::{
    Row, control, identity, losses, peer_rows, progress, push_rows, sizes, stall, store_word,
};
use std::alloc::Global;

/// Puts figures as members of an object behind the output, `first` before the first.
#[tactic(auto, unfolding(crate::specs::StatusJson::members))]
fn push_members(out: &mut String, first: &str, rows: &[Row]) -> Pushed
    ensures { OnOk result (string_bytes out.new
        ≡ string_bytes out.old ++ members first.now (map (λ r. (r.0.now, r.1)) rows.now)) }
{
    push_rows(out, ",\"", "\":", "null", first, rows)
}

/// Peers as objects, `first` before the first and `between` before each other.
fn push_peers(out: &mut String, first: &str, between: &str, peers: &[PeerCounters]) -> Pushed
    ensures { OnOk result (string_bytes out.new
        ≡ string_bytes out.old ++ peers_json between.now first.now peers.now) }
{
    let mut before = first;
    for peer in peers {
        push_members(out, before, &peer_rows("node", peer))?;
        out.push('}')?;
        before = between;
    }
    Ok(())
}

/// A node's status as JSON.
pub(crate) fn status_json(alloc: Global, f: &Figures, h: Health, t: &Counters) -> Answered
    ensures { IfOk result (λ a. answer_value a ≡ shown (status_json f.now h t.now)) }
{
    let mut body = String::new(alloc);
    push_members(&mut body, "{\"", &identity(f, t.up, "members"))?;
    push_members(&mut body, ",\"", &progress(f))?;
    push_members(&mut body, ",\"", &sizes(f))?;
    body.push_str(",\"peers\":[")?;
    push_peers(&mut body, "{\"", ",{\"", &t.peers)?;
    push_members(&mut body, "],\"", &losses(t))?;
    push_members(&mut body, ",\"", &control(t))?;
    write!(body, ",\"health\":\"{}", h.word())?;
    push_members(&mut body, "\",\"", &stall(t))?;
    writeln!(body, ",\"store\":\"{}\"}}", store_word(f.has_failed))?;
    Ok(Answer::shown(body))
}
