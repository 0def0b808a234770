//! Changes of a node's health, on standard error.

use crate::service::HttpService;
use httpdate::HttpDate;
use node_requests::{Health, counted};
use px_records::Records;
use std::io::Eprint;
use std::time::{Clock, SystemTime};

/// What is advised where large datagrams may be lost.
const ADVICE: &str = ": if large datagrams don't arrive, use a key";

/// Logs on standard error what the node's health is now, and the known reason.
pub(crate) fn log<R: Records, E: Clock + Eprint>(rt: &E, service: &HttpService<R>, health: Health) {
    let node = &service.handler.node;
    let counters = &service.counters;
    let applied = node.applied();
    // below this position some member has learned all, as the others have shown
    let shown = counters.peers.iter().map(|peer| peer.shown).max();
    let works = health == Health::Works;
    let level = if works { "info" } else { "warning" };
    let is_large = health == Health::Stuck && counters.large > 0;
    let advice = if is_large { ADVICE } else { "" };
    let _begun = eprint!(rt; "pfx: {}: ", level);
    // none where the clock can't be read, or gives a time past the year 9999
    let now = SystemTime::now(rt).ok();
    if let Some(date) = now.and_then(|now| HttpDate::try_from(now).ok()) {
        let _dated = eprint!(rt; "{}: ", date);
    }
    let _logged = eprintln!(rt;
        "node {} is {}: front {} unchanged for {} seconds, {} commands wait here, {} of {} other members are heard, \
         {} positions behind, refused by a higher round {} times, the longest datagram sent since is {} bytes{}",
        node.membership().me(),
        health.word(),
        node.front(),
        counters.stood,
        node.waiting(),
        counted(&counters.peers),
        counters.peers.len(),
        shown.unwrap_or(0).max(node.front()).saturating_sub(applied),
        counters.outrun,
        counters.large,
        advice
    );
}
