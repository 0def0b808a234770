//! What operators ask for.

use pf_arguments::{Action, Command};

/// What only looks.
#[derive(Drop)]
pub enum Read<'a> {
    /// What an action lists (pfctl(8), `-s` and `-T`).
    List(Action),
    /// The verdicts for packets: each one's text, 1 to 64 of them.
    Test(Vec<&'a str>),
    /// What became of a request: the node that accepted it, and its number there.
    RequestStatus(u8, u64),
    /// The log from a position on, or its last lines.
    Log(Option<u32>),
    /// The entries at the applied positions, as they are spelled: from the first position on, 0 if it isn't given, and
    /// how many at most, 1,000 if that isn't given or is more.
    Entries(Option<u32>, Option<u32>),
    /// How the node is: as JSON where true, else in lines.
    Status(bool),
    /// Whether the node works: it hasn't failed.
    Health,
    /// Whether it is up with the others.
    Ready,
    /// Numbers for Prometheus.
    Metrics,
}

/// What is asked for.
#[derive(Drop)]
pub enum Request<'a> {
    /// A change.
    Change(Command),
    /// A read, once that many positions are applied, 0 for any.
    Read(u32, Read<'a>),
    /// The node is to end after this turn.
    Stop,
}

/// What a method, a path, its query and a body ask for.
#[derive(Drop)]
pub enum Routed<'a> {
    /// A request.
    Asked(Request<'a>),
    /// HTTP's status, with an empty body: 404 another path, 405 another method, 400 parameters that aren't understood.
    Refused(u16),
    /// The number of a refusal: of parameters or a body that aren't understood.
    Unread(u8),
}
