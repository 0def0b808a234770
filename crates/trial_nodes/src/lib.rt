//! Tests of members and nodes: in code, over wires in memory and over UDP, with datagrams that are lost, over packets,
//! and at control sockets. Cores beside plain records made by hand, with what they send to each other on a list; when a
//! node's clock ticks, what it does when it starts and when its turns are over, what it sends again and to whom.
//!
//! The tests are in a crate of their own, since they take longer to prove than what they try.
//!
//! Within: `member`, `bus`, `step`, `runs` and `shown` are runs of cores; `members`, `parties`, `echo` and `cluster`
//! have nodes and their wires, `packets` wires with a key, `control` control sockets too; `starting`, `listing`,
//! `long_log`, `hosting` and `ending` are of nodes, `tick_timer`, `busy` and `waiting` of the clock, `latest`, `votes`
//! and `reminding` of what is sent again.
#![tactic(auto)]

#[cfg(test)]
mod bus;
#[cfg(test)]
mod busy;
#[cfg(test)]
mod cluster;
#[cfg(test)]
mod control;
#[cfg(test)]
mod echo;
#[cfg(test)]
mod ending;
#[cfg(test)]
mod hosting;
#[cfg(test)]
mod latest;
#[cfg(test)]
mod listing;
#[cfg(test)]
mod long_log;
#[cfg(test)]
mod member;
#[cfg(test)]
mod members;
#[cfg(test)]
mod packets;
#[cfg(test)]
mod parties;
#[cfg(test)]
mod reminding;
#[cfg(test)]
mod runs;
#[cfg(test)]
mod shown;
#[cfg(test)]
mod starting;
#[cfg(test)]
mod step;
#[cfg(test)]
mod tick_timer;
#[cfg(test)]
mod votes;
#[cfg(test)]
mod waiting;
