//! Runs that end after each of their steps, and runs of which each commit of the first member fails.

use crate::kept::{Kept, mended};
use crate::member::look;
use crate::run::Run;
use crate::shown::{write_member, write_seen};
use crate::{begin, follow};
use pf_node::Node;
use px_records::When;
use std::alloc::Global;
use std::io;

/// The first member, started anew with its record, of which no commit fails any more.
fn reopened(alloc: Global, node: Node<Kept>) -> Option<Node<Kept>> {
    let m = node.membership();
    match Node::open(alloc, m, mended(node.close())) {
        Ok(node) => Some(node),
        Err((_, records)) => {
            drop(records);
            None
        }
    }
}

/// Writes what each member shows.
fn write_all_seen(rt: &HostRuntime, members: &[Node<Kept>]) -> io::Result<()> {
    for node in members {
        write_seen(rt, look(node))?;
    }
    Ok(())
}

/// Writes what the first member's record shows, opened again; and behind a run to its end what each member shows.
fn write_end(rt: &HostRuntime, run: &mut Run<Kept>, is_whole: bool) -> io::Result<()> {
    if is_whole {
        write_all_seen(rt, run.members())?;
    }
    let Some(first) = run.leave() else {
        return println!(rt; "nothing");
    };
    match reopened(rt.alloc(), first) {
        Some(node) => write_member(rt, node),
        None => println!(rt; "wrong"),
    }
}

/// Writes how far the line's run came, and whether that was wrong: a member that failed must refuse all calls. Whether
/// a commit failed.
fn write_steps(rt: &HostRuntime, run: &mut Run<Kept>, steps: Option<u32>) -> io::Result<bool> {
    let is_stopped = run.counters.is_stopped;
    if run.counters.is_wrong || (is_stopped && !run.is_closed()) {
        println!(rt; "wrong")?;
    }
    match steps {
        Some(steps) => println!(rt; "{steps} steps")?,
        None => println!(rt; "nothing")?,
    }
    Ok(is_stopped)
}

/// Writes what the first that many steps of a line give, where the first member's `k`-th commit fails. Whether one
/// did.
fn write_cut(
    rt: &HostRuntime,
    run: &mut Run<Kept>,
    line: &str,
    k: u64,
    when: When,
    most: usize,
) -> io::Result<bool> {
    if !begin(rt.alloc(), run, k, when) {
        println!(rt; "nothing")?;
        return Ok(false);
    }
    let steps = follow(run, line, most);
    let is_stopped = write_steps(rt, run, steps)?;
    write_end(rt, run, k > 0 && !is_stopped)?;
    Ok(is_stopped)
}

/// The same of a new run.
fn write_one(rt: &HostRuntime, line: &str, k: u64, when: When, most: usize) -> io::Result<bool> {
    let mut run = Run::new(rt.alloc(), true);
    write_cut(rt, &mut run, line, k, when, most)
}

/// Writes what comes where one commit fails, counted upwards until none does.
fn write_failing(rt: &HostRuntime, line: &str, when: When) -> io::Result<()> {
    for k in 1..=100u64 {
        let word = match when {
            When::Before => "before",
            When::After => "after",
        };
        print!(rt; "commit {k} fails {word} its change: ")?;
        if !write_one(rt, line, k, when, usize::MAX)? {
            return Ok(());
        }
    }
    Ok(())
}

/// Writes what a line's run gives, cut behind each step, and with each commit of the first member that fails before
/// its change or after it.
pub fn write_stops(rt: &HostRuntime, line: &str) -> io::Result<()> {
    let steps = line.split(' ').skip(2).count();
    for most in 0..=steps {
        write_one(rt, line, 0, When::Before, most)?;
    }
    write_failing(rt, line, When::Before)?;
    write_failing(rt, line, When::After)
}
