//! The files of a store stop at one call after the other.
//!
//! A line has what is counted of the store before, the statements that make it, or none, what its record shows then,
//! and changes of the record (`stops`) or steps of a node over it (`node-stops`), each with what the record shows
//! behind it. What the record shows is shown by `show`, the slots of the first two positions and what is learned at the
//! first. A stop must leave a store as it was or one of format 3 with four tables; taken again, or opened again by a
//! new node, its record must be that before the change or step at which the stop came, or that with it. A line that
//! holds reports how many calls on either file its run has.
use crate::fused::{Held, NEVER, Stop, attempt};
use crate::said::append;
use std::alloc::{AllocError, Global};
use std::fmt::Write;

/// What is done with a store, and how its record is looked at.
#[derive(Clone, Copy)]
pub(crate) struct Work {
    /// The name of the task.
    task: &'static str,
    /// What is behind the steps.
    look: &'static str,
    /// The tasks that show what a stop left.
    again: &'static str,
}

/// Changes of the record itself.
pub(crate) const CHANGES: Work = Work {
    task: "take ",
    look: "show, slot 0, slot 1, learned 0",
    again: "count | take show, slot 0, slot 1, learned 0",
};

/// Steps of a node over it; it is looked at after a new node has opened it.
pub(crate) const STEPS: Work = Work {
    task: "node ",
    look: "then show, slot 0, slot 1, learned 0",
    again: "count | node then show, slot 0, slot 1, learned 0",
};

/// A run in files that stop.
#[derive(Clone, Copy)]
struct Run<'a> {
    /// What is counted before.
    before: &'a str,
    /// The record before, each change, and the record behind it.
    parts: &'a [&'a str],
    /// The tasks that make the changes and look.
    tasks: &'a str,
    /// The tasks that show what a stop left.
    again: &'a str,
}

/// What the trials of a run give.
#[derive(Clone, Copy)]
struct Trials {
    /// How many calls on the log there are.
    log: u64,
    /// How many on the database.
    db: u64,
    /// What came last.
    came: Came,
}

/// What a trial gives.
#[derive(Clone, Copy, PartialEq)]
enum Came {
    /// Nothing stopped.
    Whole,
    /// What must be is left.
    Stopped,
    /// A store that is neither as it was nor of format 3.
    InParts,
    /// Another record.
    Other,
}

impl Run<'_> {
    /// How many changes there are.
    fn changes(&self) -> usize {
        self.parts.len() / 2
    }

    /// What the record shows after that many changes.
    fn record(&self, changes: usize) -> &str {
        match self.parts.get(changes.saturating_mul(2)) {
            Some(record) => record,
            None => "",
        }
    }
}

/// How many changes were made as far as the output shows, and what was reported behind them.
fn made(said: &str) -> (usize, &str) {
    let mut rest = said;
    let mut count = 0usize;
    for _ in 0..100 {
        match rest.split_once(", ") {
            Some((outcome, behind)) if outcome.starts_with("done") => {
                rest = behind;
                count = count.saturating_add(1);
            }
            _ => return (count, rest),
        }
    }
    (count, rest)
}

/// How a run ended, by what the changes printed, what is counted of the store then, and what its record shows.
fn judged(run: Run, said: &str, counted: &str, again: &str) -> Came {
    if counted != run.before && counted != "format 3 of 4 tables" {
        return Came::InParts;
    }
    let (made, last) = made(said);
    let tried = if said.starts_with("refused") {
        0
    } else {
        made.saturating_add(1)
    };
    let tried = tried.min(run.changes());
    if again != run.record(made) && again != run.record(tried) {
        return Came::Other;
    }
    if made == run.changes() && last == again {
        Came::Whole
    } else {
        Came::Stopped
    }
}

/// What a stop leaves. None when out of memory.
fn attempted(alloc: Global, run: Run, held: &Held, stop: Stop) -> Option<Came> {
    let (mut said, mut found) = (String::new(alloc), String::new(alloc));
    let left = attempt(alloc, held, stop, run.tasks, &mut said);
    let last = attempt(alloc, &left, NEVER, run.again, &mut found);
    let (counted, again) = found.as_str().split_once("; ").unwrap_or(("", ""));
    let came = judged(run, &said, counted, again);
    if !left.is_whole || !last.is_whole {
        None
    } else if left.is_spent && came == Came::Whole {
        Some(Came::Stopped)
    } else {
        Some(came)
    }
}

/// The stop after that many calls on one of the files.
fn stop_after(calls: u64, log: bool, loses: bool) -> Stop {
    let (log, db) = if log {
        (calls, u64::MAX)
    } else {
        (u64::MAX, calls)
    };
    Stop { log, db, loses }
}

/// One file stops after that many calls, counted upwards until nothing stops: how many it has, and what came last.
fn first_end(alloc: Global, run: Run, held: &Held, log: bool, loses: bool) -> Option<(u64, Came)> {
    for calls in 0..10_000u64 {
        let came = attempted(alloc, run, held, stop_after(calls, log, loses))?;
        if came != Came::Stopped {
            return Some((calls.saturating_sub(1), came));
        }
    }
    Some((0, Came::Stopped))
}

/// Either file stops, and what is written stays or is lost: what was found.
fn trial(alloc: Global, run: Run, held: &Held) -> Option<Trials> {
    let mut found = Trials {
        log: 0,
        db: 0,
        came: Came::Whole,
    };
    for (log, loses) in [(false, false), (false, true), (true, false), (true, true)] {
        let (calls, came) = first_end(alloc, run, held, log, loses)?;
        found = if log {
            Trials {
                log: calls,
                came,
                ..found
            }
        } else {
            Trials {
                db: calls,
                came,
                ..found
            }
        };
        if came != Came::Whole {
            return Some(found);
        }
    }
    Some(found)
}

/// The tasks that make the changes and look.
fn tasks(alloc: Global, work: Work, parts: &[&str]) -> Result<String, AllocError> {
    let mut tasks = String::new(alloc);
    tasks.push_str(work.task)?;
    for change in parts.iter().skip(1).step_by(2) {
        tasks.push_str(change)?;
        tasks.push_str(", ")?;
    }
    tasks.push_str(work.look)?;
    Ok(tasks)
}

/// The parts of a line.
fn parts_of<'a>(alloc: Global, line: &'a str) -> Result<Vec<&'a str>, AllocError> {
    let mut parts = Vec::new(alloc);
    for part in line.split(" | ") {
        parts.push(part)?;
    }
    Ok(parts)
}

/// The files that hold the store of these statements.
fn held(alloc: Global, sql: &str) -> Held {
    let none = Held::new(alloc);
    if sql.is_empty() {
        return none;
    }
    let mut said = String::new(alloc);
    attempt(alloc, &none, NEVER, sql, &mut said)
}

/// What the trials of a run over the store of these statements give.
fn tried(alloc: Global, run: Run, sql: &str) -> Option<Trials> {
    let held = held(alloc, sql);
    if held.is_whole {
        trial(alloc, run, &held)
    } else {
        None
    }
}

/// What the trials of a line give, and how many changes it has.
fn found(alloc: Global, work: Work, before: &str, line: &str) -> Option<(Trials, usize)> {
    let (sql, rest) = line.split_once(" | ")?;
    let parts = parts_of(alloc, rest).ok()?;
    let tasks = tasks(alloc, work, &parts).ok()?;
    let run = Run {
        before,
        parts: &parts,
        tasks: &tasks,
        again: work.again,
    };
    let trials = tried(alloc, run, sql)?;
    Some((trials, run.changes()))
}

/// Reports what was found of that many changes.
fn append_found(out: &mut String, found: Trials, changes: usize) -> bool {
    match found.came {
        Came::Whole if found.log.min(found.db) > changes.max(1) as u64 => write!(
            out,
            "before each change or with it, at each of {} calls on the log and {} on the database",
            found.log, found.db
        )
        .is_ok(),
        Came::Whole => append(out, "too few calls"),
        Came::Stopped => append(out, "it always stops"),
        Came::InParts => append(out, "a store in parts"),
        Came::Other => append(out, "another record"),
    }
}

/// Does the line, and reports what was found.
pub(crate) fn stops(alloc: Global, work: Work, before: &str, line: &str, out: &mut String) -> bool {
    match found(alloc, work, before, line) {
        Some((found, changes)) => append_found(out, found, changes),
        None => false,
    }
}
