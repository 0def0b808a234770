//! Members of a cluster of three, and datagrams that they receive, line by line: the stored input has the lines, the
//! stored output what each gives.
//!
//! A line of the input is a form, a name and arguments:
//!
//! - `run` and steps: `ask:MEMBER:DIGITS`, the command of the entry with these hexadecimal digits, `tick:MEMBER`,
//!   `stop:MEMBER`, a tick of which what is sent is lost, behind which the member starts anew, or a message's number,
//!   which its addressee receives. Written are all messages that were handed out, what each member shows, and what it
//!   leaves in its record.
//! - `until` and steps: the same, but that a refused call ends the run.
//! - `stops` and steps: what the first member's record shows, opened again, after the first n steps, for each n; and
//!   where its first, second .. commit fails before its change or after it, until none fails. A member that failed must
//!   refuse each further call and hand nothing out, else the line is `wrong`.
//! - `encode`, a reader, digits and a number: the datagram with these digits and that many times `x`.
//!
//! Any other line is a name, who reads (a member of the three of cluster 7, or 255) and a datagram's bytes in
//! hexadecimal digits; `scripts/datagram-rows` derives these lines, and what is written of them, from the formats. For
//! each of its proper prefixes, by length, and for each byte, for each value that it may be set to, it is written what
//! the reader answers, runs of equal answers together. An answer is a fault's code and offset, or `same`: read, and
//! written again as those bytes. A member's node gets each that is refused too, and must ignore it with that fault,
//! hand out nothing, and stay as it was, else the answer is `wrong`. With `x1000` before the bytes a new node receives
//! them that many times, and one line shows what it did.
//!
//! Of a `run`, `until` or `encode`, a call that is out of memory is made again: that is what `scripts/refused-memory`
//! compares. Where a call is out of memory, nothing may be handed out, and the member must show what it showed before,
//! else the run prints `wrong`. A line that begins with `memory` has how many calls were refused so, and behind how
//! many datagrams less was applied than learned. `nothing` is printed where the program itself is out of memory for a
//! line, or can't read it.
//!
//! Within: `row` is a line of the input; `answer`, `changes`, `repeated` and `written` are of datagrams, `run`, `stops`
//! and `step` of runs, with `member`, its record `kept`, and `shown` what is printed.
#![tactic(auto)]

mod answer;
mod changes;
mod kept;
mod member;
mod repeated;
mod row;
mod run;
mod shown;
mod step;
mod stops;
mod written;

use crate::changes::{each_byte, each_front};
use crate::kept::{Kept, record};
use crate::repeated::repeated;
use crate::row::Row;
use crate::run::Run;
use crate::shown::{write_counters, write_member, write_sent};
use crate::step::Step;
use crate::stops::write_stops;
use crate::written::write_again;
use px_records::When;
use std::alloc::Global;
use std::io;

/// Three members with empty records in memory join the run; of the first one's the `k`-th commit fails, none with 0.
/// Whether there was memory for them.
fn begin(alloc: Global, run: &mut Run<Kept>, k: u64, when: When) -> bool {
    run.make_room()
        && run.join(0, record(alloc, k, when))
        && run.join(1, record(alloc, 0, when))
        && run.join(2, record(alloc, 0, when))
}

/// How many of the line's first that many steps were done, until one is refused. None where one can't be made.
fn follow(run: &mut Run<Kept>, line: &str, most: usize) -> Option<u32> {
    let mut steps = 0u32;
    for word in line.split(' ').skip(2).take(most) {
        if !run.happen(Step::read(word)?)? {
            return Some(steps);
        }
        steps = steps.saturating_add(1);
    }
    Some(steps)
}

/// Writes what the members of a run show, and what they leave.
fn write_members(rt: &HostRuntime, run: &mut Run<Kept>) -> io::Result<()> {
    write_sent(rt, &run.sent)?;
    for _ in 0..3 {
        if let Some(node) = run.leave() {
            write_member(rt, node)?;
        }
    }
    Ok(())
}

/// Writes what was refused, and how many steps there were.
fn write_done(rt: &HostRuntime, run: &Run<Kept>, steps: u32) -> io::Result<()> {
    write_counters(rt, run.counters)?;
    println!(rt; "{steps} steps")
}

/// Writes what a run gives that follows the line.
fn write_followed(rt: &HostRuntime, run: &mut Run<Kept>, line: &str) -> io::Result<()> {
    let steps = if begin(rt.alloc(), run, 0, When::Before) {
        follow(run, line, usize::MAX)
    } else {
        None
    };
    match steps {
        Some(steps) => {
            write_done(rt, run, steps)?;
            write_members(rt, run)
        }
        None => println!(rt; "nothing"),
    }
}

/// Writes what a line's run gives.
fn write_run(rt: &HostRuntime, line: &str, is_once: bool) -> io::Result<()> {
    let mut run = Run::new(rt.alloc(), is_once);
    write_followed(rt, &mut run, line)
}

/// Writes what becomes of the row's datagram.
fn write_answers(rt: &HostRuntime, row: &mut Row) -> io::Result<()> {
    if row.times > 0 {
        return repeated(rt, row);
    }
    each_front(rt, row)?;
    each_byte(rt, row)
}

/// Writes what becomes of a datagram.
fn write_row(rt: &HostRuntime, line: &str) -> io::Result<()> {
    match Row::read(rt.alloc(), line) {
        Some(mut row) => write_answers(rt, &mut row),
        None => println!(rt; "no row"),
    }
}

/// Writes what a line gives.
fn write_line(rt: &HostRuntime, line: &str) -> io::Result<()> {
    let (form, _) = line.split_once(' ').unwrap_or((line, ""));
    match form {
        "run" => write_run(rt, line, false),
        "until" => write_run(rt, line, true),
        "stops" => write_stops(rt, line),
        "encode" => write_again(rt, line),
        _ => write_row(rt, line),
    }
}

/// Writes what each line gives.
fn write_lines(rt: &HostRuntime, input: &str) -> io::Result<()> {
    for line in input.lines() {
        println!(rt; "== {line}")?;
        write_line(rt, line)?;
    }
    Ok(())
}

fn main(rt: HostRuntime) -> io::Result<()> {
    let input = io::read_to_string(rt.alloc(), rt.reader())?;
    write_lines(&rt, &input)
}
