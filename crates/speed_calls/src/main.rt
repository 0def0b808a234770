//! Calls that scripts time. The first argument names one, the others are how much of it:
//!
//! - `table FAMILY BUILDS LOOKUPS` makes a table of IPv4 (4) or IPv6 (6) BUILDS times, and looks that many addresses
//!   up: `found` and how many it holds.
//! - `packets TIMES TEXT ..` reads each text as a packet that many times: `found` and how often it was one.
//! - `events LEARNED EVENTS` takes that many events through a member that has learned that many entries: `front` and
//!   the first position that isn't learned then.
//! - `datagram DECODES BYTES TIMES` decodes (1) or copies (0) a vote with an entry of that many bytes that many times:
//!   `sum` and that of what was read.
//! - `tag ANEW BYTES TIMES` makes the tags of that many datagrams of that many bytes, the key made ready for each (1)
//!   or once (0): `sum` and that of their first bytes.
//!
//! With no arguments each line of the standard input has them, tabs between. The status is 2 for other arguments, and 1
//! where it is out of memory or the answer can't be written.
//!
//! Within: a module for each (`tables`, `packets`, `events`, `datagrams`, `tags`), and `record`, a member's record in
//! memory for `events`.
#![tactic(auto)]

mod datagrams;
mod events;
mod packets;
mod record;
mod tables;
mod tags;

use std::alloc::Global;
use std::io;
use std::process::ExitCode;

/// Why there is no answer.
#[derive(Clone, Copy)]
enum Fault {
    /// The arguments are none of those.
    Words,
    /// Out of memory, or the answer can't be written.
    Memory,
}

/// The number that an argument gives.
fn number(words: &[&str], at: usize) -> Option<u32> {
    words.get(at)?.parse::<u32>().ok()
}

/// The two numbers that the arguments give.
fn two(words: &[&str]) -> Option<(u32, u32)> {
    if words.len() != 3 {
        return None;
    }
    Some((number(words, 1)?, number(words, 2)?))
}

/// The three numbers that the arguments give.
fn three(words: &[&str]) -> Option<(u32, u32, u32)> {
    if words.len() != 4 {
        return None;
    }
    Some((number(words, 1)?, number(words, 2)?, number(words, 3)?))
}

/// How many addresses were found.
fn table_found(alloc: Global, words: &[&str]) -> Result<u64, Fault> {
    let Some((family, builds, lookups)) = three(words) else {
        return Err(Fault::Words);
    };
    match tables::found_after(alloc, family == 6, builds, lookups) {
        Ok(found) => Ok(found as u64),
        Err(_) => Err(Fault::Memory),
    }
}

/// How often a ruleset was read.
fn packets_found(alloc: Global, words: &[&str]) -> Result<u64, Fault> {
    match (number(words, 1), words.get(2..)) {
        (Some(times), Some(texts)) => Ok(packets::packets_read(alloc, texts, times) as u64),
        _ => Err(Fault::Words),
    }
}

/// The front after the events.
fn events_front(alloc: Global, words: &[&str]) -> Result<u64, Fault> {
    let Some((learned, events)) = two(words) else {
        return Err(Fault::Words);
    };
    match events::front_after(alloc, learned, events) {
        Ok(front) => Ok(front as u64),
        Err(_) => Err(Fault::Memory),
    }
}

/// The sum over what was decoded, or copied.
fn datagram_sum(alloc: Global, words: &[&str]) -> Result<u64, Fault> {
    let Some((decodes, bytes, times)) = three(words) else {
        return Err(Fault::Words);
    };
    match datagrams::sum_of(alloc, decodes, bytes, times) {
        Ok(sum) => Ok(sum),
        Err(_) => Err(Fault::Memory),
    }
}

/// The sum over the tags.
fn tag_sum(alloc: Global, words: &[&str]) -> Result<u64, Fault> {
    let Some((anew, bytes, times)) = three(words) else {
        return Err(Fault::Words);
    };
    match tags::sum_of(alloc, anew, bytes, times) {
        Ok(sum) => Ok(sum),
        Err(_) => Err(Fault::Memory),
    }
}

/// What the arguments give: a name and a number.
fn answer(alloc: Global, words: &[&str]) -> Result<(&'static str, u64), Fault> {
    let Some(first) = words.first() else {
        return Err(Fault::Words);
    };
    match *first {
        "table" => Ok(("found", table_found(alloc, words)?)),
        "packets" => Ok(("found", packets_found(alloc, words)?)),
        "events" => Ok(("front", events_front(alloc, words)?)),
        "datagram" => Ok(("sum", datagram_sum(alloc, words)?)),
        "tag" => Ok(("sum", tag_sum(alloc, words)?)),
        _ => Err(Fault::Words),
    }
}

/// Writes what the arguments give.
fn print(rt: &HostRuntime, words: &[&str]) -> Result<(), Fault> {
    let (name, number) = answer(rt.alloc(), words)?;
    match println!(rt; "{name} {number}") {
        Ok(()) => Ok(()),
        Err(_) => Err(Fault::Memory),
    }
}

/// Writes what the arguments of a line give.
fn print_line(rt: &HostRuntime, line: &str) -> Result<(), Fault> {
    let mut words = Vec::new(rt.alloc());
    for word in line.split('\t') {
        if words.push(word).is_err() {
            return Err(Fault::Memory);
        }
    }
    print(rt, &words)
}

/// Writes what each line of the standard input gives.
fn print_lines(rt: &HostRuntime) -> Result<(), Fault> {
    let Ok(input) = io::read_to_string(rt.alloc(), rt.reader()) else {
        return Err(Fault::Memory);
    };
    for line in input.lines() {
        print_line(rt, line)?;
    }
    Ok(())
}

/// Writes what the arguments of the program give, or the lines.
fn report_all(rt: &HostRuntime, words: &[String]) -> Result<(), Fault> {
    let mut list = Vec::new(rt.alloc());
    for word in words {
        if list.push(word.as_str()).is_err() {
            return Err(Fault::Memory);
        }
    }
    match list.get(1..) {
        Some([]) => print_lines(rt),
        Some(rest) => print(rt, rest),
        None => print_lines(rt),
    }
}

/// The command-line arguments of the program, its name first.
fn words_of(rt: &HostRuntime) -> io::Result<Vec<String>> {
    let mut words = Vec::new(rt.alloc());
    for word in std::env::args(rt)? {
        words.push(word)?;
    }
    Ok(words)
}

fn main(rt: HostRuntime) -> ExitCode {
    let Ok(words) = words_of(&rt) else {
        return ExitCode::from(1);
    };
    match report_all(&rt, &words) {
        Ok(()) => ExitCode::SUCCESS,
        Err(Fault::Words) => ExitCode::from(2),
        Err(Fault::Memory) => ExitCode::from(1),
    }
}
