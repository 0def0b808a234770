//! What `pfx check` and `pfx test` answer for the rules on standard input: without arguments the rules as they are
//! understood, with packets as arguments a verdict for each, a line each. What is refused is `refused` and its number,
//! with the line where a ruleset is at fault; that ends the program with 1, as does out of memory. It links what
//! evaluates a packet and nothing else, so it is tried soon after a clone; `pfx` prints more, and is what runs.
#![tactic(auto)]

use pf_config::Config;
use pf_eval::{PacketFault, parse_packet, show_verdict, verdict};
use pf_grammar::{ParseFault, Place, Profile, parse, show};
use pf_rules::{Path, Ruleset};
use std::alloc::Global;
use std::io;
use std::process::ExitCode;

/// Why no further line is written.
enum Fault {
    /// The text is refused, with the number and the line.
    Text(u8, u64),
    /// The load or a packet is refused with this number.
    Refused(u8),
    /// Out of memory, or what is read or written failed.
    Failed,
}

/// Of a packet text that is none.
const NO_PACKET: u8 = 30;

fn rules_of(alloc: Global, text: &[u8]) -> Result<Ruleset, Fault> {
    match parse(alloc, text, Place::Main, Profile::Two) {
        Ok(rules) => Ok(rules),
        Err(ParseFault::Refused(refusal)) => Err(Fault::Text(refusal.cause.code(), refusal.line)),
        Err(ParseFault::Memory) => Err(Fault::Failed),
    }
}

/// An empty configuration with the rules as its main ruleset.
fn loaded(alloc: Global, rules: Ruleset) -> Result<Config, Fault> {
    let Ok(mut config) = Config::new(alloc) else {
        return Err(Fault::Failed);
    };
    match config.load(&Path::main(alloc), rules) {
        Ok(()) => Ok(config),
        Err(fault) => match fault.code() {
            Some(code) => Err(Fault::Refused(code)),
            None => Err(Fault::Failed),
        },
    }
}

/// Writes the rules as they are understood.
fn report_rules(rt: &HostRuntime, rules: &Ruleset) -> Result<(), Fault> {
    let Ok(text) = show(rt.alloc(), rules) else {
        return Err(Fault::Failed);
    };
    match print!(rt; "{text}") {
        Ok(()) => Ok(()),
        Err(_) => Err(Fault::Failed),
    }
}

/// Writes the verdict for the packet that an argument spells.
fn report_verdict(rt: &HostRuntime, config: &Config, word: &str) -> Result<(), Fault> {
    let packet = match parse_packet(rt.alloc(), word) {
        Ok(packet) => packet,
        Err(PacketFault::BadPacket) => return Err(Fault::Refused(NO_PACKET)),
        Err(PacketFault::Memory) => return Err(Fault::Failed),
    };
    let Ok(line) = show_verdict(rt.alloc(), &verdict(config, &packet)) else {
        return Err(Fault::Failed);
    };
    match println!(rt; "{line}") {
        Ok(()) => Ok(()),
        Err(_) => Err(Fault::Failed),
    }
}

fn words_of(rt: &HostRuntime) -> io::Result<Vec<String>> {
    Ok(std::env::args(rt)?.collect(rt.alloc())?)
}

/// Writes what the arguments ask of the rules on standard input.
fn run(rt: &HostRuntime) -> Result<(), Fault> {
    let Ok(words) = words_of(rt) else {
        return Err(Fault::Failed);
    };
    let Ok(text) = io::read_to_string(rt.alloc(), rt.reader()) else {
        return Err(Fault::Failed);
    };
    let rules = rules_of(rt.alloc(), text.as_bytes())?;
    if words.len() < 2 {
        return report_rules(rt, &rules);
    }
    let config = loaded(rt.alloc(), rules)?;
    for word in words.iter().skip(1) {
        report_verdict(rt, &config, word.as_str())?;
    }
    Ok(())
}

fn main(rt: HostRuntime) -> ExitCode {
    match run(&rt) {
        Ok(()) => return ExitCode::SUCCESS,
        Err(Fault::Text(code, line)) => {
            let _is_written = println!(&rt; "refused {code} line {line}");
        }
        Err(Fault::Refused(code)) => {
            let _is_written = println!(&rt; "refused {code}");
        }
        Err(Fault::Failed) => {}
    }
    ExitCode::FAILURE
}
