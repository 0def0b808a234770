//! The addresses behind the options.

ghost use Rattle.std.specs.Prelude.{◌≡◌, map, length, IfOk};
ghost use Rattle.pf_addr.specs.Spelling.{addr_of, prefix_of};
ghost use Rattle.pf_arguments.specs.Asked.{entry_of, each, lower, signed};
ghost use Rattle.pf_arguments.specs.Answers.{Reads, vec_read};
ghost use Rattle.pf_arguments.specs.inner.Answers.{entry_read, lowest_of, ReadsEntries};

use crate::fault::CommandFault;
use pf_addr::{Addr, AddrFault, parse_addr, parse_prefix};
use pf_rules::TableEntry;
use std::alloc::Global;

/// Whether `!` comes first, and what follows it, or all of the argument.
#[tactic(auto, using(crate::proofs::Each::negated, crate::proofs::Each::not_negated))]
fn cut_sign(word: &str) -> (bool, &str)
    ensures { entry_of word.now ≡ signed result.0 (prefix_of result.1.now) }
{
    match word.strip_prefix("!") {
        Some(text) => (true, text),
        None => (false, word),
    }
}

/// A prefix, with `!` directly before it where it is negated.
fn entry_of(word: &str) -> Result<TableEntry, AddrFault>
    ensures { entry_read result ≡ entry_of word.now }
{
    let (negated, text) = cut_sign(word);
    let prefix = parse_prefix(text)?;
    Ok(TableEntry { negated, prefix })
}

/// The lower of a fault and one that came before it, if one did.
fn lowest(found: Option<AddrFault>, fault: AddrFault) -> AddrFault
    ensures { result ≡ lowest_of found fault }
{
    match found {
        Some(first) if fault.code() >= first.code() => first,
        _ => fault,
    }
}

/// The entries that the arguments spell, one for each argument, or the lowest fault of any.
pub(crate) fn entries(alloc: Global, words: &[&str]) -> Result<Vec<TableEntry>, CommandFault>
    ensures values { ReadsEntries (vec_read result) (each entry_of (map (λ w. w.now) words.now)) }
    ensures count { IfOk result (λ v. length v.items ≡ length words.now) }
{
    read_entries(alloc, words)
}

/// The entries that the arguments spell, or the lowest fault of any.
fn read_entries(alloc: Global, words: &[&str]) -> Result<Vec<TableEntry>, CommandFault>
    ensures { ReadsEntries (vec_read result) (each entry_of (map (λ w. w.now) words.now)) }
{
    let mut list = Vec::new(alloc);
    let mut found = None;
    for word in words {
        match entry_of(word) {
            Ok(entry) => list.push(entry)?,
            Err(fault) => found = Some(lowest(found, fault)),
        }
    }
    match found {
        Some(fault) => Err(CommandFault::BadAddress(fault)),
        None => Ok(list),
    }
}

/// The addresses that the arguments spell, or the lowest fault of any.
pub fn read_addresses(alloc: Global, words: &[&str]) -> Result<Vec<Addr>, CommandFault>
    ensures { Reads (vec_read result) (each addr_of (map (λ w. w.now) words.now)) }
{
    let mut list = Vec::new(alloc);
    let mut found = None;
    for word in words {
        match parse_addr(word) {
            Ok(addr) => list.push(addr)?,
            Err(fault) => found = Some(lowest(found, fault)),
        }
    }
    match found {
        Some(fault) => Err(CommandFault::BadAddress(fault)),
        None => Ok(list),
    }
}
