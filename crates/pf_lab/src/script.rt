//! A script over one lab.

ghost use Rattle.std.specs.Prelude.{◌≡◌, ◌≤◌, ◌++◌, IfOk, IfSome, IfNone, OnOk, None, map, option_map, string_bytes};
ghost use Rattle.pf_scripts.specs.Lines.{lines, refused_line};
ghost use Rattle.pf_scripts.specs.inner.Seen.{waiting_of};
ghost use Rattle.pf_lab.specs.Scripts.{LabValue, new_lab, members_in, at_end, printed_from, printed_lines, printed};
ghost use Rattle.pf_lab.specs.inner.Benches.{IsBench};
ghost use Rattle.pf_lab.specs.declared.script.TheConstants.{MEMBERS};

use crate::bench::Bench;
use crate::numbers::number_in;
use crate::state::Lab;
use pf_arguments::USAGE;
use pf_scripts::{Waiting, cut_line, push_refusal, words_in};
use std::alloc::{AllocError, Global};

/// How many members there are at most.
const MEMBERS: u64 = px_core::MEMBERS as u64;

/// How many members the line `members N` names; none for other arguments, or unless there are 1 to 15.
fn members_in(words: &[&str]) -> Option<u8>
    ensures value { result ≡ members_in (map (λ w. w.now) words.now) }
    ensures range { IfSome result (λ n. (1 ≤ n) × (n ≤ MEMBERS)) }
{
    let [first, number] = words else {
        return None;
    };
    let members = number_in(*number)?;
    let is_good = *first == "members" && 1 <= members && members <= MEMBERS;
    is_good.then(|| members as u8)
}

/// How many members the first line that isn't blank names, and what follows it; none where it names none.
fn begun(alloc: Global, script: &[u8]) -> Result<Option<(u8, &[u8])>, AllocError>
    ensures range { IfOk result (λ o. IfSome o (λ b. (1 ≤ b.0) × (b.0 ≤ MEMBERS))) }
    ensures some { IfOk result (λ o. IfSome o (λ b.
        printed_lines (lines script.now) ≡ printed_from (new_lab b.0) None (lines b.1.now))) }
    ensures none { IfOk result (λ o. IfNone o (printed_lines (lines script.now) ≡ refused_line 40 0)) }
{
    let mut left = script;
    while let Some((line, rest)) = cut_line(left) {
        let Some(words) = words_in(alloc, line.content)? else {
            return Ok(None);
        };
        if !words.is_empty() {
            return Ok(members_in(&words).map(|members| (members, rest)));
        }
        left = rest;
    }
    Ok(None)
}

/// A lab of that many members, of whose messages nothing is delivered or shown.
fn new_bench(alloc: Global, members: u8) -> Result<Bench, AllocError>
    requires some { 1 ≤ members }
    requires few { members ≤ MEMBERS }
    ensures { IfOk result (λ b. IsBench b (new_lab members)) }
{
    let lab = Lab::new(alloc, members).map_err(|_| AllocError)?;
    Ok(Bench {
        lab,
        members,
        passed: 0,
        delivered: Vec::new(alloc),
        shown: 0,
    })
}

impl Bench {
    /// Ends a ruleset that still waits for its last line.
    fn finish(&mut self, waiting: Option<Waiting<'_>>, out: &mut String) -> Result<(), AllocError>
        ensures { (v : LabValue) → IsBench self.old v → OnOk result
            (string_bytes out.new ≡ string_bytes out.old ++ at_end v (option_map waiting_of waiting.entry)) }
    {
        match waiting {
            Some(waiting) => self.run_words(&waiting.words, &waiting.text, out),
            None => Ok(()),
        }
    }
}

/// Does the lines behind the first.
fn run_lines(alloc: Global, members: u8, behind: &[u8], out: &mut String) -> Result<(), AllocError>
    requires some { 1 ≤ members }
    requires few { members ≤ MEMBERS }
    ensures { OnOk result (string_bytes out.new
        ≡ string_bytes out.old ++ printed_from (new_lab members) None (lines behind.now)) }
{
    let mut bench = new_bench(alloc, members)?;
    let mut waiting = None;
    let mut left = behind;
    while let Some((line, rest)) = cut_line(left) {
        waiting = bench.step_line(waiting, line, out)?;
        left = rest;
    }
    bench.finish(waiting, out)
}

/// What a script of a lab's events prints.
///
/// `Err` where it is out of memory, also where a node that is shown hasn't applied what it learned for that reason.
#[tactic(auto, unfolding(crate::specs::Scripts::printed))]
pub fn lab_script(alloc: Global, script: &[u8]) -> Result<String, AllocError>
    ensures { IfOk result (λ text. string_bytes text ≡ printed script.now) }
{
    let mut out = String::new(alloc);
    match begun(alloc, script)? {
        Some((members, behind)) => run_lines(alloc, members, behind, &mut out)?,
        None => push_refusal(&mut out, USAGE, 0)?,
    }
    Ok(out)
}
