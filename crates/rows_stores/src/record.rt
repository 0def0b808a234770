//! Steps with a record, each of which reports what came of it.
//!
//! | Step | Does |
//! |---|---|
//! | `show` | reports the round, the number, the floor, the top and the end of what is learned |
//! | `slot AT`, `learned AT` | reports what is promised and accepted at the position, and what is learned |
//! | `top`, `end`, `failures` | reports one number |
//! | `read TIMES` | reads the top and the end that many times |
//! | `entries FROM TO` | reads each position from one to before another, and reports how many have a learned entry |
//! | `round N`, `number N`, `floor BALLOT` | commits it |
//! | `promise FROM TO BALLOT` | promises the ballot at each position from one to before another |
//! | `accept FROM TO BALLOT BYTES`, `learn FROM TO BYTES` | accepts or learns an entry of that many bytes there |
ghost use Rattle.std.specs.Prelude.{◌≡◌};

use crate::change::{Made, make, make_all};
use crate::said::{
    Refused, append, append_entry, append_fault, append_made, append_number, append_slot,
};
use px_model::Meta;
use px_records::{Records, StoreFault};
use std::alloc::Global;
use std::fmt::Write;

/// What a record has of all positions.
fn meta<R: Records>(records: &mut R) -> Result<Meta, StoreFault>
    ensures { R.members records.new ≡ R.members records.old }
{
    records.read_meta()
}

/// One more than the last position with an accepted entry.
fn top<R: Records>(records: &mut R) -> Result<u32, StoreFault>
    ensures { R.members records.new ≡ R.members records.old }
{
    records.read_top()
}

/// One more than the last learned position.
fn end<R: Records>(records: &mut R) -> Result<u32, StoreFault>
    ensures { R.members records.new ≡ R.members records.old }
{
    records.read_learned_end()
}

/// All three.
fn ends<R: Records>(records: &mut R) -> Result<(Meta, u32, u32), StoreFault>
    ensures { R.members records.new ≡ R.members records.old }
{
    let meta = meta(records)?;
    let top = top(records)?;
    let end = end(records)?;
    Ok((meta, top, end))
}

/// Reports all three.
fn show<R: Records>(records: &mut R, out: &mut String) -> bool
    ensures { R.members records.new ≡ R.members records.old }
{
    match ends(records) {
        Ok((meta, top, end)) => write!(
            out,
            "round {} number {} floor {} top {top} end {end}",
            meta.round, meta.number, meta.floor
        )
        .is_ok(),
        Err(fault) => append_fault(out, fault),
    }
}

/// Reports a number that was read.
fn report(out: &mut String, name: &str, number: Result<u32, StoreFault>) -> bool {
    match number {
        Ok(number) => append_number(out, name, number as u64),
        Err(fault) => append_fault(out, fault),
    }
}

/// Reports what is promised and accepted at the position.
fn slot<R: Records>(records: &mut R, position: u32, out: &mut String) -> bool
    ensures { R.members records.new ≡ R.members records.old }
{
    match records.read_slot(position) {
        Ok(slot) => append_slot(out, &slot),
        Err(fault) => append_fault(out, fault),
    }
}

/// Reports what is learned at the position.
fn learned<R: Records>(records: &mut R, position: u32, out: &mut String) -> bool
    ensures { R.members records.new ≡ R.members records.old }
{
    match records.read_learned(position) {
        Ok(entry) => append(out, "learned") && append_entry(out, entry.as_ref()),
        Err(fault) => append_fault(out, fault),
    }
}

/// Reads the top and the end that many times.
fn read<R: Records>(records: &mut R, times: u32) -> Result<(), Refused>
    requires { R.members records.old ≡ 3 }
    ensures { R.members records.new ≡ 3 }
{
    for _ in 0..times {
        if let Err(fault) = ends(records) {
            return Err(Refused::Store(fault));
        }
    }
    Ok(())
}

/// How many positions from one to before another have a learned entry.
fn entries<R: Records>(records: &mut R, from: u32, to: u32) -> Result<u32, StoreFault>
    ensures { R.members records.new ≡ R.members records.old }
{
    let mut count = 0u32;
    for at in from..to {
        if records.read_learned(at)?.is_some() {
            count = count.saturating_add(1);
        }
    }
    Ok(count)
}

/// Up to four numbers between blanks, each 0 where there is none.
fn numbers(text: &str) -> [u32; 4] {
    let mut words = text.split(' ');
    let mut all = [0u32; 4];
    for number in &mut all {
        *number = match words.next() {
            Some(word) => word.parse::<u32>().unwrap_or(0),
            None => 0,
        };
    }
    all
}

/// Makes a change, and reports whether it is made.
fn change<R: Records>(
    alloc: Global,
    records: &mut R,
    word: &str,
    numbers: [u32; 4],
    out: &mut String,
) -> bool
    requires { R.members records.old ≡ 3 }
    ensures { R.members records.new ≡ 3 }
{
    let [at, to, third, fourth] = numbers;
    let (ballot, length) = match word {
        "floor" => (at, 0),
        "learn" => (0, third),
        _ => (third, fourth),
    };
    let made = Made {
        word,
        at,
        ballot,
        length,
    };
    let is_made = match word {
        "accept" | "learn" | "promise" => make_all(alloc, records, made, to),
        _ => make(alloc, records, made),
    };
    append_made(out, is_made)
}

/// Does the step with a record of three members, and reports what came of it.
pub(crate) fn step<R: Records>(alloc: Global, records: &mut R, step: &str, out: &mut String) -> bool
    requires { R.members records.old ≡ 3 }
    ensures { R.members records.new ≡ 3 }
{
    let (word, rest) = step.split_once(' ').unwrap_or((step, ""));
    let numbers = numbers(rest);
    match word {
        "show" => show(records, out),
        "slot" => slot(records, numbers[0], out),
        "learned" => learned(records, numbers[0], out),
        "entries" => report(out, "entries", entries(records, numbers[0], numbers[1])),
        "top" => report(out, "top", top(records)),
        "end" => report(out, "end", end(records)),
        "failures" => append_number(out, "failures", records.failures()),
        "read" => append_made(out, read(records, numbers[0])),
        _ => change(alloc, records, word, numbers, out),
    }
}
