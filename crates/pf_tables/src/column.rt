//! The buckets into which the numbers of one kind are cut, with a row of bits for each.

ghost use Rattle.std.specs.Prelude.{◌≡◌, ℕ, ◌+◌, ◌≤◌, ◌<◌, IfOk, length, get_or, Some, true, slice_get};
ghost use Rattle.std.specs.Int.{bit_at};
ghost use Rattle.pf_tables.specs.inner.Intervals.{meets};
ghost use Rattle.pf_tables.specs.inner.Rows.{MarksBetween};
ghost use Rattle.std.specs.Global.{Vec};
ghost use Rattle.pf_tables.specs.declared.interval.Interval.{Interval};
ghost use Rattle.pf_tables.specs.declared.classes.TheConstants.{PLACES_MAX};

use crate::Made;
use crate::classes::PLACES_MAX;
use crate::interval::{Interval, meets};
use std::alloc::Global;

/// Of how many numbers at most the bounds of buckets are chosen.
const SAMPLE_MAX: usize = 128;

/// Into how many buckets, and one more, numbers are cut at most.
const BOUNDS_MAX: usize = 32;

/// Buckets of numbers. Each goes from its bound to below the next one, and has a row of bits: one for each interval
/// that has a number in it.
#[derive(Drop)]
pub(crate) struct Column {
    bounds: Vec<u32>,
    rows: Vec<Vec<u64>>,
    ghost starts: { get_or bounds.items 0 4294967296 ≡ 0 },
    ghost alike: { length rows.items ≡ length bounds.items },
    ghost few: { (j : ℕ) → (row : Vec ℕ) → slice_get rows.items j ≡ Some row → length row.items ≤ 1024 },
}

/// The bits for up to 64 intervals, the lowest for the first one: set where it meets the numbers from first to last.
fn word_of(intervals: &[Interval], first: u32, last: u32) -> u64
    requires { length intervals.now ≤ 64 }
    ensures { (k : ℕ) → (x : Interval) → slice_get intervals.now k ≡ Some x → meets x first last ≡ true →
        bit_at result k ≡ 1 }
{
    let mut word = 0u64;
    for (place, interval) in intervals.iter().enumerate() {
        if meets(interval, first, last) {
            word |= 1 << place;
        }
    }
    word
}

/// The row of bits for intervals: set where one meets the numbers from first to last.
fn row_of(alloc: Global, intervals: &[Interval], first: u32, last: u32) -> Made<Vec<u64>>
    requires { length intervals.now ≤ PLACES_MAX }
    ensures few { IfOk result (λ r. length r.items ≤ 1024) }
    ensures marked { IfOk result (λ r. MarksBetween intervals.now first last r.items) }
{
    let mut row = Vec::new(alloc);
    let mut left = intervals;
    while !left.is_empty() {
        let (front, back) = left.split_at(left.len().min(64));
        row.push(word_of(front, first, last))?;
        left = back;
    }
    Ok(row)
}

/// Some of the numbers, in their order: few more than that many, spread evenly.
fn sampled(alloc: Global, numbers: &[u32], most: usize) -> Made<Vec<u32>>
    requires { 0 < most }
{
    let step = numbers.len() / most + 1;
    let mut found = Vec::new(alloc);
    for (place, number) in numbers.iter().enumerate() {
        if place % step == 0 {
            found.push(*number)?;
        }
    }
    Ok(found)
}

/// The first numbers of some of the intervals, in order; not 0, where a bucket begins anyway.
fn firsts(alloc: Global, intervals: &[Interval]) -> Made<Vec<u32>> {
    let mut found = Vec::new(alloc);
    for interval in intervals {
        if interval.first > 0 {
            found.push(interval.first)?;
        }
    }
    let mut few = sampled(alloc, &found, SAMPLE_MAX)?;
    few.sort_unstable();
    Ok(few)
}

/// Where buckets begin, chosen so that intervals are spread over them: first at 0.
fn bounds_of(alloc: Global, intervals: &[Interval]) -> Made<Vec<u32>>
    ensures { IfOk result (λ b. get_or b.items 0 4294967296 ≡ 0) }
{
    let starts = sampled(alloc, &firsts(alloc, intervals)?, BOUNDS_MAX)?;
    let mut bounds = Vec::new(alloc);
    bounds.push(0)?;
    let mut last = 0;
    for start in starts.iter().copied() {
        if start > last {
            bounds.push(start)?;
            last = start;
        }
    }
    Ok(bounds)
}

/// The last number of the bucket behind that many others.
fn last_of(bounds: &[u32], bucket: usize) -> u32
    requires { bucket < length bounds.now }
    ensures { (n : ℕ) → n < get_or bounds.now (bucket + 1) 4294967296 → n ≤ result }
{
    match bounds.get(bucket + 1) {
        Some(next) => next.saturating_sub(1),
        None => u32::MAX,
    }
}

impl Column {
    ghost use Rattle.std.specs.Prelude.{◌≡◌, ◌≤◌, IfOk, List, length};
    ghost use Rattle.pf_tables.specs.Rows.{Marks};
    ghost use Rattle.pf_tables.specs.Columns.{IsColumnOf};
    ghost use Rattle.pf_tables.specs.declared.interval.Interval.{Interval};
    ghost use Rattle.pf_tables.specs.declared.classes.TheConstants.{PLACES_MAX};

    /// The buckets for these intervals.
    pub(crate) fn of(alloc: Global, intervals: &[Interval]) -> Made<Column>
        requires { length intervals.now ≤ PLACES_MAX }
        ensures { IfOk result (λ c. IsColumnOf intervals.now c) }
    {
        let bounds = bounds_of(alloc, intervals)?;
        let mut rows = Vec::new(alloc);
        for (bucket, first) in bounds.iter().enumerate() {
            rows.push(row_of(alloc, intervals, *first, last_of(&bounds, bucket))?)?;
        }
        Ok(Column { bounds, rows })
    }

    /// The row of the bucket that has this number.
    pub(crate) fn row(&self, number: u32) -> &[u64]
        ensures few { length result.now ≤ 1024 }
        ensures marked { (xs : List Interval) → IsColumnOf xs self.now → Marks xs number result.now }
    {
        let mut bucket = 0;
        let mut end = self.bounds.len();
        while end - bucket > 1 {
            let middle = bucket + (end - bucket) / 2;
            if self.bounds[middle] <= number {
                bucket = middle;
            } else {
                end = middle;
            }
        }
        &self.rows[bucket]
    }
}
