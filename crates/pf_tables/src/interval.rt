//! Intervals of numbers.

ghost use Rattle.std.specs.Prelude.{◌≡◌};
ghost use Rattle.pf_tables.specs.Intervals.{is_within};
ghost use Rattle.pf_tables.specs.inner.Intervals.{meets};

/// The numbers of 32 bits from a first one on: as many as the width, and one more. Past the greatest number they
/// go on with 0.
#[derive(Clone, Copy)]
pub struct Interval {
    pub first: u32,
    pub width: u32,
}

/// Whether a number is in the interval.
#[inline(always)]
pub fn is_within(interval: &Interval, number: u32) -> bool
    ensures { result ≡ is_within interval.now number }
{
    number.wrapping_sub(interval.first) <= interval.width
}

/// Whether the interval has one of the numbers from the first to the last.
#[inline(always)]
pub(crate) fn meets(interval: &Interval, first: u32, last: u32) -> bool
    ensures { result ≡ meets interval.now first last }
{
    is_within(interval, first) || interval.first.wrapping_sub(first) <= last.wrapping_sub(first)
}
