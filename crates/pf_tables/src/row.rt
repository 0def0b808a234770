//! The rows of bits where a packet's numbers are.

ghost use Rattle.std.specs.Prelude.{◌≤◌, length};

/// Three rows of bits, one for each kind of numbers.
#[derive(Clone, Copy)]
pub struct Row<'c> {
    pub(crate) source: &'c [u64],
    pub(crate) destination: &'c [u64],
    pub(crate) destination_port: &'c [u64],
    ghost few: { length source.now ≤ 1024 },
}

impl<'c> Row<'c> {
    ghost use Rattle.std.specs.Prelude.{MatchOption};
    ghost use Rattle.pf_tables.specs.Rows.{IsNext, HasNone};

    /// The first place from this one on for which all three rows have a bit.
    pub fn next(&self, from: usize) -> Option<usize>
        ensures { MatchOption result (HasNone self.now from) (λ place. IsNext self.now from place) }
    {
        let mut at = from / 64;
        let mut mask = u64::MAX << (from % 64);
        while at < self.source.len()
            && at < self.destination.len()
            && at < self.destination_port.len()
        {
            let word = self.source[at] & self.destination[at] & self.destination_port[at] & mask;
            if word != 0 {
                return Some(at * 64 + word.trailing_zeros() as usize);
            }
            mask = u64::MAX;
            at += 1;
        }
        None
    }
}
