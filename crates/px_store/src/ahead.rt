//! Rows of learned entries that one statement read, for a reader that asks them in turn.
ghost use Rattle.std.specs.Prelude.{◌≡◌, ◌<◌, true, List, IsTrue, option_to_list};
ghost use Rattle.sqlite_value.specs.Order.{Row as Values, column};
ghost use Rattle.px_store.specs.Seen.{is_key, seen, learned_columns};
ghost use Rattle.px_store.specs.inner.Ahead.{rises, has_first, AreAlike, IsAhead};

use crate::reading::number;
use sqlite::Row;
use sqlite_value::value::ValueRef;
use std::alloc::Global;
use std::collections::VecDeque;

/// The rows of the positions from `next` up to `end`, without that, in rising order.
#[derive(Drop)]
pub(crate) struct Ahead {
    pub(crate) next: u32,
    pub(crate) end: u32,
    pub(crate) rows: VecDeque<Row>,
}

/// Whether the keys are numbers from `first` up to `end`, each above the one before.
#[tactic(auto, using(crate::proofs::Turns::rises_more))]
fn are_rising(rows: &[Row], first: u32, end: u32) -> bool
    ensures { IsTrue result → rises first rows.now ≡ true }
{
    let mut least = u64::from(first);
    for row in rows {
        match number(row, 0) {
            Ok(key) if least <= key && key < u64::from(end) => least = key + 1,
            _ => return false,
        }
    }
    true
}

impl Ahead {
    /// No rows, of no position.
    pub(crate) fn none(alloc: Global) -> Ahead
        ensures { (table : List Values) → IsAhead result.next result.end table result.rows.items }
    {
        Ahead {
            next: 0,
            end: 0,
            rows: VecDeque::new(alloc),
        }
    }

    /// What a statement read of the positions from `first` up to `end`, or nothing where the rows don't rise.
    pub(crate) fn of(alloc: Global, first: u32, end: u32, rows: Vec<Row>) -> Ahead
        ensures { (table : List Values) → AreAlike first end table rows.items →
            IsAhead result.next result.end table result.rows.items }
    {
        if !are_rising(rows.as_slice(), first, end) {
            return Ahead::none(alloc);
        }
        Ahead {
            next: first,
            end,
            rows: VecDeque::from_vec(rows),
        }
    }

    fn has_row(&self) -> bool
        ensures { result ≡ has_first self.now.next self.now.rows.items }
    {
        let next = i64::from(self.next);
        let row = self.rows.front();
        row.is_some_and(|row| matches!(row.get_ref(0), Ok(ValueRef::Int(n)) if n == next))
    }

    /// The row of the position that comes next, if it has one. The position is passed.
    pub(crate) fn pass(&mut self) -> Option<Row>
        requires { self.old.next < self.old.end }
        ensures row { (table : List Values) → IsAhead self.old.next self.old.end table self.old.rows.items →
            seen learned_columns table self.old.next ≡ option_to_list result }
        ensures rest { (table : List Values) → IsAhead self.old.next self.old.end table self.old.rows.items →
            IsAhead self.new.next self.new.end table self.new.rows.items }
    {
        let has_row = self.has_row();
        self.next += 1;
        if !has_row {
            return None;
        }
        self.rows.pop_front()
    }
}
