//! The kept votes: for each member the highest ballot that it is known to have voted in, at the 64 positions from the
//! front on.
//!
//! They are in 64 rows of 15 cells, a position in the row of its remainder by 64. A cell has the position of its
//! ballot, so nothing is written when the front moves on: what is below it no longer counts, and what comes into the
//! window has no cell yet.
ghost use Rattle.std.specs.Prelude.{◌≡◌, ℕ, ◌+◌, ◌<◌, length, slice_index_or};
ghost use Rattle.px_core.specs.Cells.{empty_cell};

/// A ballot voted in at a position; the ballot 0 is none.
#[derive(Clone, Copy)]
pub struct Cell {
    pub position: u32,
    pub ballot: u64,
}

/// The votes kept from the front on.
#[derive(Drop)]
pub struct Votes {
    pub(crate) front: u32,
    pub(crate) cells: Vec<Cell>,
    ghost sized: { length cells.items ≡ 960 },
    ghost within: { (k : ℕ) → k < 960 → (slice_index_or cells.items k empty_cell).position < front + 64 },
}
