//! How far a node is.

ghost use Rattle.std.specs.Prelude.{◌≡◌, IfOk};
ghost use Rattle.cli_show.specs.Writing.{figures, shown_value};

use crate::shown::{Made, Shown};
use px_core::POSITIONS;
use std::alloc::Global;

/// How many positions are applied, and how many the log has left.
pub(crate) fn show_figures(alloc: Global, applied: u32) -> Made<Shown>
    ensures { IfOk result (λ s. shown_value s ≡ figures applied) }
{
    let mut text = String::new(alloc);
    let left = POSITIONS.saturating_sub(applied);
    writeln!(text, "applied {applied} left {left}")?;
    Ok(Shown::new(text.into_bytes(), false))
}
