//! The messages beside an answer, on standard error.

ghost use Rattle.std.specs.Prelude.{OnOk};
ghost use Rattle.std.specs.Io.KnownBytes.{Appends};
ghost use Rattle.cli_ask.specs.Reporting.{left_text};

use crate::options::POSITIONS;
use std::io::{self, Write};

/// From this front on a message states after each answer how many positions are left.
const NEAR_THE_END: u32 = 900_000;

/// Writes, once the log nears its end, how many positions are left.
pub(crate) fn report_left<E: Write>(front: Option<u32>, errors: &mut E) -> io::Result<()>
    ensures { OnOk result (Appends (E.contents errors.old) (E.contents errors.new) (left_text front)) }
{
    match front {
        Some(front) if front >= NEAR_THE_END => {
            let left = POSITIONS.saturating_sub(u64::from(front));
            writeln!(errors, "pfx: {left} positions left in the log")
        }
        _ => Ok(()),
    }
}
