//! Steps in turn.
ghost use Rattle.std.specs.Prelude.{◌≡◌};

use crate::record::step;
use crate::said::append;
use px_records::Records;
use std::alloc::Global;

/// Does one step after the other with a record of three members; what each reports is appended, a comma between.
/// Whether there was memory for that.
pub(crate) fn follow<R: Records>(
    alloc: Global,
    records: &mut R,
    steps: &str,
    out: &mut String,
) -> bool
    requires { R.members records.old ≡ 3 }
    ensures { R.members records.new ≡ 3 }
{
    let mut is_first = true;
    for text in steps.split(", ") {
        if !is_first && !append(out, ", ") {
            return false;
        }
        is_first = false;
        if !step(alloc, records, text, out) {
            return false;
        }
    }
    true
}
