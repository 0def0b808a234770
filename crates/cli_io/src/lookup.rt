//! A table's row for a number.

ghost use Rattle.std.specs.Prelude.{◌≡◌, IfOk, string_bytes};
ghost use Rattle.std.specs.Option.{option_copied};
ghost use Rattle.cli_io.specs.Explained.{row_of, named, paragraphs};

use crate::paragraph::Explanation;
use itoa::Buffer;
use std::alloc::{AllocError, Global};

/// The table's row for a number: the first with this one, none where it has none.
pub fn explanation(table: &[Explanation], code: u8) -> Option<&Explanation>
    ensures { option_copied result ≡ row_of table.now code }
{
    table.iter().find(|row| row.code == code)
}

/// The table's row for a number in digits, none where it has none. A number with leading zeros is none.
pub fn named<'t>(table: &'t [Explanation], digits: &str) -> Option<&'t Explanation>
    ensures { option_copied result ≡ named table.now digits.now }
{
    for row in table {
        let mut buffer = Buffer::new();
        if buffer.format(row.code) == digits {
            return Some(row);
        }
    }
    None
}

/// The paragraphs of a table in its order, an empty line behind each. A growth that is refused is the error.
pub fn explain_all(alloc: Global, table: &[Explanation]) -> Result<String, AllocError>
    ensures { IfOk result (λ text. string_bytes text ≡ paragraphs table.now) }
{
    let mut text = String::new(alloc);
    for row in table {
        text.push_str(format!(in alloc; "{row}\n")?.as_str())?;
    }
    Ok(text)
}
