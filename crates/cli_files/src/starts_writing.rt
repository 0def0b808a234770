//! The text of a file of starts.

ghost use Rattle.std.specs.Prelude.{◌≡◌, ◌++◌, IfOk, OnOk};
ghost use Rattle.cli_files.specs.StartsTexts.{line_of, starts_text};

use crate::known::KnownMember;
use std::alloc::{AllocError, Global};

/// The first line.
pub(crate) const VERSION: &[u8] = b"pfx starts 1\n";

/// Writes the line of a member behind what the text has.
fn write_line(alloc: Global, member: &KnownMember, text: &mut Vec<u8>) -> Result<(), AllocError>
    ensures { OnOk result (text.new.items ≡ text.old.items ++ line_of member.now) }
{
    let mut bytes = Vec::from_slice(alloc, &member.start.number.to_be_bytes())?;
    bytes.extend_from_slice(&member.start.salt.to_be_bytes())?;
    bytes.extend_from_slice(&member.birth.to_be_bytes())?;
    text.extend_from_slice(hex::encode(alloc, bytes)?.as_bytes())?;
    Ok(text.push(b'\n')?)
}

/// The text of the members of a cluster.
pub fn write_starts(alloc: Global, members: &[KnownMember]) -> Result<Vec<u8>, AllocError>
    ensures { IfOk result (λ text. text.items ≡ starts_text members.now) }
{
    let mut text = Vec::from_slice(alloc, VERSION)?;
    for member in members {
        write_line(alloc, member, &mut text)?;
    }
    Ok(text)
}
