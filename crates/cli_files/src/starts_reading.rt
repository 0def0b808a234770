//! A file of starts that is read.

ghost use Rattle.std.specs.Prelude.{◌≡◌, ◌≢◌, ◌↔◌, ◌≤◌, List, Some, Err, IfOk, length, take};
ghost use Rattle.hex.specs.Hex.{encode_lower};
ghost use Rattle.cli_files.specs.declared.known.KnownMember as declared;
ghost use Rattle.cli_files.specs.StartsTexts.{known_bytes, starts_text, version, Fits, AreFit};

use crate::known::KnownMember;
use crate::starts_fault::StartsFault;
use crate::starts_writing::{VERSION, write_starts};
use px_packet::Start;
use std::alloc::Global;

/// How many members there are at most.
const MEMBERS_MAX: usize = 15;

/// How many digits a line has, and with its newline.
const DIGITS: usize = 32;

const LINE: usize = 33;

/// The member of the digits of a line.
fn member_in(digits: &[u8]) -> Option<KnownMember>
    ensures { (m : declared.KnownMember) → Fits m → digits.now ≡ encode_lower (known_bytes m) → result ≡ Some m }
{
    let mut bytes = [0u8; 16];
    hex::decode_to_slice(digits, &mut bytes).ok()?;
    let number = u32::from_be_bytes([bytes[0], bytes[1], bytes[2], bytes[3]]);
    let salt = u32::from_be_bytes([bytes[4], bytes[5], bytes[6], bytes[7]]);
    let birth = u64::from_be_bytes([
        bytes[8], bytes[9], bytes[10], bytes[11], bytes[12], bytes[13], bytes[14], bytes[15],
    ]);
    let start = Start { number, salt };
    Some(KnownMember { start, birth })
}

/// The members of a file of starts. A string is read where it is the text of some members, 15 at most, and as those.
pub fn read_starts(alloc: Global, text: &[u8]) -> Result<Vec<KnownMember>, StartsFault>
    ensures read { IfOk result (λ members. text.now ≡ starts_text members.items) }
    ensures few { IfOk result (λ members. length members.items ≤ 15) }
    ensures version { (result ≡ Err StartsFault.Version) ↔ (take 13 text.now ≢ version) }
    ensures damaged { result ≡ Err StartsFault.Damaged → (members : List declared.KnownMember) →
        AreFit members → length members ≤ 15 → text.now ≡ starts_text members → ⊥ }
{
    let lines = text.strip_prefix(VERSION).ok_or(StartsFault::Version)?;
    let count = lines.len() / LINE;
    if count > MEMBERS_MAX {
        return Err(StartsFault::Damaged);
    }
    let mut members = Vec::with_capacity(alloc, count)?;
    for i in 0..count {
        let digits = &lines[LINE * i..LINE * i + DIGITS];
        let member = member_in(digits).ok_or(StartsFault::Damaged)?;
        members.push(member).map_err(|_| StartsFault::Memory)?;
    }
    let again = write_starts(alloc, members.as_slice())?;
    (again.as_slice() == text)
        .then_some(members)
        .ok_or(StartsFault::Damaged)
}
