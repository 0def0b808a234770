//! The raising of a member's start in its file of starts.

ghost use Rattle.std.specs.Prelude.{◌≡◌, ◌≢◌, ◌<◌, List, ℕ, Err, Some, None, IfOk, IfErr, false, length};
ghost use Rattle.std.specs.Prelude.{option_map};
ghost use Rattle.cli_files.specs.StartsTexts.{starts_text};
ghost use Rattle.cli_files.specs.Raising.{AreKnown, Raises, IsSpent, ComesFirst};

use crate::known::KnownMember;
use crate::next::next_start;
use crate::raise::RaiseFault;
use crate::starts_fault::StartsFault;
use crate::starts_place::StartsPlace;
use crate::starts_reading::read_starts;
use crate::starts_writing::write_starts;
use px_packet::Start;
use std::alloc::Global;

/// What is known of the members of a cluster, or why nothing is.
pub type Known = Result<Vec<KnownMember>, RaiseFault>;

/// What the text of a file, if there is one, has of a cluster of that many members. Where there is none it is
/// `Missing`, or, where one may be made, none of them was heard.
fn known_in(alloc: Global, text: &Option<Vec<u8>>, members: u8, may_be_made: bool) -> Known
    ensures known { IfOk result (λ v. AreKnown members may_be_made (option_map (λ t. t.items) text.now) v.items) }
    ensures missing { result ≡ Err RaiseFault.Missing → (text.now ≡ None) × (may_be_made ≡ false) }
    ensures all { IfOk result (λ v. length v.items ≡ members) }
    ensures why { (result ≢ Err RaiseFault.Spent) × (result ≢ Err RaiseFault.Unwritten) }
{
    match text {
        Some(text) => match read_starts(alloc, text.as_slice()) {
            Ok(known) if known.len() == usize::from(members) => Ok(known),
            Err(StartsFault::Memory) => Err(RaiseFault::Memory),
            _ => Err(RaiseFault::Damaged),
        },
        // none of its members was heard
        None if may_be_made => {
            let (start, birth) = (Start::NEVER, 0);
            Ok(vec![in alloc; KnownMember { start, birth }; usize::from(members)]?)
        }
        None => Err(RaiseFault::Missing),
    }
}

/// What the file of starts at a place has of a cluster of that many members: `Missing` where there is none.
pub fn starts_at<P: StartsPlace>(alloc: Global, place: &P, members: u8) -> Known
    ensures known { IfOk result (λ v. (text : List ℕ) × P.has place.now (Some text) × (length v.items ≡ members) ×
        (text ≡ starts_text v.items)) }
    ensures missing { result ≡ Err RaiseFault.Missing → P.has place.now None }
    ensures all { IfOk result (λ v. length v.items ≡ members) }
    ensures why { (result ≢ Err RaiseFault.Spent) × (result ≢ Err RaiseFault.Unwritten) }
{
    let text = place.read(alloc)?;
    known_in(alloc, &text, members, false)
}

/// A start of the member `me` of a cluster of that many, at a time in seconds since 1970, with a random salt: it is the
/// one that follows the member's in the text at the place, and is in that text before this returns, with what else
/// the text has. A file is made where there is none and one `may_be_made`, and is `Missing` else. After a fault what is
/// there is as it was, but for `Unwritten` and `Memory`: then it is that or the new one.
pub fn raise_at<P: StartsPlace>(
    alloc: Global,
    place: &mut P,
    members: u8,
    me: u8,
    may_be_made: bool,
    seconds: u64,
    salt: u32,
) -> Result<Start, RaiseFault>
    requires here { me < members }
    ensures raised { IfOk result (λ start.
        Raises (P.has place.old) (P.has place.new) members me may_be_made seconds salt start) }
    ensures first { IfErr result (λ e. ComesFirst e → place.new ≡ place.old) }
    ensures missing { result ≡ Err RaiseFault.Missing → P.has place.old None × (may_be_made ≡ false) }
    ensures spent { result ≡ Err RaiseFault.Spent → IsSpent (P.has place.old) members me may_be_made seconds salt }
{
    let text = place.read(alloc)?;
    let mut known = known_in(alloc, &text, members, may_be_made)?;
    let own = usize::from(me);
    let start = next_start(known[own].start, seconds, salt).ok_or(RaiseFault::Spent)?;
    known[own].start = start;
    let written = write_starts(alloc, known.as_slice())?;
    place.replace(alloc, written.as_slice())?;
    Ok(start)
}
