//! The file of starts beside a store.

ghost use Rattle.std.specs.Prelude.{◌≡◌, ◌≢◌, ◌++◌, ◌<◌, ⊤, ℕ, List, Err, IfOk, codes, length, string_bytes};
ghost use Rattle.cli_files.specs.Raising.{Raises};
ghost use Rattle.std.specs.Int.{w32, from_be_bytes};

use crate::raise::RaiseFault;
use crate::raising::{Known, raise_at, starts_at};
use crate::random_bytes::RandomBytes;
use crate::starts_place::{StartsFile, StartsPlace};
use px_packet::Start;
use std::alloc::{AllocError, Global};
use std::random::RandomSource;
use std::rt::Files;
use std::time::{Clock, SystemTime};

/// Where the file of starts of a store is: beside it.
pub fn starts_path(alloc: Global, store: &str) -> Result<String, AllocError>
    ensures { IfOk result (λ path. string_bytes path ≡ store.now ++ codes "-starts") }
{
    format!(in alloc; "{store}-starts")
}

/// What a file of starts has of a cluster of that many members, by [`starts_at`] at the file at a path.
pub fn starts_in<F: Files>(files: &F, alloc: Global, path: &str, members: u8) -> Known
    ensures all { IfOk result (λ known. length known.items ≡ members) }
    ensures why { (result ≢ Err RaiseFault.Spent) × (result ≢ Err RaiseFault.Unwritten) }
{
    starts_at(alloc, &StartsFile { files, path }, members)
}

/// A clock that reports the time in seconds since 1970.
trait Seconds {
    // it may report this time
    ghost reports: { Self → ℕ → Type 0 };

    /// The time, 0 where the system has none.
    fn seconds(&self) -> u64
        ensures { reports self.now result };
}

impl<C: Clock> Seconds for C {
    // no contract states what the system's clock reports
    ghost reports = { λ _ _. ⊤ };

    fn seconds(&self) -> u64 {
        let now = SystemTime::now(self).unwrap_or(SystemTime::UNIX_EPOCH);
        now.duration_since(SystemTime::UNIX_EPOCH)
            .map_or(0, |since| since.as_secs())
    }
}

/// A start that is raised at a place, with the time that a clock reports and a salt of a random source.
fn raise_with<P: StartsPlace, C: Seconds, R: RandomBytes>(
    alloc: Global,
    place: &mut P,
    clock: &C,
    random: &R,
    members: u8,
    me: u8,
    may_be_made: bool,
) -> Result<Start, RaiseFault>
    requires here { me < members }
    ensures raised { IfOk result (λ start. (seconds : ℕ) × C.reports clock.now seconds × (bytes : List ℕ) ×
        R.gives random.now bytes × Raises (P.has place.old) (P.has place.new) members me may_be_made seconds
        (from_be_bytes w32 bytes) start) }
    ensures started { IfOk result (λ start. 0 < start.number) }
{
    let seconds = clock.seconds();
    let mut bytes = [0u8; 4];
    random.fill(&mut bytes)?;
    let salt = u32::from_be_bytes(bytes);
    raise_at(alloc, place, members, me, may_be_made, seconds, salt)
}

/// A start of the member `me` of a cluster of that many, by [`raise_at`] at the file at a path, with the time that the
/// clock reports and a salt of the random source.
pub fn raise_start<R: Files + Clock + RandomSource>(
    rt: &R,
    alloc: Global,
    path: &str,
    members: u8,
    me: u8,
    may_be_made: bool,
) -> Result<Start, RaiseFault>
    requires here { me < members }
    ensures started { IfOk result (λ start. 0 < start.number) }
{
    let mut place = StartsFile { files: rt, path };
    raise_with(alloc, &mut place, rt, rt, members, me, may_be_made)
}
