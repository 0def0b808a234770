//! The start that follows a start.

ghost use Rattle.std.specs.Prelude.{◌≡◌};
ghost use Rattle.cli_files.specs.Next.{next_start};

use px_packet::Start;

/// The start of a store after this one, at a time in seconds since 1970, with a random salt: `None` where no number is
/// left. Its number is above the last one, and the time at least, so that it is above those of a lost file too where
/// the clock is right.
pub fn next_start(last: Start, seconds: u64, salt: u32) -> Option<Start>
    ensures { result ≡ next_start last seconds salt }
{
    let next = last.number.checked_add(1)?;
    let number = next.max(seconds.min(u64::from(u32::MAX)) as u32);
    Some(Start { number, salt })
}
