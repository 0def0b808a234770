//! The numbers of a line.

ghost use Rattle.std.specs.Prelude.{◌≡◌};
ghost use Rattle.std.specs.List.{list_all};
ghost use Rattle.std.specs.Char.{is_ascii_digit};
ghost use Rattle.pf_lab.specs.Numbers.{number_of};
ghost use Rattle.pf_lab.specs.LabLines.{node_of, message_of};
ghost use Rattle.pf_lab.specs.inner.Seen.{Reads};

use crate::fault::{LineFault, UNKNOWN};

/// Whether each byte is a digit.
fn are_digits(text: &[u8]) -> bool
    ensures { result ≡ list_all is_ascii_digit text.now }
{
    text.iter().all(|b| b.is_ascii_digit())
}

/// The number that the argument spells, leading zeros read; none where it is no number. One past 2^64-1 is read as
/// that, which no message has.
#[tactic(auto, unfolding(crate::specs::Numbers::number_of), using(crate::proofs::Digits::digits_all))]
pub(crate) fn number_in(word: &str) -> Option<u64>
    ensures { result ≡ number_of word.now }
{
    if word.is_empty() || !are_digits(word.as_bytes()) {
        return None;
    }
    match word.parse::<u64>() {
        Ok(number) => Some(number),
        Err(_) => Some(u64::MAX),
    }
}

/// The node that the argument names. A number past 255 is read as that, which no node has.
pub(crate) fn node_in(word: &str) -> Result<u8, LineFault>
    ensures { Reads (λ m. m) result (node_of word.now) }
{
    Ok(number_in(word).ok_or(UNKNOWN)?.min(255) as u8)
}

/// The message that the argument names.
pub(crate) fn message_in(word: &str) -> Result<usize, LineFault>
    ensures { Reads (λ k. k) result (message_of word.now) }
{
    Ok(number_in(word).ok_or(UNKNOWN)? as usize)
}
