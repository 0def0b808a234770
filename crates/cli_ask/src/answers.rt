//! The node's answers: whether what was asked for was done.

ghost use Rattle.std.specs.Prelude.{◌≡◌, ◌≤◌, length};
ghost use Rattle.cli_ask.specs.Answers.{all_match, behind_line, is_done, line_len};
ghost use Rattle.cli_ask.specs.Answers.{word_len};

use crate::call::Kind;
use crate::commands::ASKED;

/// How long the first line is, without its newline.
#[tactic(auto, using(crate::proofs::Fronts::line_len_le))]
pub(crate) fn line_len(text: &[u8]) -> usize
    ensures value { result ≡ line_len text.now }
    ensures within { result ≤ length text.now }
{
    text.iter().take_while(|b| **b != b'\n').count()
}

/// How long the part before the first blank is.
#[tactic(auto, using(crate::proofs::Fronts::word_len_le))]
fn word_len(text: &[u8]) -> usize
    ensures value { result ≡ word_len text.now }
    ensures within { result ≤ length text.now }
{
    text.iter().take_while(|b| **b != b' ').count()
}

/// What is behind the first line, if that begins so; else all of it.
pub(crate) fn behind_line<'a>(body: &'a [u8], front: &[u8]) -> &'a [u8]
    ensures { result.now ≡ behind_line front.now body.now }
{
    if !body.starts_with(front) {
        return body;
    }
    match body.split_at(line_len(body)) {
        (_, [_, rest @ ..]) => rest,
        (_, []) => &[],
    }
}

/// Whether all addresses that were looked up are in the table, as by `3 of 3 match`.
fn all_match(body: &[u8]) -> bool
    ensures { result ≡ all_match body.now }
{
    let (word, rest) = body.split_at(word_len(body));
    if !rest.starts_with(b" of ") {
        return false;
    }
    let (_, rest) = rest.split_at(4);
    if !rest.starts_with(word) {
        return false;
    }
    let (_, rest) = rest.split_at(word.len());
    rest.starts_with(b" ")
}

/// Whether an answer, by HTTP's status and its body, is that what was asked for was done. A change was made, or accepted
/// where nothing more was asked: an outcome that isn't known any more is neither.
pub(crate) fn is_done(kind: Kind, code: u16, body: &[u8]) -> bool
    ensures { result ≡ is_done kind code body.now }
{
    match kind {
        Kind::Read | Kind::List | Kind::Test => code < 300,
        Kind::TableTest => code < 300 && all_match(body),
        Kind::Sync => code < 300 && !behind_line(body, ASKED).starts_with(b"refused"),
        Kind::Change => code == 202 || code < 300 && behind_line(body, ASKED).starts_with(b"ok"),
    }
}
