//! The lines of a script, and the arguments of a line.

ghost use Rattle.std.specs.Prelude.{◌≡◌, ◌++◌, ◌<◌, IfOk, IfSome, IfNone, OnOk, map, not, [], ◌∷◌};
ghost use Rattle.std.specs.Prelude.{length, ◌==◌, ◌≤◌, option_map, string_bytes, if◌then◌else◌, Some};
ghost use Rattle.std.specs.Prelude.{None};
ghost use Rattle.std.specs.Str.{is_utf8};
ghost use Rattle.std.specs.List.{prefix_len};
ghost use Rattle.pf_scripts.specs.Lines.{lines, bytes_of, words_in, spaced, are_adjacent, begins_pair, words_if};
ghost use Rattle.pf_scripts.specs.Seen.{line_of};

use pf_eval::words_between_blanks;
use std::alloc::{AllocError, Global};

/// A line of a script, and whether a newline ends it, which the last one may lack.
#[derive(Clone, Copy)]
pub struct Line<'a> {
    /// What is before its end.
    pub content: &'a [u8],
    /// Whether a newline ends it.
    pub has_newline: bool,
}

/// How many bytes are before the end of the line.
#[tactic(auto, using(crate::proofs::LinesCut::line_len_le))]
fn line_len(script: &[u8]) -> usize
    ensures value { result ≡ prefix_len (λ b. not (b == 10)) script.now }
    ensures within { result ≤ length script.now }
{
    script.iter().take_while(|b| **b != b'\n').count()
}

/// The first line of a script, and what is behind it; none of an empty one.
#[tactic(auto, using(crate::proofs::LinesCut::cut_here, crate::proofs::LinesCut::last_line, crate::proofs::LinesCut::shorter, crate::proofs::LinesCut::nothing))]
pub fn cut_line(script: &[u8]) -> Option<(Line<'_>, &[u8])>
    ensures cut { IfSome result (λ c. lines script.now ≡ line_of c.0 ∷ lines c.1.now) }
    ensures less { IfSome result (λ c. length c.1.now < length script.now) }
    ensures end { IfNone result (script.now ≡ []) }
{
    let (front, back) = script.split_at(line_len(script));
    match back {
        [_, rest @ ..] => {
            let line = Line {
                content: front,
                has_newline: true,
            };
            Some((line, rest))
        }
        [] => {
            if front.is_empty() {
                return None;
            }
            let line = Line {
                content: front,
                has_newline: false,
            };
            Some((line, &[]))
        }
    }
}

/// Puts a line with its newline behind a string.
pub fn push_bytes(text: &mut Vec<u8>, line: Line<'_>) -> Result<(), AllocError>
    ensures { OnOk result (text.new.items ≡ text.old.items ++ bytes_of (line_of line.entry)) }
{
    text.extend_from_slice(line.content)?;
    if line.has_newline {
        text.push(b'\n')?;
    }
    Ok(())
}

/// An argument as text, none where it isn't UTF-8.
#[tactic(auto, using(crate::proofs::LinesCut::utf8_text, crate::proofs::LinesCut::no_text))]
fn text_of(word: &[u8]) -> Option<&str>
    ensures { option_map (λ s. s.now) result ≡ (if is_utf8 word.now then Some word.now else None) }
{
    str::from_utf8(word).ok()
}

/// The arguments as text, none where one of them isn't UTF-8.
pub fn texts<'a>(alloc: Global, found: &[&'a [u8]]) -> Result<Option<Vec<&'a str>>, AllocError>
    ensures { IfOk result (λ words. option_map (λ v. map (λ w. w.now) v.items) words
        ≡ words_if (map (λ w. w.now) found.now)) }
{
    let mut texts = Vec::new(alloc);
    for word in found {
        match text_of(word) {
            Some(text) => texts.push(text)?,
            None => return Ok(None),
        }
    }
    Ok(Some(texts))
}

/// The arguments in a line, between blanks; none where one of them isn't UTF-8.
#[tactic(auto, unfolding(crate::specs::Lines::words_in))]
pub fn words_in<'a>(alloc: Global, line: &'a [u8]) -> Result<Option<Vec<&'a str>>, AllocError>
    ensures { IfOk result (λ words. option_map (λ v. map (λ w. w.now) v.items) words ≡ words_in line.now) }
{
    let found = words_between_blanks(alloc, line)?;
    texts(alloc, &found)
}

/// Words with a blank between them.
pub fn spaced(alloc: Global, words: &[&str]) -> Result<String, AllocError>
    ensures { IfOk result (λ text. string_bytes text ≡ spaced (map (λ w. w.now) words.now)) }
{
    let mut text = String::new(alloc);
    let mut left = words;
    while let [first, rest @ ..] = left {
        text.push_str(first)?;
        if !rest.is_empty() {
            text.push(' ')?;
        }
        left = rest;
    }
    Ok(text)
}

/// Whether the first argument is this one and the next the other.
fn begins_pair(first: &str, second: &str, words: &[&str]) -> bool
    ensures { result ≡ begins_pair first.now second.now (map (λ w. w.now) words.now) }
{
    match words {
        [a, b, ..] => *a == first && *b == second,
        [_] | [] => false,
    }
}

/// Whether one argument is directly before the other.
pub(crate) fn are_adjacent(first: &str, second: &str, words: &[&str]) -> bool
    ensures { result ≡ are_adjacent first.now second.now (map (λ w. w.now) words.now) }
{
    let mut left = words;
    while let [_, rest @ ..] = left {
        if begins_pair(first, second, left) {
            return true;
        }
        left = rest;
    }
    false
}
