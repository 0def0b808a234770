//! The first token of a packet text, and what follows it.

ghost use Rattle.std.specs.Prelude.{◌≡◌, ◌++◌, ◌∷◌, ◌<◌, IfOk, IfSome, OnOk, Some, None, drop, length, map};
ghost use Rattle.std.specs.Prelude.{if◌then◌else◌, not, option_map, true};
ghost use Rattle.std.specs.List.{list_all};
ghost use Rattle.pf_eval.specs.inner.Cursors.{cut_words, begins_plain};
ghost use Rattle.pf_eval.specs.PacketTexts.{begins, is_blank, ended, has_outer_blank, words};

use pf_rules::is_same_word;
use std::alloc::{AllocError, Global};

/// Whether the byte is a space or a tab.
fn is_blank(b: u8) -> bool
    ensures { result ≡ is_blank b }
{
    b == b' ' || b == b'\t'
}

/// Whether the first or the last byte is a blank.
pub(crate) fn has_outer_blank(text: &[u8]) -> bool
    ensures { result ≡ has_outer_blank text.now }
{
    match text {
        [] => false,
        [.., last] => is_blank(text[0]) || is_blank(*last),
    }
}

/// What is before the first blank of a string that begins with a token, and what follows that blank.
#[tactic(auto, using(crate::proofs::Words::word_stays, crate::proofs::Words::word_cut, crate::proofs::Words::word_whole))]
fn cut_word(text: &[u8]) -> (&[u8], &[u8])
    requires { begins_plain text.now ≡ true }
    ensures { result.0.now ∷ words result.1.now ≡ words text.now }
{
    for (i, b) in text.iter().enumerate() {
        // one comparison for most bytes
        if *b > b' ' {
            continue;
        }
        if is_blank(*b) {
            return (&text[..i], &text[i + 1..]);
        }
    }
    (text, &text[text.len()..])
}

/// The first token of a string, and what follows it. A blank that ends the token is consumed.
pub(crate) fn first_word(text: &[u8]) -> Option<(&[u8], &[u8])>
    ensures { cut_words (option_map (λ cut. (cut.0.now, cut.1.now)) result) ≡ words text.now }
{
    let mut rest = text;
    while let [b, others @ ..] = rest {
        if !is_blank(*b) {
            return Some(cut_word(rest));
        }
        rest = others;
    }
    None
}

/// What follows this keyword and the blank that ends it, where the text begins with them.
#[inline(always)]
#[tactic(auto, using(crate::proofs::Words::key_ends, crate::proofs::Words::key_goes_on))]
fn cut_key<'a>(text: &'a [u8], key: &[u8]) -> Option<&'a [u8]>
    requires some { 0 < length key.now }
    requires plain { list_all (λ b. not (is_blank b)) key.now ≡ true }
    ensures { IfSome result (λ rest. words text.now ≡ key.now ∷ words rest.now) }
{
    let len = key.len();
    if text.len() < len || !is_same_word(&text[..len], key) {
        return None;
    }
    if text.len() == len {
        return Some(&text[len..]);
    }
    if is_blank(text[len]) {
        Some(&text[len + 1..])
    } else {
        None
    }
}

/// What follows this keyword, if it is the first token of a string that doesn't begin with it: blanks are before it.
#[tactic(auto, using(crate::proofs::Words::other_first))]
fn behind_blanks<'a>(text: &'a [u8], key: &[u8]) -> Option<&'a [u8]>
    requires { 0 < length key.now }
    ensures { option_map (λ rest. words rest.now) result ≡ (if begins key.now (words text.now) then
        Some (drop 1 (words text.now)) else None) }
{
    match text {
        [first, ..] if !is_blank(*first) && *first != key[0] => None,
        _ => match first_word(text) {
            Some((word, rest)) if is_same_word(word, key) => Some(rest),
            _ => None,
        },
    }
}

/// What follows this keyword, if it is the first token. Inlined, so that a key's length is known where it is compared.
#[inline(always)]
pub(crate) fn behind<'a>(text: &'a [u8], key: &[u8]) -> Option<&'a [u8]>
    requires some { 0 < length key.now }
    requires plain { list_all (λ b. not (is_blank b)) key.now ≡ true }
    ensures { option_map (λ rest. words rest.now) result ≡ (if begins key.now (words text.now) then
        Some (drop 1 (words text.now)) else None) }
{
    cut_key(text, key).or_else(|| behind_blanks(text, key))
}

/// Appends the token to those that were found, unless it is empty.
fn put_word<'a>(found: &mut Vec<&'a [u8]>, word: &'a [u8]) -> Result<(), AllocError>
    ensures { OnOk result (map (λ w. w.now) found.new.items ≡ map (λ w. w.now) found.old.items ++ ended word.now) }
{
    if !word.is_empty() {
        found.push(word)?;
    }
    Ok(())
}

/// The tokens in a string between blanks, which are spaces and tabs. The error is out of memory.
pub fn words<'a>(alloc: Global, text: &'a [u8]) -> Result<Vec<&'a [u8]>, AllocError>
    ensures { IfOk result (λ found. map (λ w. w.now) found.items ≡ words text.now) }
{
    let mut found = Vec::new(alloc);
    let mut start = 0usize;
    for (i, b) in text.iter().enumerate() {
        if !is_blank(*b) {
            continue;
        }
        put_word(&mut found, &text[start..i])?;
        start = i + 1;
    }
    put_word(&mut found, &text[start..])?;
    Ok(found)
}
