//! A source whose lines are joined.

ghost use Rattle.std.specs.Prelude.{◌≡◌, IfOk};
ghost use Rattle.std.specs.Cow.{cow_slice_items};
ghost use Rattle.pf_tokens.specs.Tokens.{tokens};
ghost use Rattle.pf_tokens.specs.inner.Tokens.{continues};
ghost use Rattle.pf_tokens.specs.Joined.{text_tokens};
ghost use Rattle.pf_tokens.specs.inner.Joined.{joined, joints, is_continued};
ghost use Rattle.pf_tokens.specs.Left.{tokens_left};

use crate::lexer::Lexer;
use std::alloc::{AllocError, Global};
use std::borrow::CowSlice;

/// A source as given, with its tokens: each backslash directly before a newline has been taken out together with
/// it, once, also in strings and comments.
#[derive(Drop)]
pub struct Text<'a> {
    bytes: CowSlice<'a, u8>,
    /// For each backslash and newline that was taken out, how many bytes stayed before it.
    steps: Vec<usize>,
}

/// Whether a backslash is directly before a newline.
fn continues(b: u8, others: &[u8]) -> bool
    ensures { result ≡ continues b others.now }
{
    b == b'\\' && matches!(others.first(), Some(b'\n'))
}

/// Whether any line is continued.
fn is_continued(text: &[u8]) -> bool
    ensures { result ≡ is_continued text.now }
{
    if !text.contains(&b'\\') {
        return false;
    }
    let mut rest = text;
    while let Some((first, others)) = rest.split_first() {
        if continues(*first, others) {
            return true;
        }
        rest = others;
    }
    false
}

/// The bytes that stay, and the places where a backslash and a newline were taken out.
fn joined(alloc: Global, text: &[u8]) -> Result<(Vec<u8>, Vec<usize>), AllocError>
    ensures { IfOk result (λ r. (r.0.items ≡ joined text.now) × (r.1.items ≡ joints 0 text.now)) }
{
    let mut bytes = Vec::new(alloc);
    let mut steps = Vec::new(alloc);
    let mut rest = text;
    while let Some((first, others)) = rest.split_first() {
        if continues(*first, others) {
            steps.push(bytes.len())?;
            let (_, behind) = others.split_at(1);
            rest = behind;
        } else {
            bytes.push(*first)?;
            rest = others;
        }
    }
    Ok((bytes, steps))
}

impl<'a> Text<'a> {
    /// Joins the lines of a source. Where none is continued the text itself is lent. An error is out of memory.
    pub fn new(alloc: Global, text: &'a [u8]) -> Result<Text<'a>, AllocError>
        ensures { IfOk result (λ t. text_tokens t ≡ tokens text.now) }
    {
        if !is_continued(text) {
            let (bytes, steps) = (CowSlice::Borrowed(text), Vec::new(alloc));
            return Ok(Text { bytes, steps });
        }
        let (bytes, steps) = joined(alloc, text)?;
        let bytes = CowSlice::Owned(bytes);
        Ok(Text { bytes, steps })
    }

    /// Its tokens from the first on.
    pub fn lexer(&self) -> Lexer<'_>
        ensures { tokens_left result ≡ text_tokens self.now }
    {
        Lexer::joined(&self.bytes, &self.steps)
    }
}
