//! Tokens and what is at the front of a source.

ghost use Rattle.std.specs.Prelude.{◌≡◌, ◌≤◌, ◌==◌, length, not, drop};
ghost use Rattle.std.specs.List.{prefix_len};
ghost use Rattle.pf_tokens.specs.Tokens.{is_word_byte, is_name_byte, is_quoted_byte, is_newline, quoted_closed};
ghost use Rattle.pf_tokens.specs.Tokens.{macro_front, longer_symbol, longest, symbol_of, front};
ghost use Rattle.pf_tokens.specs.Macros.{ends};
ghost use Rattle.pf_tokens.specs.Lexed.{token_of, placed_of};
ghost use Rattle.pf_tokens.specs.inner.Lexed.{front_of};

use crate::symbol::{Symbol, symbol_of, symbol_of_two};

/// A token without its place.
#[derive(Clone, Copy)]
pub enum Lexeme<'a> {
    /// The longest run of letters, digits and `. : _ - + * % @`.
    Word(&'a [u8]),
    /// A string in quotes, without them: printable ASCII and tabs, but no quote and no backslash.
    Quoted(&'a [u8]),
    /// The name of a macro, without its dollar sign.
    Macro(&'a [u8]),
    /// A symbol.
    Mark(Symbol),
    /// A newline.
    Newline,
    /// A byte that begins no token, or a quote that isn't closed on its line.
    Bad,
}

impl Lexeme<'_> {
    /// Whether it is a newline.
    pub fn is_newline(self) -> bool
        ensures { result ≡ is_newline (token_of self.entry) }
    {
        matches!(self, Lexeme::Newline)
    }
}

/// A token, its line, and whether it is in the text as it is, and not in a macro's text.
#[derive(Clone, Copy)]
pub(crate) struct Lexed<'a> {
    pub lexeme: Lexeme<'a>,
    pub line: u64,
    pub written: bool,
}

impl Lexed<'_> {
    /// Whether it ends a statement that has no brace open.
    pub(crate) fn is_empty_statement(self) -> bool
        ensures { result ≡ ends 0 (placed_of self.entry) }
    {
        self.written && self.lexeme.is_newline()
    }
}

/// For each ASCII character a bit, whether it may be in a word token: a shift is quicker than ten comparisons.
const WORD_BYTES: u128 = 0x07ff_fffe_87ff_ffff_07ff_6c20_0000_0000;

/// Whether the byte may be in a word token.
pub(crate) fn is_word_byte(b: u8) -> bool
    ensures { result ≡ is_word_byte b }
{
    b < 128 && (WORD_BYTES >> b) % 2 == 1
}

/// How many bytes the word token at the front has.
pub(crate) fn word_len(text: &[u8]) -> usize
    ensures { result ≡ prefix_len is_word_byte text.now }
{
    text.iter().take_while(|b| is_word_byte(**b)).count()
}

/// How many bytes are before the end of the line.
fn line_len(text: &[u8]) -> usize
    ensures { result ≡ prefix_len (λ b. not (b == 10)) text.now }
{
    text.iter().take_while(|b| **b != b'\n').count()
}

/// Whether the byte may be in a macro's name.
pub(crate) fn is_name_byte(b: u8) -> bool
    ensures { result ≡ is_name_byte b }
{
    b.is_ascii_alphanumeric() || b == b'_'
}

/// Whether the byte may be between quotes.
fn is_quoted_byte(b: u8) -> bool
    ensures { result ≡ is_quoted_byte b }
{
    (b == b'\t' || (32 <= b && b <= 126)) && b != b'"' && b != b'\\'
}

/// How many bytes the name at the front has.
#[tactic(auto, using(crate::proofs::Lexing::prefix_len_le))]
fn name_len(text: &[u8]) -> usize
    ensures value { result ≡ prefix_len is_name_byte text.now }
    ensures within { result ≤ length text.now }
{
    text.iter().take_while(|b| is_name_byte(**b)).count()
}

/// How many bytes at the front may be between quotes.
#[tactic(auto, using(crate::proofs::Lexing::prefix_len_le))]
fn quoted_len(text: &[u8]) -> usize
    ensures value { result ≡ prefix_len is_quoted_byte text.now }
    ensures within { result ≤ length text.now }
{
    text.iter().take_while(|b| is_quoted_byte(**b)).count()
}

/// What is behind an opening quote.
fn quoted(bytes: &[u8]) -> (Option<Lexeme<'_>>, usize)
    ensures { front_of result ≡ quoted_closed bytes.now (prefix_len is_quoted_byte bytes.now)
        (drop (prefix_len is_quoted_byte bytes.now) bytes.now) }
{
    let len = quoted_len(bytes);
    let (text, others) = bytes.split_at(len);
    match others.first() {
        Some(b'"') => (Some(Lexeme::Quoted(text)), len + 2),
        _ => (Some(Lexeme::Bad), 1),
    }
}

/// What is behind a dollar sign.
fn macro_name(bytes: &[u8]) -> (Option<Lexeme<'_>>, usize)
    ensures { front_of result ≡ macro_front bytes.now (prefix_len is_name_byte bytes.now) }
{
    let len = name_len(bytes);
    if len == 0 {
        return (Some(Lexeme::Bad), 1);
    }
    (Some(Lexeme::Macro(&bytes[..len])), len + 1)
}

/// The longest symbol that begins with the byte.
fn symbol_front<'a>(b: u8, others: &[u8]) -> (Option<Lexeme<'a>>, usize)
    ensures { front_of result ≡ longest (longer_symbol b others.now) (symbol_of b) }
{
    if let Some(symbol) = others.first().and_then(|next| symbol_of_two(b, *next)) {
        return (Some(Lexeme::Mark(symbol)), 2);
    }
    let lexeme = symbol_of(b).map_or(Lexeme::Bad, |symbol| Lexeme::Mark(symbol));
    (Some(lexeme), 1)
}

/// What is at the front: a token, or none where it is a blank or a comment, and how many bytes it takes.
pub(crate) fn front(text: &[u8]) -> (Option<Lexeme<'_>>, usize)
    ensures { front_of result ≡ front text.now }
{
    let Some((first, others)) = text.split_first() else {
        return (None, 0);
    };
    if is_word_byte(*first) {
        let len = word_len(text);
        return (Some(Lexeme::Word(&text[..len])), len);
    }
    match *first {
        b'\n' => (Some(Lexeme::Newline), 1),
        b' ' | b'\t' => (None, 1),
        b'#' => (None, line_len(text)),
        b'"' => quoted(others),
        b'$' => macro_name(others),
        other => symbol_front(other, others),
    }
}
