//! Tokens, one after another, from the bytes of a source.

ghost use Rattle.std.specs.Prelude.{◌≡◌, ◌+◌, ◌<◌, ◌^◌, length};
ghost use Rattle.pf_tokens.specs.Tokens.{line_after};

use crate::lexeme::{Lexed, Lexeme, front, is_word_byte, word_len};

/// The line of what follows the byte.
fn line_after(line: u64, b: u8) -> u64
    requires { line + 1 < 2 ^ 64 }
    ensures { result ≡ line_after line b }
{
    if b == b'\n' { line + 1 } else { line }
}

/// The tokens of a source, which are made one at a time.
///
/// Lines are those of the text as given: at each of the steps a backslash and a newline were taken out.
#[derive(Clone, Copy)]
pub struct Lexer<'a> {
    rest: &'a [u8],
    at: usize,
    steps: &'a [usize],
    line: u64,
    ghost within: { at + length rest.now < 2 ^ 64 },
    ghost counted: { line + length rest.now + length steps.now < 2 ^ 64 },
}

impl<'a> Lexer<'a> {
    ghost use Rattle.std.specs.Prelude.{◌≡◌, ◌+◌, ◌<◌, ◌^◌, ◌++◌, ◌∷◌, length, option_map, drop, List};
    ghost use Rattle.std.specs.Prelude.{[], ℕ, IfSome, None};
    ghost use Rattle.std.specs.Bool.{OnTrue};
    ghost use Rattle.std.specs.Option.{option_to_list};
    ghost use Rattle.pf_tokens.specs.Tokens.{Placed, tokens_behind, plain_tokens, first};
    ghost use Rattle.pf_tokens.specs.Reading.{past_newlines};
    ghost use Rattle.pf_tokens.specs.Joined.{letters_at, passed};
    ghost use Rattle.pf_tokens.specs.Lexed.{placed_of};
    ghost use Rattle.pf_tokens.specs.Left.{tokens_left};
    ghost use Rattle.pf_tokens.specs.inner.Begun.{IsWordOn};

    /// The tokens of a macro's text.
    #[tactic(auto, using(crate::proofs::Joining::letters_plain), unfolding(crate::specs::Left::tokens_left))]
    pub(crate) fn plain(text: &'a [u8]) -> Lexer<'a>
        ensures { tokens_left result ≡ plain_tokens text.now }
    {
        Lexer::joined(text, &[])
    }

    /// The tokens of a source of which a backslash and a newline were taken out at each of the steps.
    #[tactic(auto, unfolding(crate::specs::Left::tokens_left))]
    pub(crate) fn joined(rest: &'a [u8], steps: &'a [usize]) -> Lexer<'a>
        ensures { tokens_left result ≡ tokens_behind 0 (letters_at 1 0 steps.now rest.now) }
    {
        Lexer {
            rest,
            at: 0,
            steps,
            line: 1,
        }
    }

    /// Counts the lines of the steps before the next byte.
    fn pass_steps(&mut self)
        ensures left { tokens_left self.new ≡ tokens_left self.old }
        ensures rest { self.new.rest.now ≡ self.old.rest.now }
        ensures passed { passed self.new.at self.new.steps.now ≡ 0 }
    {
        while let Some((first, others)) = self.steps.split_first() {
            if *first > self.at {
                return;
            }
            *self = Lexer {
                rest: self.rest,
                at: self.at,
                steps: others,
                line: self.line + 1,
            };
        }
    }

    /// Goes past what is at the front, which may be no token.
    fn step(&mut self) -> Option<Lexed<'a>>
        requires { 0 < length self.old.rest.now }
        ensures left { tokens_left self.old ≡ option_to_list (option_map placed_of result) ++ tokens_left self.new }
        ensures shorter { length self.new.rest.now < length self.old.rest.now }
    {
        self.pass_steps();
        let line = self.line;
        let next = line_after(line, self.rest[0]);
        let (lexeme, len) = front(self.rest);
        let (_, rest) = self.rest.split_at(len);
        *self = Lexer {
            rest,
            at: self.at + len,
            steps: self.steps,
            line: next,
        };
        lexeme.map(|lexeme| Lexed {
            lexeme,
            line,
            written: true,
        })
    }

    /// The word token at the front, if there is one; most tokens are words.
    #[tactic(auto, using(crate::proofs::Lexing::word_step, crate::proofs::Lexing::word_within), unfolding(crate::specs::Left::tokens_left))]
    fn word(&mut self) -> Option<Lexed<'a>>
        ensures word { IfSome result (λ t. tokens_left self.old ≡ placed_of t ∷ tokens_left self.new) }
        ensures none { result ≡ None → tokens_left self.new ≡ tokens_left self.old }
        ensures rest { result ≡ None → self.new.rest.now ≡ self.old.rest.now }
    {
        self.pass_steps();
        let (first, others) = self.rest.split_first()?;
        if !is_word_byte(*first) {
            return None;
        }
        let line = self.line;
        let len = 1 + word_len(others);
        let (text, rest) = self.rest.split_at(len);
        *self = Lexer {
            rest,
            at: self.at + len,
            steps: self.steps,
            line,
        };
        Some(Lexed {
            lexeme: Lexeme::Word(text),
            line,
            written: true,
        })
    }

    /// Goes past a blank, if one comes next, as behind most tokens.
    #[tactic(auto, using(crate::proofs::Lexing::blank_passed), unfolding(crate::specs::Left::tokens_left))]
    fn pass_blank(&mut self)
        ensures { tokens_left self.new ≡ tokens_left self.old }
    {
        let Some((first, others)) = self.rest.split_first() else {
            return;
        };
        if *first == b' ' {
            *self = Lexer {
                rest: others,
                at: self.at + 1,
                steps: self.steps,
                line: self.line,
            };
        }
    }

    /// The line of the word token which comes next, where it is at the front, by its first byte.
    #[tactic(auto, using(crate::proofs::Lexing::word_on), unfolding(crate::specs::Left::tokens_left))]
    pub(crate) fn word_line(&mut self) -> Option<u64>
        ensures left { tokens_left self.new ≡ tokens_left self.old }
        ensures word { IfSome result (λ line. IsWordOn line (tokens_left self.old)) }
    {
        self.pass_steps();
        let (first, _) = self.rest.split_first()?;
        is_word_byte(*first).then_some(self.line)
    }

    /// Goes past empty statements. Answers the line of the first token behind them, none where no token is left.
    #[tactic(auto, using(crate::proofs::Passing::passed_none, crate::proofs::Passing::passed_token, crate::proofs::Passing::passed_newline, crate::proofs::Passing::passed_word, crate::proofs::Passing::word_passed))]
    pub fn next_statement(&mut self) -> Option<u64>
        ensures line { result ≡ option_map (λ (p : Placed). p.line) (first (past_newlines (tokens_left self.old))) }
        ensures left { tokens_left self.new ≡ past_newlines (tokens_left self.old) }
    {
        if let Some(line) = self.word_line() {
            return Some(line);
        }
        let mut ahead = *self;
        while let Some(token) = ahead.next_token() {
            if !token.is_empty_statement() {
                return Some(token.line);
            }
            *self = ahead;
        }
        None
    }

    /// Whether no byte is left.
    #[tactic(auto, unfolding(crate::specs::Left::tokens_left))]
    pub(crate) fn is_empty(&self) -> bool
        ensures { OnTrue result (tokens_left self.now ≡ []) }
    {
        self.rest.is_empty()
    }

    /// The next token.
    pub(crate) fn next_token(&mut self) -> Option<Lexed<'a>>
        ensures token { option_map placed_of result ≡ first (tokens_left self.old) }
        ensures left { tokens_left self.new ≡ drop 1 (tokens_left self.old) }
    {
        if let Some(token) = self.word() {
            self.pass_blank();
            return Some(token);
        }
        while !self.rest.is_empty() {
            if let Some(token) = self.step() {
                self.pass_blank();
                return Some(token);
            }
        }
        None
    }
}
