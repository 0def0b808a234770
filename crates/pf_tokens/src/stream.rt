//! The tokens of a statement, in which macros are replaced.

ghost use Rattle.std.specs.Prelude.{◌≡◌, ◌<◌, ◌≤◌, [], drop, map, length, false, true};
ghost use Rattle.std.specs.Bool.{OnTrue, OnFalse};
ghost use Rattle.std.specs.Option.{option_copied};
ghost use Rattle.pf_tokens.specs.Lexed.{placed_of};
ghost use Rattle.pf_tokens.specs.Left.{tokens_left};
ghost use Rattle.pf_tokens.specs.Macros.{unwritten, text_tokens, replaced, is_definition};
ghost use Rattle.pf_tokens.specs.inner.Flow.{pulled, pulled_raw};
ghost use Rattle.pf_tokens.specs.Known.{definitions_of};
ghost use Rattle.pf_tokens.specs.Pending.{pending, known};
ghost use Rattle.pf_tokens.specs.inner.Pending.{at_newline, statement_tokens, Stays, Blanks};
ghost use Rattle.pf_tokens.specs.Carried.{carried};
ghost use Rattle.pf_tokens.specs.inner.Begun.{begins_with_equals};

use crate::lexeme::{Lexed, Lexeme};
use crate::lexer::Lexer;
use crate::macros::Macros;
use crate::passed::Passed;
use crate::symbol::Symbol;

/// The tokens of a source from the start of a statement on, in which macros are replaced, with one of them at hand.
#[derive(Clone, Copy)]
pub(crate) struct Stream<'t, 's> {
    pub next: Option<Lexed<'s>>,
    /// The line of the tokens of the macro that is being replaced.
    line: u64,
    inside: Lexer<'s>,
    pub text: Lexer<'t>,
    pub macros: &'s Macros,
    /// Whether the statement defines a macro.
    pub defining: bool,
}

impl<'t, 's> Stream<'t, 's>
where
    't: 's,
{
    /// At the start of a statement.
    #[tactic(auto, using(crate::proofs::Beginning::defines_behind, crate::proofs::Beginning::defines_none, crate::proofs::Beginning::defines_not, crate::proofs::Beginning::word_pulled), unfolding(crate::specs::Left::tokens_left, crate::specs::Pending::pending))]
    pub(crate) fn begin(text: Lexer<'t>, macros: &'s Macros) -> Stream<'t, 's>
        ensures pulled { pending result ≡ pulled_raw (definitions_of macros.now)
            (is_definition (tokens_left text.entry)) (tokens_left text.entry) }
        ensures known { known result ≡ definitions_of macros.now }
        ensures defining { result.defining ≡ is_definition (tokens_left text.entry) }
    {
        let mut behind = text;
        let first = behind.next_token();
        match first {
            Some(token) if matches!(token.lexeme, Lexeme::Word(_)) => Stream {
                next: first,
                line: 0,
                inside: Lexer::plain(&[]),
                text: behind,
                macros,
                defining: begins_with_equals(behind),
            },
            _ => Stream::pulled(text, macros),
        }
    }

    /// At the start of a statement that defines no macro.
    #[tactic(auto, unfolding(crate::specs::Left::tokens_left))]
    fn pulled(text: Lexer<'t>, macros: &'s Macros) -> Stream<'t, 's>
        ensures pulled { pending result ≡ pulled_raw (definitions_of macros.now) false (tokens_left text.entry) }
        ensures known { known result ≡ definitions_of macros.now }
        ensures defining { result.defining ≡ false }
    {
        let mut stream = Stream {
            next: None,
            line: 0,
            inside: Lexer::plain(&[]),
            text,
            macros,
            defining: false,
        };
        stream.pull();
        stream
    }

    /// A value with the tokens of a macro that is to be replaced.
    #[tactic(auto, using(crate::proofs::Pulling::same_tokens))]
    fn replacement(&self, token: Lexed<'t>) -> Option<&'s [u8]>
        ensures { text_tokens (placed_of token.entry) (option_copied result) ≡
            replaced (known self.now) self.now.defining (placed_of token.entry) }
    {
        match token.lexeme {
            Lexeme::Macro(name) if !self.defining => self.macros.tokens_of(name),
            _ => None,
        }
    }

    /// Takes a token of the macro's text to hand, if one is left.
    #[tactic(auto, using(crate::proofs::Pulling::inside_passed, crate::proofs::Pulling::inside_none, crate::proofs::Pulling::inside_some), unfolding(crate::specs::Pending::pending))]
    fn take_inside(&mut self) -> bool
        ensures some { OnTrue result (0 < length (tokens_left self.old.inside)) }
        ensures first_item { OnTrue result (pending self.new ≡
            (map (unwritten self.old.line) (tokens_left self.old.inside), tokens_left self.old.text)) }
        ensures none { OnFalse result ((tokens_left self.old.inside ≡ []) × (tokens_left self.new.inside ≡ [])) }
        ensures text { self.new.text ≡ self.old.text }
        ensures stays { Stays self.old self.new }
    {
        if self.inside.is_empty() {
            return false;
        }
        match self.inside.next_token() {
            None => false,
            Some(token) => {
                self.next = Some(Lexed {
                    lexeme: token.lexeme,
                    line: self.line,
                    written: false,
                });
                true
            }
        }
    }

    /// Takes the next token of the text to hand, or the first of its macro.
    fn pull(&mut self)
        requires { tokens_left self.old.inside ≡ [] }
        ensures pulled { pending self.new ≡ pulled_raw (known self.old) self.old.defining
            (tokens_left self.old.text) }
        ensures stays { Stays self.old self.new }
    {
        while let Some(token) = self.text.next_token() {
            match self.replacement(token) {
                None => {
                    self.next = Some(token);
                    return;
                }
                Some(text) => {
                    self.line = token.line;
                    self.inside = Lexer::plain(text);
                    if self.take_inside() {
                        return;
                    }
                }
            }
        }
        self.next = None;
    }

    /// Takes the next token to hand, or none if there is none.
    pub(crate) fn advance(&mut self)
        ensures pulled { pending self.new ≡ pulled (known self.old) self.old.defining (drop 1 (pending self.old).0)
            (pending self.old).1 }
        ensures stays { Stays self.old self.new }
    {
        if self.next.is_none() {
            return;
        }
        if !self.take_inside() {
            self.pull();
        }
    }

    /// Goes past newlines where braces of a list are open, that many braces being open in all.
    #[inline(always)]
    pub(crate) fn pass_newlines(&mut self, braces: u8, depth: u8, passed: Passed) -> Passed
        requires { braces ≤ depth }
        ensures blanks { Blanks braces (known self.old) self.old.defining (pending self.old) (pending self.new) }
        ensures passed { 0 < braces → at_newline self.new.next ≡ false }
        ensures fault { carried (known self.old) result depth (statement_tokens (known self.old) self.old.defining depth
            (pending self.new)) ≡ carried (known self.old) passed depth
            (statement_tokens (known self.old) self.old.defining depth (pending self.old)) }
        ensures stays { Stays self.old self.new }
    {
        let mut passed = passed;
        while braces > 0 && self.at_newline() {
            passed = passed.with(self.macros, depth, Lexeme::Newline);
            self.advance();
        }
        passed
    }

    /// Whether a newline is at hand.
    fn at_newline(&self) -> bool
        ensures { result ≡ at_newline self.now.next }
    {
        self.next.is_some_and(|token| token.lexeme.is_newline())
    }
}

/// Whether `=` comes next. Most often a word token does.
#[tactic(auto, using(crate::proofs::Beginning::equals_one, crate::proofs::Beginning::equals_none, crate::proofs::Beginning::equals_not))]
fn begins_with_equals(text: Lexer<'_>) -> bool
    ensures { result ≡ begins_with_equals (tokens_left text.entry) }
{
    let mut ahead = text;
    if ahead.word_line().is_some() {
        return false;
    }
    ahead.next_token().is_some_and(|token| matches!(token.lexeme, Lexeme::Mark(Symbol::Equals)))
}
