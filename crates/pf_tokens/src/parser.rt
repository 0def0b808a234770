//! The core of a descent: the tokens of one statement, from one to the next.

ghost use Rattle.std.specs.Prelude.{◌≡◌, ◌<◌, ◌≤◌, false};
ghost use Rattle.pf_tokens.specs.inner.Pending.{at_newline};
ghost use Rattle.pf_tokens.specs.Lexed.{token_of, placed_of};
ghost use Rattle.pf_tokens.specs.Macros.{depth_after, ends};
ghost use Rattle.pf_tokens.specs.inner.Blanks.{open_after};
ghost use Rattle.pf_tokens.specs.Productions.{is_symbol, is_word, name_of, word_of};
ghost use Rattle.std.specs.Option.{option_copied};

use crate::fault::ReadingFault;
use crate::lexeme::{Lexed, Lexeme};
use crate::lexer::Lexer;
use crate::macros::Macros;
use crate::passed::{Passed, depth_after};
use crate::stream::Stream;
use crate::symbol::Symbol;
use pf_rules::is_same_word;

/// The tokens of one statement, in which macros are replaced.
///
/// A statement ends at the first newline outside braces. Contracts speak of `left`, the tokens that the statement
/// still has, and of `later`, the tokens of the text from its end on.
#[derive(Clone, Copy)]
pub struct Parser<'t, 's> {
    stream: Stream<'t, 's>,
    /// What was passed of the statement, with the newlines that are blanks.
    passed: Passed,
    /// How many braces are open; no more than 65 are distinguished.
    depth: u8,
    /// How many of them belong to the list that is being read, in which newlines are blanks.
    braces: u8,
    ghost nested: { braces ≤ depth },
    ghost blank: { 0 < braces → at_newline stream.next ≡ false },
}

impl<'t, 's> Parser<'t, 's>
where
    't: 's,
{
    ghost use Rattle.std.specs.Prelude.{◌≡◌, ◌∷◌, ◌++◌, ◌<◌, ◌≤◌, drop, map, option_map, Some, false, true};
    ghost use Rattle.std.specs.Option.{option_copied};
    ghost use Rattle.pf_tokens.specs.inner.Pending.{at_hand, at_text};
    ghost use Rattle.pf_tokens.specs.Tokens.{first, is_newline};
    ghost use Rattle.pf_tokens.specs.Lexed.{token_of, placed_of};
    ghost use Rattle.pf_tokens.specs.Left.{tokens_left};
    ghost use Rattle.pf_tokens.specs.Macros.{is_definition, depth_after, ends};
    ghost use Rattle.pf_tokens.specs.Blanks.{blanked};
    ghost use Rattle.pf_tokens.specs.inner.Blanks.{open_after};
    ghost use Rattle.pf_tokens.specs.Flow.{statement_raw, ending_raw};
    ghost use Rattle.pf_tokens.specs.Known.{definitions_of};
    ghost use Rattle.pf_tokens.specs.Faults.{reading_fault};
    ghost use Rattle.pf_tokens.specs.Defining.{item_of};
    ghost use Rattle.pf_tokens.specs.Productions.{begins, begins_symbol, option_at, symbol_at, word_at};
    ghost use Rattle.pf_tokens.specs.Productions.{name_at, name_of};
    ghost use Rattle.pf_tokens.specs.Productions.{is_end, accepted_if, list_opened};
    ghost use Rattle.pf_tokens.specs.Parsing.{tokens_of, definitions, is_defining, placed_left, left, later, Reads};

    /// At the start of a statement, where these macros are known.
    #[tactic(auto, using(crate::proofs::Beginning::begins_there, crate::proofs::Beginning::begins_later), unfolding(crate::specs::Parsing::placed_left, crate::specs::Parsing::left, crate::specs::Parsing::later))]
    pub fn begin(text: Lexer<'t>, macros: &'s Macros) -> Parser<'t, 's>
        ensures placed { placed_left result ≡ statement_raw (definitions_of macros.now)
            (is_definition (tokens_left text.entry)) 0 (tokens_left text.entry) }
        ensures left { left result ≡ tokens_of (placed_left result) }
        ensures later { (later result).behind ≡ ending_raw (definitions_of macros.now)
            (is_definition (tokens_left text.entry)) 0 (tokens_left text.entry) }
        ensures fault { (later result).fault ≡ reading_fault (definitions result) 0 0 (left result) }
        ensures definitions { definitions result ≡ definitions_of macros.now }
        ensures defining { is_defining result ≡ is_definition (tokens_left text.entry) }
    {
        Parser {
            stream: Stream::begin(text, macros),
            passed: Passed::default(),
            depth: 0,
            braces: 0,
        }
    }

    /// Whether the statement defines a macro: its first two tokens as written are a word and `=`.
    pub fn is_definition(&self) -> bool
        ensures { result ≡ is_defining self.now }
    {
        self.stream.defining
    }

    /// The first fault among the tokens of the statement, those that were passed and those that are left.
    pub fn fault(self) -> Option<ReadingFault>
        ensures { result ≡ (later self.entry).fault }
    {
        let mut parser = self;
        while parser.passed.fault.is_none() && !parser.at_end() {
            parser.skip();
        }
        parser.passed.fault
    }

    /// The next token of the statement.
    #[tactic(auto, using(crate::proofs::Skipping::left_none, crate::proofs::Skipping::left_end, crate::proofs::Skipping::left_token))]
    pub fn peek(&self) -> Option<Lexeme<'s>>
        ensures { option_map token_of result ≡ first (left self.now) }
    {
        let token = self.stream.next?;
        (!ends(self.depth, token)).then_some(token.lexeme)
    }

    /// Takes the token at hand, behind which that many braces of the list are open.
    #[inline(always)]
    fn take(&mut self, token: Lexed<'s>, braces: u8)
        requires at_hand { self.old.stream.next ≡ Some token }
        requires inner { ends self.old.depth (placed_of token) ≡ false }
        requires nested { braces ≤ depth_after self.old.depth (token_of token.lexeme) }
        ensures left { left self.new ≡ blanked braces (drop 1 (tokens_of (placed_left self.old))) }
        ensures later { later self.new ≡ later self.old }
        ensures definitions { definitions self.new ≡ definitions self.old }
        ensures braces { self.new.braces ≡ braces }
    {
        let depth = depth_after(self.depth, token.lexeme);
        let passed = self
            .passed
            .with(self.stream.macros, self.depth, token.lexeme);
        self.stream.advance();
        self.passed = self.stream.pass_newlines(braces, depth, passed);
        self.depth = depth;
        self.braces = braces;
    }

    /// Goes past a token of the statement, if one is left.
    pub fn skip(&mut self)
        ensures left { left self.new ≡ drop 1 (left self.old) }
        ensures later { later self.new ≡ later self.old }
        ensures definitions { definitions self.new ≡ definitions self.old }
    {
        let Some(token) = self.stream.next else {
            return;
        };
        if !ends(self.depth, token) {
            self.take(token, open_after(self.braces, token.lexeme));
        }
    }

    /// Goes past the token at hand, a word or a string: it ends no statement, opens no brace and closes none.
    #[tactic(auto, using(crate::proofs::Skipping::text_inner, crate::proofs::Skipping::text_nested, crate::proofs::Skipping::text_passed))]
    fn pass(&mut self)
        requires { at_text self.old.stream.next ≡ true }
        ensures left { left self.old ≡ at_hand self.old.stream.next ++ left self.new }
        ensures later { later self.new ≡ later self.old }
        ensures definitions { definitions self.new ≡ definitions self.old }
    {
        let Some(token) = self.stream.next else {
            return;
        };
        match token.lexeme {
            // made again, so that nothing more is asked of its kind
            Lexeme::Word(text) => {
                let word = Lexed {
                    lexeme: Lexeme::Word(text),
                    line: token.line,
                    written: token.written,
                };
                self.take(word, self.braces);
            }
            _ => self.take(token, self.braces),
        }
    }

    /// Whether the next token is this keyword.
    #[tactic(auto, using(crate::proofs::Skipping::begins_at_hand, crate::proofs::Skipping::begins_nothing))]
    pub fn begins(&self, word: &[u8]) -> bool
        ensures { result ≡ begins word.now (left self.now) }
    {
        // A word token ends no statement.
        let next = self.stream.next;
        next.is_some_and(|token| is_word(token.lexeme, word))
    }

    /// Consumes this keyword, if it comes next.
    #[inline(always)]
    #[tactic(auto, using(crate::proofs::Skipping::begins_at_hand, crate::proofs::Skipping::begins_nothing), unfolding(crate::specs::Productions::option_at))]
    pub fn accept(&mut self, word: &[u8]) -> bool
        ensures read { (result, left self.new) ≡ option_at word.now (left self.old) }
        ensures later { later self.new ≡ later self.old }
        ensures definitions { definitions self.new ≡ definitions self.old }
    {
        match self.stream.next {
            Some(token) if is_word(token.lexeme, word) => {
                self.pass();
                true
            }
            _ => false,
        }
    }

    /// Whether the next token is this symbol.
    #[tactic(auto, using(crate::proofs::Skipping::symbol_at_hand, crate::proofs::Skipping::symbol_nothing))]
    pub fn begins_symbol(&self, symbol: Symbol) -> bool
        ensures { result ≡ begins_symbol symbol (left self.now) }
    {
        match self.stream.next {
            Some(token) => is_symbol(token.lexeme, symbol),
            None => false,
        }
    }

    /// Goes past this symbol, if it comes next.
    #[tactic(auto, unfolding(crate::specs::Productions::symbol_at))]
    pub fn accept_symbol(&mut self, symbol: Symbol) -> bool
        ensures read { (result, left self.new) ≡ symbol_at symbol (left self.old) }
        ensures later { later self.new ≡ later self.old }
        ensures definitions { definitions self.new ≡ definitions self.old }
    {
        let found = self.begins_symbol(symbol);
        if found {
            self.skip();
        }
        found
    }

    /// Goes past a newline, if it comes next: within braces that are no list, newlines are tokens.
    pub fn accept_newline(&mut self) -> bool
        ensures read { (result, left self.new) ≡ accepted_if is_newline (left self.old) }
        ensures later { later self.new ≡ later self.old }
        ensures definitions { definitions self.new ≡ definitions self.old }
    {
        let found = matches!(self.peek(), Some(Lexeme::Newline));
        if found {
            self.skip();
        }
        found
    }

    /// A word token.
    #[tactic(auto, using(crate::proofs::Skipping::word_nothing, crate::proofs::Skipping::word_none, crate::proofs::Skipping::word_is_text))]
    pub fn word(&mut self) -> Option<&'s [u8]>
        ensures read { Reads (option_copied result) (left self.new) (word_at (left self.old)) }
        ensures later { later self.new ≡ later self.old }
        ensures definitions { definitions self.new ≡ definitions self.old }
    {
        let text = word_in(self.stream.next?.lexeme)?;
        self.pass();
        Some(text)
    }

    /// The text of a word or a string.
    #[tactic(auto, using(crate::proofs::Skipping::name_nothing, crate::proofs::Skipping::name_none))]
    pub fn name(&mut self) -> Option<&'s [u8]>
        ensures read { Reads (option_copied result) (left self.new) (name_at (left self.old)) }
        ensures later { later self.new ≡ later self.old }
        ensures definitions { definitions self.new ≡ definitions self.old }
    {
        let text = name_in(self.stream.next?.lexeme)?;
        self.pass();
        Some(text)
    }

    /// The text that a token gives to a macro's text.
    pub(crate) fn item(&self, lexeme: Lexeme<'s>) -> Option<&'s [u8]>
        ensures { option_copied result ≡ item_of (definitions self.now) (token_of lexeme.entry) }
    {
        match lexeme {
            Lexeme::Word(text) | Lexeme::Quoted(text) => Some(text),
            Lexeme::Macro(name) => self.stream.macros.text_of(name),
            Lexeme::Mark(_) | Lexeme::Newline | Lexeme::Bad => None,
        }
    }

    /// Whether the statement has no token left.
    pub fn at_end(&self) -> bool
        ensures { result ≡ is_end (left self.now) }
    {
        self.peek().is_none()
    }

    /// Goes past the brace that opens a list, if it comes next: up to the brace that closes it newlines are blanks.
    pub fn open_list(&mut self) -> bool
        ensures read { (result, left self.new) ≡ list_opened (left self.old) }
        ensures later { later self.new ≡ later self.old }
        ensures definitions { definitions self.new ≡ definitions self.old }
    {
        let Some(token) = self.stream.next else {
            return false;
        };
        if !self.begins_symbol(Symbol::Open) {
            return false;
        }
        if self.braces == 0 {
            self.take(token, 1);
        } else {
            self.skip();
        }
        true
    }

    /// The tokens of the text behind the statement, and behind the newline that ends it.
    pub fn finish(self) -> Lexer<'t>
        ensures { tokens_left result ≡ drop 1 (later self.entry).behind }
    {
        let mut parser = self;
        while !parser.at_end() {
            parser.skip();
        }
        match parser.stream.next {
            None => Lexer::plain(&[]),
            Some(_) => parser.stream.text,
        }
    }
}

/// Whether it is this keyword.
#[inline(always)]
fn is_word(lexeme: Lexeme<'_>, word: &[u8]) -> bool
    ensures { result ≡ is_word word.now (token_of lexeme.entry) }
{
    matches!(lexeme, Lexeme::Word(text) if is_same_word(text, word))
}

/// The text of a word token.
#[inline(always)]
fn word_in<'s>(lexeme: Lexeme<'s>) -> Option<&'s [u8]>
    ensures { option_copied result ≡ word_of (token_of lexeme.entry) }
{
    match lexeme {
        Lexeme::Word(text) => Some(text),
        _ => None,
    }
}

/// The text of a word or a string.
#[inline(always)]
fn name_in<'s>(lexeme: Lexeme<'s>) -> Option<&'s [u8]>
    ensures { option_copied result ≡ name_of (token_of lexeme.entry) }
{
    match lexeme {
        Lexeme::Word(text) | Lexeme::Quoted(text) => Some(text),
        _ => None,
    }
}

/// Whether it is this symbol.
#[inline(always)]
fn is_symbol(lexeme: Lexeme<'_>, symbol: Symbol) -> bool
    ensures { result ≡ is_symbol symbol (token_of lexeme.entry) }
{
    matches!(lexeme, Lexeme::Mark(found) if found == symbol)
}

/// Whether the statement ends with the token.
fn ends(depth: u8, token: Lexed<'_>) -> bool
    ensures { result ≡ ends depth (placed_of token.entry) }
{
    token.written && token.lexeme.is_newline() && depth == 0
}

/// How many braces of a list are open behind the token.
fn open_after(braces: u8, lexeme: Lexeme<'_>) -> u8
    ensures { result ≡ open_after braces (token_of lexeme.entry) }
{
    if braces == 0 {
        0
    } else {
        depth_after(braces, lexeme)
    }
}
