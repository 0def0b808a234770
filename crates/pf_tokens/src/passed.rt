//! What was passed of a statement.

ghost use Rattle.std.specs.Prelude.{◌≡◌, ◌∷◌, List};
ghost use Rattle.pf_tokens.specs.Tokens.{Token};
ghost use Rattle.pf_tokens.specs.Lexed.{token_of};
ghost use Rattle.pf_tokens.specs.Macros.{depth_after};
ghost use Rattle.pf_tokens.specs.Known.{definitions_of};
ghost use Rattle.pf_tokens.specs.Carried.{carried};

use crate::fault::ReadingFault;
use crate::lexeme::Lexeme;
use crate::macros::Macros;
use crate::symbol::Symbol;

/// How many tokens a statement has at most.
const TOKENS_MAX: u32 = 65536;

/// How many braces are open at once at most.
const OPEN_MAX: u8 = 64;

/// How many tokens of a statement were passed, and the first fault among them, behind which none is counted.
#[derive(Clone, Copy, Default)]
pub(crate) struct Passed {
    count: u32,
    pub fault: Option<ReadingFault>,
}

/// How many braces are open behind the token; no more than 65 are distinguished.
pub(crate) fn depth_after(depth: u8, lexeme: Lexeme<'_>) -> u8
    ensures { result ≡ depth_after depth (token_of lexeme.entry) }
{
    match lexeme {
        Lexeme::Mark(Symbol::Open) => { if depth < 65 { depth + 1 } else { depth } }
        Lexeme::Mark(Symbol::Close) => depth.saturating_sub(1),
        _ => depth,
    }
}

impl Passed {
    /// With one token more, before which that many braces were open.
    pub(crate) fn with(self, macros: &Macros, depth: u8, lexeme: Lexeme<'_>) -> Passed
        ensures { let t = token_of lexeme.entry in let ds = definitions_of macros.now in (ts : List Token) →
            carried ds result (depth_after depth t) ts ≡ carried ds self depth (t ∷ ts) }
    {
        if self.fault.is_some() {
            return self;
        }
        let unknown = matches!(lexeme, Lexeme::Macro(name) if macros.text_of(name).is_none());
        let many = self.count >= TOKENS_MAX || depth_after(depth, lexeme) > OPEN_MAX;
        let fault = matches!(lexeme, Lexeme::Bad)
            .then_some(ReadingFault::Lexical)
            .or(unknown.then_some(ReadingFault::UnknownMacro))
            .or(many.then_some(ReadingFault::TooMany));
        let count = self.count.saturating_add(1);
        Passed { count, fault }
    }
}
