//! A macro and its text.

ghost use Rattle.std.specs.Prelude.{◌≡◌, [], true};
ghost use Rattle.pf_tokens.specs.Tokens.{plain_tokens};

use crate::lexer::Lexer;

/// A macro and its text (`pf.conf(5)`, MACROS).
#[derive(Drop)]
pub struct Macro {
    pub(crate) name: Vec<u8>,
    pub(crate) text: Vec<u8>,
    /// Whether the text is known to have no token.
    blank: bool,
    ghost none: { blank ≡ true → plain_tokens text.items ≡ [] },
}

impl Macro {
    /// The macro with this name and this text.
    #[tactic(auto, using(crate::proofs::Pulling::first_none))]
    pub(crate) fn new(name: Vec<u8>, text: Vec<u8>) -> Macro
        ensures name { result.name ≡ name }
        ensures text { result.text ≡ text }
    {
        let blank = Lexer::plain(&text).next_token().is_none();
        Macro { name, text, blank }
    }

    /// Whether the text is known to have no token.
    pub(crate) fn is_blank(&self) -> bool
        ensures { result ≡ true → plain_tokens self.now.text.items ≡ [] }
    {
        self.blank
    }
}
