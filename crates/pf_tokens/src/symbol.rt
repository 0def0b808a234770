//! Symbols.

ghost use Rattle.std.specs.Prelude.{◌≡◌};
ghost use Rattle.pf_tokens.specs.Tokens.{symbol_of, symbol_of_two};

/// A token of one or two letters that stands for itself (`pf.conf(5)`, GRAMMAR).
#[derive(Clone, Copy, PartialEq, Eq)]
pub enum Symbol {
    /// `{`
    Open,
    /// `}`
    Close,
    /// `(`
    OpenParenthesis,
    /// `)`
    CloseParenthesis,
    /// `,`
    Comma,
    /// `/`
    Slash,
    /// `!`
    Not,
    /// `!=`
    NotEqual,
    /// `<`
    Less,
    /// `<=`
    LessEqual,
    /// `>`
    Greater,
    /// `>=`
    GreaterEqual,
    /// `><`, between two ports and neither of them
    Between,
    /// `<>`, outside two ports
    Outside,
    /// `=`
    Equals,
}

/// The symbol of one letter.
pub(crate) fn symbol_of(b: u8) -> Option<Symbol>
    ensures { result ≡ symbol_of b }
{
    match b {
        b'{' => Some(Symbol::Open),
        b'}' => Some(Symbol::Close),
        b'(' => Some(Symbol::OpenParenthesis),
        b')' => Some(Symbol::CloseParenthesis),
        b',' => Some(Symbol::Comma),
        b'/' => Some(Symbol::Slash),
        b'!' => Some(Symbol::Not),
        b'<' => Some(Symbol::Less),
        b'>' => Some(Symbol::Greater),
        b'=' => Some(Symbol::Equals),
        _ => None,
    }
}

/// The symbol of two letters.
pub(crate) fn symbol_of_two(b: u8, c: u8) -> Option<Symbol>
    ensures { result ≡ symbol_of_two b c }
{
    match (c, b) {
        (b'=', b'!') => Some(Symbol::NotEqual),
        (b'=', b'<') => Some(Symbol::LessEqual),
        (b'=', b'>') => Some(Symbol::GreaterEqual),
        (b'>', b'<') => Some(Symbol::Outside),
        (b'<', b'>') => Some(Symbol::Between),
        _ => None,
    }
}
