//! Faults found while a statement is read.

/// Why a statement is refused while its tokens are read, before it is evaluated.
#[derive(Clone, Copy, PartialEq, Eq)]
pub enum ReadingFault {
    /// A byte that begins no token, or a string that isn't closed on its line or holds a byte that no string has.
    Lexical,
    /// A macro that isn't defined before.
    UnknownMacro,
    /// More than 65,536 tokens, or more than 64 braces open at once.
    TooMany,
}
