//! What is wrong with a statement.

ghost use Rattle.std.specs.Prelude.{◌≡◌};

use std::alloc::AllocError;

/// What was made; the error is out of memory.
pub(crate) type Made<T> = Result<T, AllocError>;

/// What is wrong with a statement. The numbers are those of the refusals; where several hold the lowest counts, after
/// the faults that come up while the statement is read.
#[derive(Clone, Copy, Debug, PartialEq, Eq)]
pub enum Cause {
    /// 10: a byte that begins no token, or a string that doesn't close on its line.
    Lexical,
    /// 11: an unknown macro, or a definition of one with a bad name, a `$` or `#` in a string, or more than 4,096
    /// bytes.
    Macro,
    /// 12: the grammar doesn't spell it.
    Syntax,
    /// 13: a port that is neither number nor name, or ports in a rule whose protocols aren't all tcp or udp, or
    /// none is named.
    Ports,
    /// 14: no combination of what is listed is of one family.
    NoCombination,
    /// 15: a name of an anchor that begins with `_`, but for that of an unnamed block that is before, alone.
    Reserved,
    /// 16: a table that the text has defined before, or a block with the path of another one.
    Twice,
    /// 17: `set` in a ruleset for an anchor.
    SetHere,
    /// 18: more tokens, open braces, nested lists, combinations, rules or entries of a table than there
    /// may be.
    TooMany,
    /// 19: a type of ICMP that is neither number nor name, or a type in a rule whose protocols aren't all icmp, or none
    /// is named.
    IcmpType,
}

impl Cause {
    ghost use Rattle.pf_expansion.specs.Causes.{cause_code};

    /// The number of the refusal.
    pub fn code(self) -> u8
        ensures { result ≡ cause_code self }
    {
        match self {
            Cause::Lexical => 10,
            Cause::Macro => 11,
            Cause::Syntax => 12,
            Cause::Ports => 13,
            Cause::NoCombination => 14,
            Cause::Reserved => 15,
            Cause::Twice => 16,
            Cause::SetHere => 17,
            Cause::TooMany => 18,
            Cause::IcmpType => 19,
        }
    }
}
