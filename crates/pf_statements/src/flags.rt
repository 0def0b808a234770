//! Flags of TCP in rules.

ghost use Rattle.std.specs.Prelude.{◌≡◌};
ghost use Rattle.pf_tokens.specs.Parsing.{left, later, Reads};
ghost use Rattle.pf_rules.specs.Words.{implies, is_within};
ghost use Rattle.pf_statements.specs.Conditions.{letters_at, flags_at};

use pf_rules::{FlagTest, TcpFlags, parse_flags};
use pf_tokens::{Parser, Symbol};

/// Whether a flag of the first is one of the second.
fn implies(set: bool, of: bool) -> bool
    ensures { result ≡ implies set of }
{
    !set || of
}

/// Whether each flag of the first is one of the second.
#[tactic(auto, unfolding(pf_rules::specs::Words::is_within))]
fn is_within(set: TcpFlags, of: TcpFlags) -> bool
    ensures { result ≡ is_within set of }
{
    implies(set.fin, of.fin)
        && implies(set.syn, of.syn)
        && implies(set.rst, of.rst)
        && implies(set.psh, of.psh)
        && implies(set.ack, of.ack)
        && implies(set.urg, of.urg)
        && implies(set.ece, of.ece)
        && implies(set.cwr, of.cwr)
}

/// The flags before the slash, which may be left out.
#[tactic(auto, unfolding(crate::specs::Conditions::letters_at))]
fn read_letters<'t: 's, 's>(parser: &mut Parser<'t, 's>) -> Option<TcpFlags>
    ensures read { Reads result (left parser.new) (letters_at (left parser.old)) }
    ensures later { later parser.new ≡ later parser.old }
{
    if parser.begins_symbol(Symbol::Slash) {
        return Some(TcpFlags::NONE);
    }
    parse_flags(parser.word()?)
}

/// What is asked of the flags of TCP, behind `flags` (pf.conf(5), `flags`).
#[tactic(auto, unfolding(pf_tokens::specs::Productions::option_at, pf_tokens::specs::Productions::symbol_at, crate::specs::Conditions::flags_at))]
pub(crate) fn read_flags<'t: 's, 's>(parser: &mut Parser<'t, 's>) -> Option<FlagTest>
    ensures read { Reads result (left parser.new) (flags_at (left parser.old)) }
    ensures later { later parser.new ≡ later parser.old }
{
    if parser.accept(b"any") {
        return Some(FlagTest::Any);
    }
    let set = read_letters(parser)?;
    parser.accept_symbol(Symbol::Slash).then_some(())?;
    let of = parse_flags(parser.word()?)?;
    is_within(set, of).then_some(FlagTest::Just { set, of })
}
