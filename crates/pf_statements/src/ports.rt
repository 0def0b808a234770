//! Tests on ports.

ghost use Rattle.std.specs.Prelude.{◌≡◌, option_map};
ghost use Rattle.std.specs.Option.{option_copied};
ghost use Rattle.pf_addr.specs.Spelling.{cut_at};
ghost use Rattle.pf_tokens.specs.Parsing.{left, later, Reads};
ghost use Rattle.pf_rules.specs.Words.{port_of};
ghost use Rattle.pf_statements.specs.Conditions.{colon_parts, two_ports, lone_test, port_word_at};
ghost use Rattle.pf_statements.specs.Conditions.{operator_at, port_at};
ghost use Rattle.pf_statements.specs.inner.ConditionsSeen.{compared, joining};
ghost use Rattle.pf_statements.specs.inner.Shorter.{port_shorter};

use crate::common::{Context, Read};
use crate::conditions::WrittenPort;
use crate::cut::cut;
use pf_rules::{PortTest, Profile, is_reserved, parse_port};
use pf_tokens::{Element, Lexeme, Parser, Stop, Symbol};
use std::alloc::Global;

/// The test of the operator with this port.
fn compared(operator: Symbol, port: u16) -> PortTest
    ensures { result ≡ compared operator port }
{
    match operator {
        Symbol::NotEqual => PortTest::NotEqual(port),
        Symbol::Less => PortTest::Less(port),
        Symbol::LessEqual => PortTest::LessEqual(port),
        Symbol::Greater => PortTest::Greater(port),
        Symbol::GreaterEqual => PortTest::GreaterEqual(port),
        _ => PortTest::Equal(port),
    }
}

/// The test of the operator with these ports: those from one to another where it isn't `><` or `<>`.
fn two_ports(operator: Symbol, first: &[u8], last: &[u8]) -> Option<PortTest>
    ensures { result ≡ two_ports (joining operator) (port_of first.now) (port_of last.now) }
{
    let first = parse_port(first)?;
    let last = parse_port(last)?;
    Some(match operator {
        Symbol::Between => PortTest::Between(first, last),
        Symbol::Outside => PortTest::Outside(first, last),
        _ => PortTest::FromTo(first, last),
    })
}

/// The two parts of a token with exactly one colon, and something on both sides.
fn colon_parts(word: &[u8]) -> Option<(&[u8], &[u8])>
    ensures { option_map (λ parts. (parts.0.now, parts.1.now)) result ≡ colon_parts (cut_at 58 word.now) }
{
    let (first, rest) = cut(word, b':');
    let last = rest?;
    (!first.is_empty() && !last.is_empty() && !last.contains(&b':')).then_some((first, last))
}

/// The test that a token alone spells: a range where it has two parts, else a port.
#[tactic(auto, unfolding(crate::specs::Conditions::lone_test))]
fn lone_test(word: &[u8]) -> Option<PortTest>
    ensures { result ≡ lone_test word.now }
{
    match colon_parts(word) {
        Some((first, last)) => two_ports(Symbol::Comma, first, last),
        None => parse_port(word).map(|port| PortTest::Equal(port)),
    }
}

/// A word token that isn't reserved.
#[tactic(auto, unfolding(crate::specs::Conditions::port_word_at))]
pub fn read_port_word<'t: 's, 's>(cx: Context, parser: &mut Parser<'t, 's>) -> Option<&'s [u8]>
    ensures read { Reads (option_copied result) (left parser.new) (port_word_at cx.profile (left parser.old)) }
    ensures later { later parser.new ≡ later parser.old }
{
    let word = parser.word()?;
    (!is_reserved(cx.profile, word)).then_some(word)
}

/// The operator that comes next, if one does.
#[tactic(auto, unfolding(crate::specs::Conditions::operator_at))]
fn operator(parser: &Parser<'_, '_>) -> Option<Symbol>
    ensures { option_map compared result ≡ operator_at (left parser.now) }
{
    let Some(Lexeme::Mark(symbol)) = parser.peek() else {
        return None;
    };
    match symbol {
        Symbol::Equals | Symbol::NotEqual | Symbol::Less | Symbol::LessEqual => Some(symbol),
        Symbol::Greater | Symbol::GreaterEqual => Some(symbol),
        _ => None,
    }
}

/// A test on ports.
#[tactic(auto, unfolding(pf_tokens::specs::Productions::symbol_at, crate::specs::Conditions::port_at, crate::specs::Conditions::port_behind))]
fn read_port<'t: 's, 's>(cx: Context, parser: &mut Parser<'t, 's>) -> Option<WrittenPort>
    ensures read { Reads result (left parser.new) (port_at cx.profile (left parser.old)) }
    ensures later { later parser.new ≡ later parser.old }
{
    if let Some(operator) = operator(parser) {
        parser.skip();
        let port = parse_port(read_port_word(cx, parser)?);
        let test = port.map(|port| compared(operator, port));
        return Some(WrittenPort { test });
    }
    let first = read_port_word(cx, parser)?;
    if parser.accept_symbol(Symbol::Between) {
        let test = two_ports(Symbol::Between, first, read_port_word(cx, parser)?);
        return Some(WrittenPort { test });
    }
    if parser.accept_symbol(Symbol::Outside) {
        let test = two_ports(Symbol::Outside, first, read_port_word(cx, parser)?);
        return Some(WrittenPort { test });
    }
    let test = lone_test(first);
    Some(WrittenPort { test })
}

impl Element for WrittenPort {
    type Value = WrittenPort;

    ghost read = { port_at };

    fn read<'t: 's, 's>(
        alloc: Global,
        profile: Profile,
        parser: &mut Parser<'t, 's>,
    ) -> Read<WrittenPort> {
        read_port(Context { alloc, profile }, parser).ok_or(Stop::Syntax)
    }

    ghost shorter = { port_shorter };
}
