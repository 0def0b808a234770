//! Tokens, statements, macros and lists.

ghost use Rattle.trial_rulesets.specs.inner.Answers.{negated_at, negated_shorter};

use crate::refusing::expect;
use pf_rules::Profile;
use pf_tokens::{
    DefinitionFault, Element, Lexeme, Lexer, Macro, Macros, Parser, ReadingFault, Stop, Symbol,
    Text, definition, list, lists_as_spelled, macros_as_spelled, some,
};
use std::alloc::Global;
use std::test::Fail;

/// Yes or no, which may be negated.
struct Answer;

impl Element for Answer {
    type Value = bool;

    ghost read = { λ profile. negated_at };

    #[tactic(auto, unfolding(pf_tokens::specs::Productions::option_at, crate::specs::inner::Answers::answer_at, crate::specs::inner::Answers::negated_at))]
    fn read<'t: 's, 's>(
        _alloc: Global,
        _profile: Profile,
        parser: &mut Parser<'t, 's>,
    ) -> Result<bool, Stop> {
        let _ = parser.accept(b"not");
        if parser.accept(b"yes") {
            Ok(true)
        } else if parser.accept(b"no") {
            Ok(false)
        } else {
            Err(Stop::Syntax)
        }
    }

    ghost shorter = { λ profile. negated_shorter };
}

/// A symbol as it is written.
fn spelled(symbol: Symbol) -> &'static [u8] {
    match symbol {
        Symbol::Open => b"{",
        Symbol::Close => b"}",
        Symbol::OpenParenthesis => b"(",
        Symbol::CloseParenthesis => b")",
        Symbol::Comma => b",",
        Symbol::Slash => b"/",
        Symbol::Not => b"!",
        Symbol::NotEqual => b"!=",
        Symbol::Less => b"<",
        Symbol::LessEqual => b"<=",
        Symbol::Greater => b">",
        Symbol::GreaterEqual => b">=",
        Symbol::Between => b"><",
        Symbol::Outside => b"<>",
        Symbol::Equals => b"=",
    }
}

/// Appends bytes between others.
fn push(out: &mut Vec<u8>, before: &[u8], bytes: &[u8], behind: &[u8]) -> Result<(), Fail> {
    out.extend_from_slice(before)?;
    out.extend_from_slice(bytes)?;
    out.extend_from_slice(behind)?;
    Ok(())
}

/// Appends a token: a string in quotes, a macro with its dollar sign.
fn push_token(out: &mut Vec<u8>, lexeme: Lexeme<'_>) -> Result<(), Fail> {
    match lexeme {
        Lexeme::Word(text) => push(out, b" ", text, b""),
        Lexeme::Quoted(text) => push(out, b" \"", text, b"\""),
        Lexeme::Macro(name) => push(out, b" $", name, b""),
        Lexeme::Mark(symbol) => push(out, b" ", spelled(symbol), b""),
        Lexeme::Newline => push(out, b" ", b"NL", b""),
        Lexeme::Bad => push(out, b" ", b"BAD", b""),
    }
}

/// Appends the tokens of a statement.
fn push_tokens<'t: 's, 's>(out: &mut Vec<u8>, mut parser: Parser<'t, 's>) -> Result<(), Fail> {
    for _ in 0..100 {
        let Some(lexeme) = parser.peek() else {
            break;
        };
        push_token(out, lexeme)?;
        parser.skip();
    }
    Ok(())
}

/// How a fault while reading is written.
fn fault_of(fault: ReadingFault) -> &'static [u8] {
    match fault {
        ReadingFault::Lexical => b" 10",
        ReadingFault::UnknownMacro => b" 11",
        ReadingFault::TooMany => b" 18",
    }
}

/// How a fault of a definition is written.
fn refusal_of(fault: DefinitionFault) -> &'static [u8] {
    match fault {
        DefinitionFault::Macro => b" 11",
        DefinitionFault::Syntax => b" 12",
        DefinitionFault::Memory => b" memory",
    }
}

/// The macro of a statement that defines one; else why not is appended.
fn push_definition<'t: 's, 's>(
    alloc: Global,
    out: &mut Vec<u8>,
    mut parser: Parser<'t, 's>,
) -> Result<Option<Macro>, Fail> {
    match definition(alloc, Profile::One, &mut parser) {
        Ok(made) => Ok(Some(made)),
        Err(fault) => {
            push(out, b"", refusal_of(fault), b"")?;
            Ok(None)
        }
    }
}

/// What a statement gives: a macro, or its tokens.
fn push_statement<'t: 's, 's>(
    alloc: Global,
    out: &mut Vec<u8>,
    parser: Parser<'t, 's>,
) -> Result<Option<Macro>, Fail> {
    if let Some(fault) = parser.fault() {
        push(out, b"", fault_of(fault), b"")?;
        return Ok(None);
    }
    if parser.is_definition() {
        return push_definition(alloc, out, parser);
    }
    push_tokens(out, parser)?;
    Ok(None)
}

/// The macro is known from now on.
fn know(alloc: Global, macros: &mut Macros, made: Option<Macro>) -> Result<(), Fail> {
    match made {
        Some(made) => Ok(macros.push(alloc, made)?),
        None => Ok(()),
    }
}

/// Appends the statement in this line, with a semicolon, unless it is empty: the text behind it.
fn push_line<'t>(
    alloc: Global,
    out: &mut Vec<u8>,
    macros: &mut Macros,
    lexer: Lexer<'t>,
    line: u64,
) -> Result<Lexer<'t>, Fail> {
    let parser = Parser::begin(lexer, macros);
    let behind = parser.finish();
    if parser.at_end() {
        return Ok(behind);
    }
    push(out, b"", &[b'0' + (line % 10) as u8], b"")?;
    let made = push_statement(alloc, out, parser)?;
    know(alloc, macros, made)?;
    push(out, b"", b";", b"")?;
    Ok(behind)
}

/// Appends the statements of a ruleset.
fn push_lines<'t>(
    alloc: Global,
    out: &mut Vec<u8>,
    macros: &mut Macros,
    text: Lexer<'t>,
) -> Result<(), Fail> {
    let mut lexer = text;
    for _ in 0..100 {
        let Some(line) = lexer.next_statement() else {
            break;
        };
        lexer = push_line(alloc, out, macros, lexer, line)?;
    }
    Ok(())
}

/// The same with no macro known.
fn push_text(alloc: Global, out: &mut Vec<u8>, text: &Text) -> Result<(), Fail> {
    let mut macros = Macros::new(alloc);
    push_lines(alloc, out, &mut macros, text.lexer())
}

/// The statements of a ruleset, each with its line and a semicolon.
fn statements(alloc: Global, text: &Text) -> Result<Vec<u8>, Fail> {
    let mut out = Vec::new(alloc);
    push_text(alloc, &mut out, text)?;
    Ok(out)
}

/// The text has these statements.
fn expect_statements(alloc: Global, text: &[u8], want: &str) -> Result<(), Fail> {
    let text = Text::new(alloc, text)?;
    let found = statements(alloc, &text)?;
    expect(found.as_slice() == want.as_bytes(), want)
}

/// Each text has these statements.
fn expect_each(alloc: Global, rows: &[(&str, &str)]) -> Result<(), Fail> {
    for (text, want) in rows {
        expect_statements(alloc, text.as_bytes(), want)?;
    }
    Ok(())
}

#[test]
fn texts_are_cut_into_tokens(rt: HostRuntime) -> Result<(), Fail> {
    expect_each(
        rt.alloc(),
        &[
            ("pass in\nblock\n", "1 pass in;2 block;"),
            ("\n\n pass # all\n# in\n\tblock", "3 pass;5 block;"),
            (
                "pass from 10.0.0.0/8 to fe80::1",
                "1 pass from 10.0.0.0 / 8 to fe80::1;",
            ),
            (
                "!= <= <> >= >< < > = ! / , ( ) } {",
                "1 != <= <> >= >< < > = ! / , ( ) } {;",
            ),
            ("!=!<=<><>=>=><", "1 != ! <= <> <> = >= ><;"),
            ("a<b a>b a><b", "1 a < b a > b a >< b;"),
            (
                "set skip on { lo0\n em0 }\npass",
                "1 set skip on { lo0 NL em0 };3 pass;",
            ),
            ("pass }\nblock", "1 pass };2 block;"),
            ("anchor \"a b\"", "1 anchor \"a b\";"),
            ("\"a#b\" \"\"", "1 \"a#b\" \"\";"),
        ],
    )
}

#[test]
fn lines_are_joined_once(rt: HostRuntime) -> Result<(), Fail> {
    expect_each(
        rt.alloc(),
        &[
            ("pa\\\nss\nblock", "1 pass;3 block;"),
            ("pass \\\n in\nblock", "1 pass in;3 block;"),
            ("\\\n\\\npass\n\\\nblock", "3 pass;5 block;"),
            ("pass # a \\\n in\nblock", "1 pass;3 block;"),
            ("\"a\\\nb\"\nblock", "1 \"ab\";3 block;"),
            ("!\\\n= a", "1 != a;"),
            ("pass \\\\\n\nblock", "1 10;3 block;"),
            ("pass \\", "1 10;"),
        ],
    )
}

#[test]
fn faults_while_reading(rt: HostRuntime) -> Result<(), Fail> {
    expect_each(
        rt.alloc(),
        &[
            ("pass &", "1 10;"),
            ("\n\"abc\npass", "2 10;3 pass;"),
            ("\"a\\b\"", "1 10;"),
            ("pass $", "1 10;"),
            ("pass $a-b", "1 11;"),
            ("pass $a &", "1 11;"),
            ("pass & $a", "1 10;"),
            ("# \u{e9} & \"\npass", "2 pass;"),
        ],
    )
}

#[test]
fn macros_are_replaced(rt: HostRuntime) -> Result<(), Fail> {
    expect_each(
        rt.alloc(),
        &[
            ("a = \"in quick\"\npass $a", "1;2 pass in quick;"),
            ("a = b\nc = $a d $a\nx $c $c", "1;2;3 x b d b b d b;"),
            ("a = b\na = c\n$a", "1;2;3 c;"),
            ("a = \"\"\n\n$a\n$a $b", "1;4 11;"),
            ("a = \"{ b\"\n$a\n}\nc", "1;2 { b NL };4 c;"),
            ("a = \"x;y\"\n\npass\n$a", "1;3 pass;4 10;"),
            ("a = \"<\"\n$a=", "1;2 < =;"),
            ("a = b\n$a = c", "1;2 b = c;"),
            ("a = \"x = \"\n$a y", "1;2 x = y;"),
            ("a = \"< 5\"\nb = $a x\n$b", "1;2;3 < 5 x;"),
            ("a-b = c", "1 11;"),
            ("1 = \"c d\"\n$1", "1;2 c d;"),
            ("a = \"b$c\"", "1 11;"),
            ("a = \"b#c\" /", "1 11;"),
            ("a = b /", "1 12;"),
            ("a =", "1 12;"),
            ("a = { b\n}", "1 12;"),
            ("a = $b", "1 11;"),
        ],
    )
}

/// Whether the text defines a macro, or why not.
fn defined(
    alloc: Global,
    profile: Profile,
    text: &Text,
    macros: &Macros,
) -> Result<(), DefinitionFault> {
    let mut parser = Parser::begin(text.lexer(), macros);
    match definition(alloc, profile, &mut parser) {
        Ok(_) => Ok(()),
        Err(fault) => Err(fault),
    }
}

fn expect_definition(
    alloc: Global,
    profile: Profile,
    text: &str,
    want: Result<(), DefinitionFault>,
) -> Result<(), Fail> {
    let cut = Text::new(alloc, text.as_bytes())?;
    let macros = Macros::new(alloc);
    expect(defined(alloc, profile, &cut, &macros) == want, text)
}

#[test]
fn a_reserved_name_defines_no_macro(rt: HostRuntime) -> Result<(), Fail> {
    for (profile, text, want) in [
        (Profile::One, "passed = in", Ok(())),
        (Profile::Two, "passed = in", Ok(())),
        (Profile::One, "pass = in", Err(DefinitionFault::Macro)),
        (Profile::Two, "pass = in", Err(DefinitionFault::Macro)),
    ] {
        expect_definition(rt.alloc(), profile, text, want)?;
    }
    Ok(())
}

/// Appends that many parts.
fn push_parts(text: &mut Vec<u8>, part: &[u8], count: u32) -> Result<(), Fail> {
    for _ in 0..count {
        text.extend_from_slice(part)?;
    }
    Ok(())
}

/// A text of that many parts.
fn repeated(
    alloc: Global,
    before: &[u8],
    part: &[u8],
    count: u32,
    behind: &[u8],
) -> Result<Vec<u8>, Fail> {
    let mut text = Vec::new(alloc);
    text.extend_from_slice(before)?;
    push_parts(&mut text, part, count)?;
    text.extend_from_slice(behind)?;
    Ok(text)
}

/// The first statement of the text has this fault, or none.
fn expect_fault(alloc: Global, text: &Text, fault: Option<ReadingFault>) -> Result<(), Fail> {
    let macros = Macros::new(alloc);
    let parser = Parser::begin(text.lexer(), &macros);
    expect(parser.fault() == fault, "another fault")
}

/// The same of a ruleset of that many parts.
fn expect_fault_of(
    alloc: Global,
    part: &str,
    count: u32,
    fault: Option<ReadingFault>,
) -> Result<(), Fail> {
    let given = repeated(alloc, b"", part.as_bytes(), count, b"")?;
    let text = Text::new(alloc, &given)?;
    expect_fault(alloc, &text, fault)
}

#[test]
fn limits_while_reading(rt: HostRuntime) -> Result<(), Fail> {
    for (part, count, fault) in [
        ("a ", 65536, None),
        ("a ", 65537, Some(ReadingFault::TooMany)),
        ("{", 64, None),
        ("{", 65, Some(ReadingFault::TooMany)),
        ("{}", 65, None),
        ("{\n", 64, None),
    ] {
        expect_fault_of(rt.alloc(), part, count, fault)?;
    }
    Ok(())
}

/// What a macro of that many `x`, ended so, gives.
fn expect_macro(alloc: Global, behind: &str, count: u32, want: &str) -> Result<(), Fail> {
    let text = repeated(alloc, b"a = \"", b"x", count, behind.as_bytes())?;
    expect_statements(alloc, &text, want)
}

#[test]
fn limits_of_macros(rt: HostRuntime) -> Result<(), Fail> {
    for (behind, count, want) in [
        ("\"\n", 4096, "1;"),
        ("\"\n", 4097, "1 11;"),
        ("\" b\n", 4094, "1;"),
        ("\" b\n", 4095, "1 11;"),
        ("\" / b\n", 4095, "1 11;"),
        ("\" / b\n", 4094, "1 12;"),
    ] {
        expect_macro(rt.alloc(), behind, count, want)?;
    }
    macros_as_spelled();
    Ok(())
}

/// How many answers the text lists, and how deep; none where it isn't a list.
fn listed(alloc: Global, text: &Text, macros: &Macros) -> Option<(usize, u64)> {
    let mut parser = Parser::begin(text.lexer(), macros);
    match some::<Answer>(alloc, Profile::Two, &mut parser) {
        Ok(listed) => Some((listed.items.len(), listed.deepest)),
        Err(_) => None,
    }
}

fn expect_listed(alloc: Global, text: &str, want: Option<(usize, u64)>) -> Result<(), Fail> {
    let cut = Text::new(alloc, text.as_bytes())?;
    let macros = Macros::new(alloc);
    expect(listed(alloc, &cut, &macros) == want, text)
}

/// What is behind a list.
fn expect_behind<'t: 's, 's>(parser: Parser<'t, 's>) -> Result<(), Fail> {
    expect(parser.at_end(), "not at its end")?;
    let mut lexer = parser.finish();
    expect(lexer.next_statement() == Some(3), "another line")
}

/// The statement is a list of yes and no.
fn expect_answers(alloc: Global, text: &Text, macros: &Macros) -> Result<(), Fail> {
    let mut parser = Parser::begin(text.lexer(), macros);
    let Ok(listed) = list::<Answer>(alloc, Profile::Two, &mut parser) else {
        return Err("no list".into());
    };
    let is_so = listed.items.as_slice() == [true, false].as_slice();
    drop(listed);
    expect(is_so, "other answers")?;
    expect_behind(parser)
}

fn expect_list(alloc: Global) -> Result<(), Fail> {
    let text = Text::new(alloc, b"{ yes\nno } \n yes")?;
    let macros = Macros::new(alloc);
    expect_answers(alloc, &text, &macros)
}

#[test]
fn lists_in_lists(rt: HostRuntime) -> Result<(), Fail> {
    for (text, want) in [
        ("yes", Some((1, 0))),
        ("{ yes }", Some((1, 1))),
        ("{ yes no, yes }", Some((3, 1))),
        ("{ { yes } no }", Some((2, 2))),
        ("{ { { yes } } { no } }", Some((2, 3))),
        ("{ { yes, { no\n\n} }, no\n,\nyes }", Some((4, 3))),
        ("{\nnot\nyes }", Some((1, 1))),
        ("{ }", None),
        ("{ , yes }", None),
        ("{ yes, }", None),
        ("{ yes,, no }", None),
        ("{ yes { } }", None),
        ("{ yes", None),
        ("{ \"yes\" }", None),
        ("yes", Some((1, 0))),
        ("maybe", None),
    ] {
        expect_listed(rt.alloc(), text, want)?;
    }
    expect_list(rt.alloc())?;
    lists_as_spelled::<Answer>();
    Ok(())
}

/// A keyword and a list in braces, read one by one.
fn take_list<'t: 's, 's>(parser: &mut Parser<'t, 's>) -> Result<(), Fail> {
    expect(parser.begins(b"set"), "set stands first")?;
    expect(parser.accept(b"set"), "set")?;
    expect(!parser.accept(b"set"), "set once")?;
    expect(parser.accept_symbol(Symbol::Open), "{")?;
    expect(parser.name().is_some(), "a name")?;
    expect(parser.accept_newline(), "a newline")?;
    expect(!parser.accept_newline(), "one newline")?;
    expect(parser.accept_symbol(Symbol::Close), "}")
}

/// What is behind it up to the statement's end.
fn take_rest<'t: 's, 's>(parser: &mut Parser<'t, 's>) -> Result<(), Fail> {
    expect(parser.word().is_none(), "no word")?;
    expect(parser.name().is_some(), "a string")?;
    expect(!parser.begins_symbol(Symbol::Not), "no !")?;
    expect(parser.accept_symbol(Symbol::NotEqual), "!=")?;
    expect(parser.word().is_some(), "a word")?;
    expect(parser.word().is_some(), "another word")?;
    expect(parser.at_end(), "the end")?;
    expect(!parser.accept(b"pass"), "no word of the next one")
}

fn take_all(text: &Text, macros: &Macros) -> Result<(), Fail> {
    let mut parser = Parser::begin(text.lexer(), macros);
    take_list(&mut parser)?;
    take_rest(&mut parser)?;
    let mut behind = parser.finish();
    expect(behind.next_statement() == Some(3), "another line")
}

#[test]
fn tokens_are_read_one_by_one(rt: HostRuntime) -> Result<(), Fail> {
    let text = Text::new(rt.alloc(), b"set { lo0\n } \"a b\" != em0 em1\npass")?;
    let macros = Macros::new(rt.alloc());
    take_all(&text, &macros)
}
