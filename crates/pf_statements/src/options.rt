//! Options behind a rule's hosts.

ghost use Rattle.std.specs.Prelude.{◌≡◌, suc, length};
ghost use Rattle.pf_tokens.specs.Parsing.{left, later, Parses};
ghost use Rattle.pf_statements.specs.Statements.{no_options};
ghost use Rattle.pf_statements.specs.Statements.{option_with, options_at};
ghost use Rattle.pf_statements.specs.Options.{is_over};
ghost use Rattle.pf_statements.specs.inner.Seen.{options_of};

use crate::common::{Context, Read, expect};
use crate::flags::read_flags;
use crate::types::read_types;
use crate::written::RuleOptions;
use pf_rules::Profile;
use pf_tokens::{Lexeme, Parser, Stop, Symbol};

/// The next option, beside those before it: each may be given once.
#[tactic(auto, unfolding(pf_tokens::specs::Productions::option_at, crate::specs::Statements::option_with, crate::specs::Statements::flags_option, crate::specs::Statements::state_option, crate::specs::Statements::types_option))]
fn read_option<'t: 's, 's>(
    cx: Context,
    options: RuleOptions,
    parser: &mut Parser<'t, 's>,
) -> Read<RuleOptions>
    ensures read { Parses options_of result (left parser.new) (option_with cx.profile (options_of options)
        (left parser.old)) }
    ensures later { later parser.new ≡ later parser.old }
{
    if parser.accept(b"flags") {
        expect(options.flags.is_none())?;
        let flags = Some(read_flags(parser).ok_or(Stop::Syntax)?);
        Ok(RuleOptions { flags, ..options })
    } else if parser.accept(b"no") {
        expect(options.state.is_none() && parser.accept(b"state"))?;
        let state = Some(false);
        Ok(RuleOptions { state, ..options })
    } else if parser.accept(b"keep") {
        expect(options.state.is_none() && parser.accept(b"state"))?;
        let state = Some(true);
        Ok(RuleOptions { state, ..options })
    } else if matches!(cx.profile, Profile::Two) && parser.accept(b"icmp-type") {
        expect(options.types.is_none())?;
        let types = Some(read_types(cx, parser)?);
        Ok(RuleOptions { types, ..options })
    } else {
        Err(Stop::Syntax)
    }
}

/// Whether the rule is over: nothing is left, or in a block a newline or the brace that closes it comes next.
pub(crate) fn is_over(parser: &Parser<'_, '_>) -> bool
    ensures { result ≡ is_over (left parser.now) }
{
    let newline = matches!(parser.peek(), Some(Lexeme::Newline));
    newline || parser.at_end() || parser.begins_symbol(Symbol::Close)
}

/// The options up to where the rule is over.
pub fn read_options<'t: 's, 's>(cx: Context, parser: &mut Parser<'t, 's>) -> Read<RuleOptions>
    ensures read { Parses options_of result (left parser.new) (options_at (suc (length (left parser.old))) cx.profile
        no_options (left parser.old)) }
    ensures later { later parser.new ≡ later parser.old }
{
    let mut options = RuleOptions::default();
    'options: while !is_over(parser) {
        options = read_option(cx, options, parser)?;
    }
    Ok(options)
}
