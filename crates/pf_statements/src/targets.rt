//! Which anchors a rule evaluates.

ghost use Rattle.std.specs.Prelude.{◌≡◌, ◌∷◌, IfOk, option_map};
ghost use Rattle.std.specs.Option.{option_copied};
ghost use Rattle.pf_addr.proofs.Pieces.{pieces_left};
ghost use Rattle.pf_rules.specs.Seen as seen;
ghost use Rattle.pf_tokens.specs.Parsing.{left, later, Parses};
ghost use Rattle.pf_tokens.specs.Lexed.{token_of};
ghost use Rattle.pf_tokens.specs.Productions.{starts};
ghost use Rattle.pf_statements.specs.Targets.{is_star, may_name, target_at, target_of, target_text, target_with};

use crate::common::{Context, Read};
use crate::cut::cut;
use pf_rules::{Name, PATH_MAX, Target, is_reserved};
use pf_tokens::{Lexeme, Parser, Stop};
use std::alloc::{AllocError, Global};

/// Whether `*` is what is left.
#[tactic(auto, using(crate::proofs::TargetSteps::star_more))]
fn is_star(piece: &[u8], others: Option<&[u8]>) -> bool
    ensures { result ≡ is_star (piece.now ∷ pieces_left 47 (option_copied others.entry)) }
{
    others.is_none() && piece == b"*".as_slice()
}

/// The target of these names, of which there may be 1 to 8.
fn target_with(names: Vec<Name>, children: bool) -> Option<Target>
    ensures { option_map seen.target_of result ≡ target_with (names.items, children) }
{
    (!names.is_empty() && names.len() <= PATH_MAX).then_some(Target { names, children })
}

/// The target that the text names, none where it has another form. A growth that is refused is the error.
#[tactic(auto, using(crate::proofs::TargetSteps::left_first, crate::proofs::TargetSteps::left_star, crate::proofs::TargetSteps::left_bad, crate::proofs::TargetSteps::left_one, crate::proofs::TargetSteps::left_end))]
fn target_of(alloc: Global, text: &[u8]) -> Result<Option<Target>, AllocError>
    ensures { IfOk result (λ target. option_map seen.target_of target ≡ target_of text.now) }
{
    let mut names = Vec::new(alloc);
    let mut rest = Some(text);
    while let Some(bytes) = rest {
        let (piece, others) = cut(bytes, b'/');
        if is_star(piece, others) {
            return Ok(target_with(names, true));
        }
        let Some(name) = Name::new(alloc, piece)? else {
            return Ok(None);
        };
        names.push(name)?;
        rest = others;
    }
    Ok(target_with(names, false))
}

/// The text of a string, or of a word token that isn't reserved.
fn target_text<'s>(cx: Context, lexeme: Lexeme<'s>) -> Option<&'s [u8]>
    ensures { option_copied result ≡ target_text cx.profile (token_of lexeme.entry) }
{
    match lexeme {
        Lexeme::Word(text) if !is_reserved(cx.profile, text) => Some(text),
        Lexeme::Quoted(text) => Some(text),
        _ => None,
    }
}

/// Whether the next token may be the name of an anchor: a string, or a word token that isn't reserved.
pub(crate) fn may_begin_target(cx: Context, parser: &Parser<'_, '_>) -> bool
    ensures { result ≡ starts (may_name cx.profile) (left parser.now) }
{
    let next = parser.peek();
    next.is_some_and(|next| target_text(cx, next).is_some())
}

/// The anchors that an anchor rule evaluates: 1 to 8 names joined by `/` in a string or a word token that isn't
/// reserved, then possibly `/*` (pf.conf(5), ANCHORS).
#[tactic(auto, unfolding(crate::specs::Targets::target_at))]
pub(crate) fn read_target<'t: 's, 's>(cx: Context, parser: &mut Parser<'t, 's>) -> Read<Target>
    ensures read { Parses seen.target_of result (left parser.new) (target_at cx.profile (left parser.old)) }
    ensures later { later parser.new ≡ later parser.old }
{
    let lexeme = parser.peek().ok_or(Stop::Syntax)?;
    let text = target_text(cx, lexeme).ok_or(Stop::Syntax)?;
    parser.skip();
    target_of(cx.alloc, text)?.ok_or(Stop::Syntax)
}
