//! Whether a rule is for packets that come in or go out.

ghost use Rattle.std.specs.Prelude.{◌≡◌};
ghost use Rattle.pf_tokens.specs.Parsing.{left, later};
ghost use Rattle.pf_statements.specs.Directions.{direction_at};

use pf_rules::Direction;
use pf_tokens::Parser;

/// The direction, if it is given.
#[tactic(auto, unfolding(pf_tokens::specs::Productions::option_at, crate::specs::Directions::direction_at))]
pub(crate) fn read_direction<'t: 's, 's>(parser: &mut Parser<'t, 's>) -> Option<Direction>
    ensures read { (result, left parser.new) ≡ direction_at (left parser.old) }
    ensures later { later parser.new ≡ later parser.old }
{
    if parser.accept(b"in") {
        return Some(Direction::In);
    }
    parser.accept(b"out").then_some(Direction::Out)
}
