//! Expressions that match.

ghost use Rattle.std.specs.Prelude.{◌≡◌, ◌++◌, OnOk, string_bytes};
ghost use Rattle.std.specs.List.{flat_map};
ghost use Rattle.nft_rules.specs.Seen.{match_of, where_of, ruleset_of};
ghost use Rattle.nft_text.specs.Texts.{not_text, place_text, quoted, interface_text, family_text, address_text};
ghost use Rattle.nft_text.specs.Texts.{port_text, match_text};

use crate::Pushed;
use crate::flags::FlagsByte;
use crate::labels::{SetLabel, Whole};
use crate::numbers::push_interval;
use nft_rules::{Match, Side, Where};
use pf_addr::Family;
use pf_rules::{Direction, InterfaceName};

/// What turns a match round, if it is turned round.
fn not_text(negated: bool) -> &'static str
    ensures { result.now ≡ not_text negated }
{
    if negated { "!= " } else { "" }
}

/// Puts names of interfaces, each between quotes and with a comma behind it, behind the text.
fn push_quoted(out: &mut String, names: &[InterfaceName]) -> Pushed
    ensures { OnOk result (string_bytes out.new ≡ string_bytes out.old ++ flat_map quoted names.now) }
{
    for name in names {
        write!(out, "\"{}\", ", name.as_str())?;
    }
    Ok(())
}

/// What asks for the interface.
fn interface_text(direction: Direction) -> &'static str
    ensures { result.now ≡ interface_text direction }
{
    match direction {
        Direction::In => "iifname ",
        Direction::Out => "oifname ",
    }
}

/// What asks for an address of the family.
pub(crate) fn family_text(family: Family) -> &'static str
    ensures { result.now ≡ family_text family }
{
    match family {
        Family::Inet => "ip ",
        Family::Inet6 => "ip6 ",
    }
}

/// Which address is asked for.
pub(crate) fn address_text(side: Side) -> &'static str
    ensures { result.now ≡ address_text side }
{
    match side {
        Side::Source => "saddr ",
        Side::Destination => "daddr ",
    }
}

/// Which port is asked for.
fn port_text(side: Side) -> &'static str
    ensures { result.now ≡ port_text side }
{
    match side {
        Side::Source => "th sport ",
        Side::Destination => "th dport ",
    }
}

impl<'c> Whole<'_, 'c> {
    /// Puts a place among addresses behind the text.
    fn push_place(self, out: &mut String, family: Family, place: Where<'c>) -> Pushed
        ensures { OnOk result (string_bytes out.new ≡ string_bytes out.old
            ++ place_text self.entry.position (ruleset_of self.entry.parts.now) family (where_of place.entry)) }
    {
        match place {
            Where::From(low, high) => push_interval(out, family, low, high),
            Where::InSet(name) => write!(out, "@{}", SetLabel(self, name)),
        }
    }

    /// Puts a match behind the text.
    #[tactic(auto, unfolding(crate::specs::Texts::match_text))]
    pub(crate) fn push_match(self, out: &mut String, test: &Match<'c>) -> Pushed
        ensures { OnOk result (string_bytes out.new ≡ string_bytes out.old
            ++ match_text self.entry.position self.entry.direction (ruleset_of self.entry.parts.now)
            (match_of test.now)) }
    {
        match test {
            Match::OnInterface(names, negated) => {
                let what = interface_text(self.direction);
                write!(out, "{what}{}{{ ", not_text(*negated))?;
                push_quoted(out, names)?;
                out.push_str("} ")
            }
            Match::OfFamily(Family::Inet) => out.push_str("meta nfproto ipv4 "),
            Match::OfFamily(Family::Inet6) => out.push_str("meta nfproto ipv6 "),
            Match::OfProtocol(number, negated) => {
                write!(out, "meta l4proto {}{number} ", not_text(*negated))
            }
            Match::AtAddress(side, family, place, negated) => {
                let (what, end) = (family_text(*family), address_text(*side));
                write!(out, "{what}{end}{}", not_text(*negated))?;
                self.push_place(out, *family, *place)?;
                out.push_str(" ")
            }
            Match::AtPort(side, low, high, negated) => {
                let (what, not) = (port_text(*side), not_text(*negated));
                write!(out, "{what}{not}{low}-{high} ")
            }
            Match::WithFlags(mask, value) => {
                write!(
                    out,
                    "tcp flags & {} == {} ",
                    FlagsByte(*mask),
                    FlagsByte(*value)
                )
            }
            Match::OfType(number) => write!(out, "@th,0,8 {number} "),
        }
    }
}
