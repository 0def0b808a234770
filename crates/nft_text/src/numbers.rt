//! Addresses from their numbers.

ghost use Rattle.std.specs.Prelude.{◌≡◌, ◌++◌, OnOk, string_bytes};
ghost use Rattle.nft_text.specs.Texts.{number_text, interval_text};

use crate::Pushed;
use nft_rules::{address, top};
use pf_addr::Family;

/// Puts the address of a number, if the family has one, behind the text.
fn push_number(out: &mut String, family: Family, number: u128) -> Pushed
    ensures { OnOk result (string_bytes out.new ≡ string_bytes out.old ++ number_text family number) }
{
    if number <= top(family) {
        write!(out, "{}", address(family, number))?;
    }
    Ok(())
}

/// Puts what is from one address to another behind the text.
pub(crate) fn push_interval(out: &mut String, family: Family, low: u128, high: u128) -> Pushed
    ensures { OnOk result (string_bytes out.new ≡ string_bytes out.old ++ interval_text family low high) }
{
    push_number(out, family, low)?;
    out.push_str("-")?;
    push_number(out, family, high)
}
