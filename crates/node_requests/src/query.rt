//! The query behind a path: its parameters, and the numbers in them.

ghost use Rattle.std.specs.Prelude.{◌≡◌, IfOk, option_copied};
ghost use Rattle.std.specs.Char.{is_ascii_digit};
ghost use Rattle.std.specs.List.{list_all};
ghost use Rattle.node_requests.specs.Queries.{is_number, number_in, position_in, parameters, value_of, position_of};
ghost use Rattle.node_requests.specs.Queries.{is_value, has_name, are_parameters};
ghost use Rattle.node_requests.specs.inner.Parameters.{pairs_of};

use crate::target::Target;
use form_urlencoded::parse;
use std::alloc::{AllocError, Global};

/// The most positions.
const POSITIONS: u64 = 1_000_000;

/// Whether each byte is a digit.
fn are_digits(text: &[u8]) -> bool
    ensures { result ≡ list_all is_ascii_digit text.now }
{
    text.iter().all(|b| b.is_ascii_digit())
}

/// Whether the text is decimal digits.
#[tactic(auto, using(crate::proofs::Digits::digits_all))]
fn is_number(text: &str) -> bool
    ensures { result ≡ is_number text.now }
{
    !text.is_empty() && are_digits(text.as_bytes())
}

/// A number of decimal digits alone.
#[tactic(auto, unfolding(crate::specs::Queries::number_in))]
pub(crate) fn number_in(text: &str) -> Option<u64>
    ensures { result ≡ number_in text.now }
{
    if !is_number(text) {
        return None;
    }
    match text.parse::<u64>() {
        Ok(number) => Some(number),
        Err(_) => None,
    }
}

/// A number of positions: 1,000,000 at most.
fn position_in(text: &str) -> Option<u32>
    ensures { result ≡ position_in text.now }
{
    let number = number_in(text)?;
    (number <= POSITIONS).then(|| number as u32)
}

/// A parameter of a query, decoded.
#[derive(Drop)]
pub(crate) struct Parameter {
    pub(crate) name: String,
    pub(crate) value: String,
}

/// The parameters of a query, in order.
pub(crate) fn parameters(alloc: Global, query: &str) -> Result<Vec<Parameter>, AllocError>
    ensures { IfOk result (λ v. pairs_of v.items ≡ parameters query.now) }
{
    let mut found = Vec::new(alloc);
    for pair in parse(alloc, query.as_bytes()).into_owned() {
        let (name, value) = pair?;
        found.push(Parameter { name, value })?;
    }
    Ok(found)
}

/// Whether a value has the form that its name asks for.
fn is_value(name: &str, value: &str) -> bool
    ensures { result ≡ is_value name.now value.now }
{
    !(name == "at" || name == "from" || name == "count") || position_in(value).is_some()
}

/// Whether there is a parameter of this name.
fn has_name(name: &str, given: &[Parameter]) -> bool
    ensures { result ≡ has_name name.now (pairs_of given.now) }
{
    value_of(name, given).is_some()
}

/// Whether each is one that the target takes, has a value of its form, and no name is given twice.
pub(crate) fn are_parameters(target: Target, given: &[Parameter]) -> bool
    ensures { result ≡ are_parameters target (pairs_of given.now) }
{
    let mut left = given;
    while let [first, rest @ ..] = left {
        if !target.takes(&first.name)
            || !is_value(&first.name, &first.value)
            || has_name(&first.name, rest)
        {
            return false;
        }
        left = rest;
    }
    true
}

/// The value of the first parameter of this name.
pub(crate) fn value_of<'a>(name: &str, given: &'a [Parameter]) -> Option<&'a str>
    ensures { option_copied result ≡ value_of name.now (pairs_of given.now) }
{
    let mut left = given;
    while let [first, rest @ ..] = left {
        if first.name.as_str() == name {
            return Some(first.value.as_str());
        }
        left = rest;
    }
    None
}

/// The number of positions in the parameter of this name.
pub(crate) fn position_of(name: &str, given: &[Parameter]) -> Option<u32>
    ensures { result ≡ position_of name.now (pairs_of given.now) }
{
    position_in(value_of(name, given)?)
}
