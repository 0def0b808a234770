//! The targets of requests: a path, and the parameters behind it.

ghost use Rattle.std.specs.Prelude.{◌≡◌, ◌==◌, OnOk, IfOk, option_map, string_bytes};
ghost use Rattle.std.specs.List.{list_any};
ghost use Rattle.clap.specs.Words.{found_of, rows_of};
ghost use Rattle.cli_ask.specs.Calls.{with_given, with_position, target_in, path_with};

use clap::ArgMatches;
use cli_io::value_in;
use percent_encoding::{AsciiSet, NON_ALPHANUMERIC, ascii_set, utf8_percent_encode};
use std::alloc::{AllocError, Global};

/// What is escaped in an argument at the end of a path: all but letters, digits and a dot.
const BUT_DOT: AsciiSet = ascii_set!(NON_ALPHANUMERIC.remove(b'.'));

/// Whether a target has a parameter.
fn has_query(target: &str) -> bool
    ensures { result ≡ list_any (λ b. b == 63) target.now }
{
    target.as_bytes().iter().any(|b| *b == b'?')
}

/// Adds a parameter of the query, if it has a value; behind another one with `&`.
fn add(target: &mut String, name: &str, value: Option<&str>) -> Result<(), AllocError>
    ensures { OnOk result (string_bytes target.new
        ≡ with_given name.now (option_map (λ v. v.now) value.entry) (string_bytes target.old)) }
{
    let Some(value) = value else {
        return Ok(());
    };
    let mark = if has_query(target.as_str()) { "&" } else { "?" };
    write!(target, "{mark}{name}=")?;
    utf8_percent_encode(value, NON_ALPHANUMERIC).append_to(target)
}

/// Adds how many positions the node must have applied, if any.
fn add_position(alloc: Global, target: &mut String, at: u32) -> Result<(), AllocError>
    ensures { OnOk result (string_bytes target.new ≡ with_position at (string_bytes target.old)) }
{
    if at > 0 {
        return add(target, "at", Some(at.to_string(alloc)?.as_str()));
    }
    Ok(())
}

/// The arguments of a request, and how many positions the node must have applied.
#[derive(Clone, Copy)]
pub(crate) struct Given<'m, 'a> {
    pub(crate) alloc: Global,
    pub(crate) matches: &'m ArgMatches<'a>,
    pub(crate) at: u32,
}

impl Given<'_, '_> {
    /// A path with the anchor and the table that the arguments name, and with a number of positions.
    pub(crate) fn target(&self, path: &str, at: u32) -> Result<String, AllocError>
        ensures { IfOk result (λ t. string_bytes t
            ≡ target_in path.now (rows_of (found_of self.now.matches.now)) at) }
    {
        let mut target = String::from_str(self.alloc, path)?;
        add(&mut target, "a", value_in(self.matches, "path"))?;
        add(&mut target, "t", value_in(self.matches, "table"))?;
        add_position(self.alloc, &mut target, at)?;
        Ok(target)
    }

    /// A path that ends in an argument, with the positions.
    pub(crate) fn path_with(&self, path: &str, word: &str) -> Result<String, AllocError>
        ensures { IfOk result (λ t. string_bytes t ≡ path_with path.now word.now self.now.at) }
    {
        let mut target = String::from_str(self.alloc, path)?;
        utf8_percent_encode(word, BUT_DOT).append_to(&mut target)?;
        add_position(self.alloc, &mut target, self.at)?;
        Ok(target)
    }
}
