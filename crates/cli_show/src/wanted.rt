//! What the arguments ask for.

ghost use Rattle.std.specs.Prelude.{◌≡◌, is_some, map};
ghost use Rattle.clap.specs.Words.{first_of, found_of, rows_of};
ghost use Rattle.cli_show.specs.Running.{has_listing, rest_of, kind_behind};
ghost use Rattle.cli_show.specs.Running.{kind_given, kind_of};

use clap::ArgMatches;
use cli_io::{has_flag, value_in, values_in};

/// What is asked for of a store.
#[derive(Clone, Copy)]
pub(crate) enum Kind {
    /// What pfctl's options list.
    Listing,
    /// The verdicts for packets.
    Packets,
    /// Lines of the log.
    Log,
    /// For nft(8).
    Nft,
    /// For pfctl(8).
    Texts,
    /// A script.
    Script,
    /// How many positions are applied and left.
    Figures,
}

/// The arguments behind the options, none where there are none.
pub(crate) fn rest_of<'m, 'a>(matches: &'m ArgMatches<'a>) -> &'m [&'a str]
    ensures { map (λ w. w.now) result.now ≡ rest_of (rows_of (found_of matches.now)) }
{
    values_in(matches, "address")
}

/// Whether an option with a value is there.
fn has_option(matches: &ArgMatches<'_>, id: &str) -> bool
    ensures { result ≡ is_some (first_of id.now (rows_of (found_of matches.now))) }
{
    value_in(matches, id).is_some()
}

/// Whether an option of pfctl's is there.
fn has_listing(matches: &ArgMatches<'_>) -> bool
    ensures { result ≡ has_listing (rows_of (found_of matches.now)) }
{
    has_option(matches, "path")
        || has_option(matches, "file")
        || has_flag(matches, "check")
        || has_option(matches, "flush")
        || has_option(matches, "table")
        || has_option(matches, "change")
        || has_option(matches, "show")
}

/// What arguments without options ask for.
fn kind_behind(rest: &[&str]) -> Option<Kind>
    ensures { result ≡ kind_behind (map (λ w. w.now) rest.now) }
{
    match rest {
        [] => Some(Kind::Figures),
        [argument] if *argument == "log" => Some(Kind::Log),
        [argument, _, ..] if *argument == "test" => Some(Kind::Packets),
        _ => None,
    }
}

/// What `--nft`, `--pf`, `--script` and the arguments ask for; none where they don't go together.
fn kind_given(matches: &ArgMatches<'_>) -> Option<Kind>
    ensures { result ≡ kind_given (rows_of (found_of matches.now)) }
{
    let rest = rest_of(matches);
    let nft = has_flag(matches, "nft");
    let pf = has_flag(matches, "pf");
    let script = has_flag(matches, "script");
    match (nft, pf, script, has_listing(matches)) {
        (true, false, false, false) => rest.is_empty().then_some(Kind::Nft),
        (false, true, false, false) => rest.is_empty().then_some(Kind::Texts),
        (false, false, true, false) => rest.is_empty().then_some(Kind::Script),
        (false, false, false, true) => Some(Kind::Listing),
        (false, false, false, false) => kind_behind(rest),
        _ => None,
    }
}

/// What the matches ask for; none where arguments don't go together: `--interfaces` goes with `--nft`, `--from` and
/// `--count` with the log.
pub(crate) fn kind_of(matches: &ArgMatches<'_>) -> Option<Kind>
    ensures { result ≡ kind_of (rows_of (found_of matches.now)) }
{
    let kind = kind_given(matches)?;
    let interfaces = has_option(matches, "interfaces");
    let window = has_option(matches, "from") || has_option(matches, "count");
    let goes_with = match kind {
        Kind::Nft => !window,
        Kind::Log => !interfaces,
        _ => !interfaces && !window,
    };
    goes_with.then_some(kind)
}
