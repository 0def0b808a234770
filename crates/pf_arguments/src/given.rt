//! What was given for each option.

ghost use Rattle.std.specs.Prelude.{◌≡◌, [], map, option_map, unwrap_or, codes};
ghost use Rattle.std.specs.Option.{option_copied};
ghost use Rattle.clap.specs.Words.{found_of, rows_of, first_of, all_of};
ghost use Rattle.pf_arguments.specs.Asked.{given_in, is_given};
ghost use Rattle.pf_arguments.specs.inner.Answers.{given_of};

use clap::ArgMatches;

/// What was given for each option, and the addresses behind them.
#[derive(Clone, Copy)]
pub(crate) struct Given<'m, 'a> {
    pub(crate) path: Option<&'a str>,
    pub(crate) file: Option<&'a str>,
    pub(crate) check: bool,
    pub(crate) flush: Option<&'a str>,
    pub(crate) table: Option<&'a str>,
    pub(crate) change: Option<&'a str>,
    pub(crate) show: Option<&'a str>,
    pub(crate) addresses: &'m [&'a str],
}

/// Whether an option without a value was given.
fn is_given(text: Option<&str>) -> bool
    ensures { result ≡ is_given (option_copied text.entry) }
{
    text.is_some_and(|text| text == "true")
}

/// The arguments; an empty slice where none are given.
fn or_none<'m, 'a>(words: Option<&'m [&'a str]>) -> &'m [&'a str]
    ensures { map (λ w. w.now) result.now
        ≡ unwrap_or (option_map (λ s. map (λ w. w.now) s.now) words.entry) [] }
{
    match words {
        Some(words) => words,
        None => &[],
    }
}

/// The value of an option.
fn value_in<'a>(matches: &ArgMatches<'a>, id: &str) -> Option<&'a str>
    ensures { option_copied result ≡ first_of id.now (rows_of (found_of matches.now)) }
{
    matches.get_str(id)
}

/// The addresses behind the options.
fn addresses_in<'m, 'a>(matches: &'m ArgMatches<'a>) -> &'m [&'a str]
    ensures { map (λ w. w.now) result.now
        ≡ unwrap_or (all_of (codes "address") (rows_of (found_of matches.now))) [] }
{
    or_none(matches.get_strs("address"))
}

impl<'m, 'a> Given<'m, 'a> {
    /// What the matches have.
    pub(crate) fn of(matches: &'m ArgMatches<'a>) -> Given<'m, 'a>
        ensures { given_of result ≡ given_in (rows_of (found_of matches.now)) }
    {
        Given {
            path: value_in(matches, "path"),
            file: value_in(matches, "file"),
            check: is_given(value_in(matches, "check")),
            flush: value_in(matches, "flush"),
            table: value_in(matches, "table"),
            change: value_in(matches, "change"),
            show: value_in(matches, "show"),
            addresses: addresses_in(matches),
        }
    }
}
