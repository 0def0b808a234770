//! Which settings there are, and what the value of each may be.

ghost use Rattle.std.specs.Prelude.{◌≡◌};
ghost use Rattle.toml.specs.View.{view, items_view};
ghost use Rattle.cli_files.specs.Settings.{kind_of, number_of, are_texts, is_setting};

use toml::Value;

/// What a value may be.
#[derive(Clone, Copy)]
pub(crate) enum Kind {
    /// A string.
    Text,
    /// A whole number from 0 to this one.
    Number(u32),
    /// A `true` or `false`.
    Flag,
    /// A list of strings.
    Texts,
}

/// What the value of a key may be, none where the key names no setting.
pub(crate) fn kind_of(key: &str) -> Option<Kind>
    ensures { result ≡ kind_of key.now }
{
    match key {
        "me" => Some(Kind::Number(255)),
        "cluster" => Some(Kind::Number(4_294_967_295)),
        "members" => Some(Kind::Texts),
        "store" | "key" | "other-key" | "control" | "metrics" => Some(Kind::Text),
        "unsealed" | "quiet" => Some(Kind::Flag),
        _ => None,
    }
}

/// The number that a value is, if it is one from 0 on.
pub(crate) fn number_of(value: &Value) -> Option<u64>
    ensures { result ≡ number_of (view value.now) }
{
    u64::try_from(value.as_integer()?).ok()
}

/// Whether all values are strings.
fn are_texts(values: &[Value]) -> bool
    ensures { result ≡ are_texts (items_view values.now) }
{
    values.iter().all(|value| value.is_str())
}

/// Whether the key names a setting that takes this value.
pub(crate) fn is_setting(key: &str, value: &Value) -> bool
    ensures { result ≡ is_setting key.now (view value.now) }
{
    match kind_of(key) {
        Some(Kind::Text) => value.is_str(),
        Some(Kind::Number(most)) => number_of(value).is_some_and(|n| n <= u64::from(most)),
        Some(Kind::Flag) => value.is_bool(),
        Some(Kind::Texts) => value
            .as_array()
            .is_some_and(|values| are_texts(values.as_slice())),
        None => false,
    }
}
