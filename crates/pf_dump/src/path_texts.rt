//! A configuration as rulesets for pfctl(8).

ghost use Rattle.std.specs.Prelude.{◌≡◌, true, IfOk, IfSome, IfNone, map};
ghost use Rattle.pf_dump.specs.Done.{text_done, texts_done, AreDoneTo};
ghost use Rattle.pf_dump.specs.Written.{texts_of};
ghost use Rattle.pf_dump.specs.inner.Seen.{IsDone};
ghost use Rattle.pf_dump.specs.Texts.{is_anchor, text_paths, after_text, after_texts, GivenBy};
ghost use Rattle.pf_rules.specs.Names.{is_path_name};
ghost use Rattle.std.specs.List.{list_all};
ghost use Rattle.pf_dump.specs.Seen.{text_of};

use crate::Made;
use crate::same::is_same;
use crate::text::push_text;
use pf_command::place_at;
use pf_config::{Config, ConfigFault, copied_path};
use pf_grammar::{ParseFault, Profile, parse};
use pf_rules::{Name, Path};
use std::alloc::{AllocError, Global};

/// The text of a path, as `pfctl -a PATH -f -` reads it.
#[derive(Drop)]
pub struct PathText<'c> {
    /// The path; main's has no names.
    pub path: &'c [Name],
    /// The text.
    pub text: String,
}

/// Whether a command may name it in a path: it isn't an unnamed block's.
fn is_path_name(name: &Name) -> bool
    ensures { result ≡ is_path_name name.now }
{
    let _form = name.as_bytes();
    !name.is_unnamed()
}

/// Whether a command may name each.
fn are_path_names(names: &[Name]) -> bool
    ensures { result ≡ list_all is_path_name names.now }
{
    names.iter().all(is_path_name)
}

/// Whether it is an anchor's path that a command may name.
fn is_anchor(path: &[Name]) -> bool
    ensures { result ≡ is_anchor path.now }
{
    !path.is_empty() && are_path_names(path)
}

/// The paths that a command may load: main, which comes last, and those with rules or tables that aren't below an
/// unnamed block, in byte order. Main is left out where nothing is there and no interface is skipped.
pub fn text_paths(alloc: Global, config: &Config) -> Result<Vec<&[Name]>, AllocError>
    ensures { IfOk result (λ v. map (λ p. p.now) v.items ≡ text_paths config.now) }
{
    let mut found = Vec::new(alloc);
    let mut has_main = !config.skip().is_empty();
    let paths = config.paths()?;
    for path in &paths {
        let path: &[Name] = path;
        has_main = has_main || path.is_empty();
        if is_anchor(path) {
            found.push(path)?;
        }
    }
    if has_main {
        let main: &[Name] = &[];
        found.push(main)?;
    }
    Ok(found)
}

/// Loads a ruleset at a path; false where it is refused.
#[tactic(auto, unfolding(pf_command::specs::Effect::effect))]
fn load_text(alloc: Global, config: &mut Config, path: &[Name], text: &[u8]) -> Made<bool>
    ensures after { IfOk result (λ b. b ≡ true →
        config.new ≡ after_text config.old (record { path = path.now; text = text.now })) }
    ensures done { IfOk result (λ b. IsDone
        (text_done config.old (record { path = path.now; text = text.now })) b config.new) }
{
    let Some(named) = Path::new(copied_path(alloc, path)?) else {
        return Ok(false);
    };
    match parse(alloc, text, place_at(path), Profile::Two) {
        Ok(rules) => match config.load(&named, rules) {
            Ok(()) => Ok(true),
            Err(ConfigFault::Memory) => Err(AllocError),
            Err(_) => Ok(false),
        },
        Err(ParseFault::Memory) => Err(AllocError),
        Err(_) => Ok(false),
    }
}

/// The configuration that rulesets make of an empty one, in their order; none where one is refused.
#[tactic(auto, unfolding(crate::specs::Done::texts_done))]
fn loaded(alloc: Global, texts: &[PathText<'_>]) -> Made<Option<Config>>
    ensures after { IfOk result (λ o. IfSome o (λ c. c ≡ after_texts (map text_of texts.now))) }
    ensures done { IfOk result (λ o. o ≡ texts_done (map text_of texts.now)) }
{
    let mut config = Config::new(alloc)?;
    for text in texts {
        if !load_text(alloc, &mut config, text.path, text.text.as_bytes())? {
            return Ok(None);
        }
    }
    Ok(Some(config))
}

/// The rulesets of a configuration, before they are tried.
fn written(alloc: Global, config: &Config) -> Made<Vec<PathText<'_>>>
    ensures { IfOk result (λ ts. map text_of ts.items ≡ texts_of config.now) }
{
    let mut texts = Vec::new(alloc);
    let paths = text_paths(alloc, config)?;
    for path in &paths {
        let mut text = String::new(alloc);
        push_text(&mut text, config, path, true)?;
        texts.push(PathText { path, text })?;
    }
    Ok(texts)
}

/// A configuration as rulesets for pfctl(8), one for each path that a command may load, main's last: loaded one after
/// the other into an empty configuration they give this one. None exactly where they don't.
#[tactic(auto, using(crate::proofs::Rules::paths_are))]
pub fn texts(alloc: Global, config: &Config) -> Result<Option<Vec<PathText<'_>>>, AllocError>
    ensures paths { IfOk result (λ o. IfSome o (λ ts. map (λ t. t.path.now) ts.items ≡ text_paths config.now)) }
    ensures given { IfOk result (λ o. IfSome o (λ ts. GivenBy (map text_of ts.items) config.now)) }
    ensures done { IfOk result (λ o. IfSome o (λ ts. AreDoneTo (map text_of ts.items) config.now)) }
    ensures texts { IfOk result (λ o. IfSome o (λ ts. map text_of ts.items ≡ texts_of config.now)) }
    ensures none { IfOk result (λ o. IfNone o (AreDoneTo (texts_of config.now) config.now → ⊥)) }
{
    let texts = written(alloc, config)?;
    let Some(made) = loaded(alloc, &texts)? else {
        return Ok(None);
    };
    let is_good = is_same(alloc, &made, config)?;
    Ok(is_good.then_some(texts))
}
