//! Paths as text.

ghost use Rattle.std.specs.Prelude.{◌≡◌, IfOk, map, option_map};
ghost use Rattle.pf_config.specs.PathTexts.{pieces, path_of, PathAnswers};
ghost use Rattle.pf_config.specs.inner.PathTexts.{names_if};

use crate::Made;
use crate::fault::ConfigFault;
use pf_rules::{Name, Path};
use std::alloc::Global;

/// What is between the slashes.
fn pieces(alloc: Global, text: &[u8]) -> Made<Vec<&[u8]>>
    ensures { IfOk result (λ found. map (λ w. w.now) found.items ≡ pieces text.now) }
{
    let mut found = Vec::new(alloc);
    let mut start = 0usize;
    for (i, b) in text.iter().enumerate() {
        if *b != b'/' {
            continue;
        }
        found.push(&text[start..i])?;
        start = i + 1;
    }
    found.push(&text[start..])?;
    Ok(found)
}

/// The pieces as names, none where one of them is no name.
fn names_of(alloc: Global, pieces: &[&[u8]]) -> Made<Option<Vec<Name>>>
    ensures { IfOk result (λ found. option_map (λ v. v.items) found ≡ names_if (map (λ w. w.now) pieces.now)) }
{
    let mut names = Vec::new(alloc);
    for piece in pieces {
        let Some(name) = Name::new(alloc, piece)? else {
            return Ok(None);
        };
        names.push(name)?;
    }
    Ok(Some(names))
}

/// Reads a path: nothing at all for the main ruleset, else 1 to 8 names of anchors between slashes (pf.conf(5),
/// ANCHORS). Reserved words are names; a name of an unnamed block, which begins with `_`, is none here. Anything else
/// is `ConfigFault::BadPath`.
#[tactic(auto, using(crate::proofs::PathPieces::no_names), unfolding(crate::specs::PathTexts::path_of))]
pub fn parse_path(alloc: Global, text: &str) -> Result<Path, ConfigFault>
    ensures { PathAnswers result (path_of text.now) }
{
    if text.is_empty() {
        return Ok(Path::main(alloc));
    }
    let pieces = pieces(alloc, text.as_bytes())?;
    let Some(names) = names_of(alloc, &pieces)? else {
        return Err(ConfigFault::BadPath);
    };
    Path::new(names).ok_or(ConfigFault::BadPath)
}
