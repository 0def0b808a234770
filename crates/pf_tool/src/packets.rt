//! The packets of a file, one a line.

ghost use Rattle.std.specs.Prelude.{◌≡◌, IfOk, map, option_map};
ghost use Rattle.pf_tool.specs.Tool.{packet_texts};

use crate::output::Made;
use pf_scripts::{cut_line, texts};
use std::alloc::Global;

/// The packets of a file, one a line; none where a line isn't UTF-8.
#[tactic(auto, unfolding(crate::specs::Tool::packet_texts))]
pub(crate) fn packet_texts<'a>(alloc: Global, bytes: &'a [u8]) -> Made<Option<Vec<&'a str>>>
    ensures { IfOk result (λ texts. option_map (λ v. map (λ t. t.now) v.items) texts ≡ packet_texts bytes.now) }
{
    let mut found = Vec::new(alloc);
    let mut left = bytes;
    while let Some((line, rest)) = cut_line(left) {
        found.push(line.content)?;
        left = rest;
    }
    texts(alloc, &found)
}
