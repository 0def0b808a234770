//! Where a node reports that its members listen.

ghost use Rattle.std.specs.Prelude.{◌≡◌, IfOk, option_map};
ghost use Rattle.cli_follow.specs.Members.{members_reported};

use crate::files::Made;
use cli_nft::{Member, members_in};
use pf_scripts::{cut_line, words_in};
use std::alloc::Global;

/// Where the members listen by a node's status, of which a line names them; none where it doesn't.
#[tactic(auto, unfolding(crate::specs::Members::members_reported))]
pub(crate) fn members_reported(alloc: Global, status: &[u8]) -> Made<Option<Vec<Member>>>
    ensures { IfOk result (λ o. option_map (λ v. v.items) o ≡ members_reported status.now) }
{
    let mut left = status;
    while let Some((line, rest)) = cut_line(left) {
        if let Some(words) = words_in(alloc, line.content)? {
            match words.as_slice() {
                [first, texts @ ..] if *first == "members" && !texts.is_empty() => {
                    return members_in(alloc, texts);
                }
                _ => {}
            }
        }
        left = rest;
    }
    Ok(None)
}
