//! Which members strings name.

ghost use Rattle.std.specs.Prelude.{◌≡◌, IfOk, map, option_map};
ghost use Rattle.cli_nft.specs.Options.{members_in};

use nft_rules::Member;
use node_udp::{Address, parse_address};
use px_wire::MEMBERS;
use std::alloc::{AllocError, Global};

/// The members that these strings are, none where one of them isn't spelled as an address and a port, or where there
/// are more than 15.
#[tactic(auto, using(crate::proofs::Joining::one_more), unfolding(crate::specs::Options::members_in))]
pub fn members_in(alloc: Global, texts: &[&str]) -> Result<Option<Vec<Member>>, AllocError>
    ensures { IfOk result (λ o. option_map (λ v. v.items) o ≡ members_in (map (λ t. t.now) texts.now)) }
{
    if texts.len() > usize::from(MEMBERS) {
        return Ok(None);
    }
    let mut members = Vec::new(alloc);
    for text in texts {
        let Some(Address { ip: address, port }) = parse_address(text) else {
            return Ok(None);
        };
        members.push(Member { address, port })?;
    }
    Ok(Some(members))
}
