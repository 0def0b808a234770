//! Whether the sieve of a rule lets a packet pass. What it doesn't let pass the rule doesn't match.

ghost use Rattle.std.specs.Prelude.{◌≡◌, MatchOption};
ghost use Rattle.pf_eval.specs.inner.Sieves.{port_or_0, key_of, passes};
ghost use Rattle.pf_eval.specs.inner.Searching.{IsSearchFor, NonePasses, PassesFirst};

use crate::key::Key;
use crate::matching::{is_direction, is_family, is_number};
use crate::packet::Packet;
use pf_config::{Candidate, Search, Sieve, front_bits, is_within};

/// The port, 0 where there is none.
fn port_or_0(port: Option<u16>) -> u32
    ensures { result ≡ port_or_0 port }
{
    port.map_or(0, |port| port as u32)
}

/// What the sieves ask of a packet.
#[tactic(auto, unfolding(crate::specs::inner::Sieves::key_of))]
pub(crate) fn key_of(packet: &Packet) -> Key
    ensures { result ≡ key_of packet.now }
{
    Key {
        direction: packet.direction,
        protocol: packet.protocol,
        from: packet.source,
        source: front_bits(packet.source),
        destination: front_bits(packet.destination),
        destination_port: port_or_0(packet.destination_port),
    }
}

/// Whether a sieve lets a packet with this key pass; that is asked first which lets fewest pass.
#[inline(always)]
#[tactic(auto, unfolding(crate::specs::inner::Sieves::passes))]
pub(crate) fn passes(sieve: &Sieve, key: &Key) -> bool
    ensures { result ≡ passes sieve.now key.now }
{
    is_within(&sieve.destination, key.destination)
        && is_within(&sieve.source, key.source)
        && is_within(&sieve.destination_port, key.destination_port)
        && is_number(sieve.protocol, key.protocol)
        && is_direction(sieve.direction, key.direction)
        && is_family(sieve.family, key.from)
}

/// The place of the first of these candidates, from this place on, whose sieve lets a packet with this key pass.
pub(crate) fn next_passing(
    search: &Search<'_>,
    candidates: &[Candidate],
    key: &Key,
    from: usize,
) -> Option<usize>
    requires { IsSearchFor candidates.now key.now search.now }
    ensures { MatchOption result (NonePasses candidates.now key.now from)
        (λ at. PassesFirst candidates.now key.now from at) }
{
    let mut left = from;
    while let Some(at) = search.next(left) {
        if passes(&candidates[at].sieve, key) {
            return Some(at);
        }
        left = at + 1;
    }
    None
}
