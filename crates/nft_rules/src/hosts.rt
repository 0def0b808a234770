//! What is asked of the addresses of a packet.

ghost use Rattle.std.specs.Prelude.{◌≡◌, ◌≤◌, ◌++◌, ◌-◌, ◌^◌, IfOk, OnOk, map, option_map};
ghost use Rattle.pf_addr.specs.Blocks.{family_of};
ghost use Rattle.pf_addr.specs.Order.{bits_of};
ghost use Rattle.nft_rules.specs.Subset.{family_eq};
ghost use Rattle.nft_rules.specs.Cuts.{first_of, last_of, top};
ghost use Rattle.nft_rules.specs.Rendering.{owner_of, place_of, host_alternatives};
ghost use Rattle.nft_rules.specs.Seen.{where_of};
ghost use Rattle.nft_rules.specs.inner.Asked.{alternative_of, in_place};

use crate::Made;
use crate::alternative::{Alternative, Alternatives, Protocol};
use crate::asked::always;
use crate::chains::Place;
use crate::subset::{Match, SetName, Side, Where};
use pf_addr::{Addr, Family, Prefix};
use pf_rules::{Addresses, Host, Name};

/// Whose table a rule at a path names: the path's own, else main's.
fn owner_of<'c>(place: Place<'c>, name: &str) -> Option<&'c [Name]>
    ensures { option_map (λ p. p.now) result ≡ owner_of place.entry.config.now place.entry.path.now name.now }
{
    if place.config.table(place.path, name).is_some() {
        return Some(place.path);
    }
    let main: &'c [Name] = &[];
    place.config.table(main, name).map(|_| main)
}

/// Whether they are the same.
pub(crate) fn is_same(one: Family, other: Family) -> bool
    ensures { result ≡ family_eq one other }
{
    one == other
}

/// The address as a number.
fn bits_of(addr: Addr) -> u128
    ensures { result ≡ bits_of addr }
{
    match addr {
        Addr::V4(bits) => u128::from(bits),
        Addr::V6(bits) => bits,
    }
}

/// The first address of a prefix.
pub(crate) fn first_of(prefix: &Prefix) -> u128
    ensures value { result ≡ first_of prefix.now }
    ensures small { result ≤ top (family_of prefix.now.base) }
{
    bits_of(prefix.base())
}

/// One less than a power of two, 2 to the 128th at most.
fn ones(bits: u8) -> u128
    requires { bits ≤ 128 }
    ensures { result ≡ 2 ^ bits - 1 }
{
    if bits == 128 {
        u128::MAX
    } else {
        (1u128 << bits) - 1
    }
}

/// The last address of a prefix.
#[tactic(auto, using(crate::proofs::Widths::last_fits))]
pub(crate) fn last_of(prefix: &Prefix) -> u128
    ensures { result ≡ last_of prefix.now }
{
    let len = prefix.len();
    match prefix.base() {
        Addr::V4(bits) => u128::from(bits) + ones(32 - len),
        Addr::V6(bits) => bits + ones(128 - len),
    }
}

/// The addresses of that family, none if there are none.
fn place_of<'c>(place: Place<'c>, family: Family, set: &'c Addresses) -> Option<Where<'c>>
    ensures { option_map where_of result ≡ place_of place.entry.config.now place.entry.path.now family set.now }
{
    match set {
        Addresses::Prefix(prefix) => is_same(prefix.base().family(), family).then(|| Where::From(
            first_of(prefix),
            last_of(prefix),
        )),
        Addresses::Range(range) => {
            let both = is_same(range.first().family(), family)
                && is_same(range.last().family(), family);
            both.then(|| Where::From(bits_of(range.first()), bits_of(range.last())))
        }
        Addresses::Table(name) => {
            let table = name.as_str();
            let owner = owner_of(place, table)?;
            Some(Where::InSet(SetName {
                owner,
                table,
                family,
            }))
        }
    }
}

/// Puts what is asked of packets of one family that are there, or, negated, aren't there behind what is there.
fn push_place<'c>(
    place: Place<'c>,
    all: &mut Vec<Alternative<'c>>,
    side: Side,
    family: Family,
    set: &'c Addresses,
    negated: bool,
) -> Made<()>
    ensures { OnOk result (map alternative_of all.new.items ≡ map alternative_of all.old.items
        ++ in_place negated side family (place_of place.entry.config.now place.entry.path.now family set.now)) }
{
    let mut tests = Vec::new(place.alloc);
    match place_of(place, family, set) {
        Some(place) => tests.push(Match::AtAddress(side, family, place, negated))?,
        None if negated => {}
        None => return Ok(()),
    }
    Ok(all.push(Alternative::of(Some(family), Protocol::AnyProtocol, tests))?)
}

/// What is asked of one of its addresses.
pub(crate) fn host_alternatives<'c>(
    place: Place<'c>,
    side: Side,
    host: &'c Host,
) -> Alternatives<'c>
    ensures { IfOk result (λ v. map alternative_of v.items
        ≡ host_alternatives place.entry.config.now place.entry.path.now side host.now) }
{
    let (set, negated) = match host {
        Host::Any => return always(place.alloc),
        Host::In(set) => (set, false),
        Host::NotIn(set) => (set, true),
    };
    let mut all = Vec::new(place.alloc);
    push_place(place, &mut all, side, Family::Inet, set, negated)?;
    push_place(place, &mut all, side, Family::Inet6, set, negated)?;
    Ok(all)
}
