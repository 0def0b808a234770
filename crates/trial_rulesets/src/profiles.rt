//! What the place and the profile of a ruleset decide, and its rules alone.

use pf_grammar::{ParseFault, Place, Profile, parse, show_items};
use std::alloc::Global;
use std::test::Fail;

/// For an accepted ruleset 0 and the number of its rules, for a refused one the number of the cause and the line.
fn answer(alloc: Global, text: &str, place: Place, profile: Profile) -> Result<(u8, u64), Fail> {
    match parse(alloc, text.as_bytes(), place, profile) {
        Ok(loaded) => Ok((0, loaded.items.len() as u64)),
        Err(ParseFault::Refused(refusal)) => Ok((refusal.cause.code(), refusal.line)),
        Err(ParseFault::Memory) => Err("out of memory".into()),
    }
}

/// The rules of a ruleset, shown.
fn shown(alloc: Global, text: &[u8]) -> Result<String, Fail> {
    match parse(alloc, text, Place::Main, Profile::Two) {
        Ok(loaded) => Ok(show_items(alloc, loaded.items.as_slice())?),
        Err(_) => Err("the text is refused".into()),
    }
}

#[test]
fn rules_alone_are_shown_without_settings(rt: HostRuntime) -> Result<(), Fail> {
    let shown = shown(rt.alloc(), b"set skip on lo\nblock return\n")?;
    assert!(rt; shown.as_str() == "block return all\n");
    Ok(())
}

/// Whether the text is answered so.
fn is_so(
    alloc: Global,
    text: &str,
    place: Place,
    profile: Profile,
    wanted: (u8, u64),
) -> Result<bool, Fail> {
    Ok(answer(alloc, text, place, profile)? == wanted)
}

#[test]
fn the_place_and_the_profile_decide(rt: HostRuntime) -> Result<(), Fail> {
    for (text, place, profile, wanted) in [
        (
            "pass\nset skip on lo0",
            Place::Anchor,
            Profile::Two,
            (17, 2),
        ),
        ("pass\nset skip on lo0", Place::Main, Profile::Two, (0, 1)),
        (
            "pass proto icmp icmp-type 8",
            Place::Main,
            Profile::One,
            (12, 1),
        ),
        (
            "pass proto icmp icmp-type 8",
            Place::Main,
            Profile::Two,
            (0, 1),
        ),
        ("pass on icmp-type", Place::Main, Profile::One, (0, 1)),
        ("pass on icmp-type", Place::Main, Profile::Two, (12, 1)),
    ] {
        assert!(rt; is_so(rt.alloc(), text, place, profile, wanted)?, "{text}");
    }
    Ok(())
}
