//! Loads as entries: what `apply` does with them in each profile.

use pf_command::{Applied, ApplyFault, apply};
use pf_config::Config;
use pf_entry::decode;
use pf_grammar::show_items;
use std::alloc::Global;
use std::test::Fail;

const ECHO: &[u8] = b"pass proto icmp icmp-type 8\n";

const NOTHING: Applied = Applied {
    added: 0,
    removed: 0,
};

/// The bytes of an entry in a format: a load of the main ruleset.
fn entry(alloc: Global, format: u8, text: &[u8]) -> Result<Vec<u8>, Fail> {
    let length = (text.len() % 256) as u8;
    let front = [format, 0, 0, 0, 0, 0, 0, 0, 0, 0, 1, 0, 0, 0, 0, length];
    let mut bytes = Vec::from_slice(alloc, &front)?;
    bytes.extend_from_slice(text)?;
    Ok(bytes)
}

/// Whether an entry of these bytes gives this.
fn is_applied(
    alloc: Global,
    config: &mut Config,
    bytes: &[u8],
    wanted: Result<Applied, ApplyFault>,
) -> bool {
    match decode(bytes) {
        Ok(view) => apply(alloc, config, &view.command) == wanted,
        Err(_) => false,
    }
}

/// Whether a load in a format gives this, and the rules are these then.
fn comes_to(
    alloc: Global,
    config: &mut Config,
    format: u8,
    text: &[u8],
    wanted: Result<Applied, ApplyFault>,
    rules: &str,
) -> Result<bool, Fail> {
    let bytes = entry(alloc, format, text)?;
    let is_so = is_applied(alloc, config, &bytes, wanted);
    let shown = show_items(alloc, config.items(&[]))?;
    Ok(is_so && shown.as_str() == rules)
}

/// A text with a type of ICMP by its number is refused in the first profile, and changes nothing; in the second it is
/// taken.
fn read(alloc: Global, config: &mut Config) -> Result<bool, Fail> {
    let (old, refused) = ("block drop all\n", Err(ApplyFault::Refused(12, 1)));
    let new = "pass inet proto 1 all icmp-type 8 flags S/SA keep state\n";
    Ok(
        comes_to(alloc, config, 1, b"block all\n", Ok(NOTHING), old)?
            && comes_to(alloc, config, 1, ECHO, refused, old)?
            && comes_to(alloc, config, 2, ECHO, Ok(NOTHING), new)?,
    )
}

#[test]
fn a_load_is_read_by_its_own_profile(rt: HostRuntime) -> Result<(), Fail> {
    let mut config = Config::new(rt.alloc())?;
    let is_read = read(rt.alloc(), &mut config);
    drop(config);
    assert!(rt; is_read?);
    Ok(())
}
