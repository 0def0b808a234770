//! Anchor rules without a name in their target, which no ruleset's source gives.

ghost use Rattle.std.specs.Prelude.{◌≡◌, false};
ghost use Rattle.pf_rules.specs.inner.Items.{is_overfull};
ghost use Rattle.pf_rules.specs.Seen.{item_of};

use crate::refusing::expect;
use nft_rules::{RenderFault, render};
use pf_config::Config;
use pf_rules::{AnchorHeading, Conditions, Direction, FlagTest, Host, Item, Path, Ruleset, Target};
use std::alloc::{AllocError, Global};
use std::test::Fail;

/// An anchor rule for every packet. Its target is the anchor that holds it, or those that are attached to that.
fn anchor_rule(alloc: Global, children: bool) -> Item
    ensures { is_overfull (item_of result) ≡ false }
{
    Item::anchor(AnchorHeading {
        target: Target {
            names: Vec::new(alloc),
            children,
        },
        quick: false,
        conditions: Conditions {
            direction: None,
            interface: None,
            family: None,
            protocol: None,
            source: Host::Any,
            source_port: None,
            destination: Host::Any,
            destination_port: None,
            flags: FlagTest::Any,
            icmp_type: None,
        },
    })
}

/// A ruleset of that rule alone.
fn ruleset(alloc: Global, children: bool) -> Result<Ruleset, AllocError> {
    let mut items = Vec::new(alloc);
    items.push(anchor_rule(alloc, children))?;
    Ok(Ruleset {
        skip: Vec::new(alloc),
        tables: Vec::new(alloc),
        items,
    })
}

/// Why the configuration with that ruleset at main isn't rendered, if it isn't.
fn fault_of(alloc: Global, children: bool) -> Result<Option<RenderFault>, Fail> {
    let mut config = Config::new(alloc)?;
    let rules = ruleset(alloc, children)?;
    let is_loaded = config.load(&Path::main(alloc), rules).is_ok();
    expect(is_loaded, "it is loaded")?;
    match render(alloc, &config, &[], Direction::In) {
        Ok(_) => Ok(None),
        Err(fault) => Ok(Some(fault)),
    }
}

#[test]
fn a_rule_whose_target_is_its_own_anchor_is_refused_87(rt: HostRuntime) -> Result<(), Fail> {
    let fault = fault_of(rt.alloc(), false)?;
    assert!(rt; fault == Some(RenderFault::LeadsBack));
    assert!(rt; RenderFault::LeadsBack.code() == Some(87));
    assert!(rt; fault_of(rt.alloc(), true)?.is_none());
    Ok(())
}
