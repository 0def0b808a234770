//! The interfaces of a machine.

ghost use Rattle.std.specs.Prelude.{◌≡◌, ◌≤◌, IfOk, length, option_map};
ghost use Rattle.std.specs.List.{list_any};
ghost use Rattle.std.specs.Str.{bytes_eq};
ghost use Rattle.nft_rules.specs.Rendering.{groups_in, names_of, names_in, interfaces_with, is_skipped};
ghost use Rattle.nft_rules.specs.Evaluation.{turned};
ghost use Rattle.nft_rules.specs.Seen.{machine_of};

use crate::Made;
use pf_eval::without_digits;
use pf_rules::InterfaceName;
use std::alloc::Global;

/// An interface of the machine, and its groups.
pub struct MachineInterface {
    /// Its name.
    pub name: InterfaceName,
    /// The groups that it is in.
    pub groups: Vec<InterfaceName>,
}

impl Drop for MachineInterface {
    fn drop(self) {
        let MachineInterface { name: _, groups: _ } = self;
    }
}

/// The groups of an interface, if it is the machine's.
fn groups_in<'m>(
    machine: &'m [MachineInterface],
    name: &InterfaceName,
) -> Option<&'m [InterfaceName]>
    ensures { option_map (λ g. g.now) result ≡ groups_in (machine_of machine.now) name.now }
{
    for interface in machine {
        if interface.name == *name {
            return Some(&interface.groups);
        }
    }
    None
}

/// Whether the name is among these.
fn is_among(names: &[InterfaceName], name: &[u8]) -> bool
    ensures { result ≡ list_any (λ n. bytes_eq n name.now) names.now }
{
    names.iter().any(|other| other.as_bytes() == name)
}

/// Whether the machine's interface may be named so: by its name, by that without the digits at its end, or by a group.
fn is_named(machine: &[MachineInterface], interface: &InterfaceName, name: &[u8]) -> bool
    ensures { result ≡ list_any (λ n. bytes_eq n name.now) (names_in (machine_of machine.now) interface.now) }
{
    let own = interface.as_bytes();
    own == name
        || without_digits(own) == name
        || groups_in(machine, interface).is_some_and(|groups| is_among(groups, name))
}

/// Whether one of these names the machine's interface.
fn is_named_by(
    wanted: &[InterfaceName],
    machine: &[MachineInterface],
    interface: &InterfaceName,
) -> bool
    ensures { result ≡ is_skipped wanted.now (names_in (machine_of machine.now) interface.now) }
{
    wanted
        .iter()
        .any(|name| is_named(machine, interface, name.as_bytes()))
}

/// The machine's interfaces that one of these names, or, negated, none of these.
pub(crate) fn interfaces_named(
    alloc: Global,
    machine: &[MachineInterface],
    wanted: &[InterfaceName],
    negated: bool,
) -> Made<Vec<InterfaceName>>
    ensures { IfOk result (λ v. v.items
        ≡ interfaces_with (λ names. turned negated (is_skipped wanted.now names)) (machine_of machine.now)) }
{
    let mut names = Vec::new(alloc);
    for interface in machine {
        if is_named_by(wanted, machine, &interface.name) != negated {
            names.push(interface.name.copied())?;
        }
    }
    Ok(names)
}
