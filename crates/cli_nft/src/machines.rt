//! The interfaces of a machine as a file lists them.

ghost use Rattle.std.specs.Prelude.{◌≡◌, IfOk, Some, None, map, option_map, if◌then◌else◌};
ghost use Rattle.std.specs.List.{list_any};
ghost use Rattle.std.specs.Str.{bytes_eq};
ghost use Rattle.nft_rules.specs.Rendering.{known};
ghost use Rattle.nft_rules.specs.Seen.{machine_of};
ghost use Rattle.pf_eval.specs.PacketTexts.{words};
ghost use Rattle.cli_nft.specs.Machines.{names_if, with_names, machine_in};

use nft_rules::MachineInterface;
use pf_eval::words_between_blanks;
use pf_rules::InterfaceName;
use pf_scripts::cut_line;
use std::alloc::{AllocError, Global};

/// How many interfaces a machine has at most.
pub const INTERFACES_MAX: usize = 1024;

/// Whether an interface of that name is there.
fn is_known(machine: &[MachineInterface], name: &[u8]) -> bool
    ensures { result ≡ list_any (λ n. bytes_eq n name.now) (known (machine_of machine.now)) }
{
    machine.iter().any(|it| it.name.as_bytes() == name)
}

/// The names that these strings are, none where one is no name of an interface.
fn names_of(alloc: Global, words: &[&[u8]]) -> Result<Option<Vec<InterfaceName>>, AllocError>
    ensures { IfOk result (λ o. option_map (λ v. v.items) o ≡ names_if (map (λ w. w.now) words.now)) }
{
    let mut names = Vec::new(alloc);
    for word in words {
        match InterfaceName::new(word) {
            Some(name) => names.push(name)?,
            None => return Ok(None),
        }
    }
    Ok(Some(names))
}

/// Puts what a line lists behind the machine's interfaces; false where it isn't as it should be, or the machine may not
/// have one more of that name.
fn push_line(machine: &mut Vec<MachineInterface>, line: &[u8]) -> Result<bool, AllocError>
    ensures { IfOk result (λ b. (if b then Some (machine_of machine.new.items) else None)
        ≡ with_names (machine_of machine.old.items) (names_if (words line.now))) }
{
    let alloc = *machine.allocator();
    let words = words_between_blanks(alloc, line)?;
    let Some(mut groups) = names_of(alloc, &words)? else {
        return Ok(false);
    };
    if groups.is_empty() {
        return Ok(true);
    }
    let name = groups.remove(0);
    if machine.len() >= INTERFACES_MAX || is_known(machine, name.as_bytes()) {
        return Ok(false);
    }
    machine.push(MachineInterface { name, groups })?;
    Ok(true)
}

/// The machine that a string lists, a line an interface: its name and then its groups, between blanks. None where a
/// name is no interface's, an interface is listed twice, or there are more than 1,024.
#[tactic(auto, unfolding(crate::specs::Machines::machine_in))]
pub fn machine_in(alloc: Global, text: &[u8]) -> Result<Option<Vec<MachineInterface>>, AllocError>
    ensures { IfOk result (λ o. option_map (λ v. machine_of v.items) o ≡ machine_in text.now) }
{
    let mut machine = Vec::new(alloc);
    let mut left = text;
    while let Some((line, rest)) = cut_line(left) {
        if !push_line(&mut machine, line.content)? {
            return Ok(None);
        }
        left = rest;
    }
    Ok(Some(machine))
}
