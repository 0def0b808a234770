//! What `check --nft` and `show --nft` write.

ghost use Rattle.std.specs.Prelude.{◌≡◌, Some, IfOk, option_map};
ghost use Rattle.nft_rules.specs.Seen.{machine_of};
ghost use Rattle.cli_nft.specs.Outputs.{refused, written_lines};
ghost use Rattle.cli_nft.specs.Outputs.{output, config_output};
ghost use Rattle.cli_nft.specs.Seen.{written};
ghost use Rattle.nft_text.specs.Loading.{rendered_lines};

use crate::machines::machine_in;
use cli_io::{BAD_INTERFACES, INVALID_ARGUMENTS};
use nft_rules::{MachineInterface, Member};
use nft_text::rendered_lines;
use pf_config::Config;
use pf_grammar::{ParseFault, Place, Profile, parse};
use pf_rules::Path;
use std::alloc::{AllocError, Global};

/// All that is to be written, and whether it is a refusal.
#[derive(Drop)]
pub struct Written {
    /// The text.
    pub text: String,
    /// Whether it is a refusal.
    pub refused: bool,
}

/// A refusal by its number.
fn refused(alloc: Global, code: u8) -> Result<Written, AllocError>
    ensures { IfOk result (λ w. written w ≡ refused (Some code)) }
{
    let text = format!(in alloc; "refused {code}\n")?;
    let refused = true;
    Ok(Written { text, refused })
}

/// The lines of a configuration.
fn written_lines(
    alloc: Global,
    config: &Config,
    machine: &[MachineInterface],
    members: &[Member],
    position: u32,
) -> Result<Written, AllocError>
    ensures { IfOk result (λ w. written w
        ≡ written_lines (rendered_lines config.now (machine_of machine.now) members.now position)) }
{
    match rendered_lines(alloc, config, machine, members, position) {
        Ok(lines) => {
            let mut text = lines.load;
            text.push_str(lines.end.as_str())?;
            let refused = false;
            Ok(Written { text, refused })
        }
        Err(fault) => refused(alloc, fault.code().ok_or(AllocError)?),
    }
}

/// What `check --nft` writes over a file of interfaces, none where it can't be read, and this input: the three lines
/// of the text's rules on that machine, behind the guard of these members, under names of that position, or a refusal.
/// `refused 40`: there are no such members. `refused 89`: the file doesn't list interfaces. The ruleset is loaded as the
/// main one of an empty configuration.
#[tactic(auto, unfolding(crate::specs::Outputs::output))]
pub fn nft_output(
    alloc: Global,
    file: Option<&[u8]>,
    members: Option<&[Member]>,
    position: u32,
    input: &[u8],
) -> Result<Written, AllocError>
    ensures { IfOk result (λ w. written w ≡ output (option_map (λ t. t.now) file.entry)
        (option_map (λ ms. ms.now) members.entry) position input.now) }
{
    let Some(members) = members else {
        return refused(alloc, INVALID_ARGUMENTS);
    };
    let Some(machine) = file.map_or(Ok(None), |text| machine_in(alloc, text))? else {
        return refused(alloc, BAD_INTERFACES);
    };
    let rules = match parse(alloc, input, Place::Main, Profile::Two) {
        Ok(rules) => rules,
        Err(ParseFault::Memory) => return Err(AllocError),
        Err(ParseFault::Refused(refusal)) => {
            let (code, line) = (refusal.cause.code(), refusal.line);
            let text = format!(in alloc; "refused {code} line {line}\n")?;
            let refused = true;
            return Ok(Written { text, refused });
        }
    };
    let mut config = Config::new(alloc)?;
    match config.load(&Path::main(alloc), rules) {
        Ok(()) => written_lines(alloc, &config, &machine, members, position),
        Err(fault) => refused(alloc, fault.code().ok_or(AllocError)?),
    }
}

/// What `show --nft` writes of a configuration over a file of interfaces, none where it can't be read: the three lines
/// of the configuration on that machine, behind the guard of these members, under names of that position, or a refusal.
/// `refused 89`: the file doesn't list interfaces.
#[tactic(auto, unfolding(crate::specs::Outputs::config_output))]
pub fn config_output(
    alloc: Global,
    file: Option<&[u8]>,
    config: &Config,
    members: &[Member],
    position: u32,
) -> Result<Written, AllocError>
    ensures { IfOk result (λ w. written w ≡ config_output (option_map (λ t. t.now) file.entry) members.now
        position config.now) }
{
    match file.map_or(Ok(None), |text| machine_in(alloc, text))? {
        Some(machine) => written_lines(alloc, config, &machine, members, position),
        None => refused(alloc, BAD_INTERFACES),
    }
}
