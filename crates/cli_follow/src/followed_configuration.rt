//! The configuration of a node, as its entries make it.

ghost use Rattle.std.specs.Prelude.{◌≡◌, ◌+◌, OnOk, OnErr, IfOk, Ok, Err, Some, None, true, false, length};
ghost use Rattle.hex.specs.Hex.{decode_of};
ghost use Rattle.pf_command.specs.Effect.{empty};
ghost use Rattle.pf_entry.specs.Reading.{reading};
ghost use Rattle.pf_node.specs.Applied.{after_read};
ghost use Rattle.pf_scripts.specs.Lines.{lines};
ghost use Rattle.cli_follow.specs.Following.{after_decoded, after_lines, Follows, StopsIn, does, next_of};
ghost use Rattle.cli_follow.specs.Following.{lines_applied};
ghost use Rattle.cli_follow.specs.Following.{followed_of};

use hex::FromHexError;
use pf_command::{ApplyFault, apply};
use pf_config::Config;
use pf_entry::decode;
use pf_scripts::cut_line;
use std::alloc::{AllocError, Global};

/// The configuration after the first entries of a log.
#[derive(Drop)]
pub struct FollowedConfiguration {
    /// The configuration.
    pub config: Config,
    /// How many entries.
    pub position: u32,
    /// Whether a command was done since this was last set to false.
    pub is_moved: bool,
}

/// Why not all lines were taken.
#[derive(Clone, Copy, PartialEq, Eq)]
pub enum TakeFault {
    /// A growth was refused.
    Memory,
    /// A line isn't an entry's.
    BadLine,
}

/// Does the command that bytes spell, and answers whether it was done; one that is refused, or bytes that spell none,
/// change nothing.
fn apply_bytes(alloc: Global, config: &mut Config, bytes: &[u8]) -> Result<bool, AllocError>
    ensures ok { OnOk result (config.new ≡ after_read config.old (reading bytes.now)) }
    ensures still { result ≡ Ok false → config.new ≡ config.old }
    ensures done { IfOk result (λ d. d ≡ does config.old (reading bytes.now)) }
    ensures err { OnErr result (config.new ≡ config.old) }
{
    match decode(bytes) {
        Ok(view) => match apply(alloc, config, &view.command) {
            Ok(_) => Ok(true),
            Err(ApplyFault::Refused(_, _)) => Ok(false),
            Err(ApplyFault::Memory) => Err(AllocError),
        },
        Err(_) => Ok(false),
    }
}

impl FollowedConfiguration {
    /// That of no entry.
    pub fn new(alloc: Global) -> Result<FollowedConfiguration, AllocError>
        ensures config { IfOk result (λ m. m.config ≡ empty) }
        ensures position { IfOk result (λ m. m.position ≡ 0) }
        ensures moved { IfOk result (λ m. m.is_moved ≡ false) }
    {
        Ok(FollowedConfiguration {
            config: Config::new(alloc)?,
            position: 0,
            is_moved: false,
        })
    }

    /// Takes the entry of a line: its bytes in hexadecimal digits. Where it isn't taken nothing changes.
    fn take_line(&mut self, alloc: Global, digits: &[u8]) -> Result<(), TakeFault>
        ensures config { OnOk result (self.new.config ≡ after_decoded self.old.config (decode_of digits.now)) }
        ensures position { OnOk result (self.new.position ≡ self.old.position + 1) }
        ensures still { self.new.is_moved ≡ false → self.new.config ≡ self.old.config }
        ensures before { self.new.is_moved ≡ false → self.old.is_moved ≡ false }
        ensures next { OnOk result (next_of (followed_of self.old) (decode_of digits.now)
            ≡ Some (followed_of self.new)) }
        ensures bad { result ≡ Err TakeFault.BadLine →
            next_of (followed_of self.old) (decode_of digits.now) ≡ None }
        ensures err { OnErr result (self.new ≡ self.old) }
    {
        let next = self.position.checked_add(1).ok_or(TakeFault::BadLine)?;
        let bytes = hex::decode(alloc, digits).map_err(|error| match error {
            FromHexError::OutOfMemory => TakeFault::Memory,
            _ => TakeFault::BadLine,
        })?;
        let is_done = apply_bytes(alloc, &mut self.config, bytes.as_slice());
        let is_done = is_done.map_err(|_| TakeFault::Memory)?;
        self.position = next;
        self.is_moved = self.is_moved || is_done;
        Ok(())
    }

    /// Takes the entries of lines, the first of them at this configuration's position: what a control socket
    /// answers from there on. So a followed configuration that has the configuration after the first entries of a
    /// node's log has it again. Where a line isn't taken those before it are.
    pub fn take(&mut self, alloc: Global, text: &[u8]) -> Result<(), TakeFault>
        ensures config { OnOk result (self.new.config ≡ after_lines self.old.config text.now) }
        ensures position { OnOk result (self.new.position ≡ self.old.position + length (lines text.now)) }
        ensures still { self.new.is_moved ≡ false → self.new.config ≡ self.old.config }
        ensures err { OnErr result (StopsIn self.old.config self.new.config self.old.position self.new.position
            (lines text.now)) }
        ensures lines_applied { OnOk result (lines_applied (followed_of self.old) (lines text.now)
            ≡ record { followed = followed_of self.new; is_whole = true }) }
        ensures bad { result ≡ Err TakeFault.BadLine → lines_applied (followed_of self.old) (lines text.now)
            ≡ record { followed = followed_of self.new; is_whole = false } }
        ensures follows { OnOk result (Follows self.old.config self.new.config self.old.position self.new.position
            text.now) }
    {
        let mut left = text;
        while let Some((line, rest)) = cut_line(left) {
            self.take_line(alloc, line.content)?;
            left = rest;
        }
        Ok(())
    }
}
