//! What nft(8) is to load, one position after the other.

ghost use Rattle.std.specs.Prelude.{◌≡◌, ◌≢◌, [], IfOk, IfErr, OnOk, OnErr, None, not, option_map, unwrap_or};
ghost use Rattle.std.specs.Io.KnownBytes.{Appends};
ghost use Rattle.cli_io.specs.Written.{AppendsFront};
ghost use Rattle.nft_rules.specs.Refusing.{Renders};
ghost use Rattle.nft_rules.specs.Seen.{machine_of};
ghost use Rattle.nft_rules.specs.declared.rendering.RenderFault.TheVariants.{Memory};
ghost use Rattle.nft_text.specs.Loading.{transactions_value, rendered_lines};
ghost use Rattle.cli_follow.specs.Output.{are_same, is_same, loads, same_members};
ghost use Rattle.cli_follow.specs.inner.Seen.{given_of, loads_of, Wrote};

use crate::followed_configuration::FollowedConfiguration;
use crate::follower::{WriteFault, log_refusal};
use cli_io::write_bytes;
use nft_rules::{MachineInterface, Member, RenderFault};
use nft_text::{Transactions, rendered_lines};
use pf_config::Config;
use std::alloc::{AllocError, Global};
use std::io::Write;

/// What was handed out last.
#[derive(Drop)]
struct Loaded {
    /// The position whose names it has.
    position: u32,
    /// Its lines.
    lines: Transactions,
}

/// What a kernel was given, on a machine with these interfaces.
#[derive(Drop)]
pub(crate) struct Kernel {
    /// The machine's interfaces.
    interfaces: Vec<MachineInterface>,
    /// Whose datagrams pass whatever the rules say.
    members: Vec<Member>,
    /// Whether the lines have the members' guard, so that the node is asked where its members listen.
    pub(crate) is_guarded: bool,
    /// What was handed out last.
    last: Option<Loaded>,
}

/// Whether these are the same lines.
fn are_same(a: &Transactions, b: &Transactions) -> bool
    ensures { result ≡ are_same (transactions_value a.now) (transactions_value b.now) }
{
    a.load.as_str() == b.load.as_str() && a.end.as_str() == b.end.as_str()
}

/// Writes lines, and all that is kept back.
fn write_lines<W: Write>(writer: &mut W, lines: &[u8]) -> Result<(), WriteFault>
    ensures whole { OnOk result (Appends (W.contents writer.old) (W.contents writer.new) lines.now) }
    ensures front { OnErr result (AppendsFront (W.contents writer.old) (W.contents writer.new) lines.now) }
    ensures closed { IfErr result (λ e. e ≡ WriteFault.Closed) }
{
    if write_bytes(writer, lines).is_err() || writer.flush().is_err() {
        return Err(WriteFault::Closed);
    }
    Ok(())
}

impl Kernel {
    /// Nothing was handed out yet, and no members are known.
    pub(crate) fn new(alloc: Global, interfaces: Vec<MachineInterface>, is_guarded: bool) -> Kernel
        ensures interfaces { result.interfaces ≡ interfaces }
        ensures members { result.members.items ≡ [] }
        ensures guarded { result.is_guarded ≡ is_guarded }
        ensures last { result.last ≡ None }
    {
        Kernel {
            interfaces,
            members: Vec::new(alloc),
            is_guarded,
            last: None,
        }
    }

    /// From now on what these members send each other passes whatever the rules say. Answers whether they are others
    /// than those before.
    pub(crate) fn set_members(&mut self, members: Vec<Member>) -> bool
        ensures other { result ≡ not (same_members self.old.members.items members.items) }
        ensures members { self.new.members ≡ members }
        ensures interfaces { self.new.interfaces ≡ self.old.interfaces }
        ensures guarded { self.new.is_guarded ≡ self.old.is_guarded }
        ensures last { self.new.last ≡ self.old.last }
    {
        let is_new = self.members.as_slice() != members.as_slice();
        self.members = members;
        is_new
    }

    /// What is rendered under names of a position.
    fn rendered(&self, config: &Config, position: u32) -> Result<Transactions, RenderFault>
        ensures { Renders transactions_value result (rendered_lines config.now (machine_of self.now.interfaces.items)
            self.now.members.items position) }
    {
        let alloc = *self.members.allocator();
        rendered_lines(alloc, config, &self.interfaces, &self.members, position)
    }

    /// Whether this is what was handed out last, but for the names.
    fn is_same(&self, config: &Config) -> Result<bool, AllocError>
        ensures { IfOk result (λ same. same ≡ is_same (machine_of self.now.interfaces.items) self.now.members.items
            (given_of self.now.last) config.now) }
    {
        let Some(last) = &self.last else {
            return Ok(false);
        };
        match self.rendered(config, last.position) {
            Ok(again) => Ok(are_same(&again, &last.lines)),
            Err(fault) => fault.code().map(|_| false).ok_or(AllocError),
        }
    }

    /// What is to be loaded of the configuration after that many entries: nothing where it would be rendered under the
    /// names of what was handed out last as that was; else its first two lines, and the last line of what was handed
    /// out last, unless it has the same names. Where it can't be rendered, what was handed out last stays in force.
    fn load(&mut self, config: &Config, position: u32) -> Result<Option<Vec<u8>>, RenderFault>
        ensures loads { IfOk result (λ s. loads (machine_of self.old.interfaces.items) self.old.members.items
            (given_of self.old.last) config.now position
            ≡ record { last = given_of self.new.last; lines = unwrap_or (option_map (λ v. v.items) s) [] }) }
        ensures refused { IfErr result (λ e. e ≢ Memory →
            loads (machine_of self.old.interfaces.items) self.old.members.items (given_of self.old.last) config.now
            position ≡ record { last = given_of self.new.last; lines = [] }) }
        ensures interfaces { self.new.interfaces ≡ self.old.interfaces }
        ensures members { self.new.members ≡ self.old.members }
        ensures guarded { self.new.is_guarded ≡ self.old.is_guarded }
    {
        if self.is_same(config)? {
            return Ok(None);
        }
        let lines = self.rendered(config, position)?;
        // what was handed out last is ended, unless it has the names of this position
        let end = match &self.last {
            Some(last) if last.position != position => last.lines.end.as_bytes(),
            _ => &[],
        };
        let mut written = Vec::from_slice(*self.members.allocator(), lines.load.as_bytes())?;
        written.extend_from_slice(end)?;
        self.last = Some(Loaded { position, lines });
        Ok(Some(written))
    }

    /// Writes what a kernel is to load; a refusal is said.
    #[tactic(auto, using(cli_io::proofs::Fronts::nothing_written))]
    pub(crate) fn write<W: Write, E: Write>(
        &mut self,
        followed: &FollowedConfiguration,
        writer: &mut W,
        errors: &mut E,
    ) -> Result<(), WriteFault>
        ensures whole { OnOk result (Wrote self.old self.new followed.now
            (W.contents writer.old) (W.contents writer.new)) }
        ensures front { OnErr result (AppendsFront (W.contents writer.old) (W.contents writer.new)
            (loads_of self.old followed.now).lines) }
        ensures fault { IfErr result (λ e. e ≡ WriteFault.Another → ⊥) }
        ensures members { self.new.members ≡ self.old.members }
        ensures interfaces { self.new.interfaces ≡ self.old.interfaces }
        ensures guarded { self.new.is_guarded ≡ self.old.is_guarded }
    {
        let position = followed.position;
        match self.load(&followed.config, position) {
            Ok(Some(lines)) => write_lines(writer, lines.as_slice()),
            Ok(None) => Ok(()),
            Err(fault) => {
                log_refusal(errors, position, fault.code().ok_or(WriteFault::Memory)?);
                Ok(())
            }
        }
    }
}
