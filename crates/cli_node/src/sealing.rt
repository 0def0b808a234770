//! How a node's packets are sealed: its keys, and this start of it.

ghost use Rattle.std.specs.Prelude.{◌≡◌, ◌⊎◌, ◌||◌, ◌<◌, ◌++◌, Ok, Err, Some, codes};
ghost use Rattle.std.specs.Prelude.{OnErr, IfErr, IfOk, IfSome, option_map, is_some, false};
ghost use Rattle.cli_node.specs.declared.outcome.Outcome.TheVariants.{Memory, Refused, Sound};
ghost use Rattle.cli_node.specs.Endings.{is_beyond};
ghost use Rattle.cli_node.specs.Stores.{is_made};

use crate::faults::log_unusable;
use crate::files::NodeFiles;
use crate::key::Keys;
use crate::node::{MemberStart, NodeStart};
use crate::outcome::Outcome;
use crate::store::{Found, is_made};
use cli_files::{RaiseFault, starts_in, starts_path};
use node_loop::Membership;
use px_packet::Start;

/// A file of starts that is missing or damaged, or can't be written.
const BAD_STARTS: u8 = 95;

/// How a node's packets are sealed.
#[derive(Clone, Copy)]
pub(crate) struct Sealing {
    pub(crate) keys: Keys,
    /// This start of the node.
    pub(crate) start: Start,
}

/// The outcome of a file of starts that can't be used; why is logged.
fn starts_refused(rt: &HostRuntime, path: &str, fault: RaiseFault) -> Outcome
    ensures { (result ≡ Memory) ⊎ (result ≡ Refused 95) }
{
    if fault == RaiseFault::Memory {
        return Outcome::Memory;
    }
    log_unusable(rt, path, fault);
    Outcome::Refused(BAD_STARTS)
}

impl<F: NodeFiles, D> MemberStart<'_, F, D> {
    /// How the node's packets are sealed, where it has keys, and this was found where its store is: with this start of
    /// it, which is written into the file beside its store first. 95 where that file can't be used; a missing one is
    /// made with a store that is made, and where that is asked for.
    pub(crate) fn sealing_for(&self, keys: Option<Keys>) -> Result<Option<Sealing>, Outcome>
        requires here { self.now.m.me < self.now.m.members }
        ensures refused { OnErr result ((result ≡ Err Memory) ⊎ (result ≡ Err (Refused 95))) }
        ensures beyond { IfErr result (λ o. is_beyond (is_some keys) false o ≡ false) }
        ensures keys { IfOk result (λ s. option_map (λ x. x.keys) s ≡ keys) }
        ensures start { IfOk result (λ s. IfSome s (λ x. F.raises self.now.start.files.now
            (self.now.start.arguments.store.now ++ codes "-starts") self.now.m.members self.now.m.me
            (is_made self.now.start.arguments.is_from_file self.now.start.arguments.is_new self.now.found
            || self.now.start.arguments.makes_starts) x.start)) }
        ensures keyed { IfOk result (λ s. is_some s ≡ is_some keys) }
    {
        let Some(keys) = keys else {
            return Ok(None);
        };
        let rt = self.start.rt;
        let files = self.start.files;
        let arguments = self.start.arguments;
        let path = starts_path(rt.alloc(), arguments.store).map_err(|_| Outcome::Memory)?;
        let is_made = is_made(arguments.is_from_file, arguments.is_new, self.found);
        let start = files
            .raise(path.as_str(), self.m, is_made || arguments.makes_starts)
            .map_err(|fault| starts_refused(rt, path.as_str(), fault))?;
        Ok(Some(Sealing { keys, start }))
    }
}

impl<F, D> NodeStart<'_, F, D> {
    /// What is refused of the file of starts beside a store, where this was found; where no store is, a start makes
    /// both or is refused for the store. The file is read and not changed.
    pub(crate) fn of_starts(&self, m: Option<Membership>, found: Option<Found>) -> Outcome
        ensures why { (result ≡ Sound) ⊎ ((result ≡ Memory) ⊎ (result ≡ Refused 95)) }
        ensures beyond { is_beyond (is_some self.now.arguments.key) false result ≡ false }
    {
        let rt = self.rt;
        let Some(found) = found else {
            return Outcome::Memory;
        };
        let (Some(m), Some(_key)) = (m, self.arguments.key) else {
            return Outcome::Sound;
        };
        let Ok(path) = starts_path(rt.alloc(), self.arguments.store) else {
            return Outcome::Memory;
        };
        let is_absent = matches!(found, Found::Nothing | Found::Empty);
        match starts_in(rt, rt.alloc(), path.as_str(), m.members()) {
            Ok(_known) => Outcome::Sound,
            Err(RaiseFault::Missing) if is_absent || self.arguments.makes_starts => Outcome::Sound,
            Err(fault) => starts_refused(rt, path.as_str(), fault),
        }
    }
}
