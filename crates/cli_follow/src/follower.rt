//! What follows one node's log, and writes what nft(8) is to load.

ghost use Rattle.std.specs.Prelude.{◌≡◌, ◌+◌, ◌||◌, ◌&&◌, ℕ, true, Some, Ok, IfOk, IfErr, OnOk, OnErr, option_map};
ghost use Rattle.cli_io.specs.Written.{AppendsFront};
ghost use Rattle.nft_rules.specs.Seen.{machine_of};
ghost use Rattle.cli_follow.specs.Output.{wanted, start, is_again, informed};
ghost use Rattle.cli_follow.specs.Output.{after_entries, after_status, written_if, written_to};
ghost use Rattle.cli_follow.specs.Output.{Wanted};
ghost use Rattle.cli_follow.specs.Output as code;
ghost use Rattle.cli_follow.specs.inner.Seen.{follower_of, wanted_of, due_in, Written};

use crate::files::Made;
use crate::followed_configuration::{FollowedConfiguration, TakeFault};
use crate::kernel::Kernel;
use crate::members::members_reported;
use cli_ask::{AskFault, Reply};
use nft_rules::MachineInterface;
use node_requests::{ENTRIES_BYTES, ENTRIES_MAX};
use std::alloc::{AllocError, Global};
use std::io::Write;

/// Of how many asks the first has a file tried again that couldn't be written, and asks where the members listen.
const AGAIN: u64 = 20;

/// What a node answers, or why nothing comes.
type Answer = Result<Reply, AskFault>;

/// Why nothing more can be written.
#[derive(Clone, Copy, PartialEq, Eq)]
pub enum WriteFault {
    /// A growth was refused.
    Memory,
    /// The output is closed.
    Closed,
    /// The log at the control socket is another than the one that was followed.
    Another,
}

impl From<AllocError> for WriteFault {
    ghost use Rattle.cli_follow.specs.declared.follower.WriteFault.TheVariants.{Memory};

    ghost from_gives = { λ _ e. e ≡ Memory };

    fn from(_error: AllocError) -> WriteFault {
        WriteFault::Memory
    }
}

/// What an answer leads to.
#[derive(Clone, Copy)]
pub(crate) enum Due {
    /// Entries that weren't all: those behind them are asked for.
    More,
    /// All is there, and nothing is to be written.
    Rest,
    /// Nobody answers, or what comes is no answer of a node's.
    Nothing(AskFault),
    /// The status is asked for, since what is to be written needs it.
    Status,
    /// What was followed is to be written.
    Write,
    /// The log is another than the one that was followed.
    Another,
}

/// What follows one node's log.
#[derive(Drop)]
pub struct Follower {
    /// What was followed.
    pub(crate) followed: FollowedConfiguration,
    /// Lines for nft(8), where they are wanted.
    nft: Option<Kernel>,
    /// Whether something was to be written already.
    has_begun: bool,
}

/// Whether this is the first of some asks.
pub(crate) fn is_again(asks: u64) -> bool
    ensures { result ≡ is_again asks }
{
    asks % AGAIN == 0
}

/// Logs why nothing is written for a position.
pub(crate) fn log_refusal<E: Write>(errors: &mut E, position: u32, code: u8) {
    let _logged = writeln!(errors, "pfx: at {position} refused {code}");
}

/// What is due where something is to be written or not.
fn due_if(is_wanted: bool) -> Due
    ensures due { (w : Wanted) (f : code.Follower) → written_if w is_wanted f ≡ due_in w f result }
    ensures status { result ≡ Due.Status → ⊥ }
{
    if is_wanted { Due::Write } else { Due::Rest }
}

impl Follower {
    /// Nothing was followed yet: lines for nft(8) are wanted where there are interfaces.
    pub fn new(
        alloc: Global,
        interfaces: Option<Vec<MachineInterface>>,
        is_guarded: bool,
    ) -> Result<Follower, AllocError>
        ensures start { IfOk result (λ f. follower_of 0 f ≡ start) }
        ensures wanted { IfOk result (λ f. wanted_of f
            ≡ wanted (option_map (λ v. machine_of v.items) interfaces) is_guarded) }
    {
        let followed = FollowedConfiguration::new(alloc)?;
        let nft = interfaces.map(|interfaces| Kernel::new(alloc, interfaces, is_guarded));
        Ok(Follower {
            followed,
            nft,
            has_begun: false,
        })
    }

    /// Takes the answer to the ask for entries that came after the given number of asks.
    pub(crate) fn entered(&mut self, alloc: Global, asks: u64, answer: Answer) -> Made<Due>
        ensures due { IfOk result (λ d. after_entries (wanted_of self.old) (follower_of asks self.old) answer
            ≡ due_in (wanted_of self.new) (follower_of (asks + 1) self.new) d) }
        ensures wanted { wanted_of self.new ≡ wanted_of self.old }
        ensures guarded { result ≡ Ok Due.Status → (wanted_of self.new).is_guarded ≡ true }
    {
        let reply = match answer {
            Ok(reply) => reply,
            Err(AskFault::Memory) => return Err(AllocError),
            Err(fault) => return Ok(Due::Nothing(fault)),
        };
        let from = self.followed.position;
        // a node that knows of the commands of fewer positions has another log than the one that was followed so far
        if reply.front.is_some_and(|front| front < from) {
            return Ok(Due::Another);
        }
        match self.followed.take(alloc, reply.body.as_slice()) {
            Ok(()) => {}
            Err(TakeFault::Memory) => return Err(AllocError),
            Err(TakeFault::BadLine) => return Ok(Due::Nothing(AskFault::BadAnswer)),
        }
        // an answer of `ENTRIES_MAX` entries, or of `ENTRIES_BYTES`, hasn't all that are applied
        let applied = self.followed.position.saturating_sub(from);
        if applied >= ENTRIES_MAX || reply.body.len() >= ENTRIES_BYTES {
            return Ok(Due::More);
        }
        // the node is asked where its members listen
        let is_guarded = self.nft.as_ref().is_some_and(|nft| nft.is_guarded);
        if is_guarded && (self.followed.is_moved || is_again(asks)) {
            return Ok(Due::Status);
        }
        Ok(due_if(self.followed.is_moved))
    }

    /// Takes the answer to the ask for the status.
    pub(crate) fn informed(&mut self, alloc: Global, answer: Answer) -> Made<Due>
        requires guarded { (wanted_of self.old).is_guarded ≡ true }
        ensures due { IfOk result (λ d. (asks : ℕ) →
            after_status (wanted_of self.old) (follower_of asks self.old) answer
            ≡ due_in (wanted_of self.new) (follower_of asks self.new) d) }
        ensures wanted { wanted_of self.new ≡ wanted_of self.old }
        ensures status { IfOk result (λ d. d ≡ Due.Status → ⊥) }
    {
        let reply = match answer {
            Ok(reply) => reply,
            Err(AskFault::Memory) => return Err(AllocError),
            Err(fault) => return Ok(Due::Nothing(fault)),
        };
        let Some(members) = members_reported(alloc, reply.body.as_slice())? else {
            return Ok(Due::Nothing(AskFault::BadAnswer));
        };
        let Some(nft) = &mut self.nft else {
            return Ok(Due::Rest);
        };
        let is_new = nft.set_members(members);
        // commands were done, or the members are others than what was written has
        Ok(due_if(self.followed.is_moved || (is_new && self.has_begun)))
    }

    /// Writes what was followed, where lines for nft(8) are wanted. What is refused is said.
    pub(crate) fn write<W: Write, E: Write>(
        &mut self,
        writer: &mut W,
        errors: &mut E,
    ) -> Result<(), WriteFault>
        ensures whole { OnOk result ((asks : ℕ) →
            Written (written_to (wanted_of self.old).machine (follower_of asks self.old))
            (follower_of asks self.new) (W.contents writer.old) (W.contents writer.new)) }
        ensures front { OnErr result ((asks : ℕ) → AppendsFront (W.contents writer.old) (W.contents writer.new)
            (written_to (wanted_of self.old).machine (follower_of asks self.old)).out) }
        ensures fault { IfErr result (λ e. e ≡ WriteFault.Another → ⊥) }
        ensures wanted { wanted_of self.new ≡ wanted_of self.old }
    {
        self.followed.is_moved = false;
        self.has_begun = true;
        match &mut self.nft {
            Some(nft) => nft.write(&self.followed, writer, errors),
            None => Ok(()),
        }
    }
}
