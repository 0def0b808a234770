//! The program's timer: what it keeps. `pacing` has what it decides.

ghost use Rattle.std.specs.Prelude.{◌≤◌, ◌+◌};

/// When a node's clock ticks: at once where commands wait and no attempt is under way; anew where an attempt isn't
/// answered in four round trips and some more, a time that doubles with each loss; within the time of an answer where
/// one was refused before a majority promised, since the refusal reported the round to begin above; after a pause, of
/// four answers' time and more, where another node took the lead, or two attempts in a row were refused; and where
/// nothing waits at the start, once a second, and at once while what it lacks is coming. These waits are drawn by each
/// member anew, so that two which meet don't meet each time. Where others move the front a pause ends within four
/// answers' time: the member that has the lead makes some commits before the next one takes it.
///
/// A node that lacks entries which others have learned asks for them soon. Where commands wait at it, it can't ask and
/// has to propose, which takes the lead from the member that has it and brings the votes that others keep. It does so
/// soon; each time that it got many; and while it leads at once, entry by entry.
///
/// Two times are learned. How long an attempt takes, from those that led to something and weren't begun anew meanwhile;
/// and how long an answer takes, from what was sent once and answered, to be sent again after that. The clock decides
/// when a tick comes, never what it does: whatever is answered here, a node makes turns and nothing else.
#[derive(Clone, Copy)]
pub struct TickTimer {
    pub(crate) me: u8,
    /// When the clock ticked last, in microseconds.
    pub(crate) ticked: u64,
    /// When an idle node asks next what it lacks.
    pub(crate) asks: u64,
    /// Before then no waiting command is proposed.
    pub(crate) hold: u64,
    /// Before then the clock doesn't tick again, unless the front moves.
    pub(crate) rest: u64,
    /// When the front moved last, or it was first seen that entries are lacking.
    pub(crate) moved: u64,
    /// How long an attempt takes, in microseconds.
    pub(crate) trip: u64,
    /// How long an answer takes where nothing is lost, in microseconds.
    pub(crate) answer: u64,
    /// How many attempts in a row failed.
    pub(crate) losses: u32,
    /// What the last wait was drawn from.
    pub(crate) drawn: u64,
    /// When what isn't answered was sent last, and how many times again; 64 where nothing is to be sent again.
    pub(crate) repeated: u64,
    pub(crate) repeats: u32,
    /// When the accept requests of the attempt went out, and whether what is learned next answers them: nothing was
    /// sent again since, and nobody else's came.
    pub(crate) accepting: u64,
    pub(crate) is_timed: bool,
    pub(crate) front: u32,
    /// The front when the clock ticked last.
    pub(crate) asked: u32,
    pub(crate) is_proposing: bool,
    pub(crate) is_leading: bool,
    /// Whether the attempt is the first since the last one ended, so that it is known when what comes of it was asked.
    pub(crate) is_first: bool,
    /// Whether an attempt was refused since the clock ticked last, so that the next begins when the hold is over.
    pub(crate) is_refused: bool,
    /// Whether the next attempt follows soon on one that was refused, and whether the last did.
    pub(crate) is_quick: bool,
    pub(crate) was_quick: bool,
    pub(crate) is_behind: bool,
    pub(crate) is_ending: bool,
    ghost trips: { trip ≤ 4000000 },
    ghost answers: { answer ≤ 4000000 },
    ghost asking: { asks ≤ ticked + 1000000 },
    ghost resting: { rest ≤ ticked + 800000 },
}
