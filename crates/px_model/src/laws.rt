//! What holds of every run of the replicated log, whatever its messages and members meet.
ghost use Rattle.px_model.specs.Seen.{ReadsSuffice};
ghost use Rattle.px_model.specs.Reach.{AlwaysInReach, FrontsStay, TicksLearnNothing};
ghost use Rattle.px_model.specs.Rising.{StepsRise};
ghost use Rattle.px_model.specs.Progress.{AllLearn, CatchesUp, NeverStuck};
ghost use Rattle.px_model.specs.Fits.{AlwaysFits, PartsStepsFit, StartsFit, StepsFit};
ghost use Rattle.px_model.specs.Law.{AlwaysAgree, AlwaysKept, AlwaysOnce, AlwaysSameState};

/// The members agree: for 1 to 15 members, whatever messages are lost, repeated, delayed or reordered, and wherever
/// members stop and restart, what was ever learned at a position is one entry. It was chosen there, by the votes of a
/// majority in one ballot, and somebody asked it; and at most one entry is chosen at a position.
///
/// Source: Paxos Made Simple, 2.1.
pub fn agreement<C>()
    ensures { AlwaysAgree C }
{}

/// Each command acts once: no entry is learned at two positions, by whichever members, and each asking that records
/// its number makes an entry that was never asked before, across restarts too.
///
/// Source: Paxos Made Simple, 2.5 and 3, for what is recorded; the numbers of entries are this project's own.
pub fn once<C>()
    ensures { AlwaysOnce C }
{}

/// Nothing learned is lost: at every moment a member's record has what the member ever learned, at its position, and
/// nothing else as learned.
///
/// Source: Paxos Made Simple, 2.5, for stable storage; that a member keeps what it learned is this project's own.
pub fn kept<C>()
    ensures { AlwaysKept C }
{}

/// Equal logs give equal states: members that have learned all of the first k positions, at whatever moments of a run,
/// make the same state of them, by any function `S × entry → S` and from any first state.
///
/// Source: Paxos Made Simple, 3: all servers execute the same sequence of commands.
pub fn same_state<C, S>()
    ensures { AlwaysSameState C S }
{}

/// Logs stay short of their fronts: at every moment nothing is learned 64 positions or more past a member's first gap.
///
/// Source: this project's own.
pub fn in_reach<C>()
    ensures { AlwaysInReach C }
{}

/// The clock makes a member learn nothing.
///
/// Source: this project's own.
pub fn ticks_learn_nothing<C>()
    ensures { TicksLearnNothing C }
{}

/// No change of a record moves its front back.
///
/// Source: this project's own.
pub fn fronts_stay<C>()
    ensures { FrontsStay C }
{}

/// A member takes nothing back: each change that it makes goes beyond what its record has. No round is used twice, no
/// promise falls, a request's number is the next, and nothing learned is replaced.
///
/// Source: Paxos Made Simple, 2.2 and 2.5.
pub fn steps_rise<C>()
    ensures { StepsRise C }
{}

/// What a node sends can be spelled: where the parts of a node fit, and what it receives fits, it sends only messages
/// that fit, each in its own name, and its parts fit afterwards. A refusal sends nothing and leaves the node as it was.
/// What fits has its numbers in the ranges of a datagram and commands that pass the test, whichever test that is.
///
/// Source: the datagrams are this project's own.
pub fn steps_fit<C>()
    ensures { StepsFit C }
{}

/// The same where only what a step reads is known to fit, whatever else is stored: the record's numbers, the slot of
/// the input's position, a top, what was learned, the volatile part. What it writes and sends fits, and so do numbers,
/// log and volatile part afterwards.
///
/// Source: as of [`steps_fit`].
pub fn parts_fit<C>()
    ensures { PartsStepsFit C }
{}

/// A member's first record fits, and so does a node that starts with a record that fits.
///
/// Source: as of [`steps_fit`].
pub fn starts_fit<C>()
    ensures { StartsFit C }
{}

/// In every run in which only commands that pass the test are asked, every member fits at every moment, and so does
/// every message that was ever sent to a member, whatever messages and members meet.
///
/// Source: as of [`steps_fit`].
pub fn always_fits<C>()
    ensures { AlwaysFits C }
{}

/// What a step reads is enough: with the record's numbers and log, and as much of its slots and top as the input reads
/// ([`Event::reads`](crate::Event::reads)), it is the step with the whole record, whatever else is handed in.
///
/// Source: this project's own.
pub fn reads_suffice()
    ensures { ReadsSuffice }
{}

/// Never stuck: after any events, if a majority of the members runs and an entry waits at one of them, that member can
/// learn it: by its own ticks, and by messages that these members send each other from then on. No message that was
/// sent before is needed, and the other members may be stopped or cut off for ever. Three ticks and six messages a
/// member are enough for each position from the member's front up to the first from which on no member of the majority
/// accepted anything, and for one more position for each entry that waits before it. These positions must exist, with
/// two rounds for each.
///
/// The law states what can happen, not that it will: it assumes no clock and no fairness.
///
/// Source: Paxos Made Simple, 2.4, for a proposer whose number rises above all others.
pub fn never_stuck<C>()
    ensures { NeverStuck C }
{}

/// The same of all members of such a majority: by their ticks and new messages each can learn the entry, at the one
/// position that [`agreement`] allows.
///
/// Source: as of [`never_stuck`].
pub fn all_learn<C>()
    ensures { AllLearn C }
{}

/// After any events, a running member at which nothing waits can reach the front of any other running member, by its
/// own ticks and by messages that the two send each other from then on: three events a position, with no round and no
/// majority.
///
/// Source: Paxos Made Simple, 2.3, for a learner that misses what was chosen; the messages are this project's own.
pub fn catches_up<C>()
    ensures { CatchesUp C }
{}
