//! Worked cases of the replicated log, computed on the definitions: whole runs, message by message, and single steps.
ghost use Rattle.px_model.specs.Cases.{ANackDropsItsOwn, APromiseBinds, APromiseCountsOnce, AClientIsAnswered};
ghost use Rattle.px_model.specs.Cases.{NothingAfterTheLastPosition, RefusalsComeInOrder, TheClockMakesProposals};
ghost use Rattle.px_model.specs.Cases.{TheLearnedEntryLeaves, VotesCountInTheWindow};
ghost use Rattle.px_model.specs.FitsCases.{BallotsThatFit, OthersThatFit, RowsThatFit};
ghost use Rattle.px_model.specs.MoreCases.{AProposalFromNothing, ALeadComesToTheFront, APromiseHereBindsToo};
ghost use Rattle.px_model.specs.MoreCases.{TheBordersAreExact, LearningLetsGo, NeedIsAnswered, NothingIsLearnedTwice};
ghost use Rattle.px_model.specs.MoreCases.{AStopKeepsWhatWasRecorded};
ghost use Rattle.px_model.specs.ProgressCases.{AMajorityFinishes, TheLawsApply};
ghost use Rattle.px_model.specs.Worked.{ALaterBallotTakesTheAcceptedEntry, AVoteCountsOnceAMember};
ghost use Rattle.px_model.specs.Worked.{WhatWasLearnedIsKept, AStopAfterTheRound, LearnedOutOfOrder};
ghost use Rattle.px_model.specs.Worked.{NoLeadBelowACountedTop};

/// A member that begins a later ballot proposes the entry that was accepted before, and its own at the next position.
pub fn a_later_ballot_takes_the_accepted_entry()
    ensures { ALaterBallotTakesTheAcceptedEntry }
{}

/// Of four members three are a majority, and a vote that comes again is none the more.
pub fn a_vote_counts_once_a_member()
    ensures { AVoteCountsOnceAMember }
{}

/// What a member learned as it stopped is in its record; what it would have learned is not, and votes can come again.
pub fn what_was_learned_is_kept()
    ensures { WhatWasLearnedIsKept }
{}

/// A round and a number that were recorded are not used again after a restart, and a second asking is another entry.
pub fn a_stop_after_the_round()
    ensures { AStopAfterTheRound }
{}

/// A member learns a later position before an earlier one, and the front waits for the earlier.
pub fn learned_out_of_order()
    ensures { LearnedOutOfOrder }
{}

/// A ballot is not used without a prepare request where a promise reported an accepted entry.
pub fn no_lead_below_a_counted_top()
    ensures { NoLeadBelowACountedTop }
{}

/// A command is refused with 60 before 62, and the clock with 61; what is refused is exactly what is spent.
pub fn refusals_come_in_order()
    ensures { RefusalsComeInOrder }
{}

/// When every position is learned, a command is refused with 62 and the clock does nothing.
pub fn nothing_after_the_last_position()
    ensures { NothingAfterTheLastPosition }
{}

/// A client is answered with the entry's number, or the refusal.
pub fn a_client_is_answered()
    ensures { AClientIsAnswered }
{}

/// The clock asks for what is missing, begins a round, or uses a lead that has reached the front and no other.
pub fn the_clock_makes_proposals()
    ensures { TheClockMakesProposals }
{}

/// A promise binds at its position or at all of them, and a prepare request that comes again is refused.
pub fn a_promise_binds()
    ensures { APromiseBinds }
{}

/// A member's promise counts once, its top with it; of the reported proposals the highest is taken, the earlier of two.
pub fn a_promise_counts_once()
    ensures { APromiseCountsOnce }
{}

/// A refusal drops the attempt of its ballot and position and the lead of its ballot, and its round is remembered.
pub fn a_nack_drops_its_own()
    ensures { ANackDropsItsOwn }
{}

/// Votes count at the 64 positions from the front on, and only those of one ballot make a majority.
pub fn votes_count_in_the_window()
    ensures { VotesCountInTheWindow }
{}

/// A learned entry leaves those that wait, and another with its origin and number stays.
pub fn the_learned_entry_leaves()
    ensures { TheLearnedEntryLeaves }
{}

/// From its first record on a member records a number, then a round, asks all for promises, and proposes by a majority.
pub fn a_proposal_from_nothing()
    ensures { AProposalFromNothing }
{}

/// What is missed is sent where it was learned, and nowhere else.
pub fn need_is_answered()
    ensures { NeedIsAnswered }
{}

/// A learning drops an attempt and forgets votes below the new front; lead, round heard of and later votes stay.
pub fn learning_lets_go()
    ensures { LearningLetsGo }
{}

/// Where something is learned, a vote and a telling do nothing.
pub fn nothing_is_learned_twice()
    ensures { NothingIsLearnedTwice }
{}

/// A promise at one position binds every request there, and what was accepted there is reported and kept.
pub fn a_promise_here_binds_too()
    ensures { APromiseHereBindsToo }
{}

/// A lead that lags behind the front is used at it, and a refusal of another ballot leaves the lead.
pub fn a_lead_comes_to_the_front()
    ensures { ALeadComesToTheFront }
{}

/// Votes are kept up to the last position, and the top is behind the last accepted proposal, whatever is promised.
pub fn the_borders_are_exact()
    ensures { TheBordersAreExact }
{}

/// A stop after a request was recorded has asked it, a refused one stops too, and who is stopped takes nothing.
pub fn a_stop_keeps_what_was_recorded()
    ensures { AStopKeepsWhatWasRecorded }
{}

/// A ballot has a round from 1 to 2^48-1 and a member; a proposal's is the sender's, an answer's the addressee's.
pub fn ballots_that_fit()
    ensures { BallotsThatFit }
{}

/// Positions end at 999,999 and tops at 1,000,000; entries are members' own, and only a client asks and is answered.
pub fn others_that_fit()
    ensures { OthersThatFit }
{}

/// A record has rounds and numbers that aren't past the last, promises of members, and nothing accepted above them.
pub fn rows_that_fit()
    ensures { RowsThatFit }
{}

/// A refused member learns of the higher round, proposes what another had accepted there, and then its own entry.
pub fn a_majority_finishes()
    ensures { AMajorityFinishes }
{}

/// The premises of the laws of progress hold after one event, a request to a member.
pub fn the_laws_apply()
    ensures { TheLawsApply }
{}
