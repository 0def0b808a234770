//! Who is heard, on standard error.

ghost use Rattle.std.specs.Prelude.{◌≡◌, ◌||◌};
ghost use Rattle.node_control.specs.Observers.{unheard};
ghost use Rattle.node_control.specs.inner.Hearing.{after_round, all_heard, count_heard, heard_by, is_within, judged};
ghost use Rattle.node_control.specs.inner.Hearing.{said_at, logs_caught_up, logs_end, with_end, with_lack};

use node_loop::RoundCounts;
use px_wire::{Head, Membership};
use std::io::Eprint;

/// After how many seconds without a majority's datagrams a warning is written.
const QUIET: u64 = 10;

/// For how many seconds a node has to lack what others have, that it is written when it has caught up.
const LACKING: u64 = 3;

/// From this position on a warning is written that the log nears its end.
const NEAR_THE_END: u32 = 900_000;

/// How many positions there are.
const POSITIONS: u32 = 1_000_000;

/// The most members.
const MEMBERS: usize = px_wire::MEMBERS as usize;

/// What is to be looked at where others aren't heard.
const ADVICE: &str =
    "Check that they run, and that all have the same key, cluster and list of members.";

/// Warns once on standard error when, for ten seconds, valid datagrams have come from too few members to form a
/// majority with this one; and reports when a majority is heard again. So a node whose key, cluster, number or list of
/// members isn't that of the others can be distinguished from one that works. It also reports when the node has caught
/// up that lacked what others have, and warns once that others are at positions near the end of the log. Times are in
/// microseconds since the start.
#[derive(Clone, Copy)]
pub(crate) struct Hearing {
    m: Membership,
    /// When each member was heard last, or the start.
    heard: [u64; MEMBERS],
    /// Whether it was written that no majority is heard.
    is_said: bool,
    /// How many datagrams came since a member was heard that are no member's.
    others: u64,
    /// Since when the node lacks what others have.
    lacking: Option<u64>,
    /// Whether it was written that the log nears its end.
    is_ending: bool,
    /// Whether only warnings are written.
    is_quiet: bool,
}

/// What is written of the members that are heard.
#[derive(Clone, Copy, PartialEq, Eq)]
enum Said {
    /// Nothing.
    Nothing,
    /// That this number of other members is heard, no majority.
    Alone(u8),
    /// That a majority is heard again.
    Again,
}

/// Whether fewer seconds have passed since then.
fn is_within(since: u64, now: u64, seconds: u64) -> bool
    ensures { result ≡ is_within since now seconds }
{
    now.saturating_sub(since) / 1_000_000 < seconds
}

impl Hearing {
    /// Nobody was heard yet.
    pub(crate) fn new(m: Membership, is_quiet: bool) -> Hearing
        ensures { result ≡ unheard m is_quiet }
    {
        Hearing {
            m,
            heard: [0; MEMBERS],
            is_said: false,
            others: 0,
            lacking: None,
            is_ending: false,
            is_quiet,
        }
    }

    /// How many other members were heard lately.
    fn count_heard(&self, now: u64) -> u8
        ensures { result ≡ count_heard now self.now }
    {
        let mut count = 0u8;
        for member in 0..self.m.members() {
            if let Some(since) = self.heard.get(usize::from(member)) {
                if member != self.m.me() && is_within(*since, now, QUIET) {
                    count = count.saturating_add(1);
                }
            }
        }
        count
    }

    /// What is to be written of the members that are heard, if anything: that a majority is heard no longer, or again.
    /// It is noted.
    fn judge(&mut self, now: u64) -> Said
        ensures said { result ≡ said_at now self.old }
        ensures noted { self.new ≡ judged now self.old }
    {
        let heard = self.count_heard(now);
        let is_alone = 2 * (u32::from(heard) + 1) <= u32::from(self.m.members());
        let was_alone = self.is_said;
        self.is_said = is_alone;
        match (is_alone, was_alone) {
            (true, false) => Said::Alone(heard),
            (false, true) if !self.is_quiet => Said::Again,
            _ => Said::Nothing,
        }
    }

    /// Writes that a majority is heard no longer, or again.
    fn log_majority<RT: Eprint>(&mut self, rt: &RT, now: u64)
        ensures { self.new ≡ judged now self.old }
    {
        let me = self.m.me();
        match self.judge(now) {
            Said::Nothing => {}
            Said::Alone(heard) => {
                let _logged = eprintln!(rt;
                    "pfx: warning: node {me} has heard {heard} of {} other members for {} seconds, no majority; {} \
                     datagrams received aren't theirs. {}",
                    self.m.members().saturating_sub(1),
                    QUIET,
                    self.others,
                    ADVICE
                );
            }
            Said::Again => {
                let _logged = eprintln!(rt; "pfx: info: node {me} hears a majority again");
            }
        }
    }

    /// Whether it is to be written that a member's message is of a position near the end of the log, which is noted.
    fn nears_end(&mut self, head: &Head) -> bool
        ensures said { result ≡ logs_end head.now self.old }
        ensures noted { self.new ≡ with_end head.now self.old }
    {
        if head.from == self.m.me() || head.from >= self.m.members() || self.is_ending {
            return false;
        }
        self.is_ending = head.position.unwrap_or(0) >= NEAR_THE_END;
        self.is_ending
    }

    /// Writes, once, that others are at a position near the end of the log.
    fn log_end<RT: Eprint>(&mut self, rt: &RT, head: &Head)
        ensures { self.new ≡ with_end head.now self.old }
    {
        if self.nears_end(head) {
            let (me, position) = (self.m.me(), head.position.unwrap_or(0));
            let left = POSITIONS.saturating_sub(position);
            let _logged = eprintln!(rt;
                "pfx: warning: node {me} hears of position {position}: {left} are left in the log; set up a successor"
            );
        }
    }

    /// Notes who sent a message with this head.
    fn note(&mut self, head: &Head, now: u64)
        ensures { self.new ≡ heard_by now head.now self.old }
    {
        if head.from == self.m.me() {
            return;
        }
        if head.from >= self.m.members() {
            self.others = self.others.saturating_add(1);
            return;
        }
        let place = usize::from(head.from);
        if place < MEMBERS {
            self.heard[place] = now;
        }
        self.others = 0;
    }

    /// Looks at what came in a round, at this time: the messages with these heads, and other datagrams.
    pub(crate) fn look<E: Eprint>(&mut self, rt: &E, heads: &[Head], counts: &RoundCounts, now: u64)
        ensures { self.new ≡ judged now (after_round now heads.now counts.now self.old) }
    {
        let known = u64::from(counts.answered).saturating_add(heads.len() as u64);
        let others = u64::from(counts.came).saturating_sub(known);
        self.others = self.others.saturating_add(others);
        for head in heads {
            self.log_end(rt, head);
            self.note(head, now);
        }
        self.log_majority(rt, now);
    }

    /// Whether it is to be written that the node has caught up, since it lacked for long what others have. Since when
    /// it lacks that is noted.
    fn catches_up(&mut self, is_lacking: bool, now: u64) -> bool
        ensures said { result ≡ logs_caught_up is_lacking now self.old.lacking self.old.is_quiet }
        ensures noted { self.new ≡ with_lack is_lacking now self.old }
    {
        let Some(since) = self.lacking else {
            if is_lacking {
                self.lacking = Some(now);
            }
            return false;
        };
        if is_lacking {
            return false;
        }
        self.lacking = None;
        !self.is_quiet && !is_within(since, now, LACKING)
    }

    /// Writes that the node has caught up, if it lacked for long what others have.
    pub(crate) fn note_lack<RT: Eprint>(&mut self, rt: &RT, is_lacking: bool, now: u64)
        ensures { self.new ≡ with_lack is_lacking now self.old }
    {
        if self.catches_up(is_lacking, now) {
            let _logged = eprintln!(rt; "pfx: info: node {} has caught up", self.m.me());
        }
    }
}
