//! The worked runs on members in code, with the messages' numbers, and runs of single members beside plain records.
//!
//! A run is text: a line `= MEMBERS NAME`, and behind it its steps. So a step costs no proof, and one function holds
//! the members.
use crate::bus::Bus;
use crate::step::step;
use std::alloc::Global;

/// Runs of members that hear each other.
const RUNS: &str = "\
= 4 a_vote_counts_once_a_member
ask 0 7
tick 0
deliver 0 1 2 4 5
sent 7
deliver 6 7 8 9
sent 23
line 0 0>0 prepareall b1.0 p0
line 3 0>3 prepareall b1.0 p0
line 4 0>0 promiseall b1.0 p0 none t0
line 6 2>0 promiseall b1.0 p0 none t0
line 7 0>0 accept b1.0 p0 e0.0
line 10 0>3 accept b1.0 p0 e0.0
line 11 0>0 vote b1.0 p0 e0.0
line 15 1>0 vote b1.0 p0 e0.0
line 22 2>3 vote b1.0 p0 e0.0
deliver 11
front 0 0
deliver 15
front 0 0
deliver 15
front 0 0
deliver 19
front 0 1
= 3 a_later_ballot_takes_the_accepted_entry
ask 0 7
ask 1 8
tick 0
deliver 0 1 3 4 5
tick 1
deliver 11 13 15 14
sent 19
line 14 0>1 promiseall b1.1 p0 b1.0 e0.0 t1
line 15 2>1 promiseall b1.1 p0 none t0
line 16 1>0 accept b1.1 p0 e0.0
line 17 1>1 accept b1.1 p0 e0.0
line 18 1>2 accept b1.1 p0 e0.0
= 3 learned_out_of_order
ask 0 7
ask 0 8
tick 0
deliver 0 1 3 4 5 6 8 11
front 0 1
tick 0
line 14 0>0 accept b1.0 p1 e0.1
deliver 14 15 19 22
front 2 0
unlearned 2 0
learned 2 1 0 1 11
deliver 10 13
front 2 2
= 3 no_lead_below_a_counted_top
ask 0 7
ask 0 8
ask 1 9
tick 0
deliver 0 1 3 4 5 6 8 11
tick 0
deliver 14
tick 1
deliver 20 21 23 24 25 26 29 32
front 1 1
tick 1
deliver 34 35 37 38
line 25 1>0 accept b1.1 p0 e0.0
line 34 1>0 prepareall b2.1 p1
line 37 0>1 promiseall b2.1 p1 b1.0 e0.1 t2
line 39 1>0 accept b2.1 p1 e0.1";

// Ballot 257 is that of round 1 of member 1, and 256 that of member 0.
/// Runs in which what arrives at the first member is made by hand.
const SINGLE: &str = "\
= 3 a_promise_counts_once
ask 0 7
meta 0 1
tick 0
meta 1 1
promiseall 1
sent 3
promiseall 1
sent 3
promiseall 2
sent 6
line 0 0>0 prepareall b1.0 p0
line 1 0>1 prepareall b1.0 p0
line 2 0>2 prepareall b1.0 p0
line 3 0>0 accept b1.0 p0 e0.0
line 4 0>1 accept b1.0 p0 e0.0
line 5 0>2 accept b1.0 p0 e0.0
= 3 a_promise_binds
promised 257
accept
prepare 257
sent 2
line 0 0>0 nack b1.0 p0 b1.1
line 1 0>1 nack b1.1 p0 b1.1
unaccepted
deliver 0
ask 0 7
tick 0
line 2 0>0 prepareall b2.0 p0
= 3 refusals_come_in_order
asked 0 1
numbers 281474976710655 1
refused 61
numbers 281474976710655 281474976710656
asked 62 1
numbers 281474976710655 1
asked 0 63
asked 60 1
= 3 votes_count_in_the_window
vote 1 64
unlearned 0 64
vote 2 64
unlearned 0 64
vote 1 63
unlearned 0 63
vote 2 63
learned 0 63 0 0 11
front 0 0
= 3 what_was_learned_is_reported
remember
front 0 1
learned 0 0 2 5 11
need 1 0
need 1 1
sent 1
line 0 0>1 learned p0 e2.5
deliver 0
front 1 1
= 1 a_restart_in_place_keeps_what_was_learned
ask 0 7
tick 0
deliver 0 1 2 3
front 0 1
ask 0 8
forget
front 0 1
tick 0
line 4 0>0 need p1
= 3 a_client_is_answered
outside
line 0 0>255 asked 9 0
numbers 0 281474976710656
outside
line 1 0>255 askrefused 9 62";

/// The first line of the run that isn't so, or nothing.
fn wrong_line<'a>(alloc: Global, bus: &mut Bus, lines: &'a str) -> &'a str {
    for line in lines.lines() {
        if !step(alloc, bus, line) {
            return line;
        }
    }
    ""
}

/// A run with its members: its first line that isn't so, or nothing.
fn wrong_in(alloc: Global, run: &str) -> &str {
    let (name, lines) = run.split_once('\n').unwrap_or((run, ""));
    let (members, _) = name.split_once(' ').unwrap_or((name, ""));
    let mut bus = Bus::new(alloc);
    if bus.join(members.parse::<u8>().unwrap_or(0)) {
        wrong_line(alloc, &mut bus, lines)
    } else {
        name
    }
}

/// Each run of a script: how many there are, and the first line that isn't so, or nothing.
fn play(alloc: Global, text: &str) -> (usize, &str) {
    let mut count = 0usize;
    for run in text.split("= ").skip(1) {
        count = count.saturating_add(1);
        let wrong = wrong_in(alloc, run);
        if !wrong.is_empty() {
            return (count, wrong);
        }
    }
    (count, "")
}

#[test]
fn worked_runs(rt: HostRuntime) {
    assert_eq!(rt; play(rt.alloc(), RUNS), (4, ""));
}

#[test]
fn runs_of_single_members(rt: HostRuntime) {
    assert_eq!(rt; play(rt.alloc(), SINGLE), (7, ""));
}
