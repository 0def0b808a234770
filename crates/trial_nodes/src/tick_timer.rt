//! When a node's clock ticks.

use node_loop::{Action, TickTimer, Timer, View};

/// A node with nothing to do.
const IDLE: View = View {
    waiting: 0,
    is_attempting: false,
    is_leading: false,
    front: 0,
    has_learned: false,
    reached: 0,
};

/// One with a command that waits.
const WAITING: View = View { waiting: 1, ..IDLE };

/// One whose command is being proposed.
const ATTEMPTING: View = View {
    is_attempting: true,
    ..WAITING
};

/// One with a command that waits, to which a majority has promised.
const LEADING: View = View {
    is_leading: true,
    ..WAITING
};

/// One whose accept requests have gone out.
const ACCEPTING: View = View {
    is_leading: true,
    ..ATTEMPTING
};

/// The same once a command is learned, with another that waits.
const LEARNED: View = View {
    front: 1,
    ..LEADING
};

/// One that lacks two entries, of which it has just been sent one.
const TOLD: View = View {
    front: 7,
    has_learned: true,
    reached: 9,
    ..IDLE
};

/// One with a command that waits, which lacks entries.
const BEHIND: View = View {
    front: 3,
    reached: 9,
    ..WAITING
};

/// A time in microseconds, what is seen of a node then, and what its timer does.
type Row = (u64, View, Action);

/// Whether the timer does that at that time.
fn acts(timer: &mut TickTimer, row: &Row) -> bool {
    let (now, view, wanted) = *row;
    timer.action(now, view) == wanted
}

/// Whether the timer does each, one after the other.
fn act(timer: &mut TickTimer, rows: &[Row]) -> bool {
    for row in rows {
        if !acts(timer, row) {
            return false;
        }
    }
    true
}

/// Whether the timer of the member with this number does.
fn is_so(me: u8, rows: &[Row]) -> bool {
    let mut timer = TickTimer::new(me);
    act(&mut timer, rows)
}

/// Whether what was sent is sent again from this time on.
fn is_due(timer: &mut TickTimer, from: u64) -> bool {
    !timer.repeats(from.saturating_sub(1)) && timer.repeats(from)
}

static ONCE_A_SECOND: [Row; 6] = [
    (0, IDLE, Action::Tick),
    (1, IDLE, Action::Wait(100)),
    (990_500, IDLE, Action::Wait(10)),
    (999_999, IDLE, Action::Wait(1)),
    (1_000_000, IDLE, Action::Tick),
    (1_000_001, IDLE, Action::Wait(100)),
];

#[test]
fn an_idle_node_asks_at_its_start_and_then_once_a_second(rt: HostRuntime) {
    assert!(rt; is_so(0, &ONCE_A_SECOND));
}

static AT_ONCE: [Row; 1] = [(5, WAITING, Action::Tick)];

#[test]
fn a_waiting_command_is_proposed_at_once(rt: HostRuntime) {
    assert!(rt; is_so(2, &AT_ONCE));
}

static THE_NEXT: [Row; 2] = [(0, IDLE, Action::Tick), (5, TOLD, Action::Tick)];

#[test]
fn after_a_learned_entry_the_next_is_asked_at_once(rt: HostRuntime) {
    assert!(rt; is_so(2, &THE_NEXT));
}

static LATER: [Row; 6] = [
    (0, WAITING, Action::Tick),
    // four trips of 20 ms, and 20 ms more
    (99_999, ATTEMPTING, Action::Wait(1)),
    (100_000, ATTEMPTING, Action::Tick),
    (299_999, ATTEMPTING, Action::Wait(1)),
    (300_000, ATTEMPTING, Action::Tick),
    (699_999, ATTEMPTING, Action::Wait(1)),
];

#[test]
fn a_lost_attempt_is_begun_anew_later_each_time(rt: HostRuntime) {
    assert!(rt; is_so(0, &LATER));
}

/// One with a command that waits and another that was learned.
const NEXT_WAITS: View = View {
    front: 1,
    ..WAITING
};

/// One that proposes the command behind one that was learned.
const NEXT_ATTEMPT: View = View {
    front: 1,
    ..ATTEMPTING
};

static BEGUN_ANEW: [Row; 5] = [
    (0, WAITING, Action::Tick),
    (100_000, ATTEMPTING, Action::Tick),
    // what was asked first is learned 50 ms after it was asked again: the patience stays doubled
    (150_000, NEXT_WAITS, Action::Tick),
    (349_999, NEXT_ATTEMPT, Action::Wait(1)),
    (350_000, NEXT_ATTEMPT, Action::Tick),
];

#[test]
fn what_was_begun_anew_measures_nothing(rt: HostRuntime) {
    assert!(rt; is_so(0, &BEGUN_ANEW));
}

/// Whether the timer ticks each four seconds, 20 times.
fn ticks(timer: &mut TickTimer) -> bool {
    for count in 1..21u64 {
        if timer.action(count * 4_000_000, ATTEMPTING) != Action::Tick {
            return false;
        }
    }
    true
}

static JUST_BEFORE: Row = (83_999_999, ATTEMPTING, Action::Wait(1));

#[test]
fn it_is_begun_anew_after_four_seconds_at_the_latest(rt: HostRuntime) {
    let mut timer = TickTimer::new(0);
    assert!(rt; act(&mut timer, &BEGUN) && ticks(&mut timer) && acts(&mut timer, &JUST_BEFORE));
}

static REFUSED: [Row; 9] = [
    (0, WAITING, Action::Tick),
    (1_000, ATTEMPTING, Action::Wait(100)),
    // the attempt is gone, and nothing was learned: two eighths of 20 ms, as drawn
    (2_000, WAITING, Action::Wait(6)),
    (6_999, WAITING, Action::Wait(1)),
    (7_000, WAITING, Action::Tick),
    (8_000, ATTEMPTING, Action::Wait(100)),
    // so is the next: eleven sixteenths of 88 ms, twice
    (30_000, WAITING, Action::Wait(100)),
    (150_999, WAITING, Action::Wait(1)),
    (151_000, WAITING, Action::Tick),
];

#[test]
fn who_is_refused_tries_again_soon_and_the_second_time_keeps_still(rt: HostRuntime) {
    assert!(rt; is_so(1, &REFUSED));
}

static LEAD_LOST: [Row; 5] = [
    (0, WAITING, Action::Tick),
    (1_000, ACCEPTING, Action::Wait(21)),
    // a majority had promised within 1 ms, so an answer is taken to take 10.5: ten sixteenths of 50 ms, twice
    (2_000, WAITING, Action::Wait(63)),
    (64_499, WAITING, Action::Wait(1)),
    (64_500, WAITING, Action::Tick),
];

#[test]
fn who_lost_the_lead_keeps_still(rt: HostRuntime) {
    assert!(rt; is_so(1, &LEAD_LOST));
}

static RESTING: [Row; 5] = [
    (0, IDLE, Action::Tick),
    (1_000, WAITING, Action::Wait(4)),
    (3_999, WAITING, Action::Wait(1)),
    (4_000, WAITING, Action::Tick),
    (4_001, LEARNED, Action::Tick),
];

#[test]
fn the_clock_rests_for_a_fifth_of_a_round_trip_while_the_front_stays(rt: HostRuntime) {
    assert!(rt; is_so(0, &RESTING));
}

static FILLING: [Row; 3] = [
    (10, BEHIND, Action::Wait(22)),
    (21_009, BEHIND, Action::Wait(1)),
    (21_010, BEHIND, Action::Tick),
];

#[test]
fn who_lacks_a_few_entries_fills_the_gap_soon(rt: HostRuntime) {
    assert!(rt; is_so(0, &FILLING));
}

/// One with a command that waits, which has got fifteen entries of many that it lacks.
const GOT_SOME: View = View {
    front: 18,
    reached: 99,
    ..BEHIND
};

/// The same with sixteen.
const GOT_MANY: View = View {
    front: 19,
    ..GOT_SOME
};

static MANY: [Row; 4] = [
    (10, BEHIND, Action::Wait(22)),
    (21_010, BEHIND, Action::Tick),
    (25_000, GOT_SOME, Action::Wait(19)),
    (26_000, GOT_MANY, Action::Tick),
];

#[test]
fn who_has_got_many_of_those_it_lacks_proposes_at_once(rt: HostRuntime) {
    assert!(rt; is_so(0, &MANY));
}

/// One that leads, and lacks many entries.
const LEADING_BEHIND: View = View {
    is_leading: true,
    front: 4,
    reached: 99,
    ..BEHIND
};

static GOING_ON: [Row; 3] = [
    (10, BEHIND, Action::Wait(22)),
    (21_010, BEHIND, Action::Tick),
    (22_000, LEADING_BEHIND, Action::Tick),
];

#[test]
fn who_leads_and_lacks_many_goes_on_at_once(rt: HostRuntime) {
    assert!(rt; is_so(0, &GOING_ON));
}

static PAUSE: [Row; 6] = [
    (0, WAITING, Action::Tick),
    (1_000, ACCEPTING, Action::Wait(21)),
    (2_000, WAITING, Action::Wait(63)),
    // eight eighths of four answers
    (3_000, NEXT_WAITS, Action::Wait(42)),
    (44_983, NEXT_WAITS, Action::Wait(1)),
    (44_984, NEXT_WAITS, Action::Tick),
];

#[test]
fn a_pause_ends_soon_where_the_front_moves(rt: HostRuntime) {
    assert!(rt; is_so(1, &PAUSE));
}

#[test]
fn no_command_is_accepted_at_the_start(rt: HostRuntime) {
    let timer = TickTimer::new(0);
    assert!(rt; timer.is_listening(199_999) && !timer.is_listening(200_000));
}

static LEADS: Row = (2_000_000, LEADING, Action::Tick);

static IS_TOLD: Row = (2_075_000, TOLD, Action::Tick);

#[test]
fn what_may_be_lost_is_sent_again(rt: HostRuntime) {
    let mut timer = TickTimer::new(0);
    assert!(rt; !timer.repeats(1_000_000) && acts(&mut timer, &LEADS));
    // one and a half times 20 ms, and 5 ms more; then an answer is taken to take a 32nd longer, 20.625 ms
    assert!(rt; is_due(&mut timer, 2_035_000) && is_due(&mut timer, 2_070_937));
    // the position is learned
    assert!(rt; acts(&mut timer, &IS_TOLD) && !timer.repeats(9_000_000));
}

/// An attempt is begun.
static BEGUN: [Row; 1] = [(0, WAITING, Action::Tick)];

/// It is promised after 4 ms: 12 ms is half of 20 and of 4, so it is sent again 18 and 5 ms later.
static PROMISED: [Row; 2] = [
    (0, WAITING, Action::Tick),
    (4_000, ACCEPTING, Action::Wait(24)),
];

/// It is learned, 2 ms after the accept requests went out.
static IS_LEARNED: Row = (6_000, LEARNED, Action::Tick);

#[test]
fn how_long_an_answer_takes_is_learned_from_promises(rt: HostRuntime) {
    let mut timer = TickTimer::new(0);
    assert!(rt; act(&mut timer, &PROMISED) && is_due(&mut timer, 27_000));
}

#[test]
fn how_long_an_answer_takes_is_learned_from_votes(rt: HostRuntime) {
    let mut timer = TickTimer::new(0);
    assert!(rt; act(&mut timer, &PROMISED) && acts(&mut timer, &IS_LEARNED));
    // 7 ms is half of 12 and of 2
    assert!(rt; is_due(&mut timer, 21_500));
}

static LEARNED_LATE: Row = (28_000, LEARNED, Action::Tick);

#[test]
fn what_was_sent_again_gives_no_answers_time(rt: HostRuntime) {
    let mut timer = TickTimer::new(0);
    assert!(rt; act(&mut timer, &PROMISED) && timer.repeats(27_000));
    // 12 ms and a 32nd, 12.375, as before; so 18.562 and 5 ms later
    assert!(rt; acts(&mut timer, &LEARNED_LATE) && is_due(&mut timer, 51_562));
}

#[test]
fn what_another_proposed_meanwhile_gives_no_answers_time(rt: HostRuntime) {
    let mut timer = TickTimer::new(0);
    assert!(rt; act(&mut timer, &PROMISED));
    timer.sent(5_000);
    // 12 ms as before
    assert!(rt; acts(&mut timer, &IS_LEARNED) && is_due(&mut timer, 29_000));
}

static ANEW: [Row; 3] = [
    (0, WAITING, Action::Tick),
    (100_000, ATTEMPTING, Action::Tick),
    // 35 ms is half of 20 and of 50
    (150_000, ACCEPTING, Action::Wait(58)),
];

#[test]
fn promises_of_a_round_begun_anew_give_an_answers_time(rt: HostRuntime) {
    let mut timer = TickTimer::new(0);
    assert!(rt; act(&mut timer, &ANEW) && is_due(&mut timer, 207_500));
}

/// Answers of half a millisecond alone are seen.
fn see_quick_answers(timer: &mut TickTimer) {
    for front in 0..40u32 {
        let view = View { front, ..LEADING };
        let _action = timer.action(u64::from(front) * 500, view);
    }
}

/// It is sent again 64 times, a second apart, the last time 64.02 s after the start.
fn send_again(timer: &mut TickTimer) {
    for count in 1..65u64 {
        let _is_due = timer.repeats(20_000 + count * 1_000_000);
    }
}

/// One that leads, and has learned many.
const LEARNED_MANY: View = View {
    front: 99,
    ..LEADING
};

static MISTAKEN: Row = (64_020_000, LEARNED_MANY, Action::Tick);

#[test]
fn an_answers_time_that_was_too_short_grows(rt: HostRuntime) {
    let mut timer = TickTimer::new(0);
    see_quick_answers(&mut timer);
    send_again(&mut timer);
    assert!(rt; acts(&mut timer, &MISTAKEN));
    // from half a millisecond to more than 3
    assert!(rt; !timer.repeats(64_029_500) && timer.repeats(64_031_000));
}

static ASKED_FOR: [Row; 6] = [
    (0, WAITING, Action::Tick),
    (4_000, ACCEPTING, Action::Wait(24)),
    // the attempt took 44 ms, an answer 40 of them: 32 and 26
    (44_000, LEARNED, Action::Tick),
    // the lead is lost: four answers and 20 ms
    (44_100, NEXT_ATTEMPT, Action::Wait(44)),
    (167_999, NEXT_ATTEMPT, Action::Wait(1)),
    (168_000, NEXT_ATTEMPT, Action::Tick),
];

#[test]
fn promises_that_are_lost_are_asked_for_soon(rt: HostRuntime) {
    assert!(rt; is_so(0, &ASKED_FOR));
}

/// One that lacks many entries.
const LACKING: View = View {
    front: 3,
    reached: 99,
    ..IDLE
};

/// One that has got fifteen of them.
const LACKING_FEWER: View = View {
    front: 18,
    ..LACKING
};

/// One that has got sixteen.
const LACKING_STILL: View = View {
    front: 19,
    ..LACKING
};

static ASKING_ON: [Row; 3] = [
    (0, LACKING, Action::Tick),
    (1_000, LACKING_FEWER, Action::Wait(22)),
    (2_000, LACKING_STILL, Action::Tick),
];

#[test]
fn who_lacks_entries_asks_on_after_16(rt: HostRuntime) {
    assert!(rt; is_so(0, &ASKING_ON));
}

#[test]
fn no_command_is_accepted_at_the_end(rt: HostRuntime) {
    let mut timer = TickTimer::new(0);
    assert!(rt; !timer.is_listening(200_000));
    timer.end();
    assert!(rt; timer.is_listening(200_000));
}

#[test]
fn it_is_sent_again_64_times_at_most(rt: HostRuntime) {
    let mut timer = TickTimer::new(0);
    timer.sent(0);
    let mut times = 0u32;
    for now in 1..100u64 {
        if timer.repeats(now * 1_000_000) {
            times = times.saturating_add(1);
        }
    }
    assert!(rt; times == 64);
}
