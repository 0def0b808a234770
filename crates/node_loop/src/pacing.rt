//! What the program's timer decides: when the clock ticks, and when what was sent is sent again.

ghost use Rattle.std.specs.Prelude.{◌≡◌, ◌⊎◌, ◌≤◌, ◌<◌, ◌+◌, ◌/◌, true, false, max, nat_le, nat_lt};
ghost use Rattle.node_loop.specs.Pacing.{AreTimes, IfTicks, IfWaits, answer_of, front_of, hold_of, is_listening, later};
ghost use Rattle.node_loop.specs.Timing.{IsShort};
ghost use Rattle.node_loop.specs.Pacing.{IsAsBefore, IsStarted, answered, is_behind_of, is_ending_of, is_proposing_of};
ghost use Rattle.node_loop.specs.Pacing.{latest_of, moved_of, patience_of, repeat_at, rest_of, ticked_of};

use crate::tick_timer::TickTimer;
use crate::timer::{Action, Timer, View};

/// The assumed round-trip time before one was measured, in microseconds.
const FIRST_TRIP: u64 = 20_000;

/// The shortest and the longest assumed round-trip time, in microseconds.
const TRIPS: (u64, u64) = (500, 4_000_000);

/// How long an idle node waits before it asks what it lacks, in microseconds.
const IDLE: u64 = 1_000_000;

/// How long a member that starts waits to hear how far others are before it accepts commands, in microseconds.
const START: u64 = 200_000;

/// How long a node that lacks entries accepts no commands while nothing moves its front, in microseconds.
const BEHIND: u64 = 2_000_000;

/// How long an entry may be on its way behind those that come after it, beside a round trip, in microseconds.
const GAP: u64 = 1_000;

/// The most times in a row that an attempt's loss doubles the patience.
const DOUBLINGS: u32 = 6;

/// The most times in a row that a refusal doubles the pause.
const FEWER_DOUBLINGS: u32 = 3;

/// The longest time that a loss makes of a shorter one, in microseconds.
const LONGEST: u64 = 4_000_000;

/// How many ticks a round trip has at most while the front stays.
const TICKS: u64 = 5;

/// After how many entries more a node that lacks some asks on.
const STEP: u32 = 16;

/// The most times that what was sent is sent again while nothing moves the front.
const REPEATS: u32 = 64;

/// After how many of them the pause grows.
const SLOWER: u32 = 16;

/// The longest wait, in milliseconds.
const LONGEST_WAIT: u64 = 100;

impl TickTimer {
    /// The timer of a member that starts.
    pub fn new(me: u8) -> TickTimer
        ensures { IsStarted me result }
    {
        TickTimer {
            me,
            ticked: 0,
            asks: 0,
            hold: 0,
            rest: 0,
            moved: 0,
            trip: FIRST_TRIP,
            answer: FIRST_TRIP,
            losses: 0,
            drawn: u64::from(me),
            repeated: 0,
            repeats: REPEATS,
            accepting: 0,
            is_timed: false,
            front: 0,
            asked: 0,
            is_proposing: false,
            is_leading: false,
            is_first: false,
            is_refused: false,
            is_quick: false,
            was_quick: false,
            is_behind: false,
            is_ending: false,
        }
    }

    /// The accept requests of an attempt were sent.
    fn accept(&mut self, now: u64)
        ensures times { AreTimes self.old self.new }
        ensures as_before { IsAsBefore self.old self.new }
        ensures me { self.new.me ≡ self.old.me }
        ensures measured { (self.new.trip ≡ self.old.trip) × (self.new.answer ≡ self.old.answer) }
        ensures asks { self.new.asks ≡ self.old.asks }
    {
        self.repeated = now;
        self.repeats = 0;
        self.accepting = now;
        self.is_timed = true;
    }

    /// When what was sent is sent again.
    fn next_repeat(&self) -> u64
        ensures { result ≡ repeat_at self.now }
    {
        if self.repeats >= REPEATS {
            return u64::MAX;
        }
        let pause = self
            .answer
            .saturating_add(self.answer / 2)
            .saturating_add(5_000);
        let times = u64::from(self.repeats / SLOWER + 1);
        self.repeated.saturating_add(pause.saturating_mul(times))
    }

    /// What came of the attempt.
    fn look(&mut self, now: u64, view: View)
        ensures hold { self.new.hold ≤ max self.old.hold (now + 4000000) }
        ensures moved { self.new.moved ≤ max self.old.moved now }
        ensures ticked { self.new.ticked ≡ self.old.ticked }
        ensures front { self.new.front ≡ view.front }
        ensures rest { view.front ≡ self.old.front → self.new.rest ≡ self.old.rest }
        ensures kept { (self.old.is_proposing ≡ false) ⊎ (view.is_attempting ≡ true) → self.new.hold ≤ self.old.hold }
        ensures moves { view.front ≡ self.old.front → self.new.moved ≡ self.old.moved }
        ensures as_before { IsAsBefore self.old self.new }
    {
        if view.front != self.front {
            // Whatever was attempted led to something. If it was begun anew meanwhile nobody knows which of them did,
            // and so not how long a round trip is: then the patience stays as long as it has become. In the same way
            // nobody knows how long an answer took to what was sent again.
            if self.is_proposing && self.is_timed {
                self.time_answer(now.saturating_sub(self.accepting));
            }
            if self.is_proposing && self.is_first {
                self.measure(now);
            }
            if !self.is_proposing || self.is_first {
                self.losses = 0;
            }
            // A pause ends soon, but not at once: so who has the lead makes some commits, and those who keep still
            // don't all begin at one moment, when the member of the highest number would win each time.
            self.front = view.front;
            self.moved = now;
            self.drawn = self.draw(now);
            self.hold = self
                .hold
                .min(now.saturating_add(self.soon().saturating_mul(4)));
            self.rest = 0;
            self.repeats = REPEATS;
            self.is_timed = false;
            self.is_proposing = false;
            self.is_refused = false;
            self.is_quick = false;
        } else if self.is_proposing && !view.is_attempting {
            self.is_proposing = false;
            // nothing that was sent so far is to be sent again
            self.repeats = REPEATS;
            self.is_timed = false;
            // the next follows soon where no majority had promised, unless this one was such a next
            self.drawn = self.draw(now);
            self.is_refused = true;
            self.is_quick = !self.is_leading && !self.was_quick;
            let wait = if self.is_quick {
                self.soon()
            } else {
                self.lose();
                self.pause()
            };
            self.hold = now.saturating_add(wait);
        } else if self.is_proposing && view.is_leading && !self.is_leading {
            // a majority has promised, and accept requests went out: promises are of the round that was begun last
            self.time_answer(now.saturating_sub(self.ticked));
            self.accept(now);
        }
        self.is_leading = view.is_leading;
    }

    /// The time of an attempt: a longer one counts half, a shorter one an eighth.
    fn measure(&mut self, now: u64)
        ensures times { AreTimes self.old self.new }
        ensures as_before { IsAsBefore self.old self.new }
    {
        let sample = now.saturating_sub(self.ticked).max(TRIPS.0).min(TRIPS.1);
        self.trip = if sample > self.trip {
            self.trip / 2 + sample / 2
        } else {
            self.trip - self.trip / 8 + sample / 8
        };
    }

    /// The time that an answer took which was asked for once: it counts half.
    fn time_answer(&mut self, time: u64)
        ensures answer { self.new.answer ≡ answered time self.old.answer }
        ensures times { AreTimes self.old self.new }
        ensures as_before { IsAsBefore self.old self.new }
    {
        let sample = time.max(TRIPS.0).min(TRIPS.1);
        self.answer = self.answer / 2 + sample / 2;
    }

    /// An attempt failed.
    fn lose(&mut self)
        ensures times { AreTimes self.old self.new }
        ensures as_before { IsAsBefore self.old self.new }
        ensures me { self.new.me ≡ self.old.me }
        ensures measured { (self.new.trip ≡ self.old.trip) × (self.new.answer ≡ self.old.answer) }
    {
        self.losses = self.losses.saturating_add(1).min(DOUBLINGS);
    }

    /// A number that is drawn from the last, the time and the member's own number.
    fn draw(&self, now: u64) -> u64 {
        self.drawn
            .wrapping_add(now)
            .wrapping_mul(6_364_136_223_846_793_005)
            .wrapping_add(2 * u64::from(self.me) + 1)
    }

    /// How long a node waits that was refused and knows by what: one to eight eighths of an answer's time, as drawn. Of
    /// an attempt's time it would be refused again, by what others have begun meanwhile.
    fn soon(&self) -> u64
        ensures { result ≤ 4000000 }
    {
        let part = (self.drawn >> 33) % 8 + 1;
        (self.answer / 8).saturating_mul(part).min(LONGEST)
    }

    /// How long a node keeps still that lost the lead, while the front stays: one to sixteen sixteenths, as drawn, of
    /// four answers' time and some more. That doubles with each loss, three times at most: a refusal shows nothing
    /// about the line, and a longer pause leaves a node behind where others go on. An attempt's time would grow with
    /// the pauses of others, and they with it.
    fn pause(&self) -> u64
        ensures { result ≤ 4000000 }
    {
        let part = (self.drawn >> 33) % 16 + 1;
        let most = self.answer.saturating_mul(4).saturating_add(8_000);
        let times = 2u64.saturating_pow(self.losses.min(FEWER_DOUBLINGS));
        (most.saturating_mul(times).min(LONGEST) / 16)
            .saturating_mul(part)
            .min(LONGEST)
    }

    /// How long an attempt may take: one that waits for promises is one answer, and those that are lost aren't sent
    /// again. That doubles with each loss, up to some seconds.
    fn patience(&self) -> u64
        ensures { result ≤ patience_of self.now }
    {
        let some = 20_000 + 5_000 * u64::from(self.me);
        let trip = if self.is_proposing && !self.is_leading {
            self.answer
        } else {
            self.trip.max(self.answer)
        };
        let time = trip.saturating_mul(4).saturating_add(some);
        let longer = time.saturating_mul(2u64.saturating_pow(self.losses));
        longer.min(LONGEST).max(time)
    }

    /// When a node that lacks entries asks for them or proposes: soon after it is seen that its front doesn't move, and
    /// then each time after its patience.
    fn fills(&self) -> u64
        ensures { result ≤ latest_of self.now }
    {
        if self.ticked <= self.moved {
            self.moved.saturating_add(self.trip).saturating_add(GAP)
        } else {
            self.ticked.saturating_add(self.patience())
        }
    }

    /// When the clock is to tick, by what waits.
    fn wanted(&self, view: View) -> u64
        ensures latest { result ≤ latest_of self.now }
        ensures held { 0 < view.waiting → view.is_attempting ≡ false → self.now.hold ≤ result }
    {
        if view.is_attempting {
            return self.ticked.saturating_add(self.patience());
        }
        if view.waiting > 0 {
            // what was asked for is waited for, but not where it leads, was refused, or has got many entries
            let expects = self.is_behind && !view.is_leading && !self.is_refused;
            if expects && view.front < self.asked.saturating_add(STEP) {
                return self.hold.max(self.fills());
            }
            return self.hold;
        }
        if !self.is_behind {
            return self.asks;
        }
        if view.has_learned || view.front >= self.asked.saturating_add(STEP) {
            0
        } else {
            self.asks.min(self.fills())
        }
    }

    /// An attempt that was under way is given up.
    fn give_up(&mut self, view: View)
        ensures times { AreTimes self.old self.new }
        ensures as_before { IsAsBefore self.old self.new }
    {
        if view.is_attempting {
            self.lose();
            self.is_leading = false;
        }
    }

    /// Whether accept requests go out with this tick is noted.
    fn begin(&mut self, now: u64, view: View)
        ensures times { AreTimes self.old self.new }
        ensures as_before { IsAsBefore self.old self.new }
    {
        if view.waiting > 0 && self.is_leading {
            self.accept(now);
        } else {
            self.is_timed = false;
        }
    }

    /// The clock ticks.
    fn tick(&mut self, now: u64, view: View)
        ensures hold { self.new.hold ≡ self.old.hold }
        ensures moved { self.new.moved ≡ self.old.moved }
        ensures front { self.new.front ≡ self.old.front }
        ensures ticked { self.new.ticked ≡ now }
        ensures rest { self.new.rest ≡ later now (self.new.answer / 5) }
        ensures as_before { IsAsBefore self.old self.new }
    {
        self.give_up(view);
        self.is_first = !view.is_attempting;
        self.is_proposing = view.waiting > 0;
        self.was_quick = self.is_quick;
        self.is_refused = false;
        self.is_quick = false;
        self.asked = view.front;
        self.begin(now, view);
        let asks = now.saturating_add(IDLE);
        let rest = now.saturating_add(self.answer / TICKS);
        self.ticked = now;
        self.asks = asks;
        self.rest = rest;
    }
}

impl Timer for TickTimer {
    // what it was given isn't kept, and is all that it decides by
    ghost timer_events = { λ p timer_events. Unit {0} };

    ghost listens = { is_listening };

    fn action(&mut self, now: u64, view: View) -> Action
        // The clock ticks in time, whatever is seen.
        ensures latest { IfWaits result (now < latest_of self.new) }
        ensures short { IsShort result }
        // No hold is set more than 4 s ahead, and nothing is proposed before it is over.
        ensures hold { hold_of self.new ≤ max (hold_of self.old) (now + LONGEST) }
        ensures held { IfTicks result (0 < view.waiting → view.is_attempting ≡ false → hold_of self.new ≤ now) }
        ensures moved { moved_of self.new ≤ max (moved_of self.old) now }
        // While the front stays, the clock ticks once in a fifth of the time that an answer takes, at most.
        ensures front { front_of self.new ≡ view.front }
        ensures rested { IfTicks result (view.front ≡ front_of self.old → rest_of self.old ≤ now) }
        ensures rests { IfTicks result (rest_of self.new ≡ later now (answer_of self.new / TICKS)) }
        ensures ticked { IfTicks result (ticked_of self.new ≡ now) }
        ensures waits { IfWaits result (view.front ≡ front_of self.old → rest_of self.new ≡ rest_of self.old) }
        ensures still { IfWaits result (ticked_of self.new ≡ ticked_of self.old) }
        // Commands are accepted again once the front is there, and a hold begins with a refusal alone.
        ensures behind { is_behind_of self.new ≡ nat_lt view.front view.reached }
        ensures ending { is_ending_of self.new ≡ is_ending_of self.old }
        ensures moves { view.front ≡ front_of self.old → is_behind_of self.old ≡ true →
            moved_of self.new ≡ moved_of self.old }
        ensures kept { (is_proposing_of self.old ≡ false) ⊎ (view.is_attempting ≡ true) →
            hold_of self.new ≤ hold_of self.old }
    {
        self.look(now, view);
        // whether others have come further
        let is_behind = view.reached > view.front;
        if is_behind && !self.is_behind {
            self.moved = now;
        }
        self.is_behind = is_behind;
        // not before a part of a round trip is over since it ticked last, unless the front moved
        let due = self.wanted(view).max(self.rest);
        if now >= due {
            self.tick(now, view);
            return Action::Tick;
        }
        let left = due.min(self.next_repeat()).saturating_sub(now);
        let milliseconds = left / 1_000 + 1;
        Action::Wait(milliseconds.min(LONGEST_WAIT) as u32)
    }

    fn sent(&mut self, now: u64)
        ensures times { AreTimes self.old self.new }
        ensures as_before { IsAsBefore self.old self.new }
    {
        self.repeated = now;
        self.repeats = 0;
        self.is_timed = false;
    }

    fn repeats(&mut self, now: u64) -> bool
        ensures due { result ≡ nat_le (repeat_at self.old) now }
        ensures times { AreTimes self.old self.new }
        ensures as_before { IsAsBefore self.old self.new }
    {
        if now < self.next_repeat() {
            return false;
        }
        self.repeated = now;
        self.repeats = self.repeats.saturating_add(1);
        self.answer = self.answer.saturating_add(self.answer / 32).min(TRIPS.1);
        self.is_timed = false;
        true
    }

    fn end(&mut self)
        ensures times { AreTimes self.old self.new }
        ensures ended { is_ending_of self.new ≡ true }
        ensures behind { is_behind_of self.new ≡ is_behind_of self.old }
    {
        self.is_ending = true;
    }

    fn is_listening(&self, now: u64) -> bool {
        let is_catching_up = self.is_behind && now < self.moved.saturating_add(BEHIND);
        now < START || is_catching_up || self.is_ending
    }
}
