//! How often it is asked at a control socket: once, or until what was asked is there.

ghost use Rattle.std.specs.Prelude.{◌≡◌, ◌≤◌};
ghost use Rattle.cli_ask.specs.Calls.{call_value};
ghost use Rattle.cli_ask.specs.Asking.{answer_value, is_last, AskedOn, AskedAt};

use crate::call::{Call, Kind};
use crate::commands::{WAITING, number_after, outcome_call, outcome_of, waiting};
use crate::control::Control;
use crate::exchange::{Answered, AskFault, Deadline, PATIENCE};
use std::alloc::Global;
use std::io::Read;
use std::net::Net;
use std::os::unix::net::UnixStream;
use std::time::{Clock, Duration};

/// How many requests follow each other at once: some two milliseconds, in which a cluster whose members are near has
/// learned a command. A shorter pause isn't to be had, since the system counts it in ticks of its clock.
const AT_ONCE: u64 = 16;

/// How long it is waited between two requests after these, in milliseconds.
const PAUSE: u64 = 5;

/// What waits between two requests, and does nothing else: a caller that is generic over it reaches nobody by it. No
/// wait is so short that both ends are busy with it, or so long that somebody notices.
pub trait Pauses {
    /// Waits for that many milliseconds.
    fn pause(&self, milliseconds: u64)
        requires { (5 ≤ milliseconds) × (milliseconds ≤ 50) };
}

impl<RT: Net> Pauses for RT {
    /// It waits for what never comes over a stream of its own.
    fn pause(&self, milliseconds: u64) {
        if let Ok((mut near, _far)) = UnixStream::pair(self) {
            let timeout = Some(Duration::from_millis(milliseconds));
            if near.set_read_timeout(timeout).is_ok() {
                let _nothing = near.read(&mut [0u8; 1]);
            }
        }
    }
}

/// Whether it isn't asked again. It is unless the request is made once alone, where the node answers that the request
/// is waiting; or there is no answer to a request that makes no change, as while the node is restarted.
fn is_last(call: &Call, found: &Answered, is_once: bool) -> bool
    ensures { result ≡ is_last (call_value call.now) is_once (answer_value found.now) }
{
    let is_open = match found {
        Ok(reply) => reply.body.as_slice() == WAITING,
        Err(AskFault::Memory) => false,
        Err(AskFault::NoAnswer | AskFault::BadAnswer) => call.is_repeatable,
    };
    is_once || !is_open
}

/// How requests are made: with what it is waited between two, until when, and whether each is made once alone.
#[derive(Clone, Copy)]
pub(crate) struct Asking<'a, RT> {
    rt: &'a RT,
    pub(crate) alloc: Global,
    deadline: Deadline,
    is_once: bool,
}

impl<RT: Pauses> Asking<'_, RT> {
    /// Asks again while that is to be done and time is left, if it may be asked again at all. Where the time is over
    /// behind an answer, that is the answer; in the midst of an ask that may be made again, the one before.
    pub(crate) fn ask_on<C: Control>(&self, control: &mut C, call: &Call) -> Answered
        ensures { AskedOn (C.exchanged control.old) (C.exchanged control.new) (call_value call.now) self.now.is_once
            self.now.deadline.seconds (answer_value result) }
    {
        let mut is_waiting = false;
        for ask in 0..u64::MAX {
            let found = control.ask(self.alloc, call, self.deadline);
            if is_last(call, &found, self.is_once) {
                return found;
            }
            if ask >= AT_ONCE {
                self.rt.pause(PAUSE);
            }
            if control.is_over(self.deadline) {
                return match found {
                    Err(_) if is_waiting => Ok(waiting(self.alloc)?),
                    found => found,
                };
            }
            is_waiting = found.is_ok();
        }
        control.ask(self.alloc, call, self.deadline)
    }
}

/// Asks, and waits for the given number of seconds in all: for a node that isn't so far yet, and for what comes of a
/// command that was accepted, whose position is asked for again where no answer comes; it is `waiting` where none came
/// in time. No command is asked twice that may have been accepted. With 0 seconds it is asked once, and the answer is
/// waited for 10 seconds at most. Verdicts of many packets are asked for in as many requests as the node needs; they
/// are of one position, or there is no answer.
pub(crate) fn ask_at<RT: Pauses + Clock, C: Control>(
    rt: &RT,
    alloc: Global,
    control: &mut C,
    call: &Call,
    seconds: u32,
) -> Answered
    ensures { AskedAt (C.exchanged control.old) (C.exchanged control.new) (call_value call.now) seconds
        (answer_value result) }
{
    let is_once = seconds == 0;
    let limit = if is_once { PATIENCE } else { seconds };
    let deadline = Deadline::new(rt, limit);
    let asking = Asking {
        rt,
        alloc,
        deadline,
        is_once,
    };
    if let Kind::Test = call.kind {
        return asking.verdicts(control, call);
    }
    let first = asking.ask_on(control, call)?;
    let Some(number) = number_after(call.kind, is_once, first.body.as_slice()) else {
        return Ok(first);
    };
    let second = asking.ask_on(control, &outcome_call(alloc, number)?);
    outcome_of(alloc, call.kind, first, second)
}
