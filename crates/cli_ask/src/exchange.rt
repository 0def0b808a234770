//! One request and its answer over a Unix socket.

ghost use Rattle.std.specs.Prelude.{◌≡◌, ◌⊎◌, ℕ, ◌+◌, ⊤, IfOk, IfErr};
ghost use Rattle.cli_ask.specs.Calls.{call_value};
ghost use Rattle.cli_ask.specs.Codes.{ask_fault_code};
ghost use Rattle.cli_ask.specs.Replies.{IsAnswerTo, IsUnanswered, reply_value};

use crate::call::Call;
use crate::reply::{reply_in, request_bytes};
use cli_io::{BROKEN_ANSWER, InputFault, NOBODY_ANSWERS, read_all, write_bytes};
use std::alloc::{AllocError, Global};
use std::io::{self, ErrorKind, Read, Write};
use std::net::Net;
use std::os::unix::net::UnixStream;
use std::time::{Clock, Duration, Instant};

/// How long an answer is waited for, in seconds, where nothing else is asked for.
pub(crate) const PATIENCE: u32 = 10;

/// Why there is no answer.
#[derive(Clone, Copy, PartialEq, Eq)]
pub enum AskFault {
    /// A growth was refused.
    Memory,
    /// 85: nobody answers at the control socket.
    NoAnswer,
    /// 86: an answer that is cut short, or is none of HTTP's, or is no refusal though not all was sent.
    BadAnswer,
}

impl AskFault {
    /// The number of the refusal; none when out of memory.
    pub fn code(self) -> Option<u8>
        ensures { result ≡ ask_fault_code self }
    {
        match self {
            AskFault::Memory => None,
            AskFault::NoAnswer => Some(NOBODY_ANSWERS),
            AskFault::BadAnswer => Some(BROKEN_ANSWER),
        }
    }
}

impl From<AllocError> for AskFault {
    ghost use Rattle.cli_ask.specs.declared.exchange.AskFault.TheVariants.{Memory};

    ghost from_gives = { λ _ e. e ≡ Memory };

    fn from(_error: AllocError) -> AskFault {
        AskFault::Memory
    }
}

/// An answer: HTTP's status and the body, how many positions the node knows the commands of, and how many it has
/// applied.
#[derive(Drop)]
pub struct Reply {
    pub code: u16,
    pub body: Vec<u8>,
    pub front: Option<u32>,
    pub applied: Option<u32>,
}

/// An answer, or why there is none.
pub(crate) type Answered = Result<Reply, AskFault>;

/// Until when answers are waited for, however they come.
#[derive(Clone, Copy)]
pub struct Deadline {
    /// When that began; none where the clock can't be read, and then the time is over.
    start: Option<Instant>,
    seconds: u32,
}

impl Deadline {
    /// The given number of seconds from now on.
    pub(crate) fn new<RT: Clock>(rt: &RT, seconds: u32) -> Deadline
        ensures { result.seconds ≡ seconds }
    {
        let start = Instant::now(rt).ok();
        Deadline { start, seconds }
    }

    /// How long that is; an error where it has passed.
    pub(crate) fn left<RT: Clock>(self, rt: &RT) -> io::Result<Duration> {
        let over = io::Error::from(ErrorKind::TimedOut);
        let start = self.start.ok_or(over)?;
        let limit = Duration::from_secs(u64::from(self.seconds));
        let left = limit.saturating_sub(Instant::now(rt)?.duration_since(start));
        (!left.is_zero()).then_some(left).ok_or(over)
    }
}

/// The peer that answers at a control socket, each request over a connection of its own.
pub trait Dial {
    type Stream: Read + Write + Drop;

    // the number of connections that were asked for so far
    ghost dialed: { Self → ℕ → Type 0 };

    // the connection that was asked for last wasn't made
    ghost is_refused: { Self → Type 0 };

    // nothing was written to this connection or read of it
    ghost is_new: { Self.Stream → Type 0 };

    /// A connection, written and read until the deadline.
    fn dial(&mut self, deadline: Deadline) -> io::Result<Self::Stream>
        ensures dialed { (n : ℕ) → dialed self.old n → dialed self.new (n + 1) }
        ensures new { IfOk result is_new }
        ensures refused { IfErr result (λ _. is_refused self.new) };
}

/// A stream that is read until the deadline.
#[derive(Drop)]
pub struct Timed<'a, RT> {
    rt: &'a RT,
    stream: UnixStream,
    deadline: Deadline,
}

impl<RT: Clock> Read for Timed<'_, RT> {
    fn read(&mut self, into: &mut [u8]) -> io::Result<usize> {
        self.stream
            .set_read_timeout(Some(self.deadline.left(self.rt)?))?;
        self.stream.read(into)
    }
}

impl<RT: Clock> Write for Timed<'_, RT> {
    fn write(&mut self, bytes: &[u8]) -> io::Result<usize> {
        self.stream.write(bytes)
    }

    fn flush(&mut self) -> io::Result<()> {
        self.stream.flush()
    }
}

/// A control socket.
#[derive(Clone, Copy)]
pub struct ControlSocket<'a, RT> {
    pub(crate) rt: &'a RT,
    pub(crate) path: &'a str,
}

impl<'a, RT: Net + Clock> Dial for ControlSocket<'a, RT> {
    type Stream = Timed<'a, RT>;

    // no contract can count what the system does
    ghost dialed = { λ _ _. ⊤ };

    ghost is_refused = { λ _. ⊤ };

    ghost is_new = { λ _. ⊤ };

    fn dial(&mut self, deadline: Deadline) -> io::Result<Timed<'a, RT>> {
        let stream = UnixStream::connect(self.rt, self.path)?;
        stream.set_write_timeout(Some(deadline.left(self.rt)?))?;
        Ok(Timed {
            rt: self.rt,
            stream,
            deadline,
        })
    }
}

/// Asks once, over one connection.
pub(crate) fn exchange<D: Dial>(
    alloc: Global,
    control: &mut D,
    call: &Call,
    deadline: Deadline,
) -> Answered
    ensures dialed { (n : ℕ) → D.dialed control.old n → D.dialed control.new n ⊎ D.dialed control.new (n + 1) }
    ensures answer { IfOk result (λ r. IsAnswerTo D.is_new D.Stream.contents D.Stream.remaining (call_value call.now)
        (reply_value r)) }
    ensures none { IfErr result (IsUnanswered D.is_new D.Stream.contents (D.is_refused control.new)
        (call_value call.now)) }
{
    let bytes = request_bytes(alloc, call)?;
    let mut stream = control.dial(deadline).ok().ok_or(AskFault::NoAnswer)?;
    // a refusal may come before all is sent
    let sent = write_bytes(&mut stream, bytes.as_slice());
    let answer = match read_all(alloc, &mut stream) {
        Ok(answer) => answer,
        Err(InputFault::Memory) => return Err(AskFault::Memory),
        Err(InputFault::Failed | InputFault::TooLong) => return Err(AskFault::BadAnswer),
    };
    match reply_in(alloc, answer.as_slice()) {
        Ok(reply) if sent.is_ok() || reply.code >= 300 => Ok(reply),
        Ok(_) => Err(AskFault::BadAnswer),
        Err(fault) => Err(fault),
    }
}
