//! The peer at a control socket.

ghost use Rattle.std.specs.Prelude.{◌≡◌, ℕ, List, [], ◌∷◌, Some, None, Err, IfOk, string_bytes};
ghost use Rattle.cli_ask.specs.Calls.{call_value};
ghost use Rattle.cli_ask.specs.Replies.{reply_value};
ghost use Rattle.cli_ask.specs.Asking.{Event, Asked, Looked, Directed, Adds, answer_value};
ghost use Rattle.cli_ask.specs.Exchanges.{AreExchanged};
ghost use Rattle.cli_ask.specs.Reading.{ReadAt};
ghost use Rattle.cli_ask.specs.Showing.{printable};
ghost use Rattle.cli_ask.specs.declared.exchange.AskFault.TheVariants as fault;

use crate::call::{Call, Kind};
use crate::exchange::{
    Answered, AskFault, ControlSocket, Deadline, Dial, PATIENCE, Reply, exchange,
};
use crate::showing::shown;
use std::alloc::Global;
use std::net::Net;
use std::time::Clock;

/// A peer that answers as a node does at its control socket.
pub trait Control {
    // these requests were made and answered, the clock was read, and it was directed to these paths, so far, in order
    ghost exchanged: { Self → List Event → Type 0 };

    /// Makes a request once, and waits for the answer until the deadline.
    fn ask(&mut self, alloc: Global, call: &Call, deadline: Deadline) -> Answered
        ensures { Adds (exchanged self.old) (exchanged self.new)
            (Asked deadline.seconds (call_value call.now) (answer_value result) ∷ []) };

    /// Whether the time until the deadline is over, by the clock.
    fn is_over(&mut self, deadline: Deadline) -> bool
        ensures { Adds (exchanged self.old) (exchanged self.new) (Looked deadline.seconds result ∷ []) };
}

/// A peer that answers at any control socket: at the one to which it was directed last.
pub trait Direct<'a>: Control {
    // it answers at the control socket at this path
    ghost answers_at: { Self → (path : List ℕ) → Type 0 };

    /// What is asked from now on is asked at the control socket at a path.
    fn direct(&mut self, path: &'a str)
        ensures there { answers_at self.new path.now }
        ensures alone { Adds (Self.exchanged self.old) (Self.exchanged self.new) (Directed path.now ∷ []) };
}

/// An answer as it is printed.
fn printable(alloc: Global, reply: Reply) -> Answered
    ensures value { IfOk result (λ r. printable (reply_value reply) ≡ Some (reply_value r)) }
    ensures none { result ≡ Err fault.BadAnswer → printable (reply_value reply) ≡ None }
    ensures some { result ≡ Err fault.NoAnswer → ⊥ }
{
    let text = shown(alloc, reply.body.as_slice())?.ok_or(AskFault::BadAnswer)?;
    let body = text.into_bytes();
    Ok(Reply { body, ..reply })
}

/// A peer that is reached over connections, by a clock.
#[derive(Drop)]
pub struct Reached<'a, D, RT> {
    pub(crate) dial: D,
    pub(crate) rt: &'a RT,
}

impl<D: Dial, RT: Clock> Control for Reached<'_, D, RT> {
    // each request was sent over a connection and its answer is what was read of it, as it is printed; no more
    // connections were asked for than requests were made
    ghost exchanged = { λ r es. AreExchanged D.dialed D.is_refused D.is_new D.Stream.contents D.Stream.remaining
        r.dial es };

    fn ask(&mut self, alloc: Global, call: &Call, deadline: Deadline) -> Answered {
        printable(alloc, exchange(alloc, &mut self.dial, call, deadline)?)
    }

    fn is_over(&mut self, deadline: Deadline) -> bool {
        deadline.left(self.rt).is_err()
    }
}

impl<'a, RT: Net + Clock> Reached<'a, ControlSocket<'a, RT>, RT> {
    /// The peer at the system's control sockets, at none before it is directed to one.
    pub fn new(rt: &'a RT) -> Reached<'a, ControlSocket<'a, RT>, RT>
        ensures { ⟦<Reached<'a, ControlSocket<'a, RT>, RT> as Control>⟧.exchanged result [] }
    {
        let dial = ControlSocket { rt, path: "" };
        Reached { dial, rt }
    }
}

impl<'a, RT: Net + Clock> Direct<'a> for Reached<'a, ControlSocket<'a, RT>, RT> {
    ghost answers_at = { λ peer path. peer.dial.path.now ≡ path };

    fn direct(&mut self, path: &'a str) {
        self.dial.path = path;
    }
}

/// Where control sockets are.
pub trait ControlSockets<'a> {
    /// One by itself, over which a request is made.
    type Socket: Dial + Drop;

    // this is the control socket at this path
    ghost is_at: { Self → (path : List ℕ) → Self.Socket → Type 0 };

    /// The control socket at a path.
    fn socket_at(&'a self, path: &'a str) -> Self::Socket
        ensures { is_at self.now path.now result };
}

impl<'a, RT: Net + Clock + 'a> ControlSockets<'a> for RT {
    type Socket = ControlSocket<'a, RT>;

    ghost is_at = { λ _ path socket. socket.path.now ≡ path };

    fn socket_at(&'a self, path: &'a str) -> ControlSocket<'a, RT> {
        ControlSocket { rt: self, path }
    }
}

/// What is read at a control socket under a target, in one request: an answer whose status is 200, within 10 seconds.
/// The socket is the one that `sockets` has at this path: for the system's they are `rt`.
pub fn read_at<'a, RT: Clock, C: ControlSockets<'a>>(
    rt: &RT,
    sockets: &'a C,
    alloc: Global,
    path: &'a str,
    target: String,
) -> Result<Reply, AskFault>
    ensures { ReadAt (C.is_at sockets.now) C.Socket.dialed C.Socket.is_refused C.Socket.is_new
        C.Socket.Stream.contents C.Socket.Stream.remaining path.entry.now (string_bytes target)
        (answer_value result) }
{
    let mut socket = sockets.socket_at(path);
    let call = Call::get(alloc, target, Kind::Read);
    let reply = exchange(alloc, &mut socket, &call, Deadline::new(rt, PATIENCE))?;
    if reply.code != 200 {
        return Err(AskFault::BadAnswer);
    }
    Ok(reply)
}
