//! What a node answers at its control socket.

ghost use Rattle.std.specs.Prelude.{◌≡◌, ℕ, List, [], ◌∷◌};
ghost use Rattle.std.specs.List.{AllByRecursion};
ghost use Rattle.cli_ask.specs.Reading.{ReadAt};
ghost use Rattle.cli_follow.specs.Exchanges.{Exchange, Entries, Status, Adds, IsAnswered, asked};

use cli_ask::{AskFault, Reply, read_at};
use cli_io::{Shown, knock};
use std::alloc::Global;
use std::io::Write;
use std::net::Net;
use std::time::Clock;

/// A peer that answers as a node does at its control socket.
pub trait Control {
    // this was asked and answered so far, in order
    ghost exchanged: { Self → List Exchange → Type 0 };

    /// Asks for the entries from a position on, a line each.
    fn entries(&mut self, alloc: Global, from: u32) -> Result<Reply, AskFault>
        ensures { Adds (exchanged self.old) (exchanged self.new) (asked (Entries from) result ∷ []) };

    /// Asks for the node's status.
    fn status(&mut self, alloc: Global) -> Result<Reply, AskFault>
        ensures { Adds (exchanged self.old) (exchanged self.new) (asked Status result ∷ []) };

    /// Logs why nobody answers, where that is known.
    fn report<E: Write>(&self, errors: &mut E);
}

/// The control socket at a path, of those that `sockets` has: for the system's they are `rt`.
#[derive(Clone, Copy)]
pub struct ControlSocket<'a, RT, S> {
    pub(crate) rt: &'a RT,
    pub(crate) sockets: &'a S,
    pub(crate) path: &'a str,
}

impl<'a, RT: Net + Clock, S: cli_ask::ControlSockets<'a>> Control for ControlSocket<'a, RT, S> {
    // each answer was read at this path, under the target of its question
    ghost exchanged = { λ peer es. AllByRecursion (IsAnswered (λ target answer.
        ReadAt (S.is_at peer.sockets.now) S.Socket.dialed S.Socket.is_refused S.Socket.is_new
        S.Socket.Stream.contents S.Socket.Stream.remaining peer.path.now target answer)) es };

    fn entries(&mut self, alloc: Global, from: u32) -> Result<Reply, AskFault> {
        let target = format!(in alloc; "/v1/entries?from={from}")?;
        read_at(self.rt, self.sockets, alloc, self.path, target)
    }

    fn status(&mut self, alloc: Global) -> Result<Reply, AskFault> {
        let target = String::from_str(alloc, "/v1/status")?;
        read_at(self.rt, self.sockets, alloc, self.path, target)
    }

    fn report<E: Write>(&self, errors: &mut E) {
        if let Err(error) = knock(self.rt, self.path) {
            let _logged = writeln!(errors, "pfx: {}: {error}", Shown(self.path));
        }
    }
}

/// Where control sockets are.
pub trait ControlSockets<'a> {
    /// The peer at one.
    type Peer: Control + Drop;

    // this one answers at the control socket at this path
    ghost answers_at: { Self → (path : List ℕ) → Self.Peer → Type 0 };

    /// The peer at the control socket at a path.
    fn peer_at(&'a self, path: &'a str) -> Self::Peer
        ensures { answers_at self.now path.now result };
}

impl<'a, RT: Net + Clock + 'a> ControlSockets<'a> for RT {
    type Peer = ControlSocket<'a, RT, RT>;

    ghost answers_at = { λ _ path peer. peer.path.now ≡ path };

    fn peer_at(&'a self, path: &'a str) -> ControlSocket<'a, RT, RT> {
        ControlSocket {
            rt: self,
            sockets: self,
            path,
        }
    }
}
