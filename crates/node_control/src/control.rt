//! The control socket: a Unix socket, for figures alone a TCP port too, and the clients of both.

ghost use Rattle.std.specs.Prelude.{◌≡◌, ◌<◌, ◌&&◌, length, nat_le, not, true, Some, None, unwrap_or, if◌then◌else◌};
ghost use Rattle.std.specs.Prelude.{⊤, ℕ, List, Bool, false, IfOk, IfSome, is_none, slice_get};
ghost use Rattle.http_server.specs.Exchange.{Calls};
ghost use Rattle.node_requests.specs.Health.{health};
ghost use Rattle.std.specs.List.{list_any};
ghost use Rattle.node_loop.specs.Hosting.{AsksUpTo};
ghost use Rattle.node_control.specs.declared.client.Client.{Client};
ghost use Rattle.node_control.specs.declared.control.TheConstants.{CHANGES, CLIENTS, FIGURE_CLIENTS};
ghost use Rattle.node_control.specs.inner.Clients.{earliest, has_room, most_silent, without};
ghost use Rattle.node_control.specs.inner.Ending.{client_count, has_more, has_more_to_send};
ghost use Rattle.node_control.specs.inner.Ending.{IsOpened, IsUnused, KeepsClients};
ghost use Rattle.node_control.specs.inner.Handling.{IsKept};
ghost use Rattle.node_control.specs.inner.Runs.{AsksWithin, ServesFigures};
ghost use Rattle.node_control.specs.inner.Serving.{Serves, calls_of};

use crate::client::{Client, Look};
use crate::logging::log;
use crate::service::{HttpService, Made};
use crate::stream::{Listener, Stream};
use http_server::Service;
use mio::unix::SourceFd;
use mio::{Events, Interest, Poll, Token};
use node_requests::Health;
use px_records::Records;
use std::alloc::Global;
use std::fs::{self, DirBuilder, Files, Permissions};
use std::hash::RandomState;
use std::io::{self, Eprint, ErrorKind};
use std::net::{Net, SocketAddr, TcpListener, TcpStream};
use std::os::fd::{AsRawFd, RawFd};
use std::os::unix::fs::{DirBuilderExt, FileTypeExt, PermissionsExt};
use std::os::unix::net::{UnixListener, UnixStream};
use std::time::{Clock, Duration};
use thiserror::Error;

/// How many operators are served at a time, and how many clients of figures. One more is let in, for `health` and
/// `stop` alone: what a connection is for is in its first request.
const CLIENTS: usize = 8;

const FIGURE_CLIENTS: usize = 4;

/// How many changes are asked between two rounds of the node at most.
const CHANGES: u8 = 8;

/// For how long a client is left alone, though others wait, whose request isn't whole meanwhile, or that moved no
/// byte, in microseconds.
const SILENT: u64 = 1_000_000;

/// For how many seconds after its start a node's health isn't reported: it is alone until it hears others.
const START: u64 = 3;

/// How many events are looked at after a wait; more stay for the next.
const EVENTS: usize = 16;

/// The mode of the folder in which the socket is made, and that of the socket.
const FOLDER_MODE: u32 = 0o700;

const SOCKET_MODE: u32 = 0o660;

/// Why there is no control socket.
#[derive(Clone, Copy, Debug, PartialEq, Eq, Error)]
pub enum ControlFault {
    /// A growth was refused.
    #[error("out of memory")]
    Memory,
    /// 84: the control socket is another node's, is no socket, or the system refuses it.
    #[error("no control socket")]
    NoSocket,
    /// 82: the system refuses the port of figures.
    #[error("no port")]
    NoPort,
}

/// Where connections come in, and the clients whose connections did.
#[derive(Drop)]
struct Entrance {
    listener: Listener,
    clients: Vec<Client>,
    /// How many clients there are at most, beside the one for `health` and `stop`.
    most: usize,
    /// Which client is looked at next.
    next: usize,
    keys: RandomState,
}

/// The control socket of a node.
#[derive(Drop)]
pub struct ControlSocket {
    operators: Entrance,
    figures: Option<Entrance>,
    poll: Poll,
    events: Events,
    /// Whether the clients of figures come first now.
    is_figures_first: bool,
    /// The node's health as it was reported last.
    health: Health,
}

/// What is at the paths of control sockets.
pub(crate) trait SocketPaths {
    // whether somebody accepts connections at this path
    ghost is_answered: { Self → (path : List ℕ) → Bool → Type 0 };

    // nothing is at this path
    ghost is_free: { Self → (path : List ℕ) → Type 0 };

    /// Whether somebody accepts connections at the path.
    fn is_answered(&self, path: &str) -> bool
        ensures { is_answered self.now path.now result };

    /// Removes a socket at the path, where nobody accepts connections: whether nothing is there then.
    fn clear(&self, path: &str) -> bool
        requires { is_answered self.now path.now false }
        ensures { result ≡ true → is_free self.now path.now };
}

impl<RT: Files + Net> SocketPaths for RT {
    // no contract states who accepts a connection, or what is in the file system
    ghost is_answered = { λ _ _ _. ⊤ };

    ghost is_free = { λ _ _. ⊤ };

    fn is_answered(&self, path: &str) -> bool {
        UnixStream::connect(self, path).is_ok()
    }

    fn clear(&self, path: &str) -> bool {
        match fs::symlink_metadata(self, path) {
            Ok(found) => found.file_type().is_socket() && fs::remove_file(self, path).is_ok(),
            Err(_) => true,
        }
    }
}

/// Removes a socket that a node left which doesn't run: whether the path is free now.
fn free<P: SocketPaths>(paths: &P, path: &str) -> bool
    ensures { result ≡ true → P.is_free paths.now path.now }
{
    !paths.is_answered(path) && paths.clear(path)
}

/// A socket at `inner`, in the folder `folder`, to which its owner and its group may connect, is put at the path, where
/// nothing may be.
fn bind_at<RT: Files + Net>(
    rt: &RT,
    folder: &str,
    inner: &str,
    path: &str,
) -> io::Result<UnixListener> {
    fs::set_permissions(rt, folder, Permissions::from_mode(FOLDER_MODE))?;
    let listener = UnixListener::bind(rt, inner)?;
    listener.set_nonblocking(true)?;
    fs::set_permissions(rt, inner, Permissions::from_mode(SOCKET_MODE))?;
    fs::hard_link(rt, inner, path)?;
    Ok(listener)
}

/// Takes the folder away in which a socket was made, and the socket's name there.
fn remove_folder<RT: Files>(rt: &RT, folder: &str, inner: &str) {
    let _gone = fs::remove_file(rt, inner);
    let _gone = fs::remove_dir(rt, folder);
}

/// The listening socket at the path, which doesn't wait. Whatever the umask is, its owner and its group may connect,
/// and nobody before that is so: it is made in a folder of its own, `PATH.d`, where only its owner comes.
fn listen<RT: Files + Net>(rt: &RT, alloc: Global, path: &str) -> io::Result<UnixListener> {
    let folder = format!(in alloc; "{path}.d")?;
    let inner = format!(in alloc; "{path}.d/s")?;
    let (folder, inner) = (folder.as_str(), inner.as_str());
    // a node that was killed meanwhile left one; what a link leads to is none
    if fs::symlink_metadata(rt, folder).is_ok_and(|found| found.is_dir()) {
        remove_folder(rt, folder, inner);
    }
    DirBuilder::new().mode(FOLDER_MODE).create(rt, folder)?;
    let listener = bind_at(rt, folder, inner, path);
    remove_folder(rt, folder, inner);
    listener
}

/// Has a wait end when something comes at the descriptor.
fn watch(poll: &Poll, fd: RawFd) -> io::Result<()> {
    let interest = Interest::READABLE | Interest::WRITABLE;
    poll.registry()
        .register(&mut SourceFd(&fd), Token(0), interest)
}

/// Since when the client has been left alone that has been for the longest time.
fn earliest(clients: &[Client]) -> u64
    ensures { result ≡ earliest 18446744073709551615 clients.now }
{
    let mut first = u64::MAX;
    for client in clients {
        first = first.min(client.idle_since());
    }
    first
}

impl Entrance {
    /// An entrance for the given number of clients.
    fn new(alloc: Global, keys: RandomState, listener: Listener, most: usize) -> Made<Entrance>
        ensures { IfOk result (IsUnused most) }
    {
        let clients = Vec::with_capacity(alloc, most.saturating_add(1))?;
        Ok(Entrance {
            listener,
            clients,
            most,
            next: 0,
            keys,
        })
    }

    /// Whether anything is to be sent to a client.
    fn has_more(&self) -> bool
        ensures { result ≡ list_any has_more self.now.clients.items }
    {
        self.clients.iter().any(|client| client.has_more())
    }

    /// The client whose request has been coming for the longest time, or that has moved no byte for so long.
    fn most_silent(&self) -> usize
        ensures { result ≡ most_silent self.now.clients.items }
    {
        let first = earliest(self.clients.as_slice());
        self.clients
            .iter()
            .take_while(|client| client.idle_since() != first)
            .count()
    }

    /// Closes the connection that is silent longest.
    fn dismiss_silent(&mut self)
        ensures clients { 0 < length self.old.clients.items →
            self.new.clients.items ≡ without (most_silent self.old.clients.items) self.old.clients.items }
        ensures most { self.new.most ≡ self.old.most }
    {
        let place = self.most_silent();
        if place < self.clients.len() {
            let _silent = self.clients.remove(place);
        }
    }

    /// Whether there is room for a client, or one is silent and is closed for a new one.
    fn has_room(&self, now: u64) -> bool
        ensures { result ≡ has_room now self.now.most self.now.clients.items }
    {
        let silent = self.clients.get(self.most_silent());
        self.clients.len() <= self.most
            || silent.is_some_and(|client| now > client.idle_since().saturating_add(SILENT))
    }

    /// Accepts a waiting connection, if there is room, or in place of the one that is silent longest. Whether one came.
    fn take_in(&mut self, poll: &Poll, now: u64) -> bool {
        if !self.has_room(now) {
            return false;
        }
        match self.listener.next() {
            Ok(Some(stream)) => {
                self.client(poll, stream, now);
                true
            }
            Ok(None) => true,
            Err(_) => false,
        }
    }

    /// Accepts a connection; when out of memory for it, it is closed.
    fn client(&mut self, poll: &Poll, stream: Stream, now: u64) {
        let Ok(keys) = self.keys.clone() else {
            return;
        };
        if self.clients.len() > self.most {
            self.dismiss_silent();
        }
        let client = Client::new(*self.clients.allocator(), keys, stream, now);
        if watch(poll, client.stream.raw_fd()).is_ok() {
            let _seated = self.clients.push(client);
        }
    }

    /// Lets a client go, and counts what was refused there before it was a request.
    fn leave<R: Records>(&mut self, place: usize, service: &mut HttpService<R>)
        ensures handler { service.new.handler ≡ service.old.handler }
        ensures left { service.new.changes_left ≡ service.old.changes_left }
        ensures scraped { service.new.is_scraped ≡ service.old.is_scraped }
        ensures kept { IsKept service.old service.new }
        ensures serves { Serves service.old service.new }
    {
        if place >= self.clients.len() {
            return;
        }
        let client = self.clients.remove(place);
        if let Some(status) = client.refusal() {
            service.count(status);
        }
    }

    /// Does what can be done at once for a client: one read, one answer, one write. The client beyond the others is let
    /// go behind its first answer, so that it is there for the next client.
    fn look_at<R: Records>(&mut self, place: usize, service: &mut HttpService<R>, now: u64) -> Look
        ensures answers { IfSome (slice_get self.old.clients.items place) (λ client. (left : Client) ×
            Calls ⟦<HttpService<R> as Service>⟧.answers
            (record service.old { is_spare = nat_le self.old.most place }) service.new
            (calls_of client) (calls_of left)) }
        ensures nobody { slice_get self.old.clients.items place ≡ None → service.new ≡ service.old }
        ensures asks { AsksWithin service.old service.new }
        ensures figures { ServesFigures service.old service.new }
        ensures kept { IsKept service.old service.new }
        ensures serves { Serves service.old service.new }
    {
        let Some(client) = self.clients.get_mut(place) else {
            return Look::Quiet;
        };
        service.is_spare = place >= self.most;
        let answered = service.answered;
        let Some(has_moved) = client.answer(service, now) else {
            return Look::Left;
        };
        let is_answered = service.answered != answered;
        if is_answered {
            client.note_answer();
        }
        if place >= self.most && client.is_served() {
            return Look::Left;
        }
        client.looked(has_moved || is_answered, now)
    }

    /// Looks at the next client.
    fn look<R: Records>(&mut self, service: &mut HttpService<R>, now: u64) -> Look
        ensures asks { AsksWithin service.old service.new }
        ensures figures { ServesFigures service.old service.new }
        ensures kept { IsKept service.old service.new }
        ensures serves { Serves service.old service.new }
    {
        if self.next >= self.clients.len() {
            self.next = 0;
        }
        let place = self.next;
        let look = self.look_at(place, service, now);
        if look == Look::Left {
            self.leave(place, service);
        } else {
            self.next = place.saturating_add(1);
        }
        look
    }

    /// Serves one client after the other, each once, beginning behind the last, until one asked something other than a
    /// change. Where figures alone are served nothing is changed. Whether anything was done.
    fn serve<R: Records>(
        &mut self,
        poll: &Poll,
        service: &mut HttpService<R>,
        is_scraped: bool,
        now: u64,
    ) -> bool
        ensures asks { AsksWithin service.old service.new }
        ensures figures { is_scraped ≡ true → service.new.handler ≡ service.old.handler }
        ensures kept { IsKept service.old service.new }
        ensures serves { Serves service.old service.new }
    {
        service.is_scraped = is_scraped;
        let mut is_busy = self.take_in(poll, now);
        for _client in 0..self.clients.len() {
            let left = service.changes_left;
            match self.look(service, now) {
                Look::Quiet => {}
                Look::Busy => {
                    if service.changes_left == left {
                        return true;
                    }
                    is_busy = true;
                }
                Look::Left => is_busy = true,
            }
        }
        is_busy
    }
}

impl ControlSocket {
    /// Opens the control socket at a path, where a socket left by a node that ended is removed first; and a
    /// port at which figures alone are served, where one is asked for.
    ///
    /// `NoPort` (82) where the system refuses the port. `NoSocket` (84) where another node answers at the path, where
    /// something else is there, or where the system refuses the socket: then nothing is there that didn't
    /// before.
    pub fn open<RT>(
        rt: &RT,
        alloc: Global,
        keys: RandomState,
        path: &str,
        figures: Option<SocketAddr>,
    ) -> Result<ControlSocket, ControlFault>
    where
        RT: Files + Net<Listener = TcpListener, Stream = TcpStream>,
        ensures { IfOk result (IsOpened figures) }
    {
        let poll = Poll::new(rt).map_err(|_| ControlFault::NoSocket)?;
        let events = Events::with_capacity(alloc, EVENTS).map_err(|_| ControlFault::Memory)?;
        let figures = open_figures(rt, alloc, &keys, &poll, figures)?;
        let operators = open_path(rt, alloc, keys, &poll, path)?;
        Ok(ControlSocket {
            operators,
            figures,
            poll,
            events,
            is_figures_first: false,
            health: Health::Works,
        })
    }

    /// Has a wait end when a datagram comes at this socket, too. Whether the system does that.
    pub fn watch(&mut self, fd: RawFd) -> bool
        ensures { self.new ≡ self.old }
    {
        watch(&self.poll, fd).is_ok()
    }

    /// How many operators are served now.
    pub fn clients(&self) -> usize
        ensures { result ≡ client_count self.now }
    {
        self.operators.clients.len()
    }

    /// Whether anything is to be sent to an operator.
    pub fn has_more(&self) -> bool
        ensures { result ≡ has_more_to_send self.now }
    {
        self.operators.has_more()
    }

    /// Waits until something comes, at most n milliseconds.
    pub fn wait(&mut self, milliseconds: u32)
        ensures { KeepsClients self.old self.new }
    {
        if milliseconds == 0 {
            return;
        }
        let timeout = Duration::from_millis(u64::from(milliseconds));
        let _woken = self.poll.poll(&mut self.events, Some(timeout));
    }

    /// The node's health, if it isn't what was reported last and the node has run for `START` seconds; then it is
    /// noted.
    fn changed<R: Records>(&mut self, service: &HttpService<R>) -> Option<Health>
        ensures said { result ≡ (if not (⟦<Health as PartialEq>⟧.eq
            (health service.now.handler.node service.now.counters) self.old.health)
            && nat_le START service.now.counters.up
            then Some (health service.now.handler.node service.now.counters) else None) }
        ensures noted { self.new ≡ record self.old { health = unwrap_or result self.old.health } }
    {
        let health = service.handler.health(&service.counters);
        if health == self.health || service.counters.up < START {
            return None;
        }
        self.health = health;
        Some(health)
    }

    /// Logs on standard error that the node's health has changed, if it has.
    pub(crate) fn note<R: Records, RT: Clock + Eprint>(&mut self, rt: &RT, service: &HttpService<R>)
        ensures clients { client_count self.new ≡ client_count self.old }
    {
        if let Some(health) = self.changed(service) {
            log(rt, service, health);
        }
    }

    /// Closes the control socket, and takes the socket away that is at the path.
    pub fn close<RT: Files>(self, rt: &RT, path: &str) {
        let _gone = fs::remove_file(rt, path);
    }

    /// Serves the clients of figures, if there is a port for them.
    fn serve_figures<R: Records>(&mut self, service: &mut HttpService<R>, now: u64) -> bool
        ensures asks { AsksWithin service.old service.new }
        ensures figures { service.new.handler ≡ service.old.handler }
        ensures kept { IsKept service.old service.new }
        ensures serves { Serves service.old service.new }
    {
        match &mut self.figures {
            Some(figures) => figures.serve(&self.poll, service, true, now),
            None => false,
        }
    }

    /// Serves clients between two rounds of the node, operators and the clients of figures first in turn: some
    /// changes are asked, or one other request is worked at. Whether anything was done.
    pub(crate) fn serve<R: Records>(&mut self, service: &mut HttpService<R>, now: u64) -> bool
        ensures asks { AsksUpTo CHANGES service.old.handler.node service.new.handler.node }
        ensures kept { IsKept service.old service.new }
        ensures serves { Serves service.old service.new }
    {
        service.changes_left = CHANGES;
        self.is_figures_first = !self.is_figures_first;
        if self.is_figures_first {
            return self.serve_figures(service, now)
                || self.operators.serve(&self.poll, service, false, now);
        }
        self.operators.serve(&self.poll, service, false, now) || self.serve_figures(service, now)
    }
}

/// The entrance at a path.
fn open_path<RT: Files + Net>(
    rt: &RT,
    alloc: Global,
    keys: RandomState,
    poll: &Poll,
    path: &str,
) -> Result<Entrance, ControlFault>
    ensures { IfOk result (IsUnused CLIENTS) }
{
    if !free(rt, path) {
        return Err(ControlFault::NoSocket);
    }
    let listener = listen(rt, alloc, path).map_err(|error| match error.kind() {
        ErrorKind::OutOfMemory => ControlFault::Memory,
        _ => ControlFault::NoSocket,
    })?;
    if watch(poll, listener.as_raw_fd()).is_err() {
        let _gone = fs::remove_file(rt, path);
        return Err(ControlFault::NoSocket);
    }
    let entrance = Entrance::new(alloc, keys, Listener::Local(listener), CLIENTS);
    if entrance.is_err() {
        let _gone = fs::remove_file(rt, path);
    }
    entrance.map_err(|_| ControlFault::Memory)
}

/// The entrance at the port of figures, if there is to be one.
fn open_figures<RT>(
    rt: &RT,
    alloc: Global,
    keys: &RandomState,
    poll: &Poll,
    address: Option<SocketAddr>,
) -> Result<Option<Entrance>, ControlFault>
where
    RT: Net<Listener = TcpListener, Stream = TcpStream>,
    ensures { IfOk result (λ found. (is_none found ≡ is_none address) × IfSome found (IsUnused FIGURE_CLIENTS)) }
{
    let Some(address) = address else {
        return Ok(None);
    };
    let keys = keys.clone().map_err(|_| ControlFault::Memory)?;
    let listener = TcpListener::bind(rt, address).map_err(|_| ControlFault::NoPort)?;
    listener
        .set_nonblocking(true)
        .map_err(|_| ControlFault::NoPort)?;
    watch(poll, listener.as_raw_fd()).map_err(|_| ControlFault::NoPort)?;
    let listener = Listener::Tcp(listener);
    let entrance = Entrance::new(alloc, keys, listener, FIGURE_CLIENTS);
    Ok(Some(entrance.map_err(|_| ControlFault::Memory)?))
}
