//! A node that runs at a control socket, of a cluster of one while one request is answered.

ghost use Rattle.std.specs.Prelude.{◌≡◌, ◌<◌, ⊤, false};

use node_control::{ControlPlace, Observer, run_member};
use node_loop::{Action, Ended, Membership, MemoryWire, Timer, View, Wire};
use px_records::{MemoryRecords, Records};
use px_transport::LoopbackWire;
use std::alloc::{AllocError, Global};
use std::fs::{self, Files};
use std::io::{self, Eprint, Read, Write};
use std::net::{Net, SocketAddr, TcpListener, TcpStream};
use std::os::fd::AsRawFd;
use std::os::unix::fs::PermissionsExt;
use std::os::unix::net::UnixStream;
use std::random::RandomSource;
use std::time::Clock;

/// The path of the node's control socket.
pub(crate) const SOCKET: &str = "socket";

/// For how many turns the node runs.
const TURNS: u64 = 50;

/// How many bytes are read at once.
const CHUNK: usize = 8192;

/// A client of the node, which goes on whenever the node asks what to do next. The clock ticks where a command waits;
/// of a late one once the node is to end.
#[derive(Drop)]
struct Client<'a> {
    rt: &'a HostRuntime,
    request: &'a [u8],
    has_connected: bool,
    stream: Option<UnixStream>,
    answer: Vec<u8>,
    /// The mode of the control socket.
    mode: u32,
    is_late: bool,
    is_ending: bool,
}

impl Client<'_> {
    /// Connects to the control socket, and sends the request.
    fn connect(&mut self) -> io::Result<UnixStream> {
        self.mode = fs::metadata(self.rt, SOCKET)?.permissions().mode() & 0o777;
        let mut stream = UnixStream::connect(self.rt, SOCKET)?;
        stream.write_all(self.request)?;
        stream.set_nonblocking(true)?;
        Ok(stream)
    }

    /// Takes what has come of the answer: whether more may come.
    fn take(&mut self) -> bool {
        let Some(stream) = &mut self.stream else {
            return false;
        };
        let mut bytes = [0; CHUNK];
        match stream.read(&mut bytes) {
            Ok(0) => false,
            Ok(count) => match bytes.get(..count) {
                Some(part) => self.answer.extend_from_slice(part).is_ok(),
                None => false,
            },
            Err(_) => true,
        }
    }

    fn go_on(&mut self) {
        if !self.has_connected {
            self.has_connected = true;
            self.stream = self.connect().ok();
        } else if !self.take() {
            self.stream = None;
        }
    }
}

impl Timer for Client<'_> {
    // what comes of it is shown by rows
    ghost timer_events = { λ _ _. ⊤ };

    ghost listens = { λ _ _. false };

    fn action(&mut self, _now: u64, view: View) -> Action {
        self.go_on();
        if view.waiting > 0 && !view.is_attempting && (self.is_ending || !self.is_late) {
            Action::Tick
        } else {
            Action::Wait(1)
        }
    }

    fn sent(&mut self, _now: u64) {}

    fn repeats(&mut self, _now: u64) -> bool {
        false
    }

    fn end(&mut self) {
        self.is_ending = true;
    }

    fn is_listening(&self, _now: u64) -> bool {
        false
    }
}

/// The first member of a cluster, and its record.
#[derive(Drop)]
pub(crate) struct Member {
    membership: Membership,
    records: MemoryRecords,
    ghost here: { membership.me < membership.members },
    ghost same: { ⟦<MemoryRecords as Records>⟧.members records ≡ membership.members },
}

/// What a run gave.
#[derive(Drop)]
pub(crate) struct Served {
    /// The bytes that the node sent to the client.
    pub(crate) answer: Vec<u8>,
    /// The mode of the control socket.
    pub(crate) mode: u32,
    pub(crate) ended: Ended,
}

/// The member with this record, none where that is of a group of another size.
fn member_of(membership: Membership, records: MemoryRecords) -> Option<Member> {
    if membership.me() < membership.members() && records.members() == membership.members() {
        Some(Member {
            membership,
            records,
        })
    } else {
        None
    }
}

impl Member {
    /// The first of n members, which learned nothing.
    pub(crate) fn new(alloc: Global, members: u8) -> Option<Member> {
        let membership = Membership::new(7, members, 0)?;
        member_of(membership, MemoryRecords::new(alloc, members))
    }

    /// Runs at the control socket, and at a port for figures, if one is given. The member afterwards is none where its
    /// record is of a group of another size.
    pub(crate) fn run<W: Wire, T: Timer, RT>(
        self,
        rt: &RT,
        alloc: Global,
        wire: &mut W,
        timer: &mut T,
        figures: Option<SocketAddr>,
        turns: u64,
    ) -> io::Result<(Ended, Option<Member>)>
    where
        RT: Clock + Eprint + Files + Net<Listener = TcpListener, Stream = TcpStream> + RandomSource,
    {
        let Member {
            membership,
            records,
        } = self;
        let (near, _far) = UnixStream::pair(rt)?;
        let mut observer = Observer::new(alloc, membership, false, true)?;
        let place = ControlPlace {
            path: SOCKET,
            figures,
            members: "192.0.2.1:4711",
            fd: near.as_raw_fd(),
        };
        let (ended, records) = run_member(
            rt,
            alloc,
            membership,
            records,
            wire,
            timer,
            &mut observer,
            false,
            Some(place),
            turns,
        );
        Ok((ended, member_of(membership, records)))
    }

    /// Runs at the control socket while the request is answered.
    pub(crate) fn serve(
        self,
        rt: &HostRuntime,
        request: &[u8],
        is_late: bool,
    ) -> io::Result<(Served, Option<Member>)> {
        let alloc = rt.alloc();
        let mut wire = LoopbackWire::new(alloc, MemoryWire::new(alloc, Vec::new(alloc)), 0);
        let mut client = Client {
            rt,
            request,
            has_connected: false,
            stream: None,
            answer: Vec::new(alloc),
            mode: 0,
            is_late,
            is_ending: false,
        };
        let (ended, member) = self.run(rt, alloc, &mut wire, &mut client, None, TURNS)?;
        for _ in 0..TURNS {
            if !client.take() {
                break;
            }
        }
        let Client { answer, mode, .. } = client;
        let served = Served {
            answer,
            mode,
            ended,
        };
        Ok((served, member))
    }
}
