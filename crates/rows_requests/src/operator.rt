//! An operator's handle of the system: a client of the node's control socket is answered by a node that runs for that,
//! as soon as the time is read. A node that runs with this handle has the system's sockets, and the same clock.

use crate::serving::{Member, Served};
use node_loop::Ended;
use std::alloc::Allocator;
use std::cell::Cell;
use std::fmt::Display;
use std::fs::{Files, Metadata, OpenOptions, Permissions};
use std::io::{self, Eprint, ErrorKind, Read, Write};
use std::net::{Net, SocketAddr, TcpListener, TcpStream};
use std::os::fd::{BorrowedFd, OwnedFd};
use std::os::unix::net::{self, UnixStream};
use std::random::RandomSource;
use std::time::{Clock, Duration};

/// How often a stream is read at most, 8,192 bytes each time.
const READS: usize = 64;

/// What is left of the ten seconds in which an answer has to come is waited for, in milliseconds of the row's clock.
const PATIENCE: u64 = 9_980;

/// How long a pause takes by the row's clock, in milliseconds.
const PAUSE: u64 = 50;

/// How long a reading of the clock takes, in microseconds.
const READING: u64 = 100;

/// The same where a node runs with this handle: a round of the node.
const ROUND: u64 = 1_000;

/// The system's files, and a node in place of its network.
#[derive(Drop)]
pub(crate) struct Operator<'a> {
    pub(crate) rt: &'a HostRuntime,
    /// The time by its clock, in microseconds. Each reading, and each pause, adds some.
    now: Cell<u64>,
    /// How far the time since 1970 is ahead of that, in microseconds.
    wall: Cell<i64>,
    /// Whether connections are the system's.
    is_node: Cell<bool>,
    /// The datagram that comes next to a node that runs with this handle.
    pub(crate) coming: Cell<Option<Vec<u8>>>,
    /// Whether the system refuses what such a node sends.
    pub(crate) is_deaf: Cell<bool>,
    member: Cell<Option<Member>>,
    /// The other end of the connection that was made last.
    far: Cell<Option<UnixStream>>,
    /// The mode of the control socket at the last answer.
    mode: Cell<u32>,
    /// Whether the node's clock ticks, so that what waits is proposed, at its end alone.
    is_late: Cell<bool>,
    /// Whether half of an answer comes, and nothing more in time.
    is_cut: Cell<bool>,
}

/// What is read as text.
pub(crate) fn text_of(bytes: &[u8]) -> &str {
    std::str::from_utf8(bytes).unwrap_or("not UTF-8")
}

/// The first line of what is sent, without the bytes that end it.
fn first_line(bytes: &[u8]) -> &str {
    let end = bytes
        .iter()
        .position(|b| *b == b'\r')
        .unwrap_or(bytes.len());
    text_of(bytes.get(..end).unwrap_or(bytes))
}

/// Prints the lines of an answer's head, but for the date and the length, which differ from time to time.
fn print_head(rt: &HostRuntime, answer: &[u8]) -> io::Result<()> {
    for line in text_of(answer).lines() {
        if line.is_empty() {
            return Ok(());
        }
        if !line.starts_with("date: ") && !line.starts_with("content-length: ") {
            println!(rt; "< {line}")?;
        }
    }
    println!(rt; "< nothing more")
}

/// What has come over a stream that doesn't wait, and whether its other end is closed.
pub(crate) fn come(rt: &HostRuntime, stream: &mut UnixStream) -> io::Result<(Vec<u8>, bool)> {
    let mut all = Vec::new(rt.alloc());
    let mut bytes = [0; 8192];
    for _ in 0..READS {
        match stream.read(&mut bytes) {
            Ok(0) => return Ok((all, true)),
            Ok(count) => {
                if let Some(part) = bytes.get(..count) {
                    all.extend_from_slice(part)?;
                }
            }
            Err(error) if error.kind() == ErrorKind::WouldBlock => return Ok((all, false)),
            Err(_) => return Ok((all, true)),
        }
    }
    Ok((all, false))
}

/// Prints how a node ended where that is by itself.
pub(crate) fn print_end(rt: &HostRuntime, ended: &Ended) -> io::Result<()> {
    match ended {
        Ended::Front { .. } => Ok(()),
        Ended::Stopped { front, applied } => {
            println!(rt; "stopped, front {front}, applied {applied}")
        }
        _ => println!(rt; "failed"),
    }
}

impl<'a> Operator<'a> {
    /// An operator of this member.
    pub(crate) fn new(rt: &'a HostRuntime, member: Option<Member>) -> Operator<'a> {
        Operator {
            rt,
            now: Cell::new(0),
            wall: Cell::new(0),
            is_node: Cell::new(false),
            coming: Cell::new(None),
            is_deaf: Cell::new(false),
            member: Cell::new(member),
            far: Cell::new(None),
            mode: Cell::new(0),
            is_late: Cell::new(false),
            is_cut: Cell::new(false),
        }
    }

    /// Time passes, in microseconds.
    fn add(&self, time: u64) {
        self.now.set(self.now.get().saturating_add(time));
    }

    /// Time passes, in milliseconds.
    pub(crate) fn pass(&self, time: u64) {
        self.add(time.saturating_mul(1_000));
    }

    /// The time since 1970 is set forward by this, in milliseconds, or back where it is negative.
    pub(crate) fn set_wall(&self, by: i64) {
        let by = by.saturating_mul(1_000);
        self.wall.set(self.wall.get().saturating_add(by));
    }

    /// Whether a node is to run with this handle. Its clock begins anew, and what it sends is sent.
    pub(crate) fn set_node(&self, is_node: bool) {
        self.is_node.set(is_node);
        self.now.set(0);
        self.wall.set(0);
        self.is_deaf.set(false);
    }

    /// The mode of the control socket at the last answer.
    pub(crate) fn mode(&self) -> u32 {
        self.mode.get()
    }

    /// Whether the node's clock is to tick at the end of a run alone.
    pub(crate) fn set_late(&self, is_late: bool) {
        self.is_late.set(is_late);
    }

    /// Whether half of an answer is to come, and nothing more in time.
    pub(crate) fn set_cut(&self, is_cut: bool) {
        self.is_cut.set(is_cut);
    }

    /// Prints a request's first line and the head of its answer, and how the node ended where that is by itself.
    fn print(&self, request: &[u8], served: &Served) -> io::Result<()> {
        println!(self.rt; "> {}", first_line(request))?;
        print_head(self.rt, served.answer.as_slice())?;
        print_end(self.rt, &served.ended)
    }

    /// The node runs and answers, where a client has sent a request.
    pub(crate) fn answer(&self) -> io::Result<()> {
        let Some(mut far) = self.far.take() else {
            return Ok(());
        };
        far.set_nonblocking(true)?;
        let (request, _is_closed) = come(self.rt, &mut far)?;
        if request.is_empty() {
            self.far.set(Some(far));
            return Ok(());
        }
        let Some(member) = self.member.take() else {
            return Err(io::Error::from(ErrorKind::NotFound));
        };
        let (served, member) = member.serve(self.rt, request.as_slice(), self.is_late.get())?;
        self.member.set(member);
        self.mode.set(served.mode);
        self.print(request.as_slice(), &served)?;
        let answer = served.answer.as_slice();
        if !self.is_cut.get() {
            return far.write_all(answer);
        }
        far.write_all(answer.get(..answer.len() / 2).unwrap_or(answer))?;
        self.far.set(Some(far));
        self.pass(PATIENCE);
        Ok(())
    }
}

impl Clock for Operator<'_> {
    fn monotonic(&self) -> io::Result<Duration> {
        self.answer()?;
        self.add(if self.is_node.get() { ROUND } else { READING });
        Ok(Duration::from_micros(self.now.get()))
    }

    fn since_1970(&self) -> io::Result<Duration> {
        let now = self.now.get().saturating_add_signed(self.wall.get());
        Ok(Duration::from_micros(now))
    }
}

impl Eprint for Operator<'_> {
    fn eprint<D: Display + Drop>(&self, value: D) -> io::Result<()> {
        print!(self.rt; "{value}")
    }

    fn eprintln<D: Display + Drop>(&self, value: D) -> io::Result<()> {
        println!(self.rt; "{value}")
    }
}

impl RandomSource for Operator<'_> {
    fn fill_bytes(&self, bytes: &mut [u8]) -> io::Result<()> {
        self.rt.fill_bytes(bytes)
    }
}

impl Net for Operator<'_> {
    type Stream = TcpStream;

    type Listener = TcpListener;

    fn bind(&self, addr: SocketAddr) -> io::Result<TcpListener> {
        self.rt.bind(addr)
    }

    fn connect(&self, addr: SocketAddr) -> io::Result<TcpStream> {
        self.rt.connect(addr)
    }

    fn connect_unix(&self, addr: &net::SocketAddr) -> io::Result<UnixStream> {
        if self.is_node.get() {
            return self.rt.connect_unix(addr);
        }
        let (near, far) = UnixStream::pair(self.rt)?;
        self.far.set(Some(far));
        Ok(near)
    }

    /// Two streams: for a pause, which moves the clock alone, since what it would wait for is there.
    fn unix_pair(&self) -> io::Result<(UnixStream, UnixStream)> {
        let (near, mut far) = UnixStream::pair(self.rt)?;
        if !self.is_node.get() {
            self.pass(PAUSE);
            far.write_all(b"-")?;
        }
        Ok((near, far))
    }

    fn unix_socket(&self) -> io::Result<OwnedFd> {
        self.rt.unix_socket()
    }
}

/// The node in place of the network, for a run that has the operator's files by another handle.
#[derive(Drop)]
pub(crate) struct Sockets<'a> {
    pub(crate) operator: &'a Operator<'a>,
}

impl Clock for Sockets<'_> {
    fn monotonic(&self) -> io::Result<Duration> {
        self.operator.monotonic()
    }

    fn since_1970(&self) -> io::Result<Duration> {
        self.operator.since_1970()
    }
}

impl Net for Sockets<'_> {
    type Stream = TcpStream;

    type Listener = TcpListener;

    fn bind(&self, addr: SocketAddr) -> io::Result<TcpListener> {
        self.operator.bind(addr)
    }

    fn connect(&self, addr: SocketAddr) -> io::Result<TcpStream> {
        self.operator.connect(addr)
    }

    fn connect_unix(&self, addr: &net::SocketAddr) -> io::Result<UnixStream> {
        self.operator.connect_unix(addr)
    }

    fn unix_pair(&self) -> io::Result<(UnixStream, UnixStream)> {
        self.operator.unix_pair()
    }

    fn unix_socket(&self) -> io::Result<OwnedFd> {
        self.operator.unix_socket()
    }
}

impl Files for Operator<'_> {
    type File = <HostRuntime as Files>::File;

    type Dir = <HostRuntime as Files>::Dir;

    fn open_file(&self, how: &OpenOptions, path: &str) -> io::Result<Self::File> {
        let file = self.rt.open_file(how, path);
        if file.is_err() {
            println!(self.rt; "not opened: {path}")?;
        }
        file
    }

    fn open_dir(&self, path: &str) -> io::Result<Self::Dir> {
        self.rt.open_dir(path)
    }

    fn metadata(&self, path: &str) -> io::Result<Metadata> {
        self.rt.metadata(path)
    }

    fn symlink_metadata(&self, path: &str) -> io::Result<Metadata> {
        self.rt.symlink_metadata(path)
    }

    fn copy(&self, from: &str, to: &str) -> io::Result<u64> {
        self.rt.copy(from, to)
    }

    fn rename(&self, from: &str, to: &str) -> io::Result<()> {
        self.rt.rename(from, to)
    }

    fn remove_file(&self, path: &str) -> io::Result<()> {
        self.rt.remove_file(path)
    }

    fn create_dir(&self, path: &str) -> io::Result<()> {
        self.rt.create_dir(path)
    }

    fn remove_dir(&self, path: &str) -> io::Result<()> {
        self.rt.remove_dir(path)
    }

    fn remove_dir_all<B: Allocator>(&self, alloc: B, path: &str) -> io::Result<()> {
        self.rt.remove_dir_all(alloc, path)
    }

    fn set_permissions(&self, path: &str, perm: Permissions) -> io::Result<()> {
        self.rt.set_permissions(path, perm)
    }

    fn hard_link(&self, original: &str, link: &str) -> io::Result<()> {
        self.rt.hard_link(original, link)
    }

    fn create_dir_with_mode(&self, path: &str, mode: u32) -> io::Result<()> {
        self.rt.create_dir_with_mode(path, mode)
    }

    fn bind_unix(&self, socket: BorrowedFd<'_>, addr: &net::SocketAddr) -> io::Result<()> {
        self.rt.bind_unix(socket, addr)
    }
}
