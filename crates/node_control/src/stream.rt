//! Sockets in the file system, and sockets of TCP.

ghost use Rattle.std.specs.Prelude.{◌≡◌};
ghost use Rattle.http_server.specs.Connection.{config_of, history};

use http_server::Connection;
use std::io;
use std::net::{TcpListener, TcpStream};
use std::os::fd::{AsRawFd, RawFd};
use std::os::unix::net::{UnixListener, UnixStream};

/// A connection's socket.
#[derive(Drop)]
pub(crate) enum Stream {
    /// One that came over a file.
    Local(UnixStream),
    /// One that came over TCP.
    Tcp(TcpStream),
}

/// A listening socket.
#[derive(Drop)]
pub(crate) enum Listener {
    /// One in the file system.
    Local(UnixListener),
    /// One of TCP.
    Tcp(TcpListener),
}

impl Stream {
    /// Its descriptor.
    pub(crate) fn raw_fd(&self) -> RawFd {
        match self {
            Stream::Local(stream) => stream.as_raw_fd(),
            Stream::Tcp(stream) => stream.as_raw_fd(),
        }
    }

    /// Reads and writes don't wait from now on, and what is written goes at once.
    fn hasten(&self) -> io::Result<()> {
        match self {
            Stream::Local(stream) => stream.set_nonblocking(true),
            Stream::Tcp(stream) => {
                stream.set_nonblocking(true)?;
                stream.set_nodelay(true)
            }
        }
    }

    /// Reads once into the connection.
    pub(crate) fn read_into(&self, connection: &mut Connection) -> io::Result<usize>
        ensures { (history connection.new).calls ≡ (history connection.old).calls }
    {
        match self {
            Stream::Local(stream) => connection.read_from(&mut &*stream),
            Stream::Tcp(stream) => connection.read_from(&mut &*stream),
        }
    }

    /// Writes once out of the connection.
    pub(crate) fn write_from(&self, connection: &mut Connection) -> io::Result<usize>
        ensures calls { (history connection.new).calls ≡ (history connection.old).calls }
        ensures received { (history connection.new).received ≡ (history connection.old).received }
        ensures config { config_of connection.new ≡ config_of connection.old }
    {
        match self {
            Stream::Local(stream) => connection.write_to(&mut &*stream),
            Stream::Tcp(stream) => connection.write_to(&mut &*stream),
        }
    }
}

impl Listener {
    /// The next connection that has come, which doesn't wait; an error where none has come.
    pub(crate) fn next(&self) -> io::Result<Option<Stream>> {
        let stream = match self {
            Listener::Local(listener) => Stream::Local(listener.accept()?.0),
            Listener::Tcp(listener) => Stream::Tcp(listener.accept()?.0),
        };
        Ok(stream.hasten().is_ok().then_some(stream))
    }
}
