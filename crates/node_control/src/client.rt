//! A client: a connection over which requests come.

ghost use Rattle.std.specs.Prelude.{◌≡◌, ◌≢◌, ◌⊎◌, ◌+◌, ◌&&◌, Some, None, true, false, not, min, nat_lt, IfSome};
ghost use Rattle.std.specs.Prelude.{if◌then◌else◌};
ghost use Rattle.http_server.specs.Connection.{config_of};
ghost use Rattle.http_server.specs.Exchange.{Calls};
ghost use Rattle.node_control.specs.inner.Clients.{IsDoneThere, idle_since, is_late, is_quiet, is_spent};
ghost use Rattle.node_control.specs.inner.Ending.{has_more};
ghost use Rattle.node_control.specs.inner.Serving.{calls_of, HasServed};

use crate::stream::Stream;
use http_server::{Config, Connection, Reason, Refusal, Service, State};
use std::alloc::Global;
use std::hash::RandomState;
use std::io::{self, ErrorKind};

/// How long a client may move no byte, in microseconds.
const QUIET: u64 = 30_000_000;

/// How long a request may take to come, from its first byte on, or from the connection's beginning; in microseconds.
const COMING: u64 = 10_000_000;

/// How many times a client is served at most.
const MOST: u32 = 1_000;

/// The most bytes that a body has.
const BODY: usize = 65_536;

/// The least bytes that a read is given, which are zeroed for each connection. Most requests have some 100, and where
/// more comes the next read is given twice as many as the last one took.
const READ: usize = 2_048;

/// A connection over which requests come.
#[derive(Drop)]
pub(crate) struct Client {
    pub(crate) stream: Stream,
    connection: Connection,
    /// When it moved a byte last, in microseconds.
    moved: u64,
    /// Since when a request has been coming, if one is.
    began: Option<u64>,
    /// How many times it was given an answer.
    served: u32,
}

/// What became of a client when it was looked at.
#[derive(Clone, Copy, PartialEq, Eq)]
pub(crate) enum Look {
    /// Nothing could be done.
    Quiet,
    /// Bytes were moved, or a request was answered.
    Busy,
    /// It is left.
    Left,
}

/// Whether bytes were moved, none after an error other than that nothing can be read or written now.
fn moved(went: io::Result<usize>) -> Option<bool> {
    let Err(error) = went else {
        return Some(true);
    };
    matches!(error.kind(), ErrorKind::WouldBlock | ErrorKind::Interrupted).then_some(false)
}

impl Client {
    /// A client that asks over the stream, which doesn't wait.
    pub(crate) fn new(alloc: Global, keys: RandomState, stream: Stream, now: u64) -> Client
        ensures times { (result.moved ≡ now) × (result.began ≡ Some now) × (result.served ≡ 0) }
        ensures body { (config_of result.connection).max_body_len ≡ BODY }
        ensures head { ((config_of result.connection).limits.max_head_len ≡ 16384) ×
            ((config_of result.connection).limits.max_extensions_len ≡ 16384) ×
            ((config_of result.connection).limits.max_trailers_len ≡ 16384) }
        ensures pending { (config_of result.connection).max_pending ≡ 0 }
        ensures read { (config_of result.connection).read_size ≡ READ }
    {
        let config = Config {
            max_body_len: BODY,
            max_pending: 0,
            read_size: READ,
            ..Config::default()
        };
        Client {
            stream,
            connection: Connection::new(alloc, keys, config),
            moved: now,
            began: Some(now),
            served: 0,
        }
    }

    /// Since when it has done nothing for its client, in microseconds: since a request has been coming, or else since
    /// it moved a byte last.
    pub(crate) fn idle_since(&self) -> u64
        ensures { result ≡ idle_since self.now }
    {
        self.began.unwrap_or(self.moved)
    }

    /// Whether anything is to be sent.
    pub(crate) fn has_more(&self) -> bool
        ensures { result ≡ has_more self.now }
    {
        self.connection.wants_write()
    }

    /// HTTP's status, where what came last was refused before it was a request.
    pub(crate) fn refusal(&self) -> Option<u16> {
        match self.connection.state() {
            State::Closing(Reason::Refused(why)) => Some(match why {
                Refusal::InvalidResponse(_) => 500,
                Refusal::UnknownCoding => 501,
                _ => 400,
            }),
            _ => None,
        }
    }

    /// Reads once, if anything has come: whether bytes were moved, and none where the client is let go.
    fn read(&mut self) -> Option<bool>
        ensures calls { calls_of self.new ≡ calls_of self.old }
        ensures times { (self.new.moved ≡ self.old.moved) × (self.new.began ≡ self.old.began)
            × (self.new.served ≡ self.old.served) }
    {
        if !self.connection.wants_read() {
            return Some(false);
        }
        moved(self.stream.read_into(&mut self.connection))
    }

    /// Writes once, if anything is to be sent, as `read`.
    fn write(&mut self) -> Option<bool>
        ensures calls { calls_of self.new ≡ calls_of self.old }
        ensures served { HasServed self.old → HasServed self.new }
        ensures times { (self.new.moved ≡ self.old.moved) × (self.new.began ≡ self.old.began)
            × (self.new.served ≡ self.old.served) }
    {
        if !self.connection.wants_write() {
            return Some(false);
        }
        moved(self.stream.write_from(&mut self.connection))
    }

    /// Whether a request has been coming for too long.
    fn is_late(&self, now: u64) -> bool
        ensures { result ≡ is_late now self.now }
    {
        let began = self.began;
        began.is_some_and(|began| now > began.saturating_add(COMING))
    }

    /// Whether there is nothing more to be done here.
    fn is_over(&self, now: u64) -> bool
        ensures late { is_late now self.now ≡ true → result ≡ true }
        ensures quiet { is_quiet now self.now ≡ true → result ≡ true }
        ensures spent { is_spent self.now ≡ true → result ≡ true }
        ensures done { IsDoneThere self.now → result ≡ true }
        ensures why { is_late now self.now ≡ false → is_quiet now self.now ≡ false → is_spent self.now ≡ false →
            result ≡ true → IsDoneThere self.now }
    {
        self.connection.is_done()
            || self.is_late(now)
            || now > self.moved.saturating_add(QUIET)
            || (self.served >= MOST && !self.connection.wants_write())
    }

    /// What became of the client, where bytes were moved or a request was answered, or neither.
    pub(crate) fn looked(&mut self, has_moved: bool, now: u64) -> Look
        ensures moved { self.new ≡ (if has_moved then record self.old { moved = now } else self.old) }
        ensures late { is_late now self.new ≡ true → result ≡ Look.Left }
        ensures quiet { is_quiet now self.new ≡ true → result ≡ Look.Left }
        ensures spent { is_spent self.new ≡ true → result ≡ Look.Left }
        ensures left { is_late now self.new ≡ false → is_quiet now self.new ≡ false → is_spent self.new ≡ false →
            result ≡ Look.Left → IsDoneThere self.new }
        ensures busy { result ≡ Look.Busy → has_moved ≡ true }
        ensures still { result ≡ Look.Quiet → has_moved ≡ false }
    {
        if has_moved {
            self.moved = now;
        }
        if self.is_over(now) {
            return Look::Left;
        }
        if has_moved { Look::Busy } else { Look::Quiet }
    }

    /// Has the service answer what came, one request at most, and writes once: whether bytes were moved, and none where
    /// the client is let go.
    pub(crate) fn answer<S: Service>(&mut self, service: &mut S, now: u64) -> Option<bool>
        ensures calls { Calls S.answers service.old service.new (calls_of self.old) (calls_of self.new) }
        ensures served { IfSome result (λ _. HasServed self.new) }
        ensures times { (self.new.moved ≡ self.old.moved) × (self.new.served ≡ self.old.served) }
        ensures began { (self.new.began ≡ self.old.began)
            ⊎ ((self.old.began ≡ None) × (self.new.began ≡ Some now)) }
    {
        let has_read = self.read()?;
        if has_read && self.began.is_none() {
            self.began = Some(now);
        }
        self.connection.advance(service);
        let has_written = self.write()?;
        Some(has_read || has_written)
    }

    /// A request was answered.
    pub(crate) fn note_answer(&mut self)
        ensures { self.new ≡ record self.old { served = min (self.old.served + 1) 4294967295; began = None } }
    {
        self.served = self.served.saturating_add(1);
        self.began = None;
    }

    /// Whether it has an answer, and all of it was sent.
    pub(crate) fn is_served(&self) -> bool
        ensures { result ≡ (nat_lt 0 self.now.served && not (has_more self.now)) }
    {
        self.served > 0 && !self.connection.wants_write()
    }
}
