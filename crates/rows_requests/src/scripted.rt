//! A node that runs at its control socket while a row's steps are made, one after the other.

ghost use Rattle.std.specs.Prelude.{⊤};
ghost use Rattle.px_transport.specs.Identities.{plain};

use crate::network::Network;
use crate::operator::{Operator, come, print_end, text_of};
use crate::serving::{Member, SOCKET};
use node_loop::{Action, TickTimer, Timer, View, Wire};
use px_transport::LoopbackWire;
use std::io::{self, Write};
use std::net::TcpStream;
use std::os::fd::OwnedFd;
use std::os::unix::net::UnixStream;

/// How many rounds the node makes after each step, one of its milliseconds each.
const ROUNDS: u8 = 6;

/// Behind how many steps a slow client is read.
const SLOW: u8 = 10;

/// For how many turns it runs at most.
const TURNS: u64 = 1_000;

/// A wire over which the steps' datagrams come.
#[derive(Drop)]
struct StepWire<'a> {
    operator: &'a Operator<'a>,
    failures: u64,
}

impl Wire for StepWire<'_> {
    // what comes of it is shown by rows
    ghost traffic = { λ _ _. ⊤ };

    ghost failed = { λ w. w.failures };

    ghost identity = { λ _. plain };

    fn recv(&mut self, into: &mut [u8]) -> Option<usize> {
        let datagram = self.operator.coming.take()?;
        let count = datagram.len().min(into.len());
        into[..count].copy_from_slice(&datagram[..count]);
        Some(count)
    }

    fn poll(&mut self, into: &mut [u8]) -> Option<usize> {
        self.recv(into)
    }

    fn wait(&mut self, _milliseconds: u32) {}

    fn due(&self, milliseconds: u32) -> u32 {
        milliseconds
    }

    fn send(&mut self, _to: u8, _bytes: &[u8]) -> bool {
        if self.operator.is_deaf.get() {
            self.failures = self.failures.saturating_add(1);
            return false;
        }
        true
    }

    fn failures(&self) -> u64 {
        self.failures
    }
}

/// The steps that are left, and the clients that they made.
#[derive(Drop)]
struct Steps<'a> {
    operator: &'a Operator<'a>,
    network: &'a Network,
    left: &'a str,
    /// How many rounds the node makes before the next step.
    rounds: u8,
    clients: Vec<Option<UnixStream>>,
    /// Which client sent the same many times: it isn't read behind its first answer.
    many: Option<usize>,
    unread: Option<UnixStream>,
    /// Which client's bytes are counted alone, behind how many more steps it is read, and how many they were.
    slow: Option<usize>,
    rest: u8,
    counted: usize,
    timer: TickTimer,
}

impl Steps<'_> {
    /// Prints what the clients received.
    fn print_come(&mut self) -> io::Result<()> {
        let rt = self.operator.rt;
        for (number, client) in self.clients.iter_mut().enumerate() {
            let Some(stream) = client else {
                continue;
            };
            let is_slow = self.slow == Some(number);
            if is_slow && self.rest > 0 {
                self.rest -= 1;
                continue;
            }
            let (answer, is_closed) = come(rt, stream)?;
            if is_slow {
                self.counted = self.counted.saturating_add(answer.len());
            } else if !answer.is_empty() {
                let (head, body) = text_of(&answer).split_once("\r\n\r\n").unwrap_or(("", ""));
                let first = head.lines().next().unwrap_or("");
                let body = body.split("HTTP/1.1 ").next().unwrap_or("");
                print!(rt; "{number} < {first}\n{body}")?;
            }
            if is_closed {
                println!(rt; "{number} is closed")?;
                *client = None;
            } else if self.many == Some(number) && !answer.is_empty() {
                self.unread = client.take();
            }
        }
        Ok(())
    }

    /// A client connects that doesn't wait: over TCP, or at the control socket.
    fn connect(&mut self, is_tcp: bool) -> io::Result<()> {
        let rt = self.operator.rt;
        let stream = if is_tcp {
            UnixStream::from(OwnedFd::from(TcpStream::connect(rt, self.network.figures)?))
        } else {
            UnixStream::connect(rt, SOCKET)?
        };
        stream.set_nonblocking(true)?;
        self.clients.push(Some(stream))?;
        Ok(())
    }

    /// The client with this number sends a request, or the front of one where its target is missing, N times behind
    /// `* N` and `+ N`.
    fn ask(&mut self, number: usize, what: &str) -> io::Result<()> {
        let alloc = self.operator.rt.alloc();
        let (times, request) = match what.split_once(' ') {
            Some(("*", rest)) => {
                self.many = Some(number);
                rest.split_once(' ').unwrap_or(("", ""))
            }
            Some(("+", rest)) => {
                self.slow = Some(number);
                self.rest = SLOW;
                rest.split_once(' ').unwrap_or(("", ""))
            }
            _ => ("1", what),
        };
        let times = times.parse::<usize>().unwrap_or(0);
        let mut parts = request.splitn(3, ' ');
        let (method, target) = (parts.next().unwrap_or(""), parts.next().unwrap_or(""));
        let body = parts.next().unwrap_or("").replace(alloc, "|", "\n")?;
        let text = if target.is_empty() {
            String::from_str(alloc, method)?
        } else {
            format!(in alloc;
                "{method} {target} HTTP/1.1\r\nhost: pfx\r\ncontent-length: {}\r\n\r\n{body}",
                body.len()
            )?
        };
        match self.clients.get_mut(number) {
            Some(Some(stream)) => stream.write_all(text.repeat(alloc, times)?.as_bytes()),
            _ => Ok(()),
        }
    }

    /// Makes the next step, if one is left.
    fn make(&mut self) -> io::Result<()> {
        let rt = self.operator.rt;
        let (step, rest) = self.left.split_once('\n').unwrap_or((self.left, ""));
        self.left = rest;
        if step.is_empty() {
            return Ok(());
        }
        println!(rt; "* {step}")?;
        let (who, what) = step.split_once(' ').unwrap_or((step, ""));
        match who {
            "pass" => self.operator.pass(what.parse::<u64>().unwrap_or(0)),
            "wall" => self.operator.set_wall(what.parse::<i64>().unwrap_or(0)),
            "deaf" => self.operator.is_deaf.set(true),
            "datagram" => self.operator.coming.set(hex::decode(rt.alloc(), what).ok()),
            "pfx" => self.network.run(rt, what)?,
            _ => {
                let number = who.parse::<usize>().unwrap_or(0);
                if number >= self.clients.len() {
                    self.connect(what == "tcp")?;
                }
                if what != "tcp" {
                    self.ask(number, what)?;
                }
            }
        }
        Ok(())
    }

    /// What has come is printed, and the next step is made, once the node has made its rounds.
    fn go_on(&mut self) -> io::Result<()> {
        if self.rounds > 0 {
            self.rounds -= 1;
            return Ok(());
        }
        self.rounds = ROUNDS;
        self.print_come()?;
        self.make()
    }
}

impl Timer for Steps<'_> {
    // what comes of it is shown by rows
    ghost timer_events = { λ _ _. ⊤ };

    ghost listens = { λ s now. ⟦<TickTimer as Timer>⟧.listens s.timer now };

    fn action(&mut self, now: u64, view: View) -> Action {
        let _made = self.go_on();
        match self.timer.action(now, view) {
            Action::Tick => Action::Tick,
            Action::Wait(_) => Action::Wait(1),
        }
    }

    fn sent(&mut self, now: u64) {
        self.timer.sent(now)
    }

    fn repeats(&mut self, now: u64) -> bool {
        self.timer.repeats(now)
    }

    fn end(&mut self) {
        self.timer.end()
    }

    fn is_listening(&self, now: u64) -> bool {
        self.timer.is_listening(now)
    }
}

/// The first of n members runs, with the node's own timer, while the steps are made.
pub(crate) fn run_steps(
    operator: &Operator<'_>,
    network: &Network,
    members: &str,
    steps: &str,
) -> io::Result<()> {
    let (rt, alloc) = (operator.rt, operator.rt.alloc());
    let Some(member) = Member::new(alloc, members.parse::<u8>().unwrap_or(0)) else {
        return println!(rt; "memory");
    };
    let figures = Some(network.figures);
    let wire = StepWire {
        operator,
        failures: 0,
    };
    let mut wire = LoopbackWire::new(alloc, wire, 0);
    let mut steps = Steps {
        operator,
        network,
        left: steps,
        rounds: 0,
        clients: Vec::new(alloc),
        many: None,
        unread: None,
        slow: None,
        rest: 0,
        counted: 0,
        timer: TickTimer::new(0),
    };
    operator.set_node(true);
    let (ended, _member) = member.run(operator, alloc, &mut wire, &mut steps, figures, TURNS)?;
    operator.set_node(false);
    steps.print_come()?;
    if steps.slow.is_some() {
        println!(rt; "{} bytes counted", steps.counted)?;
    }
    print_end(rt, &ended)
}
