//! A run of `follow` over a node, and what is written between its asks.

ghost use Rattle.std.specs.Prelude.{⊤};

use crate::asking::words_of;
use crate::node::{answered, opened, settle};
use crate::operator::{Operator, text_of};
use cli_ask::{AskFault, Reply};
use cli_follow::{Control, ControlSockets, SystemFiles, run_follow};
use node_requests::{Answer, RequestHandler};
use px_records::MemoryRecords;
use std::alloc::{AllocError, Global};
use std::cell::Cell;
use std::fs;
use std::io::{self, ErrorKind, Write};

/// Where `follow` writes lines for nft(8).
const LINES: &str = "lines";

/// How many asks come before the first change of a row `LONG`.
const IDLE: usize = 66;

/// A node that is followed. Before each answer what was written is printed, and the next change is made.
#[derive(Drop)]
struct FollowedNode<'a> {
    rt: &'a HostRuntime,
    handler: Cell<Option<RequestHandler<MemoryRecords>>>,
    /// The changes, a line each, with `|` for a newline.
    changes: &'a str,
    /// How many asks were made.
    asks: Cell<usize>,
    /// How many asks come before the first change, without a word.
    idle: usize,
    /// Where rulesets are written, if they are. It is made where it is missing, before the third ask.
    folder: Option<&'a str>,
    /// Whether the lines have the members' guard, and are printed in the end.
    is_guarded: bool,
}

/// The one that answers for the node.
#[derive(Drop)]
struct Peer<'a> {
    node: &'a FollowedNode<'a>,
}

/// Prints a file of the folder.
fn print_file(rt: &HostRuntime, folder: &str, name: &str) -> io::Result<()> {
    let text = fs::read_to_string(rt, format!(in rt.alloc(); "{folder}/{name}")?.as_str())?;
    print!(rt; "{name}:\n{text}")
}

/// Prints how many lines a file has.
fn print_count(rt: &HostRuntime, name: &str) -> io::Result<()> {
    let text = fs::read_to_string(rt, name)?;
    println!(rt; "{} lines", text.lines().count())
}

/// The names of the rulesets in the folder, if it is there, those too that have another name until they are whole, in
/// byte order.
fn ruleset_names(rt: &HostRuntime, folder: &str) -> io::Result<Vec<String>> {
    let mut names = Vec::new(rt.alloc());
    let Ok(entries) = fs::read_dir(rt, folder) else {
        return Ok(names);
    };
    for entry in entries {
        let entry = entry?;
        if entry.file_name().contains(".conf") {
            names.push(String::from_str(rt.alloc(), entry.file_name())?)?;
        }
    }
    names.sort()?;
    Ok(names)
}

/// The answer with the node's front and the positions that it applied.
fn reply_of(alloc: Global, answer: &Answer, front: u32, applied: u32) -> Result<Reply, AllocError> {
    Ok(Reply {
        code: answer.code,
        body: Vec::from_slice(alloc, answer.body.as_bytes())?,
        front: Some(front),
        applied: Some(applied),
    })
}

impl FollowedNode<'_> {
    /// Prints what was written so far: the rulesets, and how many lines there are.
    fn print_written(&self) -> io::Result<()> {
        if let Some(folder) = self.folder {
            for name in &ruleset_names(self.rt, folder)? {
                print_file(self.rt, folder, name.as_str())?;
            }
        }
        print_count(self.rt, LINES)
    }

    /// What the node answers to a request, once its clock has ticked where that is asked for.
    fn answer(&self, alloc: Global, line: &str, body: &str, has_tick: bool) -> io::Result<Reply> {
        let Some(mut handler) = self.handler.take() else {
            return Err(io::Error::from(ErrorKind::NotFound));
        };
        let answer = answered(alloc, &mut handler, line, body);
        if has_tick && !settle(alloc, &mut handler.node) {
            println!(self.rt; "failed")?;
        }
        let (front, applied) = (handler.node.front(), handler.node.applied());
        self.handler.set(Some(handler));
        Ok(reply_of(alloc, &answer?, front, applied)?)
    }

    /// The change is made, if it is one.
    fn change(&self, alloc: Global, change: &str) -> io::Result<()> {
        if change.is_empty() {
            return Ok(());
        }
        let body = change.replace(alloc, "|", "\n")?;
        let answer = self.answer(alloc, "POST /v1/changes", body.as_str(), true)?;
        print!(self.rt; "-- {}\n{}", answer.code, text_of(&answer.body))
    }

    /// What was written is printed, and the next change is made.
    fn step(&self, alloc: Global, from: u32) -> io::Result<()> {
        let asks = self.asks.get();
        self.asks.set(asks.saturating_add(1));
        let Some(at) = asks.checked_sub(self.idle) else {
            return Ok(());
        };
        println!(self.rt; "-- asked from {from}")?;
        self.print_written()?;
        if let Some(folder) = self.folder
            && from > 1
        {
            // it may be there
            let _made = fs::create_dir(self.rt, folder);
        }
        self.change(alloc, self.changes.lines().nth(at).unwrap_or(""))
    }

    /// A step is made, and the entries are read.
    fn turn(&self, alloc: Global, from: u32) -> io::Result<Reply> {
        self.step(alloc, from)?;
        let line = format!(in alloc; "GET /v1/entries?from={from}")?;
        self.answer(alloc, line.as_str(), "", false)
    }
}

impl Control for Peer<'_> {
    // what is answered is shown by rows
    ghost exchanged = { λ _ _. ⊤ };

    fn entries(&mut self, alloc: Global, from: u32) -> Result<Reply, AskFault> {
        match self.node.turn(alloc, from) {
            Ok(reply) => Ok(reply),
            Err(_) => Err(AskFault::NoAnswer),
        }
    }

    fn status(&mut self, alloc: Global) -> Result<Reply, AskFault> {
        match self.node.answer(alloc, "GET /v1/status", "", false) {
            Ok(reply) => Ok(reply),
            Err(_) => Err(AskFault::NoAnswer),
        }
    }

    fn report<E: Write>(&self, _errors: &mut E) {}
}

impl<'a> ControlSockets<'a> for FollowedNode<'a> {
    type Peer = Peer<'a>;

    // the node is at each path
    ghost answers_at = { λ _ _ _. ⊤ };

    fn peer_at(&'a self, _path: &'a str) -> Peer<'a> {
        Peer { node: self }
    }
}

/// Follows the node, with these arguments.
fn run(operator: &Operator<'_>, node: &FollowedNode<'_>, words: &str) -> io::Result<()> {
    let (rt, alloc) = (operator.rt, operator.rt.alloc());
    let all = words_of(alloc, words, &["--control", "node"])?;
    let mut lines = fs::create(rt, LINES)?;
    let status = run_follow(
        operator,
        &*node,
        &mut SystemFiles { rt },
        alloc,
        all.as_slice(),
        &mut lines,
        &mut io::writer(rt),
    );
    println!(rt; "-- {}", status.code())?;
    node.print_written()?;
    if node.is_guarded {
        print_file(rt, ".", LINES)?;
    }
    Ok(())
}

/// A new node is followed while changes are made, a line each; behind `follow` what was written is printed once more.
/// `LATE` has a folder that isn't there at first, `LONG` and `GUARDED` none.
pub(crate) fn follow_node<'x>(
    operator: &Operator<'x>,
    changes: &'x str,
    kind: &str,
) -> io::Result<()> {
    let (rt, alloc) = (operator.rt, operator.rt.alloc());
    let Some(node) = opened(alloc) else {
        return println!(rt; "memory");
    };
    let (folder, options) = match kind {
        "GUARDED" => (None, ""),
        "LONG" => (None, " --no-member-guard"),
        "LATE" => (Some("late.d"), " --no-member-guard --pf late.d"),
        _ => (Some("."), " --no-member-guard --pf ."),
    };
    let node = FollowedNode {
        rt,
        handler: Cell::new(Some(RequestHandler::new(alloc, node))),
        changes,
        asks: Cell::new(0),
        idle: if kind == "LONG" { IDLE } else { 0 },
        folder,
        is_guarded: kind == "GUARDED",
    };
    let asks = changes
        .lines()
        .count()
        .saturating_add(node.idle)
        .saturating_add(1);
    let words = format!(in alloc; "follow --nft --interfaces interfaces --turns {asks}{options}")?;
    run(operator, &node, words.as_str())
}
