//! Requests to nodes of clusters of one and of three, runs of `ask`, `follow` and `node`, and what they give: the
//! stored input has these, the stored output what is to be written.
//!
//! A row of the input is a line `== METHOD PATH?QUERY`, which `json` may follow for a client that wants JSON, and
//! the text up to the newline before the next such line is its body, where `hex` follows the target in hexadecimal
//! digits. What is before the first one is passed over.
//! Of each row the output has the same line, a line `-- CODE`, and the answer's body. Between two rows the node's clock
//! ticks, and what it sends to itself is received.
//!
//! A row `== FOLLOW` runs `follow` over a new node, with rulesets in the folder and the file `lines` as its output. Its
//! body has changes, a line each, with `|` for a newline. At each ask what was written so far is printed: the rulesets,
//! and how many lines `lines` has; then the next change is made, and answered. A row `== FOLLOW GUARDED` has no
//! rulesets, but lines with the members' guard, which are printed in the end. A row `== FOLLOW LATE` has rulesets in a
//! folder that is made before the third ask. A row `== FOLLOW LONG` has no rulesets, and 66 asks, at which nothing is
//! printed, before the others.
//!
//! A row `== RUN ARGUMENTS` runs `ask` or `follow` with these arguments, in which `~` stands for a blank, and the body
//! as the input, at the control socket of another node, which runs for a few turns for each connection. Of each request
//! the first line is printed, and the head of the answer without its date and length; then a line `-- STATUS`, and what
//! the program wrote, which in a row `== LIVE ARGUMENTS` is printed as soon as it is written. In a row `== LATE
//! ARGUMENTS` the node's clock ticks at the end of its turns alone, and in a row `== CUT ARGUMENTS` half of the answer
//! comes, and nothing more in time. `== SOCKET` prints the mode of that control socket, `== MODE NAME` that of a file,
//! and `== FILE NAME` a file. Of a file that can't be opened the path is printed. By the clock of these rows a pause
//! takes 50 milliseconds, and a reading a tenth of one.
//!
//! A row `== NODE N` runs the first of N members at its control socket, with the timer that a node has, and a clock of
//! the row's own: a round of the node takes a millisecond. Its body has steps, a line each, behind each of which the
//! node makes six rounds and what the clients received is printed, and what the node reports on standard error. In a
//! request's body `|` stands for a newline:
//!
//! | Step | Does |
//! |---|---|
//! | `pass N` | N milliseconds pass |
//! | `wall N` | the time since 1970 is set forward by N milliseconds, or back where N is negative |
//! | `datagram HEX` | a datagram comes |
//! | `deaf` | what the node sends is refused from now on |
//! | `pfx ARGUMENTS` | as a row `== PFX ARGUMENTS` |
//! | `K` | client K connects; a client that isn't there connects first in the steps below too |
//! | `K tcp` | client K connects to the port of figures |
//! | `K METHOD TARGET BODY` | client K sends a request; without a target the first bytes of one |
//! | `K * N METHOD TARGET BODY` | client K sends the same N times at once, and reads one answer |
//! | `K + N METHOD TARGET BODY` | client K does so, reads from the tenth step on, and its bytes are counted |
//!
//! How many bytes are counted is stored as summed without the program: an answer's head is `HTTP/1.1 200 OK`,
//! `pfx-node: 0`, `pfx-applied: 1`, `pfx-front: 1`, `content-type: text/plain; charset=utf-8`, `content-length: N` and
//! an empty line, each with two bytes at its end. So 40 answers have 9,575 bytes each, 9,450 of them a thousand
//! addresses, and one has 148,607, of which 148,480 are 1,024 rules of 145 bytes.
//!
//! A row `== PFX ARGUMENTS` runs the program's `node`, `key`, or `ask` over UDP, in a cluster of two, of which `@1` is
//! the address of the first member, `@2` that of the second, at which the row listens, and `@3` that of figures of the
//! node of such rows: it prints what the second member received. `== SUM NAME` prints a sum of a file's bytes, which
//! shows whether it has changed. `== STRANGER` prints how many bytes are given of datagrams of a member and of a
//! stranger where members are heard.
//!
//! Within: `asking` does RUN, LIVE, LATE and CUT, `following` FOLLOW, `scripted` NODE and its steps, `network` PFX;
//! `node` is a node of a cluster of one, `serving` one at a control socket, `operator` the handle that answers a client
//! by it.
#![tactic(auto)]

mod asking;
mod following;
mod network;
mod node;
mod operator;
mod scripted;
mod serving;

use crate::asking::run_row;
use crate::following::follow_node;
use crate::network::Network;
use crate::node::{answered, opened, settle};
use crate::operator::Operator;
use crate::serving::Member;
use node_requests::RequestHandler;
use px_records::MemoryRecords;
use std::io;
use std::rc::Rc;

/// Prints the answer to a request.
fn respond(
    rt: &HostRuntime,
    handler: &mut RequestHandler<MemoryRecords>,
    line: &str,
    body: &str,
) -> io::Result<()> {
    let answer = answered(rt.alloc(), handler, line, body)?;
    print!(rt; "-- {}\n{}", answer.code, answer.body)
}

fn main(rt: HostRuntime) -> io::Result<()> {
    let alloc = rt.alloc();
    let input = io::read_to_string(alloc, rt.reader())?;
    let Some(node) = opened(alloc) else {
        return println!(rt; "memory");
    };
    let mut handler = RequestHandler::new(alloc, node);
    let operator = Rc::new(alloc, Operator::new(&rt, Member::new(alloc, 1)))?;
    let network = Network::new(&rt)?;
    for row in input.split("\n== ").skip(1) {
        let (line, body) = match row.split_once('\n') {
            Some((line, body)) => (line, body),
            None => (row, ""),
        };
        println!(rt; "== {line}")?;
        if run_row(&rt, &operator, &network, line, body)? {
            continue;
        }
        if let Some(kind) = line.strip_prefix("FOLLOW") {
            follow_node(&operator, body, kind.trim_start())?;
            continue;
        }
        respond(&rt, &mut handler, line, body)?;
        if !settle(alloc, &mut handler.node) {
            return println!(rt; "failed");
        }
    }
    Ok(())
}
