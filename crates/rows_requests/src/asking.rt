//! Runs of `ask` and `follow` at a node's control socket.

use crate::network::Network;
use crate::operator::{Operator, Sockets, text_of};
use crate::scripted::run_steps;
use crate::serving::SOCKET;
use cli_ask::{Reached, run_control_ask};
use cli_follow::{SystemFiles, run_follow};
use cli_io::Status;
use std::alloc::{AllocError, Global};
use std::fs;
use std::io::{self, Cursor, Write};
use std::os::unix::fs::PermissionsExt;

/// The arguments, in which `~` stands for a blank, with the program's name before them, and with more behind the
/// subcommand.
pub(crate) fn words_of(
    alloc: Global,
    words: &str,
    more: &[&str],
) -> Result<Vec<String>, AllocError> {
    let mut all = Vec::new(alloc);
    all.push(String::from_str(alloc, "pfx")?)?;
    for (at, word) in words.split(' ').enumerate() {
        all.push(word.replace(alloc, "~", " ")?)?;
        if at == 0 {
            for argument in more {
                all.push(String::from_str(alloc, *argument)?)?;
            }
        }
    }
    Ok(all)
}

/// Prints how a run of the program ended, and what it wrote to the output and to standard error.
pub(crate) fn print_run(
    rt: &HostRuntime,
    status: Status,
    written: &[u8],
    said: &[u8],
) -> io::Result<()> {
    println!(rt; "-- {}", status.code())?;
    print!(rt; "{}", text_of(written))?;
    if !said.is_empty() {
        print!(rt; "-- said\n{}", text_of(said))?;
    }
    Ok(())
}

/// Runs `ask` at control sockets.
fn ask_sockets<'x, W: Write>(
    alloc: Global,
    operator: &Operator<'_>,
    sockets: &'x Sockets<'x>,
    arguments: &'x [String],
    input: &str,
    written: &mut W,
    said: &mut Vec<u8>,
) -> Status {
    let mut peer = Reached::new(sockets);
    run_control_ask(
        operator,
        &mut peer,
        alloc,
        arguments,
        &mut Cursor::new(input.as_bytes()),
        written,
        said,
        false,
    )
}

/// Runs the program with these arguments at the control socket: how it ended, and what it wrote to standard error.
fn run<W: Write>(
    operator: &Operator<'_>,
    words: &str,
    input: &str,
    written: &mut W,
) -> io::Result<(Status, Vec<u8>)> {
    let alloc = operator.rt.alloc();
    let all = words_of(alloc, words, &["--control", SOCKET])?;
    let sockets = Sockets {
        operator: &*operator,
    };
    let mut said = Vec::new(alloc);
    let status = if words.starts_with("follow ") {
        run_follow(
            operator,
            &sockets,
            &mut SystemFiles { rt: &*operator },
            alloc,
            all.as_slice(),
            written,
            &mut said,
        )
    } else {
        ask_sockets(
            alloc,
            operator,
            &sockets,
            all.as_slice(),
            input,
            written,
            &mut said,
        )
    };
    // what was sent and isn't waited for is answered too
    operator.answer()?;
    Ok((status, said))
}

/// Prints how many bytes a file has, and a sum of them in which each place counts.
fn print_sum(rt: &HostRuntime, path: &str) -> io::Result<()> {
    let bytes = fs::read(rt, path)?;
    let mut sum = 0u64;
    for byte in &bytes {
        sum = sum.wrapping_mul(31).wrapping_add(u64::from(*byte));
    }
    println!(rt; "{} bytes, {sum}", bytes.len())
}

/// Does what a row is for, if it is one of a running node or of the program: whether it is.
pub(crate) fn run_row(
    rt: &HostRuntime,
    operator: &Operator<'_>,
    network: &Network,
    line: &str,
    body: &str,
) -> io::Result<bool> {
    let (kind, words) = line.split_once(' ').unwrap_or((line, ""));
    match kind {
        "RUN" | "LIVE" | "LATE" | "CUT" => {
            operator.set_late(kind == "LATE");
            operator.set_cut(kind == "CUT");
            let mut written = Vec::new(rt.alloc());
            let (status, said) = if kind == "LIVE" {
                run(operator, words, body, &mut io::writer(rt))?
            } else {
                run(operator, words, body, &mut written)?
            };
            print_run(rt, status, &written, &said)?;
        }
        "PFX" => network.run(rt, words)?,
        "STRANGER" => network.print_heard(rt)?,
        "NODE" => run_steps(operator, network, words, body)?,
        "SUM" => print_sum(rt, words)?,
        "FILE" => print!(rt; "{}", fs::read_to_string(rt, words)?)?,
        "MODE" => println!(rt;
            "{:o}",
            fs::metadata(rt, words)?.permissions().mode() & 0o777
        )?,
        "SOCKET" => println!(rt; "{:o}", operator.mode())?,
        _ => return Ok(false),
    }
    Ok(true)
}
