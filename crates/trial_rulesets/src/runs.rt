//! Runs of the program with arguments, as the tests make them.

use cli_io::REFUSALS;
use pf_tool::{Status, run};
use std::convert::AsStr;
use std::io::{Read, Write};

pub(crate) const QUICK: &[u8] = b"block all\npass quick from 10/8 no state\n";

pub(crate) const SYN_PACKET: &str =
    "in on em0 proto tcp from 10.1.2.3 port 4000 to 192.0.2.1 port 22 flags S";

/// A run at which nobody looks on.
pub(crate) fn ran<S: AsStr, R: Read, W: Write>(
    rt: &HostRuntime,
    words: &[S],
    reader: &mut R,
    writer: &mut W,
) -> Status {
    let mut errors = Vec::new(rt.alloc());
    run(rt, &REFUSALS, words, reader, writer, &mut errors, false)
}

/// What the subcommand `check` writes for this text, and the exit status.
pub(crate) fn checked(rt: &HostRuntime, text: &[u8]) -> (u8, Vec<u8>) {
    let mut reader = text;
    let mut out = Vec::new(rt.alloc());
    let status = ran(rt, &["pfx", "check"], &mut reader, &mut out);
    (status.code(), out)
}
