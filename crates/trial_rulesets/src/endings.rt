//! How a run ends that can't read its arguments or its input, or write its output.

use crate::runs::{QUICK, SYN_PACKET, ran};
use pf_tool::Status;
use std::io::{self, Error, ErrorKind, Read, Write};

/// What unknown arguments end with, and how many bytes are written.
fn printed(rt: &HostRuntime, words: &[&str]) -> (u8, usize) {
    let mut reader = QUICK;
    let mut out = Vec::new(rt.alloc());
    let status = ran(rt, words, &mut reader, &mut out);
    (status.code(), out.len())
}

#[test]
fn unknown_arguments_are_distinguished(rt: HostRuntime) {
    for words in [["pfx", "labs"], ["pfx", "test"]] {
        let (code, length) = printed(&rt, &words);
        assert!(rt; code == 2 && length > 20);
    }
}

/// Gives a part of a ruleset, and then fails.
#[derive(Drop)]
struct FailingReader {
    given: bool,
}

impl Read for FailingReader {
    fn read(&mut self, buf: &mut [u8]) -> io::Result<usize> {
        if self.given || buf.len() < 6 {
            return Err(Error::from(ErrorKind::Other));
        }
        self.given = true;
        buf[..6].copy_from_slice(b"block\n");
        Ok(6)
    }
}

/// Takes a byte, and then fails.
#[derive(Drop)]
struct FailingWriter {
    written: usize,
}

impl Write for FailingWriter {
    fn write(&mut self, buf: &[u8]) -> io::Result<usize> {
        if self.written > 0 || buf.is_empty() {
            return Err(Error::from(ErrorKind::Other));
        }
        self.written = 1;
        Ok(1)
    }

    fn flush(&mut self) -> io::Result<()> {
        Ok(())
    }
}

/// The arguments of a run that reads rules and one packet.
const WORDS: [&str; 3] = ["pfx", "test", SYN_PACKET];

/// Whether a run whose reader fails ends as failed, and writes nothing.
fn is_failed_read(rt: &HostRuntime) -> bool {
    let mut reader = FailingReader { given: false };
    let mut out = Vec::new(rt.alloc());
    let status = ran(rt, &WORDS, &mut reader, &mut out);
    status == Status::Failed && status.code() == 1 && out.is_empty()
}

#[test]
fn a_failed_read_writes_nothing(rt: HostRuntime) {
    assert!(rt; is_failed_read(&rt));
}

/// Whether a run whose writer fails ends as failed, and writes nothing more.
fn is_failed_write(rt: &HostRuntime) -> bool {
    let mut reader = QUICK;
    let mut writer = FailingWriter { written: 0 };
    let status = ran(rt, &WORDS, &mut reader, &mut writer);
    status == Status::Failed && writer.written == 1
}

#[test]
fn a_failed_write_ends_the_run(rt: HostRuntime) {
    assert!(rt; is_failed_write(&rt));
}

/// Fails once, and takes all from then on.
#[derive(Drop)]
struct OnceFailingWriter {
    failed: bool,
    written: usize,
}

impl Write for OnceFailingWriter {
    fn write(&mut self, buf: &[u8]) -> io::Result<usize> {
        if !self.failed {
            self.failed = true;
            return Err(Error::from(ErrorKind::Other));
        }
        self.written = self.written.saturating_add(buf.len());
        Ok(buf.len())
    }

    fn flush(&mut self) -> io::Result<()> {
        Ok(())
    }
}

/// Whether a run with these arguments writes nothing after a write that failed.
fn is_silent(rt: &HostRuntime, words: &[&str]) -> bool {
    let mut reader = QUICK;
    let mut writer = OnceFailingWriter {
        failed: false,
        written: 0,
    };
    let status = ran(rt, words, &mut reader, &mut writer);
    status == Status::Failed && writer.written == 0
}

#[test]
fn nothing_is_written_after_a_failed_write(rt: HostRuntime) {
    for words in [
        WORDS.as_slice(),
        &["pfx", "check"],
        &["pfx", "ctl"],
        &["pfx", "no such word"],
    ] {
        assert!(rt; is_silent(&rt, words));
    }
}

/// Gives that many newlines.
#[derive(Drop)]
struct Newlines {
    left: usize,
}

impl Read for Newlines {
    fn read(&mut self, buf: &mut [u8]) -> io::Result<usize> {
        let given = buf.len().min(self.left);
        buf.fill(b'\n');
        self.left -= given;
        Ok(given)
    }
}

/// How a run ends that reads that many newlines, and how many bytes it writes.
fn ended(rt: &HostRuntime, left: usize) -> (Status, usize) {
    let mut reader = Newlines { left };
    let mut out = Vec::new(rt.alloc());
    let status = ran(rt, &WORDS, &mut reader, &mut out);
    (status, out.len())
}

#[test]
fn the_input_has_16777216_bytes_at_most(rt: HostRuntime) {
    // `pass default` and a newline, or nothing
    assert!(rt; ended(&rt, 16_777_216) == (Status::Done, 13));
    assert!(rt; ended(&rt, 16_777_217) == (Status::Failed, 0));
}
