//! The prefixes of a datagram, and each byte set to each value.

use crate::answer::{Answer, Reader};
use crate::row::Row;
use std::io;

/// Writes what is answered from the first number to the last one.
fn write_run(rt: &HostRuntime, first: usize, last: usize, answer: Answer) -> io::Result<()> {
    match answer {
        Answer::Same => print!(rt; " {first}-{last} same;"),
        Answer::Refused(fault) => {
            print!(rt; " {first}-{last} {} at {};", fault.code, fault.offset)
        }
        Answer::Wrong => print!(rt; " {first}-{last} wrong;"),
    }
}

/// Answers in order, of which equal ones are written as one run.
#[derive(Clone, Copy)]
struct Runs {
    first: usize,
    last: usize,
    answer: Option<Answer>,
}

impl Runs {
    fn new() -> Runs {
        Runs {
            first: 0,
            last: 0,
            answer: None,
        }
    }

    /// The answer at this number comes behind the others.
    fn push(&mut self, rt: &HostRuntime, number: usize, answer: Answer) -> io::Result<()> {
        let held = self.answer;
        if held == Some(answer) {
            self.last = number;
            return Ok(());
        }
        if let Some(old) = held {
            write_run(rt, self.first, self.last, old)?;
        }
        self.first = number;
        self.last = number;
        self.answer = Some(answer);
        Ok(())
    }

    /// Writes the last run and ends the line.
    fn end(&self, rt: &HostRuntime) -> io::Result<()> {
        if let Some(answer) = self.answer {
            write_run(rt, self.first, self.last, answer)?;
        }
        println!(rt)
    }
}

/// Writes what the reader answers to each proper front, by its length.
fn write_fronts(rt: &HostRuntime, bytes: &[u8], reader: &mut Reader) -> io::Result<()> {
    let mut runs = Runs::new();
    print!(rt; "fronts:")?;
    for length in 0..bytes.len() {
        if let Some(front) = bytes.get(..length) {
            let answer = reader.answer(front)?;
            runs.push(rt, length, answer)?;
        }
    }
    runs.end(rt)
}

/// Writes what is answered to each proper front, by its length.
pub fn each_front(rt: &HostRuntime, row: &Row) -> io::Result<()> {
    let mut reader = Reader::new(rt.alloc(), row.reader);
    write_fronts(rt, &row.bytes, &mut reader)
}

/// Sets a byte, if there is one.
fn set(bytes: &mut [u8], at: usize, value: u8) {
    if let Some(byte) = bytes.get_mut(at) {
        *byte = value;
    }
}

/// Writes what the reader answers for this byte, set to each value.
fn write_byte(
    rt: &HostRuntime,
    bytes: &mut [u8],
    at: usize,
    reader: &mut Reader,
) -> io::Result<()> {
    let Some(own) = bytes.get(at).copied() else {
        return Ok(());
    };
    let mut runs = Runs::new();
    print!(rt; "byte {at}:")?;
    for value in 0..=255u8 {
        set(bytes, at, value);
        let answer = reader.answer(bytes)?;
        runs.push(rt, usize::from(value), answer)?;
    }
    set(bytes, at, own);
    runs.end(rt)
}

/// Writes what the reader answers for each byte, set to each value.
fn write_bytes(rt: &HostRuntime, bytes: &mut [u8], reader: &mut Reader) -> io::Result<()> {
    for at in 0..bytes.len() {
        write_byte(rt, bytes, at, reader)?;
    }
    Ok(())
}

/// Writes what is answered for each byte, set to each value.
pub fn each_byte(rt: &HostRuntime, row: &mut Row) -> io::Result<()> {
    let mut reader = Reader::new(rt.alloc(), row.reader);
    write_bytes(rt, &mut row.bytes, &mut reader)
}
