//! The command lines of a batch.

ghost use Rattle.std.specs.Prelude.{◌≡◌};
ghost use Rattle.pfx.specs.Batches.{must_fail};

use bstr::ByteSlice;
use cli_io::INVALID_ARGUMENTS;
use std::alloc::Global;

/// What is before a command line, which has a blank behind it.
pub(crate) const BEGIN: &[u8] = b"\n==";

/// Why a command line isn't run.
#[derive(Clone, Copy)]
pub(crate) enum LineFault {
    /// A growth was refused.
    Memory,
    /// The number of the refusal, and its message.
    Refused(u8, &'static str),
}

/// That a command line, or a line that it shares, isn't UTF-8.
const NO_TEXT: LineFault = LineFault::Refused(INVALID_ARGUMENTS, "not UTF-8");

/// A command line with its input.
#[derive(Clone, Copy)]
pub(crate) struct Line<'i> {
    /// The whole line behind `==`.
    pub header: &'i [u8],
    /// Its arguments, none where it doesn't begin with a blank.
    pub arguments: &'i [u8],
    /// Whether its input begins with what the last `show` wrote.
    pub is_piped: bool,
    /// Its input, or the rest of it.
    pub text: &'i [u8],
}

/// Whether the command line that begins this part of a batch is marked as one that must fail.
pub(crate) fn must_fail(part: &[u8]) -> bool
    ensures { result ≡ must_fail part.now }
{
    part.starts_with(b" !\t")
}

/// What is behind a mark, and whether the mark was there.
fn after_mark<'i>(arguments: &'i [u8], mark: &[u8]) -> (&'i [u8], bool) {
    match arguments.strip_prefix(mark) {
        Some(rest) => (rest, true),
        None => (arguments, false),
    }
}

/// The command line that begins this part of a batch, with its input.
pub(crate) fn line_of<'i>(part: &'i [u8]) -> Line<'i> {
    let (header, text) = part.split_once_str(b"\n").unwrap_or((part, b""));
    let arguments = header.strip_prefix(b" ").unwrap_or(b"");
    let (arguments, _must_fail) = after_mark(arguments, b"!\t");
    let (arguments, is_piped) = after_mark(arguments, b"|\t");
    Line {
        header,
        arguments,
        is_piped,
        text,
    }
}

/// Adds an argument.
fn push<'i>(arguments: &mut Vec<&'i str>, argument: &'i str) -> Result<(), LineFault> {
    arguments.push(argument).map_err(|_| LineFault::Memory)
}

/// Adds each shared line as an argument, but for empty ones and comments.
fn push_shared<'i>(arguments: &mut Vec<&'i str>, shared: &'i [u8]) -> Result<(), LineFault> {
    let shared = std::str::from_utf8(shared).map_err(|_| NO_TEXT)?;
    for line in shared.lines() {
        if !line.is_empty() && !line.starts_with('#') {
            push(arguments, line)?;
        }
    }
    Ok(())
}

/// The arguments of a command line, the program's name first, with the shared lines for `*` and without a comment.
pub(crate) fn arguments_of<'i>(
    alloc: Global,
    shared: &'i [u8],
    line: &'i [u8],
) -> Result<Vec<&'i str>, LineFault> {
    let line = std::str::from_utf8(line).map_err(|_| NO_TEXT)?;
    let mut arguments = Vec::new(alloc);
    push(&mut arguments, "pfx")?;
    for argument in line.split('\t') {
        if argument.starts_with('#') {
            break;
        }
        if argument == "*" {
            push_shared(&mut arguments, shared)?;
        } else {
            push(&mut arguments, argument)?;
        }
    }
    Ok(arguments)
}

/// A file's mode in octal digits.
pub(crate) fn mode_of(digits: &str) -> Option<u32> {
    u32::from_str_radix(digits, 8)
        .ok()
        .filter(|mode| *mode <= 0o7777)
}
