//! What a run writes: all of its output, or what is wrong.

ghost use Rattle.std.specs.Prelude.{◌≡◌, ◌⊎◌, OnOk, OnErr, codes};
ghost use Rattle.std.specs.Io.KnownBytes.{Appends};
ghost use Rattle.clap.specs.Words.{kind_of};
ghost use Rattle.clap.specs.declared.error.kind.ErrorKind.TheVariants.{OutOfMemory};
ghost use Rattle.cli_io.specs.Written.{line, AppendsFront, IsMisused};

use crate::status::Status;
use clap::Error;
use clap::error::ErrorKind;
use std::alloc::Global;
use std::io::{self, ErrorKind as IoKind, Write};

/// Writes all bytes. Where a write fails, or takes nothing, those before it are written and nothing else.
pub fn write_bytes<W: Write>(writer: &mut W, bytes: &[u8]) -> io::Result<()>
    ensures whole { OnOk result (Appends (W.contents writer.old) (W.contents writer.new) bytes.now) }
    ensures front { OnErr result (AppendsFront (W.contents writer.old) (W.contents writer.new) bytes.now) }
{
    let mut rest = bytes;
    for _ in 0..u64::MAX {
        if rest.is_empty() {
            return Ok(());
        }
        match writer.write(rest) {
            Ok(0) => return Err(io::Error::from(IoKind::WriteZero)),
            Ok(n) => rest = &rest[n..],
            Err(error) if error.kind() == IoKind::Interrupted => (),
            Err(error) => return Err(error),
        }
    }
    Err(io::Error::from(IoKind::Other))
}

/// Writes `memory`: what a run does where a growth was refused.
pub fn out_of_memory<W: Write>(writer: &mut W) -> Status
    ensures ends { (result ≡ Status.Failed) ⊎ ((result ≡ Status.Memory) ×
        Appends (W.contents writer.old) (W.contents writer.new) (line (codes "memory"))) }
    ensures failed { result ≡ Status.Failed →
        AppendsFront (W.contents writer.old) (W.contents writer.new) (line (codes "memory")) }
{
    write_bytes(writer, b"memory\n").map_or(Status::Failed, |()| Status::Memory)
}

/// Writes what is wrong with the arguments.
pub fn misused<W: Write>(alloc: Global, error: &Error, writer: &mut W) -> Status
    ensures ran { IsMisused result (W.contents writer.old) (W.contents writer.new) }
    ensures memory { kind_of error.now ≡ OutOfMemory → result ≡ Status.Usage → ⊥ }
    ensures failed { kind_of error.now ≡ OutOfMemory → result ≡ Status.Failed →
        AppendsFront (W.contents writer.old) (W.contents writer.new) (line (codes "memory")) }
{
    match error.to_string(alloc) {
        Ok(text) if error.kind() != ErrorKind::OutOfMemory => writer
            .write_all(text.as_bytes())
            .map_or(Status::Failed, |()| Status::Usage),
        _ => out_of_memory(writer),
    }
}
