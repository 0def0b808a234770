//! The input of a run.

ghost use Rattle.std.specs.Prelude.{◌≡◌, ◌≤◌, ◌<◌, Ok, Err};
ghost use Rattle.std.specs.Prelude.{length, IfSome, IfOk};
ghost use Rattle.cli_io.specs.declared.input.TheConstants.{BYTES_MAX};

use std::alloc::Global;
use std::io::Read;

/// How many reads are made at most.
const READS_MAX: u32 = 16_777_217;

/// How many bytes are read at most.
const BYTES_MAX: usize = 16_777_216;

/// Why the input isn't there.
#[derive(Clone, Copy, PartialEq, Eq)]
pub enum InputFault {
    /// A growth was refused.
    Memory,
    /// A read failed.
    Failed,
    /// There are more than 16,777,216 bytes.
    TooLong,
}

/// All that is left to read, up to a limit.
pub fn read_all<R: Read>(alloc: Global, reader: &mut R) -> Result<Vec<u8>, InputFault>
    ensures whole { IfOk result (λ v. IfSome (R.remaining reader.old) (λ input. v.items ≡ input)) }
    ensures few { IfOk result (λ v. length v.items ≤ BYTES_MAX) }
    ensures long { result ≡ Err InputFault.TooLong → IfSome (R.remaining reader.new) (λ rest.
        IfSome (R.remaining reader.old) (λ input. BYTES_MAX < length input)) }
{
    let mut all = Vec::new(alloc);
    let mut room = [0u8; 4096];
    for _ in 0..READS_MAX {
        let n = reader.read(&mut room).map_err(|_| InputFault::Failed)?;
        if n == 0 {
            return Ok(all);
        }
        if n > BYTES_MAX - all.len() {
            return Err(InputFault::TooLong);
        }
        all.extend_from_slice(&room[..n])
            .map_err(|_| InputFault::Memory)?;
    }
    Err(InputFault::Failed)
}
