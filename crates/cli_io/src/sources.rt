//! The text that an option names.

ghost use Rattle.std.specs.Prelude.{ℕ, List, IfOk};
ghost use Rattle.cli_io.specs.Sources.{IsOfFile, IsText};

use crate::files::open_regular;
use crate::input::{InputFault, read_all};
use std::alloc::Global;
use std::fs::{self, Files};
use std::io::{self, Error, ErrorKind, Read};

/// Where the sources are that options name by their paths.
pub trait Sources {
    // this text is at this path
    ghost has: { Self → (path text : List ℕ) → Type 0 };

    /// The text at a path. `Failed` where it can't be opened too.
    fn source_at(&self, alloc: Global, path: &str) -> Result<Vec<u8>, InputFault>
        ensures { IfOk result (λ text. has self.now path.now text.items) };

    /// The text of the regular file at a path, or why there is none: `OutOfMemory`, or what the system reports.
    fn file_at(&self, alloc: Global, path: &str) -> io::Result<Vec<u8>>
        ensures { IfOk result (λ text. has self.now path.now text.items) };
}

impl<F: Files> Sources for F {
    // some file has it; no contract ties a file to its path
    ghost has = { λ _ _ text. IsOfFile F.File.remaining text };

    fn source_at(&self, alloc: Global, path: &str) -> Result<Vec<u8>, InputFault> {
        let mut file = fs::open(self, path).map_err(|_| InputFault::Failed)?;
        read_all(alloc, &mut file)
    }

    fn file_at(&self, alloc: Global, path: &str) -> io::Result<Vec<u8>> {
        let mut file = open_regular(self, path)?;
        read_all(alloc, &mut file).map_err(|fault| match fault {
            InputFault::Memory => Error::from(ErrorKind::OutOfMemory),
            _ => Error::new(ErrorKind::InvalidData, "a read failed"),
        })
    }
}

/// The text that a name refers to: the input for `-`, else that of the file at this path.
pub fn source_named<T: Sources, R: Read>(
    sources: &T,
    alloc: Global,
    name: &str,
    reader: &mut R,
) -> Result<Vec<u8>, InputFault>
    ensures { IfOk result (λ text. IsText (T.has sources.now) (R.remaining reader.old) name.now text.items) }
{
    if name == "-" {
        return read_all(alloc, reader);
    }
    sources.source_at(alloc, name)
}
