//! Where a file of starts is.

ghost use Rattle.std.specs.Prelude.{List, Option, Some, ℕ, ⊤, IfOk, OnOk, IfErr, option_map};
ghost use Rattle.cli_files.specs.Raising.{IsOfRead, IsOfWrite};

use crate::raise::RaiseFault;
use cli_io::{InputFault, make_private, open_regular, read_all};
use std::alloc::Global;
use std::fs::{self, OpenFile};
use std::io::{ErrorKind, Write};
use std::path::Path;
use std::rt::Files;

/// The place of one file of starts.
pub trait StartsPlace {
    // the file there may have this text, or there may be no file
    ghost has: { Self → Option (List ℕ) → Type 0 };

    /// The text that is there; none where no file is.
    fn read(&self, alloc: Global) -> Result<Option<Vec<u8>>, RaiseFault>
        ensures text { IfOk result (λ text. has self.now (option_map (λ v. v.items) text)) }
        ensures why { IfErr result IsOfRead };

    /// Puts a file with this text there, in the place of the one that is there. After a fault either may be there.
    fn replace(&mut self, alloc: Global, text: &[u8]) -> Result<(), RaiseFault>
        ensures text { OnOk result (has self.new (Some text.now)) }
        ensures why { IfErr result IsOfWrite };
}

/// The file at a path.
#[derive(Clone, Copy)]
pub(crate) struct StartsFile<'a, F: Files> {
    pub(crate) files: &'a F,
    pub(crate) path: &'a str,
}

impl<F: Files> StartsPlace for StartsFile<'_, F> {
    // no contract states what a file has
    ghost has = { λ _ _. ⊤ };

    fn read(&self, alloc: Global) -> Result<Option<Vec<u8>>, RaiseFault> {
        let mut file = match open_regular(self.files, self.path) {
            Ok(file) => file,
            Err(error) if error.kind() == ErrorKind::NotFound => return Ok(None),
            Err(_) => return Err(RaiseFault::Unread),
        };
        match read_all(alloc, &mut file) {
            Ok(text) => Ok(Some(text)),
            Err(InputFault::Memory) => Err(RaiseFault::Memory),
            Err(InputFault::Failed) => Err(RaiseFault::Unread),
            Err(InputFault::TooLong) => Err(RaiseFault::Damaged),
        }
    }

    /// Writes a file that its owner alone may read: beside its place, synced, then renamed, and the folder synced.
    fn replace(&mut self, alloc: Global, text: &[u8]) -> Result<(), RaiseFault> {
        let StartsFile { files, path } = *self;
        let beside = format!(in alloc; "{path}-new")?;
        let _gone = fs::remove_file(files, beside.as_str());
        let mut file = make_private(files, beside.as_str())?;
        file.write_all(text)?;
        file.sync_all()?;
        fs::rename(files, beside.as_str(), path)?;
        let parent = Path::new(path).parent();
        let folder = parent.map_or("", |folder| folder.as_os_str());
        let folder = if folder.is_empty() { "." } else { folder };
        Ok(fs::open(files, folder)?.sync_all()?)
    }
}
