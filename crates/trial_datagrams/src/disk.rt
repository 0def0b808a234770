//! A disk of the tests' own, which keeps what is written and counts in which order it is done.

use std::alloc::Allocator;
use std::cell::Cell;
use std::fs::{Files, Metadata, OpenFile, OpenOptions, Permissions};
use std::io::{self, ErrorKind, Read, Seek, SeekFrom, Write};
use std::random::RandomSource;
use std::time::{Clock, Duration};

/// Where the file of starts is, where it is written, and the folder.
pub(crate) const STARTS: &str = "run/store-starts";

const BESIDE: &str = "run/store-starts-new";

const FOLDER: &str = "run";

/// For how many seconds the system has run.
const UPTIME: u64 = 5;

/// A disk without files; what it reports of the time and gives at random is always the same.
#[derive(Clone, Copy)]
pub(crate) struct Disk<'a> {
    /// What was done, a digit each: 1 the file beside was removed, 2 made, 3 its mode set, 4 it was written, 5 synced,
    /// 6 renamed, 7 the folder was opened, 8 synced.
    pub(crate) done: &'a Cell<u64>,
    /// The bytes that were written, and how many they are.
    pub(crate) written: &'a Cell<([u8; 256], usize)>,
    /// The time since 1970 that the clock reports, in seconds.
    pub(crate) seconds: u64,
}

/// The file beside, or the folder.
#[derive(Drop)]
pub(crate) struct Noted<'a> {
    disk: Disk<'a>,
    is_folder: bool,
}

/// What the disk refuses.
fn unsupported() -> io::Error {
    io::Error::from(ErrorKind::Unsupported)
}

impl Disk<'_> {
    /// This is done.
    fn note(&self, digit: u64) {
        self.done
            .set(self.done.get().wrapping_mul(10).wrapping_add(digit));
    }

    /// This is done where the path is the right one.
    fn note_at(&self, path: &str, wanted: &str, digit: u64) -> io::Result<()> {
        if path != wanted {
            return Err(io::Error::from(ErrorKind::NotFound));
        }
        self.note(digit);
        Ok(())
    }
}

impl Read for Noted<'_> {
    fn read(&mut self, _into: &mut [u8]) -> io::Result<usize> {
        Err(unsupported())
    }
}

impl Seek for Noted<'_> {
    fn seek(&mut self, _to: SeekFrom) -> io::Result<u64> {
        Err(unsupported())
    }
}

impl Write for Noted<'_> {
    fn write(&mut self, bytes: &[u8]) -> io::Result<usize> {
        self.disk.note(4);
        let (mut room, mut count) = self.disk.written.get();
        for byte in bytes {
            if count < room.len() {
                room[count] = *byte;
                count += 1;
            }
        }
        self.disk.written.set((room, count));
        Ok(bytes.len())
    }

    fn flush(&mut self) -> io::Result<()> {
        Ok(())
    }
}

impl OpenFile for Noted<'_> {
    fn metadata(&self) -> io::Result<Metadata> {
        Err(unsupported())
    }

    fn set_len(&self, _size: u64) -> io::Result<()> {
        Err(unsupported())
    }

    fn sync_all(&self) -> io::Result<()> {
        self.disk.note(if self.is_folder { 8 } else { 5 });
        Ok(())
    }

    fn sync_data(&self) -> io::Result<()> {
        Err(unsupported())
    }
}

impl<'a> Files for Disk<'a> {
    type File = Noted<'a>;

    type Dir = Noted<'a>;

    fn open_file(&self, _how: &OpenOptions, path: &str) -> io::Result<Noted<'a>> {
        let is_folder = path == FOLDER;
        if is_folder {
            self.note(7);
        } else {
            self.note_at(path, BESIDE, 2)?;
        }
        Ok(Noted {
            disk: *self,
            is_folder,
        })
    }

    fn open_dir(&self, _path: &str) -> io::Result<Noted<'a>> {
        Err(unsupported())
    }

    fn metadata(&self, _path: &str) -> io::Result<Metadata> {
        Err(io::Error::from(ErrorKind::NotFound))
    }

    fn symlink_metadata(&self, _path: &str) -> io::Result<Metadata> {
        Err(io::Error::from(ErrorKind::NotFound))
    }

    fn copy(&self, _from: &str, _to: &str) -> io::Result<u64> {
        Err(unsupported())
    }

    fn rename(&self, from: &str, to: &str) -> io::Result<()> {
        if from != BESIDE {
            return Err(io::Error::from(ErrorKind::NotFound));
        }
        self.note_at(to, STARTS, 6)
    }

    fn remove_file(&self, path: &str) -> io::Result<()> {
        self.note_at(path, BESIDE, 1)
    }

    fn create_dir(&self, _path: &str) -> io::Result<()> {
        Err(unsupported())
    }

    fn remove_dir(&self, _path: &str) -> io::Result<()> {
        Err(unsupported())
    }

    fn remove_dir_all<B: Allocator>(&self, _alloc: B, _path: &str) -> io::Result<()> {
        Err(unsupported())
    }

    fn set_permissions(&self, path: &str, _perm: Permissions) -> io::Result<()> {
        self.note_at(path, BESIDE, 3)
    }
}

impl Clock for Disk<'_> {
    fn monotonic(&self) -> io::Result<Duration> {
        Ok(Duration::from_secs(UPTIME))
    }

    fn since_1970(&self) -> io::Result<Duration> {
        Ok(Duration::from_secs(self.seconds))
    }
}

impl RandomSource for Disk<'_> {
    fn fill_bytes(&self, bytes: &mut [u8]) -> io::Result<()> {
        bytes.fill(0x55);
        Ok(())
    }
}
