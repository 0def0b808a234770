//! Files that are opened without waiting, and made for their owner alone; why nobody answers at a socket.

use std::fs::{self, Files, OpenOptions, Permissions};
use std::io::{self, Error, ErrorKind};
use std::net::Net;
use std::os::unix::fs::{OpenOptionsExt, PermissionsExt};
use std::os::unix::net::UnixStream;

/// The mode of a file that its owner alone may read and write.
const PRIVATE: u32 = 0o600;

/// Opens a file for reading. What isn't a regular file is refused: a pipe would be waited for. Between the look and the
/// opening a process that may write in the folder can put another file there.
pub fn open_regular<F: Files>(files: &F, path: &str) -> io::Result<F::File> {
    let found = fs::metadata(files, path)?;
    if !found.is_file() {
        return Err(Error::new(ErrorKind::InvalidInput, "it isn't a regular file"));
    }
    fs::open(files, path)
}

/// Makes a file that its owner alone may read and write, whatever the umask is. Refused where something is there, a
/// link too.
pub fn make_private<F: Files>(files: &F, path: &str) -> io::Result<F::File> {
    let file = OpenOptions::new()
        .write(true)
        .create_new(true)
        .mode(PRIVATE)
        .open(files, path)?;
    // a umask takes away what the owner may do, too
    fs::set_permissions(files, path, Permissions::from_mode(PRIVATE))?;
    Ok(file)
}

/// Connects to a Unix socket and closes the connection: where nobody answers, the error is why.
pub fn knock<R: Net>(net: &R, path: &str) -> io::Result<()> {
    UnixStream::connect(net, path).map(drop)
}
