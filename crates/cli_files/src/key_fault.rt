//! Why there is no key.

use thiserror::Error;

/// Why there is no key.
#[derive(Clone, Copy, Debug, PartialEq, Eq, Error)]
pub enum KeyFault {
    /// A growth was refused.
    #[error("out of memory")]
    Memory,
    /// The file isn't there, is no regular file, or a read failed.
    #[error("it can't be read")]
    Unread,
    /// Others than the file's owner may read, write or run it.
    #[error("others than its owner may read or write it (chmod 600)")]
    Open,
    /// The text isn't 64 hexadecimal digits and a newline at most.
    #[error("it isn't 64 hexadecimal digits")]
    NoKey,
}
