//! Why bytes are no datagram.

use thiserror::Error;

/// The first fault of some bytes, from left to right.
///
/// 50 Short: a field's bytes aren't all there. 51 Magic, 52 Version, 53 Cluster, 54 Member, 55 Kind, 57 Field: a value
/// isn't allowed. 56 Length: bytes follow the last field.
#[derive(Clone, Copy, Debug, PartialEq, Eq, Error)]
#[error("fault {code} at byte {offset}")]
pub struct WireFault {
    /// 50 to 57.
    pub code: u8,
    /// The byte where the field begins; for 56 the first one that is too many.
    pub offset: usize,
}
