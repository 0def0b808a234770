//! Messages on their way as bytes.

/// Bytes for a member, or for 255, the client outside the cluster that asked.
#[derive(Drop)]
pub struct Datagram {
    /// The member, or 255.
    pub to: u8,
    /// What it is sent.
    pub bytes: Vec<u8>,
}
