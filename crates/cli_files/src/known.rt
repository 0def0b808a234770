//! What is known of a member.

use px_packet::Start;

/// What is known of a member.
#[derive(Clone, Copy, PartialEq, Eq)]
pub struct KnownMember {
    /// Its last start; `Start::NEVER` where it was never heard.
    pub start: Start,
    /// The number that its record got when it was made; 0 where it isn't known.
    pub birth: u64,
}
