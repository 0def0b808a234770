//! Numbers in bytes.

ghost use Rattle.std.specs.Prelude.{◌≡◌, ◌+◌, ◌≤◌, length};
ghost use Rattle.std.specs.Int.{w32, w64};
ghost use Rattle.px_packet.specs.Headers.{number};

/// The number of four bytes at an offset.
#[tactic(auto, unfolding(crate::specs::Headers::number))]
pub(crate) fn u32_at(bytes: &[u8], at: usize) -> u32
    requires { at + 4 ≤ length bytes.now }
    ensures { result ≡ number w32 at bytes.now }
{
    let (_, rest) = bytes.split_at(at);
    let (front, _) = rest.split_at(4);
    u32::from_be_bytes([front[0], front[1], front[2], front[3]])
}

/// The number of eight bytes at an offset.
#[tactic(auto, unfolding(crate::specs::Headers::number))]
pub(crate) fn u64_at(bytes: &[u8], at: usize) -> u64
    requires { at + 8 ≤ length bytes.now }
    ensures { result ≡ number w64 at bytes.now }
{
    let (_, rest) = bytes.split_at(at);
    let (front, _) = rest.split_at(8);
    u64::from_be_bytes([
        front[0], front[1], front[2], front[3], front[4], front[5], front[6], front[7],
    ])
}
