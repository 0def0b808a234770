//! Which pieces of a datagram a receiver has.

ghost use Rattle.std.specs.Prelude.{◌≡◌, ◌≢◌, ◌<◌, ◌++◌, OnOk, MatchOption, length};

use std::alloc::AllocError;

/// Which pieces of a datagram a receiver has.
#[derive(Clone, Copy, PartialEq, Eq)]
pub struct PiecesHeld {
    /// The name of the datagram.
    pub name: u32,
    /// A bit for each piece, 1 where the receiver has it, the lowest one for piece 0.
    pub bits: u32,
}

impl PiecesHeld {
    ghost use Rattle.px_packet.specs.Held.{held_bytes, has_bit};

    /// Whether the receiver has the piece with this number.
    pub fn has(self, index: u8) -> bool
        requires { index < 32 }
        ensures { result ≡ has_bit self.bits index }
    {
        (self.bits >> index) % 2 == 1
    }

    /// Writes the 8 bytes behind what the buffer has.
    pub fn write(self, buffer: &mut Vec<u8>) -> Result<(), AllocError>
        ensures { OnOk result (buffer.new.items ≡ buffer.old.items ++ held_bytes self) }
    {
        buffer.extend_from_slice(&self.name.to_be_bytes())?;
        buffer.extend_from_slice(&self.bits.to_be_bytes())
    }

    /// What the 8 bytes report; none of another number of bytes.
    pub fn read(bytes: &[u8]) -> Option<PiecesHeld>
        ensures { MatchOption result (length bytes.now ≢ 8) (λ h. bytes.now ≡ held_bytes h) }
    {
        let (name, rest) = bytes.split_first_chunk::<4>()?;
        let (bits, rest) = rest.split_first_chunk::<4>()?;
        if !rest.is_empty() {
            return None;
        }
        Some(PiecesHeld {
            name: u32::from_be_bytes(*name),
            bits: u32::from_be_bytes(*bits),
        })
    }
}
