//! The keys of a member's packets.

ghost use Rattle.std.specs.Prelude.{◌≡◌, ◌++◌, Some, None, OnOk, MatchResult, option_map, drop};
ghost use Rattle.px_packet.specs.Hmac.{key_block};
ghost use Rattle.px_packet.specs.Headers.{header_bytes, header_in};
ghost use Rattle.px_packet.specs.Packets.{packet_key, sealed, front_of, is_authentic, packet_fault};
ghost use Rattle.px_packet.specs.Keyed.{block_of, and_key, key_of, keys_of};

use crate::fault::PacketFault;
use crate::header::{Header, Opened};
use crate::key::{PacketKey, TAG_BYTES};
use std::alloc::AllocError;

/// The keys of a member's packets. It may have two, and opens what was sealed with either: a cluster's key is changed
/// member by member, with no stop of all.
#[derive(Drop)]
pub struct PacketKeys {
    pub(crate) key: PacketKey,
    pub(crate) other: Option<PacketKey>,
}

impl PacketKeys {
    /// The keys of packets that a cluster's keys make: packets are sealed with the first, and opened under it and under
    /// the other where there is one. No tag of a datagram of the first format under the same key fits a packet, as far
    /// as HMAC is what it is believed to be.
    pub fn new(key: &[u8; 32], other: Option<&[u8; 32]>) -> PacketKeys
        ensures key { key_of result ≡ key_block (packet_key key.now) }
        ensures keys { keys_of result ≡ and_key (key_block (packet_key key.now))
            (option_map (λ k. key_block (packet_key k.now)) other.entry) }
    {
        PacketKeys {
            key: PacketKey::new(key),
            other: other.map(PacketKey::new),
        }
    }

    /// Writes the sealed packet over what the buffer has.
    pub fn seal(&self, header: &Header, body: &[u8], buffer: &mut Vec<u8>) -> Result<(), AllocError>
        ensures { OnOk result (buffer.new.items ≡ sealed (key_of self.now) (header_bytes header.now ++ body.now)) }
    {
        buffer.clear();
        header.write(buffer)?;
        buffer.extend_from_slice(body)?;
        let tag = self.key.tag(buffer.as_slice());
        buffer.extend_from_slice(&tag)?;
        Ok(())
    }

    /// Whether the packet was sealed with one of the keys.
    fn is_authentic(&self, packet: &[u8]) -> bool
        ensures { result ≡ is_authentic (keys_of self.now) packet.now }
    {
        let other = self.other.as_ref();
        self.key.is_sealed(packet) || other.is_some_and(|key| key.is_sealed(packet))
    }

    /// The header and the body of a packet that was sealed with one of the keys for this member of a cluster; else its
    /// first fault. The tag is checked before anything else is read.
    pub fn open<'a>(&self, packet: &'a [u8], cluster: u32, members: u8, me: u8) -> Opened<'a>
        ensures { MatchResult result
            (λ x. (packet_fault (keys_of self.now) cluster members me packet.now ≡ None) ×
            (x.0 ≡ header_in (front_of packet.now)) × (x.1.now ≡ drop 37 (front_of packet.now)))
            (λ fault. packet_fault (keys_of self.now) cluster members me packet.now ≡ Some fault) }
    {
        if !self.is_authentic(packet) {
            return Err(PacketFault::Tag);
        }
        let front = &packet[..packet.len().saturating_sub(TAG_BYTES)];
        Header::read(front, cluster, members, me)
    }
}
