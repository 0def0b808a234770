//! A key of packets.

ghost use Rattle.std.specs.Prelude.{◌≡◌, ◌↔◌, IsTrue, OnOk, bytes_eq, take};
ghost use Rattle.px_packet.specs.Hmac.{key_block, tag_under};
ghost use Rattle.px_packet.specs.Packets.{packet_key, tag_of, is_sealed};
ghost use Rattle.px_packet.specs.Keyed.{block_of};

use crate::hmac::hmac_sha256;
use crate::hmac_key::HmacKey;

/// How long a tag is.
pub(crate) const TAG_BYTES: usize = 16;

/// What a cluster's key makes the key of packets of: no datagram of the first format begins so.
const LABEL: [u8; 5] = [b'P', b'F', b'X', b'S', 2];

/// A key of packets, made ready.
#[derive(Drop)]
pub(crate) struct PacketKey {
    key: HmacKey,
}

/// Whether two tags are the same. All 16 bytes are looked at, whatever they are.
fn is_same(a: &[u8; 16], b: &[u8; 16]) -> bool
    ensures { IsTrue result ↔ (a.now ≡ b.now) }
{
    let mut apart = 0u8;
    for i in 0..TAG_BYTES {
        apart |= a[i] ^ b[i];
    }
    apart == 0
}

impl PacketKey {
    /// The key of packets that a cluster's key makes.
    pub(crate) fn new(cluster_key: &[u8; 32]) -> PacketKey
        ensures { block_of result ≡ key_block (packet_key cluster_key.now) }
    {
        let key = HmacKey::new(&hmac_sha256(cluster_key, &LABEL));
        PacketKey { key }
    }

    /// The tag of header and body.
    pub(crate) fn tag(&self, front: &[u8]) -> [u8; 16]
        ensures { result ≡ tag_of (block_of self.now) front.now }
    {
        let tag = self.key.tag(front);
        match tag.first_chunk::<TAG_BYTES>() {
            Some(first) => *first,
            None => [0; TAG_BYTES],
        }
    }

    /// Whether the last 16 bytes are the tag of those before them.
    pub(crate) fn is_sealed(&self, packet: &[u8]) -> bool
        ensures { result ≡ is_sealed (block_of self.now) packet.now }
    {
        match packet.last_chunk::<TAG_BYTES>() {
            Some(tag) => is_same(&self.tag(&packet[..packet.len() - TAG_BYTES]), tag),
            None => false,
        }
    }
}
