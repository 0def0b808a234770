//! A key, made ready.

ghost use Rattle.sha2.specs.Hashers.{Holds256};
ghost use Rattle.px_packet.specs.inner.Held.{Holds256-prop};
ghost use Rattle.px_packet.specs.Hmac.{padded};

use sha2::Sha256;

/// A key, made ready once for the tags of many messages.
#[derive(Drop)]
pub struct HmacKey {
    pub(crate) block: [u8; 64],
    /// The hash after the inner pad, and after the outer.
    pub(crate) inner: Sha256,
    pub(crate) outer: Sha256,
    ghost inside: { Holds256 inner (padded 0x36 block) } by { Holds256-prop inner (padded 0x36 block) },
    ghost outside: { Holds256 outer (padded 0x5C block) } by { Holds256-prop outer (padded 0x5C block) },
}
