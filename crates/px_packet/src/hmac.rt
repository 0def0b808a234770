//! HMAC with SHA-256.

ghost use Rattle.std.specs.Prelude.{◌≡◌, ℕ, ◌≤◌, List, ◌++◌, length};
ghost use Rattle.sha2.specs.Sha256.{sha256};
ghost use Rattle.sha2.specs.Hashers.{Holds256};
ghost use Rattle.px_packet.specs.Hmac.{filled, key_block, padded, tag_under, hmac_sha256};
ghost use Rattle.px_packet.specs.HmacKeyed.{block_of};

use crate::hmac_key::HmacKey;
use sha2::{Digest, Sha256};

/// How many bytes SHA-256 reads at a time.
const BLOCK_BYTES: usize = 64;

/// What the key's bytes are masked with, on the inside and on the outside.
const INNER_PAD: u8 = 0x36;

const OUTER_PAD: u8 = 0x5c;

/// The bytes and zeros behind them, up to a block.
fn filled(key: &[u8]) -> [u8; 64]
    requires { length key.now ≤ 64 }
    ensures { result ≡ filled key.now }
{
    let mut block = [0u8; BLOCK_BYTES];
    for (i, byte) in key.iter().enumerate() {
        block[i] = *byte;
    }
    block
}

/// A key as long as a block.
fn key_block(key: &[u8]) -> [u8; 64]
    ensures { result ≡ key_block key.now }
{
    if key.len() <= BLOCK_BYTES {
        return filled(key);
    }
    filled(&Sha256::digest(key))
}

/// Each byte masked.
fn padded(pad: u8, block: [u8; 64]) -> [u8; 64]
    ensures { result ≡ padded pad block }
{
    let mut out = [0u8; BLOCK_BYTES];
    for i in 0..BLOCK_BYTES {
        out[i] = block[i] ^ pad;
    }
    out
}

/// The hash after these bytes.
fn begun(bytes: &[u8]) -> Sha256
    ensures { Holds256 result bytes.now }
{
    let mut hasher = Sha256::new();
    hasher.update(bytes);
    hasher
}

/// The digest of what was hashed, and then of these bytes.
fn ended(begun: &Sha256, bytes: &[u8]) -> [u8; 32]
    ensures { (m : List ℕ) → Holds256 begun.now m → result ≡ sha256 (m ++ bytes.now) }
{
    let Ok(mut hasher) = begun.clone() else {
        unreachable!()
    };
    hasher.update(bytes);
    hasher.finalize()
}

impl HmacKey {
    /// The key of these bytes, of which a longer one than 64 bytes is digested.
    pub fn new(key: &[u8]) -> HmacKey
        ensures { block_of result ≡ key_block key.now }
    {
        let block = key_block(key);
        HmacKey {
            block,
            inner: begun(&padded(INNER_PAD, block)),
            outer: begun(&padded(OUTER_PAD, block)),
        }
    }

    /// The tag of a message.
    pub fn tag(&self, message: &[u8]) -> [u8; 32]
        ensures { result ≡ tag_under (block_of self.now) message.now }
    {
        ended(&self.outer, &ended(&self.inner, message))
    }
}

/// The tag of a message under a key: HMAC-SHA-256 of RFC 2104.
pub fn hmac_sha256(key: &[u8], message: &[u8]) -> [u8; 32]
    ensures { result ≡ hmac_sha256 key.now message.now }
{
    HmacKey::new(key).tag(message)
}
