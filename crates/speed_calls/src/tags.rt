//! The tags of many datagrams.
use px_packet::{HmacKey, hmac_sha256};
use std::alloc::{AllocError, Global};

/// The key.
const KEY: [u8; 32] = [0x5a; 32];

/// The longest datagram.
const BYTES_MAX: u32 = 33_024;

/// The sum of the tags' first bytes.
fn tagged(key: &HmacKey, bytes: &mut [u8], times: u32) -> u64 {
    let mut sum: u64 = 0;
    for number in 0..times {
        if bytes.len() > 24 {
            bytes[24] = (number % 256) as u8;
            sum = sum.wrapping_add(u64::from(key.tag(bytes)[0]));
        }
    }
    sum
}

/// The same, with the key made ready for each.
fn tagged_anew(bytes: &mut [u8], times: u32) -> u64 {
    let mut sum: u64 = 0;
    for number in 0..times {
        if bytes.len() > 24 {
            bytes[24] = (number % 256) as u8;
            sum = sum.wrapping_add(u64::from(hmac_sha256(&KEY, bytes)[0]));
        }
    }
    sum
}

/// The sum of the tags' first bytes, of that many datagrams of that many bytes. The key is made ready once where
/// `anew` is 0.
pub(crate) fn sum_of(alloc: Global, anew: u32, size: u32, times: u32) -> Result<u64, AllocError> {
    let mut bytes = vec![in alloc; b' '; size.min(BYTES_MAX) as usize]?;
    if anew == 0 {
        Ok(tagged(&HmacKey::new(&KEY), &mut bytes, times))
    } else {
        Ok(tagged_anew(&mut bytes, times))
    }
}
