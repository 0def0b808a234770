//! Texts that are read as packets.
use pf_eval::parse_packet;
use std::alloc::Global;

/// How often a string was read as a packet, where each is read that many times.
pub(crate) fn packets_read(alloc: Global, texts: &[&str], times: u32) -> u32 {
    let mut read = 0u32;
    for text in texts {
        for _ in 0..times {
            if parse_packet(alloc, text).is_ok() {
                read = read.wrapping_add(1);
            }
        }
    }
    read
}
