use crate::party::has_digits;
use px_packet::{Header, Kind, PacketFault, PacketKeys, Start};
use std::alloc::{AllocError, Global};
use std::panic::Expect;

const BODY: &[u8] = b"PFXR a datagram";

/// Made by Python's hmac of the header, the body, and a key that is the tag of `PFXS` and 2 under 32 sevens.
const PACKET: &str = "504658530200000007030001010000000201020304000000040a0b0c0d0000000000000102\
    50465852206120646174616772616de2d5628c8607574db21dcaa88c25a174";

const HEADER: Header = Header {
    cluster: 7,
    members: 3,
    from: 0,
    to: 1,
    kind: Kind::Whole,
    start: Start {
        number: 2,
        salt: 0x0102_0304,
    },
    echo: Start {
        number: 4,
        salt: 0x0a0b_0c0d,
    },
    counter: 258,
};

/// The packet of the header and the body, sealed with a key of sevens.
fn sealed(alloc: Global) -> Result<Vec<u8>, AllocError> {
    let keys = PacketKeys::new(&[7; 32], None);
    let mut packet = Vec::new(alloc);
    keys.seal(&HEADER, BODY, &mut packet)?;
    Ok(packet)
}

/// Whether member 1 of cluster 7 finds the header and the body in the packet.
fn is_opened(keys: &PacketKeys, packet: &[u8]) -> bool {
    match keys.open(packet, 7, 3, 1) {
        Ok((header, body)) => header == HEADER && body == BODY,
        Err(_) => false,
    }
}

/// Whether a member of a cluster of three refuses the packet so.
fn is_refused(keys: &PacketKeys, packet: &[u8], cluster: u32, me: u8, wanted: PacketFault) -> bool {
    match keys.open(packet, cluster, 3, me) {
        Ok(_) => false,
        Err(fault) => fault == wanted,
    }
}

#[test]
fn a_packet_is_the_one_that_was_made_elsewhere(rt: HostRuntime) {
    let is_same = match sealed(rt.alloc()) {
        Ok(packet) => has_digits(rt.alloc(), &packet, PACKET),
        Err(_) => false,
    };
    assert!(rt; is_same);
}

#[test]
fn what_is_sealed_is_opened(rt: HostRuntime) {
    let packet = sealed(rt.alloc()).expect(&rt, "memory");
    let keys = PacketKeys::new(&[9; 32], Some(&[7; 32]));
    assert!(rt; is_opened(&keys, &packet));
    assert!(rt;
        is_refused(&keys, &packet, 7, 2, PacketFault::Receiver)
            && is_refused(&keys, &packet, 8, 1, PacketFault::Cluster)
            && is_refused(&keys, &[], 7, 1, PacketFault::Tag)
    );
}

/// Whether each byte, changed by itself, makes it another packet.
fn finds_each_change(keys: &PacketKeys, packet: &mut [u8]) -> bool {
    for i in 0..packet.len() {
        packet[i] ^= 1;
        let is_found = is_refused(keys, packet, 7, 1, PacketFault::Tag);
        packet[i] ^= 1;
        if !is_found {
            return false;
        }
    }
    true
}

#[test]
fn a_changed_byte_is_found(rt: HostRuntime) {
    let mut packet = sealed(rt.alloc()).expect(&rt, "memory");
    let keys = PacketKeys::new(&[7; 32], None);
    assert!(rt; finds_each_change(&keys, &mut packet) && is_opened(&keys, &packet));
}
