use crate::party::has_digits;
use px_packet::{group_key, hmac_sha256, parse_key};
use std::alloc::Global;
use std::panic::Expect;

/// A key, what is tagged, and the first digits of the tag.
type Case = (&'static [u8], &'static [u8], &'static str);

/// The cases of RFC 4231. Of the fifth the first half of the tag alone is known.
static CASES: [Case; 7] = [
    (
        &[0x0b; 20],
        b"Hi There",
        "b0344c61d8db38535ca8afceaf0bf12b881dc200c9833da726e9376c2e32cff7",
    ),
    (
        b"Jefe",
        b"what do ya want for nothing?",
        "5bdcc146bf60754e6a042426089575c75a003f089d2739839dec58b964ec3843",
    ),
    (
        &[0xaa; 20],
        &[0xdd; 50],
        "773ea91e36800e46854db8ebd09181a72959098b3ef8c122d9635514ced565fe",
    ),
    (
        &[
            1, 2, 3, 4, 5, 6, 7, 8, 9, 10, 11, 12, 13, 14, 15, 16, 17, 18, 19, 20, 21, 22, 23, 24,
            25,
        ],
        &[0xcd; 50],
        "82558a389a443c0ea4cc819899f2083a85f0faa3e578f8077a2e3ff46729665b",
    ),
    (
        &[0x0c; 20],
        b"Test With Truncation",
        "a3b6167473100ee06e0c796c2955552b",
    ),
    (
        &[0xaa; 131],
        b"Test Using Larger Than Block-Size Key - Hash Key First",
        "60e431591ee0b67f0d8a26aacbf5b77f8e0bc6213728c5140546040f0ee37f54",
    ),
    (
        &[0xaa; 131],
        b"This is a test using a larger than block-size key and a larger than block-size data. \
        The key needs to be hashed before being used by the HMAC algorithm.",
        "9b09ffa71b942fcb27635fbcd5b0e944bfdc63644f0713938a7f51535c3a35e2",
    ),
];

/// Whether the tag begins with these digits.
fn has_tag(alloc: Global, case: &Case) -> bool {
    let (key, message, digits) = *case;
    let tag = hmac_sha256(key, message);
    let (front, _) = tag.split_at((digits.len() / 2).min(32));
    has_digits(alloc, front, digits)
}

#[test]
fn tags_are_those_of_rfc_4231(rt: HostRuntime) {
    for case in &CASES {
        assert!(rt; has_tag(rt.alloc(), case), "{}", case.2);
    }
}

/// A group: the byte of its secret, its cluster and members; and whether its key is that of the first.
type Group = (u8, u32, &'static [&'static str], bool);

static GROUPS: [Group; 6] = [
    (7, 7, &["a:1", "b:2"], true),
    (8, 7, &["a:1", "b:2"], false),
    (7, 8, &["a:1", "b:2"], false),
    (7, 7, &["b:2", "a:1"], false),
    (7, 7, &["a:1b:2"], false),
    (7, 7, &["a:1"], false),
];

/// Whether the group has this key, or another one where it is not to be the same.
fn is_so(alloc: Global, key: &[u8; 32], group: &Group) -> bool {
    let (byte, cluster, members, is_same) = *group;
    match group_key(alloc, &[byte; 32], cluster, members) {
        Ok(other) => (other == *key) == is_same,
        Err(_) => false,
    }
}

#[test]
fn another_group_has_another_key(rt: HostRuntime) {
    let key = group_key(rt.alloc(), &[7; 32], 7, &["a:1", "b:2"]).expect(&rt, "memory");
    assert!(rt;
        has_digits(
            rt.alloc(),
            &key,
            "535580ed355472dfc7910bc1b7dab9959f5c372f8f0fc234b375ecf143123b28"
        )
    );
    for group in &GROUPS {
        assert!(rt; is_so(rt.alloc(), &key, group));
    }
}

/// A secret, and what is none: shorter ones, and one behind an empty line.
const SECRET: &[u8] = b"5a5a5a5a5a5a5a5a5a5a5a5a5a5a5a5a5a5a5a5a5a5a5a5a5a5a5a5a5a5a5aFf\n";

static NO_SECRETS: [&[u8]; 5] = [
    b"5a5a",
    b"",
    b"\n",
    b"a5a5a5a5a5a5a5a5a5a5a5a5a5a5a5a5a5a5a5a5a5a5a5a5a5a5a5a5a5a5aFf\n",
    b"\n5a",
];

#[test]
fn a_secret_has_64_digits(rt: HostRuntime) {
    let key = parse_key(SECRET).expect(&rt, "a key");
    assert!(rt; key[0] == 0x5a && key[30] == 0x5a && key[31] == 0xff);
    for text in &NO_SECRETS {
        assert!(rt; parse_key(text).is_none());
    }
}
