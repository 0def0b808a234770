//! Datagrams written by hand: a cluster of number 7 with three members.

/// Prepare of 0 to 1: ballot of round 1, position 0.
pub const PREPARE: &[u8] = b"PFXR\x01\0\0\0\x07\x03\0\x01\x01\0\0\0\0\0\0\x01\0\0\0\0\0";

/// Promise of 1 to 0: ballot of round 2 of 0, position 5, accepted in round 1 of 1, 25 bytes of entry.
pub const PROMISE: &[u8] = b"\
    PFXR\x01\0\0\0\x07\x03\x01\0\x02\0\0\0\0\0\0\x02\0\0\0\0\x05\0\0\0\0\0\0\x01\x01\0\0\0\x19\
    \x01\0\0\0\0\0\0\0\0\0\x05\0\x03bad\0\x01\0\x04\x20\x0a\0\0\x01";

/// Accept of 0 to 1: ballot of round 1 of 0, position 5, 25 bytes of entry.
pub const ACCEPT: &[u8] = b"\
    PFXR\x01\0\0\0\x07\x03\0\x01\x03\0\0\0\0\0\0\x01\0\0\0\0\x05\0\0\0\x19\x01\0\0\0\0\0\0\0\0\0\
    \x05\0\x03bad\0\x01\0\x04\x20\x0a\0\0\x01";

/// Vote of 2 to 1 for the same.
pub const VOTE: &[u8] = b"\
    PFXR\x01\0\0\0\x07\x03\x02\x01\x04\0\0\0\0\0\0\x01\0\0\0\0\x05\0\0\0\x19\x01\0\0\0\0\0\0\0\0\
    \0\x05\0\x03bad\0\x01\0\x04\x20\x0a\0\0\x01";

/// Nack of 1 to 0: ballot of round 1 of 0, position 5, promised is round 2 of 1.
pub const NACK: &[u8] =
    b"PFXR\x01\0\0\0\x07\x03\x01\0\x05\0\0\0\0\0\0\x01\0\0\0\0\x05\0\0\0\0\0\0\x02\x01";

/// Need of 2 to 0: position 5.
pub const NEED: &[u8] = b"PFXR\x01\0\0\0\x07\x03\x02\0\x06\0\0\0\x05";

/// Learned of 2 to 0: position 5, 25 bytes of entry.
pub const LEARNED: &[u8] = b"\
    PFXR\x01\0\0\0\x07\x03\x02\0\x07\0\0\0\x05\0\0\0\x19\x01\0\0\0\0\0\0\0\0\0\x05\0\x03bad\
    \0\x01\0\x04\x20\x0a\0\0\x01";

/// Ask to 0: 25 bytes of entry, of 255 with token 9.
pub const ASK: &[u8] = b"\
    PFXR\x01\0\0\0\x07\x03\xff\0\x08\0\0\0\x19\x01\xff\0\0\0\0\0\0\0\x09\x05\0\x03bad\0\
    \x01\0\x04\x20\x0a\0\0\x01";

/// Asked of 0: token 9, number 4.
pub const ASKED: &[u8] = b"PFXR\x01\0\0\0\x07\x03\0\xff\x09\0\0\0\0\0\0\0\x09\0\0\0\0\0\0\0\x04";

/// AskRefused of 0: token 9, code 60.
pub const ASK_REFUSED: &[u8] = b"PFXR\x01\0\0\0\x07\x03\0\xff\x0a\0\0\0\0\0\0\0\x09\x3c";

/// PrepareAll of 0 to 1: ballot of round 1, position 0.
pub const PREPARE_ALL: &[u8] = b"PFXR\x01\0\0\0\x07\x03\0\x01\x0b\0\0\0\0\0\0\x01\0\0\0\0\0";

/// PromiseAll of 1 to 0: ballot of round 1 of 0, position 0, top 0, nothing accepted.
pub const PROMISE_ALL: &[u8] =
    b"PFXR\x01\0\0\0\x07\x03\x01\0\x0c\0\0\0\0\0\0\x01\0\0\0\0\0\0\0\0\0\0\0\0\0\0\0\0\0";

/// Add of 10.0.0.1 to the table `bad` of the main ruleset, asked of 0 as number 0.
pub const ADD: &[u8] = b"\x01\0\0\0\0\0\0\0\0\0\x05\0\x03bad\0\x01\0\x04\x20\x0a\0\0\x01";
