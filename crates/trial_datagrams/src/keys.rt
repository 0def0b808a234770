use cli_files::{KeyFault, key_from, key_text, new_key};
use std::alloc::Global;
use std::io::{self, ErrorKind};
use std::panic::Expect;
use std::random::RandomSource;

/// A source whose bytes are 0, 1, 2 and so on.
struct Ascending;

impl RandomSource for Ascending {
    fn fill_bytes(&self, buf: &mut [u8]) -> io::Result<()> {
        let mut next = 0u8;
        for byte in buf {
            *byte = next;
            next = next.wrapping_add(1);
        }
        Ok(())
    }
}

/// The bytes from 0 to 31 as a key's text.
const ASCENDING: &[u8] = b"000102030405060708090a0b0c0d0e0f101112131415161718191a1b1c1d1e1f";

/// A source that fails.
struct Broken;

impl RandomSource for Broken {
    fn fill_bytes(&self, _buf: &mut [u8]) -> io::Result<()> {
        Err(io::Error::from(ErrorKind::Other))
    }
}

#[test]
fn a_key_is_its_sources(rt: HostRuntime) {
    let ascending = new_key(&Ascending).expect(&rt, "a key");
    assert!(rt; read(rt.alloc(), ASCENDING) == Ok(ascending));
    assert!(rt; new_key(&Broken).is_err());
    let first = new_key(&rt).expect(&rt, "a key");
    let second = new_key(&rt).expect(&rt, "a key");
    assert!(rt; first != second);
}

/// What a reader of these bytes has for a key.
fn read(alloc: Global, text: &[u8]) -> Result<[u8; 32], KeyFault> {
    let mut reader = text;
    key_from(alloc, &mut reader)
}

#[test]
fn a_key_is_read_as_it_was_written(rt: HostRuntime) {
    let alloc = rt.alloc();
    let key = new_key(&rt).expect(&rt, "a key");
    let text = key_text(alloc, &key).expect(&rt, "memory");
    assert!(rt; text.as_str().len() == 65);
    assert!(rt; read(alloc, text.as_bytes()) == Ok(key));
}

#[test]
fn another_text_is_no_key(rt: HostRuntime) {
    let digits = [b'a'; 66];
    for n in [0, 1, 63, 65, 66] {
        assert!(rt; read(rt.alloc(), &digits[..n]) == Err(KeyFault::NoKey));
    }
}
