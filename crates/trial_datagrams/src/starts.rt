use crate::disk::{Disk, STARTS};
use cli_files::{KnownMember, StartsFault, raise_start, read_starts, write_starts};
use px_packet::Start;
use std::alloc::Global;
use std::cell::Cell;
use std::panic::Expect;

const TEXT: &str = "pfx starts 1\n\
    00000004000000280000000000000009\n\
    00000000000000000000000000000000\n";

static MEMBERS: [KnownMember; 2] = [
    KnownMember {
        start: Start {
            number: 4,
            salt: 40,
        },
        birth: 9,
    },
    KnownMember {
        start: Start::NEVER,
        birth: 0,
    },
];

/// Whether the members are read.
fn is_read(alloc: Global, text: &[u8]) -> bool {
    match read_starts(alloc, text) {
        Ok(members) => members.as_slice() == MEMBERS.as_slice(),
        Err(_) => false,
    }
}

/// Whether the text is refused so.
fn is_refused(alloc: Global, text: &[u8], wanted: StartsFault) -> bool {
    match read_starts(alloc, text) {
        Ok(_) => false,
        Err(fault) => fault == wanted,
    }
}

#[test]
fn a_file_of_starts_is_read_as_it_was_written(rt: HostRuntime) {
    let text = write_starts(rt.alloc(), &MEMBERS).expect(&rt, "memory");
    assert!(rt; text.as_slice() == TEXT.as_bytes() && is_read(rt.alloc(), TEXT.as_bytes()));
    assert!(rt;
        is_refused(rt.alloc(), b"pfx starts 2\n", StartsFault::Version)
            && is_refused(rt.alloc(), b"pfx starts 1\n0", StartsFault::Damaged)
    );
}

/// A new start has the time since 1970 and what the random source gave, and is in the file, which is synced before it
/// is renamed, as its folder is behind that.
#[test]
fn a_start_is_synced_before_it_is_used(rt: HostRuntime) {
    let done = Cell::new(0);
    let written = Cell::new(([0u8; 256], 0));
    let disk = Disk {
        done: &done,
        written: &written,
        seconds: 1_800_000_000,
    };
    let start = raise_start(&disk, rt.alloc(), STARTS, 3, 1, true).expect(&rt, "a start");
    let wanted = Start {
        number: 1_800_000_000,
        salt: 0x5555_5555,
    };
    let (room, count) = written.get();
    let members = read_starts(rt.alloc(), &room[..count.min(256)]).expect(&rt, "a file");
    let kept = members.get(1).map(|member| member.start);
    assert!(rt; start == wanted && members.len() == 3 && kept == Some(wanted));
    assert!(rt; done.get() == 12_345_678);
}
