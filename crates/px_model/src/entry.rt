//! Entries as they are spelled: a format byte, a byte for the member that the command was submitted to, eight for its
//! number there, then the command's bytes.
ghost use Rattle.std.specs.Prelude.{◌≡◌, ◌≤◌, length};
ghost use Rattle.px_model.specs.inner.Spelling.{renamed};

use std::rc::Rc;

/// An entry with its spelling. Copies share the bytes, so an entry that is sent to fifteen members, waits and is
/// learned has its bytes in memory once.
pub struct Entry {
    pub(crate) origin: u8,
    pub(crate) number: u64,
    pub(crate) bytes: Rc<Vec<u8>>,
    ghost long: { 10 ≤ length bytes.value.items },
    ghost is_spelled: { renamed bytes.value.items origin number ≡ bytes.value.items },
}

impl Drop for Entry {
    fn drop(self) {
        let Entry {
            origin: _,
            number: _,
            bytes: _,
        } = self;
    }
}

/// An entry whose spelling is in bytes that somebody else owns, as in a datagram.
#[derive(Clone, Copy)]
pub struct EntryView<'a> {
    pub(crate) origin: u8,
    pub(crate) number: u64,
    pub(crate) bytes: &'a [u8],
    ghost long: { 10 ≤ length bytes.now },
    ghost is_spelled: { renamed bytes.now origin number ≡ bytes.now },
}
