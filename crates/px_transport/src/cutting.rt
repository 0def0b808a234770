//! A datagram written to the room that there is.

ghost use Rattle.std.specs.Prelude.{◌≡◌, ◌≤◌, length, take};
ghost use Rattle.px_transport.specs.Wires.{within};

/// Cuts the datagram to the room that there is, and writes it there: how many bytes it has.
pub(crate) fn put(datagram: &mut Vec<u8>, into: &mut [u8]) -> usize
    ensures fits { result ≤ length into.new }
    ensures written { take result into.new ≡ datagram.new.items }
    ensures cut { datagram.new.items ≡ take (length into.old) datagram.old.items }
{
    datagram.truncate(into.len());
    let n = datagram.len();
    into[..n].copy_from_slice(datagram.as_slice());
    n
}

/// Writes the datagram to the room that there is, where it fits, or else none of it: how many bytes it has there.
pub(crate) fn put_whole(datagram: &[u8], into: &mut [u8]) -> usize
    ensures fits { result ≤ length into.new }
    ensures written { take result into.new ≡ within (length into.old) datagram.now }
{
    let n = datagram.len();
    if n > into.len() {
        return 0;
    }
    into[..n].copy_from_slice(datagram);
    n
}
