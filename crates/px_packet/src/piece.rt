//! Pieces of datagrams, as bytes.

ghost use Rattle.std.specs.Prelude.{◌≡◌, ◌<◌, ◌≤◌, ◌*◌, ◌^◌, ◌++◌, OnOk, IfSome, IfNone, length};
ghost use Rattle.px_packet.specs.Pieces as pieces;
ghost use Rattle.px_packet.specs.Pieces.{piece_of, piece_bytes, part_of, part_length, count_of, IsFormed};

use std::alloc::AllocError;

/// How many bytes of its datagram a piece has at most; the last piece has the rest.
pub const PART_MAX: usize = 1_160;

/// How many pieces a datagram has at most.
pub const PIECES_MAX: usize = 29;

/// The longest datagram that is cut.
pub const DATAGRAM_MAX: usize = 33_640;

/// A piece of a datagram.
#[derive(Clone, Copy)]
pub struct Piece<'a> {
    /// The name of the datagram.
    pub name: u32,
    /// How many bytes the datagram has.
    pub size: u16,
    /// The number of the piece, from 0 on.
    pub index: u8,
    /// Its part of the datagram.
    pub part: &'a [u8],
    ghost short: { size ≤ 33640 },
    ghost inside: { 1160 * index < size },
    ghost long: { length part.now ≡ part_length size index },
}

/// How many pieces a datagram of n bytes has.
pub fn piece_count(size: usize) -> usize
    requires { size ≤ DATAGRAM_MAX }
    ensures count { result ≡ count_of size }
    ensures few { result ≤ PIECES_MAX }
{
    (size + PART_MAX - 1) / PART_MAX
}

/// The part of a datagram with this number.
fn part_of(datagram: &[u8], index: usize) -> &[u8]
    requires short { length datagram.now ≤ DATAGRAM_MAX }
    requires inside { 1160 * index < length datagram.now }
    ensures { result.now ≡ part_of datagram.now index }
{
    let begin = PART_MAX * index;
    let end = (begin + PART_MAX).min(datagram.len());
    &datagram[begin..end]
}

/// Writes the piece of a datagram with this number behind what the buffer has.
pub fn write_piece(
    name: u32,
    datagram: &[u8],
    index: u8,
    buffer: &mut Vec<u8>,
) -> Result<(), AllocError>
    requires short { length datagram.now ≤ DATAGRAM_MAX }
    requires inside { 1160 * index < length datagram.now }
    ensures { OnOk result (buffer.new.items ≡ buffer.old.items ++ piece_bytes (piece_of name datagram.now index)) }
{
    let size = datagram.len() as u16;
    buffer.extend_from_slice(&name.to_be_bytes())?;
    buffer.extend_from_slice(&size.to_be_bytes())?;
    buffer.push(index)?;
    buffer.extend_from_slice(part_of(datagram, usize::from(index)))
}

impl<'a> Piece<'a> {
    ghost use Rattle.px_packet.specs.Seen.{seen};

    /// The piece that the bytes are; none of bytes that are no piece of a datagram.
    pub fn read(bytes: &'a [u8]) -> Option<Piece<'a>>
        ensures read { IfSome result (λ p. bytes.now ≡ piece_bytes (seen p)) }
        ensures none { IfNone result ((p : pieces.Piece) → p.name < 2 ^ 32 → IsFormed p →
            bytes.now ≡ piece_bytes p → ⊥) }
    {
        let (name, rest) = bytes.split_first_chunk::<4>()?;
        let (size, rest) = rest.split_first_chunk::<2>()?;
        if rest.is_empty() {
            return None;
        }
        let name = u32::from_be_bytes(*name);
        let size = u16::from_be_bytes(*size);
        let index = rest[0];
        let part = &rest[1..];
        let begin = PART_MAX * usize::from(index);
        let whole = usize::from(size);
        if whole > DATAGRAM_MAX || begin >= whole || part.len() != (whole - begin).min(PART_MAX) {
            return None;
        }
        Some(Piece {
            name,
            size,
            index,
            part,
        })
    }
}
