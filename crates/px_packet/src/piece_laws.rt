//! What is true of pieces.

ghost use Rattle.px_packet.specs.PieceLaws.{PiecesDiffer, BitsReport, NamedOnce, CutIsJoined, JoinedWasCut};
ghost use Rattle.px_packet.specs.PieceLaws.{ReportKeeps};
ghost use Rattle.px_packet.specs.PieceLaws.{CutIsPiece, LogGrows, PiecesAreJoined, StaysBounded};

/// Pieces that have the same bytes are the same.
pub fn pieces_differ()
    ensures { PiecesDiffer }
{}

/// The bit of a part is 1 where it has come.
pub fn bits_report()
    ensures { BitsReport }
{}

/// A sender gives a name to one datagram only.
pub fn named_once()
    ensures { NamedOnce }
{}

/// The parts of a datagram one behind the other are the datagram.
pub fn cut_is_joined()
    ensures { CutIsJoined }
{}

/// Where pieces are those of datagrams that a sender cut, each under a name of its own, what is reassembled is the
/// datagram that was cut under that name, byte for byte.
pub fn joined_was_cut()
    ensures { JoinedWasCut }
{}

/// Each piece of a datagram that was cut is such a piece.
pub fn cut_is_piece()
    ensures { CutIsPiece }
{}

/// And that stays so as more datagrams are cut.
pub fn log_grows()
    ensures { LogGrows }
{}

/// A report changes nothing of that.
pub fn report_keeps()
    ensures { ReportKeeps }
{}

/// A datagram is given once all its pieces have come, in whatever order, and no earlier.
pub fn pieces_are_joined()
    ensures { PiecesAreJoined }
{}

/// There are at most 8 unfinished datagrams, of 33,640 bytes at most.
pub fn stays_bounded()
    ensures { StaysBounded }
{}
