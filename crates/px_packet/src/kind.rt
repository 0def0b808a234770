//! The kinds of packets, and their numbers.

ghost use Rattle.std.specs.Prelude.{◌≡◌};
ghost use Rattle.px_packet.specs.Headers.{number_of, kind_in};

/// What the body of a packet is.
#[derive(Clone, Copy, PartialEq, Eq)]
pub enum Kind {
    /// What the sender's record has, for the detection of a lost record.
    State,
    /// A datagram.
    Whole,
    /// A piece of a datagram.
    Piece,
    /// Which pieces of a datagram the sender has.
    PiecesHeld,
}

impl Kind {
    /// The number that a packet has for the kind.
    pub(crate) fn number(self) -> u8
        ensures { result ≡ number_of self }
    {
        match self {
            Kind::State => 0,
            Kind::Whole => 1,
            Kind::Piece => 2,
            Kind::PiecesHeld => 3,
        }
    }

    /// The kind with that number.
    pub(crate) fn from_number(number: u8) -> Option<Kind>
        ensures { result ≡ kind_in number }
    {
        match number {
            0 => Some(Kind::State),
            1 => Some(Kind::Whole),
            2 => Some(Kind::Piece),
            3 => Some(Kind::PiecesHeld),
            _ => None,
        }
    }
}
