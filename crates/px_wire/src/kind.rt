//! The kinds of messages, and their numbers.

ghost use Rattle.std.specs.Prelude.{◌≡◌};
ghost use Rattle.px_wire.specs.Heads.{is_nack, number_of};
ghost use Rattle.px_wire.specs.inner.Heads.{kind_in};

/// The kind of a message. The fields of each are at the variant of [`Message`](crate::Message) with its name.
#[derive(Clone, Copy, PartialEq, Eq)]
pub enum Kind {
    /// A prepare request for one position.
    Prepare,
    /// A promise for one position.
    Promise,
    /// A proposal, to be accepted.
    Accept,
    /// The sender has accepted a proposal.
    Vote,
    /// A request is refused.
    Nack,
    /// The entry of a position is asked for.
    Need,
    /// The entry chosen at a position.
    Learned,
    /// A command from outside.
    Ask,
    /// A command from outside was accepted.
    Asked,
    /// A command from outside was refused.
    AskRefused,
    /// A prepare request for all positions.
    PrepareAll,
    /// A promise for all positions.
    PromiseAll,
}

impl Kind {
    /// The number that a datagram has for the kind.
    pub(crate) fn number(self) -> u8
        ensures { result ≡ number_of self }
    {
        match self {
            Kind::Prepare => 1,
            Kind::Promise => 2,
            Kind::Accept => 3,
            Kind::Vote => 4,
            Kind::Nack => 5,
            Kind::Need => 6,
            Kind::Learned => 7,
            Kind::Ask => 8,
            Kind::Asked => 9,
            Kind::AskRefused => 10,
            Kind::PrepareAll => 11,
            Kind::PromiseAll => 12,
        }
    }

    /// Whether a message of this kind refuses a proposal for one of a higher round.
    pub fn is_nack(self) -> bool
        ensures { result ≡ is_nack self }
    {
        self.number() == Kind::Nack.number()
    }

    /// The kind with that number.
    pub(crate) fn from_number(number: u8) -> Option<Kind>
        ensures { result ≡ kind_in number }
    {
        match number {
            1 => Some(Kind::Prepare),
            2 => Some(Kind::Promise),
            3 => Some(Kind::Accept),
            4 => Some(Kind::Vote),
            5 => Some(Kind::Nack),
            6 => Some(Kind::Need),
            7 => Some(Kind::Learned),
            8 => Some(Kind::Ask),
            9 => Some(Kind::Asked),
            10 => Some(Kind::AskRefused),
            11 => Some(Kind::PrepareAll),
            12 => Some(Kind::PromiseAll),
            _ => None,
        }
    }
}
