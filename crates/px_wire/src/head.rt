//! The head of a datagram.

ghost use Rattle.std.specs.Prelude.{◌≡◌, ◌++◌, ℕ, List, Some};
ghost use Rattle.px_wire.specs.Message.{Group, Message, DatagramBytes};
ghost use Rattle.px_wire.specs.Heads.{of_none, head_of, learned_below, proposal_in};
ghost use Rattle.px_wire.specs.inner.Heads.{ballot_in, position_in, asked_in, head_at, head_in};

use crate::kind::Kind;
use crate::limits::{
    ADDRESSEE, ANSWER_AT, BODY_AT, KIND_AT, MAGIC, POSITION_AT, SENDER_AT, VERSION, VERSION_AT,
};
use crate::reading::{u8_in, u32_in, u64_in};

/// What a datagram has before its entry: who sends it to whom, and what it is about.
#[derive(Clone, Copy, PartialEq, Eq)]
pub struct Head {
    /// The sender: a member, or 255 for a client.
    pub from: u8,
    /// The addressee: a member, or 255.
    pub to: u8,
    /// The kind of the message.
    pub kind: Kind,
    /// The ballot of a request, or that of the request that is answered; none in Need, Learned and the messages from
    /// and to outside.
    pub ballot: Option<u64>,
    /// The position; none in messages from and to outside.
    pub position: Option<u32>,
    /// The number that a command got; in Asked alone.
    pub number: Option<u64>,
}

/// The head of a message with a ballot and a position.
fn ballot_in(from: u8, to: u8, kind: Kind, bytes: &[u8]) -> Option<Head>
    ensures { result ≡ ballot_in from to kind bytes.now }
{
    Some(Head {
        ballot: Some(u64_in(bytes, BODY_AT)?),
        position: Some(u32_in(bytes, POSITION_AT)?),
        ..none_in(from, to, kind)
    })
}

/// The head of a message with a position alone.
fn position_in(from: u8, to: u8, kind: Kind, bytes: &[u8]) -> Option<Head>
    ensures { result ≡ position_in from to kind bytes.now }
{
    Some(Head {
        position: Some(u32_in(bytes, BODY_AT)?),
        ..none_in(from, to, kind)
    })
}

/// The head of an answer that a command was accepted.
fn asked_in(from: u8, to: u8, kind: Kind, bytes: &[u8]) -> Option<Head>
    ensures { result ≡ asked_in from to kind bytes.now }
{
    Some(Head {
        number: Some(u64_in(bytes, ANSWER_AT)?),
        ..none_in(from, to, kind)
    })
}

/// The head of a message with none of these.
fn none_in(from: u8, to: u8, kind: Kind) -> Head
    ensures { result ≡ of_none from to kind }
{
    Head {
        from,
        to,
        kind,
        ballot: None,
        position: None,
        number: None,
    }
}

/// The head of a message of this kind.
fn head_at(from: u8, to: u8, kind: Kind, bytes: &[u8]) -> Option<Head>
    ensures { result ≡ head_at from to kind bytes.now }
{
    match kind {
        Kind::Need | Kind::Learned => position_in(from, to, kind, bytes),
        Kind::Ask | Kind::AskRefused => Some(none_in(from, to, kind)),
        Kind::Asked => asked_in(from, to, kind, bytes),
        _ => ballot_in(from, to, kind, bytes),
    }
}

/// The head of bytes that begin as a datagram of this format does.
fn head_in(bytes: &[u8]) -> Option<Head>
    ensures { result ≡ head_in bytes.now }
{
    let magic = u32_in(bytes, 0)?;
    let version = u8_in(bytes, VERSION_AT)?;
    if magic != MAGIC || version != VERSION {
        return None;
    }
    let from = u8_in(bytes, SENDER_AT)?;
    let to = u8_in(bytes, ADDRESSEE)?;
    let kind = Kind::from_number(u8_in(bytes, KIND_AT)?)?;
    head_at(from, to, kind, bytes)
}

impl Head {
    /// The head of the datagram with which the bytes begin, of any group and to any addressee. Allocates nothing, and
    /// looks at a few fixed places alone: so it costs the same for a long datagram, and bytes that spell no message may
    /// have a head too. What follows the datagram, as a tag, changes nothing.
    pub fn read(bytes: &[u8]) -> Option<Head>
        // Where the bytes spell a message, it is the head of that.
        ensures spelled { (g : Group) (from to : ℕ) (message : Message) →
            DatagramBytes g from to message bytes.now → result ≡ Some (head_of from to message) }
        // So it is where they begin with such bytes.
        ensures begins { (g : Group) (from to : ℕ) (message : Message) (datagram more : List ℕ) →
            DatagramBytes g from to message datagram → bytes.now ≡ datagram ++ more →
            result ≡ Some (head_of from to message) }
    {
        head_in(bytes)
    }

    /// A position below which the sender has learned all, as its message shows: a member that proposes or votes at a
    /// position, or lacks it, has learned all below, and one that reports its entry has learned that too. 0 where the
    /// message shows none.
    pub fn learned_below(&self) -> u32
        ensures { result ≡ learned_below self.now }
    {
        let Some(position) = self.position else {
            return 0;
        };
        match self.kind {
            Kind::Prepare | Kind::PrepareAll | Kind::Accept | Kind::Vote | Kind::Need => position,
            Kind::Learned => position.saturating_add(1),
            _ => 0,
        }
    }

    /// The position at which the sender proposes a command, if it does.
    pub fn proposal(&self) -> Option<u32>
        ensures { result ≡ proposal_in self.now }
    {
        match self.kind {
            Kind::Prepare | Kind::PrepareAll | Kind::Accept => self.position,
            _ => None,
        }
    }
}
