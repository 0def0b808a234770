//! Why a packet isn't opened.

use thiserror::Error;

/// Why a packet isn't opened: the first fault, in this order.
#[derive(Clone, Copy, Debug, PartialEq, Eq, Error)]
pub enum PacketFault {
    /// The tag is that of no key.
    #[error("the tag is not of the cluster's key")]
    Tag,
    /// It is shorter than a header.
    #[error("it is shorter than a header")]
    Short,
    /// It doesn't begin with `PFXS`.
    #[error("it does not begin as a packet")]
    Magic,
    /// The version isn't 2.
    #[error("it is of another version")]
    Version,
    /// It is of another cluster.
    #[error("it is of another cluster")]
    Cluster,
    /// The cluster has another number of members.
    #[error("its cluster has another number of members")]
    Members,
    /// The sender is no other member.
    #[error("its sender is no other member")]
    Sender,
    /// It is for another member.
    #[error("it is for another member")]
    Receiver,
    /// The kind isn't known.
    #[error("it is of an unknown kind")]
    Kind,
    /// The number of the sender's start is 0.
    #[error("its start has number 0")]
    Start,
    /// The counter is 0.
    #[error("its counter is 0")]
    Counter,
}
