//! What is true of packets.

ghost use Rattle.px_packet.specs.PacketLaws.{HeaderIsRead, HeaderIsWritten, PacketOpens, OpenedWasSealed};
ghost use Rattle.px_packet.specs.PacketLaws.{FrontWasSealed};

/// The bytes of a header for a member are read as that header.
pub fn header_is_read()
    ensures { HeaderIsRead }
{}

/// Bytes that are read as a header are the bytes of that header.
pub fn header_is_written()
    ensures { HeaderIsWritten }
{}

/// What was sealed with one of the keys for a member is opened by it, as it was.
pub fn packet_opens()
    ensures { PacketOpens }
{}

/// What is opened was sealed with one of the keys, with this header and this body, for the member that opens it.
pub fn opened_was_sealed()
    ensures { OpenedWasSealed }
{}

/// What is in front of the tag of a packet is what was sealed.
pub fn front_was_sealed()
    ensures { FrontWasSealed }
{}
