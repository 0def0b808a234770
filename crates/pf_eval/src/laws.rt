//! Laws over the definitions.

ghost use Rattle.pf_eval.specs.PacketGrammar.{IsPacketText};
ghost use Rattle.pf_eval.specs.PacketTexts.{packet_of};
ghost use Rattle.pf_eval.specs.Packets.{PacketValue};
ghost use Rattle.std.specs.Prelude.{List, Some, ℕ, ◌↔◌, ◌≡◌};

/// A string is read as a packet exactly where the grammar of packets in text form spells that packet so.
pub fn packets_as_spelled()
    ensures { (text : List ℕ) (k : PacketValue) → (packet_of text ≡ Some k) ↔ IsPacketText text k }
{}
