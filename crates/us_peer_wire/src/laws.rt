//! Decoding and encoding are inverse to each other.
ghost use Rattle.us_peer_wire.specs.Packets.{ReadsPackets};

/// A frame that is read is the encoding of what was read, the encoding of a packet is read as that packet, and no encoding of a
/// packet begins another.
pub fn packets_are_read_as_encoded()
    ensures { ReadsPackets }
{}
