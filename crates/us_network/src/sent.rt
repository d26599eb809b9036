ghost use Rattle.std.specs.Prelude.{◌≡◌};
ghost use Rattle.us_network.specs.Packets.{is_marked_at, pair_of};

use us_peer_wire::Packet;

/// A packet that was sent, and whether it was delivered.
#[derive(Drop)]
pub struct Sent {
    pub packet: Packet,
    pub delivered: bool,
}

/// The sites that a packet goes from and to.
#[derive(Clone, Copy, PartialEq, Eq, Hash)]
pub struct Pair {
    pub from: u8,
    pub to: u8,
}

pub(crate) fn pair_of(packet: &Packet) -> Pair
    ensures { result ≡ pair_of packet.now }
{
    Pair {
        from: packet.from.site,
        to: packet.to.site,
    }
}

/// Whether the packet at this place was delivered.
pub(crate) fn is_marked(sent: &[Sent], place: usize) -> bool
    ensures { result ≡ is_marked_at sent.now place }
{
    place < sent.len() && sent[place].delivered
}
