//! All packets that were ever sent.
ghost use Rattle.std.specs.Prelude.{◌≡◌, ◌<◌, ◌++◌, ◌∷◌, [], IfOk, IfSome, OnOk, length, slice_get};
ghost use Rattle.us_network.specs.Packets.{IsDelivered, IsLeastDue, fresh};

use crate::fronts::{FRONTS, Front, front_of, pass, passed_of};
use crate::sent::{Pair, Sent, pair_of};
use std::alloc::Global;
use std::marker::Model;
use us_index::Places;
use us_kind::Memory;
use us_peer_wire::Packet;

/// All packets that were ever sent, in order, each with whether it was delivered.
///
/// The least undelivered packet from one site to another is found among those of these two sites, of which those that were
/// delivered at the front aren't looked at again.
#[derive(Drop)]
pub struct Network {
    sent: Vec<Sent>,
    pairs: Places<Pair>,
    fronts: [Front; FRONTS],
}

impl Model for Network {
    ghost use Rattle.std.specs.Prelude.{List};
    ghost use Rattle.us_network.specs.Packets.{IsIndexed};
    ghost use Rattle.us_network.specs.declared.sent.Sent.{Sent as Kept};

    ghost Value = { List Kept };

    ghost view = { λ a. a.sent.items };

    ghost invariant = { λ a. IsIndexed a.sent.items a.pairs a.fronts };
}

impl Network {
    /// No packet was sent.
    pub fn new(alloc: Global) -> Network
        ensures { result ≡ [] }
    {
        let pair = Pair { from: 0, to: 0 };
        Network {
            sent: Vec::new(alloc),
            pairs: Places::new(alloc),
            fronts: [Front { pair, passed: 0 }; FRONTS],
        }
    }

    /// How many packets were sent.
    pub fn len(&self) -> usize
        ensures { result ≡ length self.now }
    {
        self.sent.as_slice().len()
    }

    /// The packets, in the order of sending.
    pub fn as_slice(&self) -> &[Sent]
        ensures { result.now ≡ self.now }
    {
        self.sent.as_slice()
    }

    /// A packet is sent.
    pub fn push(&mut self, packet: Packet) -> Result<(), Memory>
        ensures { OnOk result (self.new ≡ self.old ++ fresh packet ∷ []) }
    {
        let pair = pair_of(&packet);
        self.sent.push(Sent {
            packet,
            delivered: false,
        })?;
        match self.pairs.push(pair) {
            Ok(()) => Ok(()),
            Err(Memory) => {
                self.sent.pop();
                Err(Memory)
            }
        }
    }

    /// The packet at this place, which is delivered from now on. It may come again.
    pub fn deliver(&mut self, place: usize) -> Result<Packet, Memory>
        requires { place < length self.old }
        ensures { IfOk result (λ packet. IsDelivered place self.old self.new packet) }
    {
        let packet = self.sent[place].packet.copy()?;
        self.sent[place].delivered = true;
        Ok(packet)
    }

    /// The place of the least undelivered packet from one site to another.
    pub fn next_due(&mut self, from: u8, to: u8) -> Option<usize>
        ensures same { self.new ≡ self.old }
        ensures due { IsLeastDue from to self.old result }
        ensures within { IfSome result (λ place. place < length self.old) }
    {
        let pair = Pair { from, to };
        let places = self.pairs.of(&pair);
        let known = passed_of(self.fronts.as_slice(), &pair);
        let passed = pass(self.sent.as_slice(), places, known);
        let due = place_at(places, passed);
        self.fronts[front_of(&pair)] = Front { pair, passed };
        due
    }
}

/// The place that stands there, if there is one.
fn place_at(places: &[usize], at: usize) -> Option<usize>
    ensures { result ≡ slice_get places.now at }
{
    if at < places.len() {
        Some(places[at])
    } else {
        None
    }
}
