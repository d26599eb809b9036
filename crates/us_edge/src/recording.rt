ghost use Rattle.std.specs.Prelude.{◌≡◌, ◌+◌, ◌∷◌, ◌++◌, [], IfOk, OnOk, OnErr, length};
ghost use Rattle.us_edge.specs.Links.{offered_to};
ghost use Rattle.us_edge.specs.MemoryLinks.{with_outcome, with_send};

use crate::{Offer, Outcome};
use std::alloc::Global;
use std::collections::BTreeMap;
use std::marker::Model;
use us_kind::{Bytes, Memory};

/// What links were offered and how their calls ended, both in order.
#[derive(Drop)]
pub struct Recording {
    offers: Vec<Offer>,
    outcomes: Vec<Outcome>,
    // How many bytes were offered to each connection.
    totals: BTreeMap<u64, u64>,
}

impl Model for Recording {
    ghost use Rattle.std.specs.Prelude.{◌≡◌, ℕ, unwrap_or, length};
    ghost use Rattle.std.specs.Ordering.{nat_cmp};
    ghost use Rattle.std.specs.BTreeMap.{get};
    ghost use Rattle.us_edge.specs.Links.{offered_to};
    ghost use Rattle.us_edge.specs.MemoryLinks.{Recording};

    ghost Value = { Recording };

    ghost view = { λ a. record { offers = a.offers.items; outcomes = a.outcomes.items } };

    ghost invariant = { λ a. (conn : ℕ) → unwrap_or (get nat_cmp a.totals conn) 0 ≡ length (offered_to conn a.offers.items) };
}

impl Recording {
    /// Nothing yet.
    pub fn new(alloc: Global) -> Recording
        ensures { result ≡ record { offers = []; outcomes = [] } }
    {
        Recording {
            offers: Vec::new(alloc),
            outcomes: Vec::new(alloc),
            totals: BTreeMap::new(alloc),
        }
    }

    pub fn offers(&self) -> &[Offer]
        ensures { result.now ≡ self.now.offers }
    {
        self.offers.as_slice()
    }

    pub fn outcomes(&self) -> &[Outcome]
        ensures { result.now ≡ self.now.outcomes }
    {
        self.outcomes.as_slice()
    }

    /// How many bytes were offered to the connection.
    pub fn offered_to(&self, conn: u64) -> u64
        ensures { result ≡ length (offered_to conn self.now.offers) }
    {
        self.totals.get(&conn).copied().unwrap_or(0)
    }

    /// How many bytes are offered to the connection with so many more.
    fn total_with(&self, conn: u64, more: usize) -> Result<u64, Memory>
        ensures { IfOk result (λ total. total ≡ length (offered_to conn self.now.offers) + more) }
    {
        self.offered_to(conn).checked_add(more as u64).ok_or(Memory)
    }

    /// Keeps how a call ended.
    pub fn keep(&mut self, outcome: Outcome) -> Result<(), Memory>
        ensures ok { OnOk result (self.new ≡ record { offers = self.old.offers; outcomes = self.old.outcomes ++ outcome ∷ [] }) }
        ensures err { OnErr result (self.new ≡ self.old) }
    {
        self.outcomes.push(outcome)?;
        Ok(())
    }

    /// Keeps what was offered to a client's connection, and whether the send failed.
    ///
    /// It is out of memory too where the connection's bytes would pass 2^64 - 1.
    pub fn with_client(self, conn: u64, piece: &[u8], failed: bool) -> Result<Recording, Memory>
        ensures { IfOk result (λ kept. kept ≡ record { offers = self.offers ++ Offer.Client conn piece.now ∷ []; outcomes = self.outcomes ++ Outcome.ClientSent conn failed ∷ [] }) }
    {
        let total = self.total_with(conn, piece.len())?;
        let Recording {
            mut offers,
            mut outcomes,
            mut totals,
        } = self;
        let bytes = Bytes::from_slice(*offers.allocator(), piece)?;
        totals.insert(conn, total)?;
        offers.push(Offer::Client { conn, bytes })?;
        outcomes.push(Outcome::ClientSent { conn, failed })?;
        Ok(Recording {
            offers,
            outcomes,
            totals,
        })
    }

    /// Keeps what was offered to another site, and whether the send failed.
    pub fn with_peer(mut self, site: u8, piece: &[u8], failed: bool) -> Result<Recording, Memory>
        ensures { IfOk result (λ kept. kept ≡ record { offers = self.offers ++ Offer.Peer site piece.now ∷ []; outcomes = self.outcomes ++ Outcome.PeerSent site failed ∷ [] }) }
    {
        let bytes = Bytes::from_slice(*self.offers.allocator(), piece)?;
        self.offers.push(Offer::Peer { site, bytes })?;
        self.outcomes.push(Outcome::PeerSent { site, failed })?;
        Ok(self)
    }
}
