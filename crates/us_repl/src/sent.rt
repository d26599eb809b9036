//! Up to where each other site was sent each origin's transactions.
ghost use Rattle.std.specs.Prelude.{◌≡◌, ◌≤◌, ◌<◌, length, replicate, slice_get, slice_set, IfOk};
ghost use Rattle.us_base.specs.Shape.{IsShape, sites_of};
ghost use Rattle.us_base.specs.Vector.{zero, entry};
ghost use Rattle.us_repl.specs.Sent.{nothing_sent, sent_to, with_sent, with_heard};

use std::alloc::Global;
use std::marker::Model;
use us_base::{Shape, Vector};
use us_kind::Memory;

/// For each site up to which entry of each origin it was sent transactions, and what it said that it knows.
#[derive(Drop)]
pub struct Sent {
    shape: Shape,
    sent: Vec<Vector>,
    heard: Vec<Vector>,
}

impl Model for Sent {
    ghost use Rattle.us_repl.specs.Sent.{SentState, IsWhole};

    ghost Value = { SentState };

    ghost view = { λ a. record { shape = a.shape; sent = a.sent.items; heard = a.heard.items } };

    ghost invariant = { λ a. IsWhole (record { shape = a.shape; sent = a.sent.items; heard = a.heard.items }) };
}

impl Sent {
    /// Nothing was sent, and nothing heard.
    pub fn new(alloc: Global, shape: Shape) -> Result<Sent, Memory>
        requires { IsShape shape }
        ensures { IfOk result (λ sent. sent ≡ nothing_sent shape) }
    {
        Ok(Sent {
            shape,
            sent: zeros(alloc, shape.sites())?,
            heard: zeros(alloc, shape.sites())?,
        })
    }

    /// Up to which entry of an origin a site was sent transactions.
    pub fn lo(&self, site: u8, origin: u8) -> u64
        requires first { 1 ≤ site }
        requires last { site ≤ sites_of self.now.shape }
        requires origin { origin < 10 }
        ensures { result ≡ entry (sent_to self.now site) origin }
    {
        self.sent[usize::from(site) - 1].get(origin)
    }

    /// A site was sent an origin's transactions up to the entry `hi`.
    pub fn sent(&mut self, site: u8, origin: u8, hi: u64)
        requires first { 1 ≤ site }
        requires last { site ≤ sites_of self.old.shape }
        requires origin { origin < 10 }
        ensures { self.new ≡ with_sent self.old site origin hi }
    {
        let place = usize::from(site) - 1;
        self.sent[place] = self.sent[place].with_entry(origin, hi);
    }

    /// A site says what it knows: that joins what it said before, and is sent again from there on.
    pub fn heard(&mut self, site: u8, known: &Vector)
        requires first { 1 ≤ site }
        requires last { site ≤ sites_of self.old.shape }
        ensures { self.new ≡ with_heard self.old site known.now }
    {
        let place = usize::from(site) - 1;
        let heard = self.heard[place].join(known);
        self.heard[place] = heard;
        self.sent[place] = heard;
    }
}

/// So many vectors whose entries are all 0.
fn zeros(alloc: Global, count: u8) -> Result<Vec<Vector>, Memory>
    ensures { IfOk result (λ table. table.items ≡ replicate count zero) }
{
    Ok(vec![in alloc; Vector::zero(); usize::from(count)]?)
}
