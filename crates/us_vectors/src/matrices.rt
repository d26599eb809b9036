//! The vectors that a partition was told.
ghost use Rattle.std.specs.Prelude.{◌≡◌, ◌≤◌, ◌<◌, IfOk};
ghost use Rattle.us_base.specs.Shape.{IsShape, sites_of};
ghost use Rattle.us_base.specs.Vector.{entry};
ghost use Rattle.us_vectors.specs.Matrices.{no_matrices, with_local, with_stable, with_global, stable, floor, all_know, uniform_entry, uniform_over, uniform, base};

use crate::tables::{join_into, meet_others, zeros};
use crate::uniform::uniform_number;
use std::alloc::Global;
use std::marker::Model;
use us_base::{Shape, Vector};
use us_kind::Memory;

/// How many entries a vector has: strong, and up to nine sites.
const ENTRIES: u8 = 10;

/// What a partition was told by the other partitions of its site, and by the same partition of the other sites.
#[derive(Drop)]
pub struct Matrices {
    shape: Shape,
    site: u8,
    part: u8,
    local: Vec<Vector>,
    horizons: Vec<Vector>,
    rows: Vec<Vector>,
    global: Vec<Vector>,
}

impl Model for Matrices {
    ghost use Rattle.us_vectors.specs.Matrices.{Matrices, IsWhole};

    ghost Value = { Matrices };

    ghost view = { λ a. record { shape = a.shape; site = a.site; part = a.part; local = a.local.items; horizons = a.horizons.items; rows = a.rows.items; global = a.global.items } };

    ghost invariant = { λ a. IsWhole (record { shape = a.shape; site = a.site; part = a.part; local = a.local.items; horizons = a.horizons.items; rows = a.rows.items; global = a.global.items }) };
}

impl Matrices {
    /// Of nobody anything is known.
    pub fn new(alloc: Global, shape: Shape, site: u8, part: u8) -> Result<Matrices, Memory>
        requires shape { IsShape shape }
        requires first_site { 1 ≤ site }
        requires last_site { site ≤ sites_of shape }
        requires first_part { 1 ≤ part }
        requires last_part { part ≤ shape.parts }
        ensures { IfOk result (λ matrices. matrices ≡ no_matrices shape site part) }
    {
        Ok(Matrices {
            shape,
            site,
            part,
            local: zeros(alloc, shape.parts)?,
            horizons: zeros(alloc, shape.parts)?,
            rows: zeros(alloc, shape.sites())?,
            global: zeros(alloc, shape.sites())?,
        })
    }

    /// A partition of the own site tells what it knows, and below what none of its transactions under way falls.
    pub fn take_local(&mut self, part: u8, known: &Vector, horizon: &Vector)
        requires first { 1 ≤ part }
        requires last { part ≤ self.old.shape.parts }
        ensures { self.new ≡ with_local self.old part known.now horizon.now }
    {
        join_into(self.local.as_mut_slice(), part, known);
        join_into(self.horizons.as_mut_slice(), part, horizon);
    }

    /// A site tells what is stable there.
    pub fn take_stable(&mut self, site: u8, v: &Vector)
        requires first { 1 ≤ site }
        requires last { site ≤ sites_of self.old.shape }
        ensures { self.new ≡ with_stable self.old site v.now }
    {
        join_into(self.rows.as_mut_slice(), site, v);
    }

    /// A site tells what it knows.
    pub fn take_global(&mut self, site: u8, v: &Vector)
        requires first { 1 ≤ site }
        requires last { site ≤ sites_of self.old.shape }
        ensures { self.new ≡ with_global self.old site v.now }
    {
        join_into(self.global.as_mut_slice(), site, v);
    }

    /// What all partitions of the site know, where the own one knows `known`.
    pub fn stable(&self, known: &Vector) -> Vector
        ensures { result ≡ stable self.now known.now }
    {
        meet_others(known, self.local.as_slice(), self.part)
    }

    /// Below what no transaction under way at the site falls, where the own horizon is `horizon`.
    pub fn floor(&self, horizon: &Vector) -> Vector
        ensures { result ≡ floor self.now horizon.now }
    {
        meet_others(horizon, self.horizons.as_slice(), self.part)
    }

    /// What all sites know, where the own one knows `known`.
    pub fn all_know(&self, known: &Vector) -> Vector
        ensures { result ≡ all_know self.now known.now }
    {
        meet_others(known, self.global.as_slice(), self.site)
    }

    /// What is stable at f + 1 sites, the own one among them, where the own partition knows `known`.
    pub fn uniform(&self, known: &Vector) -> Vector
        ensures { result ≡ uniform self.now known.now }
    {
        self.uniform_over(&self.stable(known))
    }

    /// What snapshots begin with: what is uniform, and of the own site and of strong transactions what is stable.
    pub fn base(&self, known: &Vector) -> Vector
        ensures { result ≡ base self.now known.now }
    {
        let stable = self.stable(known);
        self.uniform_over(&stable)
            .with_entry(self.site, stable.get(self.site))
            .with_entry(0, stable.get(0))
    }

    /// What is stable at f + 1 sites, where `stable` is at the own one.
    fn uniform_over(&self, stable: &Vector) -> Vector
        ensures { result ≡ uniform_over self.now stable.now }
    {
        let mut uniform = Vector::zero();
        for i in 0..ENTRIES {
            uniform = uniform.with_entry(i, self.uniform_entry(stable, i));
        }
        uniform
    }

    /// Entry `i` of what is stable at f + 1 sites, where `stable` is at the own one.
    fn uniform_entry(&self, stable: &Vector, i: u8) -> u64
        requires { i < 10 }
        ensures { result ≡ uniform_entry self.now stable.now i }
    {
        uniform_number(
            self.shape.f,
            stable.get(i),
            self.rows.as_slice(),
            self.site,
            i,
        )
    }
}
