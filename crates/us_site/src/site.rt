//! One site.
ghost use Rattle.std.specs.Prelude.{◌≡◌, ◌<◌, ◌≤◌, ◌+◌, ◌++◌, ◌&&◌, false, is_err, length, map, nat_le, IfOk, OnOk};
ghost use Rattle.us_base.specs.Shape.{IsShape};
ghost use Rattle.us_model.specs.Sites.{actor_of, new_shards, no_outputs, open_at, site_step};
ghost use Rattle.us_model.specs.Worlds.{waits_at};
ghost use Rattle.us_site.specs.Events.{is_open};
ghost use Rattle.us_site.specs.Shards.{shard_of, AreAt};

use crate::shard::Shard;
use std::alloc::Global;
use std::marker::Model;
use us_base::{Limits, Shape};
use us_exec::WaitingRequest;
use us_kind::{Items, Memory, checked_sum};
use us_model::{Event, Outputs, Settings};
use us_peer_wire::Actor;

/// How many sessions of a site may be open.
const SESSIONS: usize = Limits::OPEN_SESSIONS;

/// A site: one state machine, whose only way on is `step`.
#[derive(Drop)]
pub struct Site {
    number: u8,
    settings: Settings,
    shards: Vec<Shard>,
    taken: u64,
    stopped: bool,
}

impl Model for Site {
    ghost use Rattle.std.specs.Prelude.{◌≡◌, ◌<◌, false, length, map};
    ghost use Rattle.us_base.specs.Shape.{IsShape};
    ghost use Rattle.us_site.specs.Shards.{shard_of, AreAt};
    ghost use Rattle.us_site.specs.Served.{Served};

    ghost Value = { Served };

    ghost view = { λ a. record { site = record { number = a.number; settings = a.settings; shards = map shard_of a.shards.items }; taken = a.taken; stopped = a.stopped } };

    ghost invariant = { λ a. record {
      number : a.number < 10;
      shape : IsShape a.settings.shape;
      shards : length a.shards.items ≡ a.settings.shape.parts;
      places : a.stopped ≡ false → AreAt a.settings.shape a.number 1 a.shards.items;
    } };
}

/// A shard for each partition of this site.
fn new_shards(alloc: Global, shape: Shape, site: u8) -> Result<Vec<Shard>, Memory>
    requires site { site < 10 }
    requires shape { IsShape shape }
    ensures shards { IfOk result (λ shards. map shard_of shards.items ≡ new_shards shape.parts) }
    ensures count { IfOk result (λ shards. length shards.items ≡ shape.parts) }
    ensures places { IfOk result (λ shards. AreAt shape site 1 shards.items) }
{
    let mut shards = Vec::new(alloc);
    for before in 0..shape.parts {
        shards.push(Shard::new(alloc, shape, site, before + 1))?;
    }
    Ok(shards)
}

impl Site {
    ghost use Rattle.us_model.specs.Sites.{new_site};

    /// The site of this number, from 1, in a store with these settings, of which nothing has come.
    pub fn new(alloc: Global, settings: &Settings, number: u8) -> Result<Site, Memory>
        requires number { number < 10 }
        requires shape { IsShape settings.now.shape }
        ensures { IfOk result (λ site. site ≡ record { site = new_site settings.now number; taken = 0; stopped = false }) }
    {
        let shards = new_shards(alloc, settings.shape, number)?;
        Ok(Site {
            number,
            settings: settings.copy()?,
            shards,
            taken: 0,
            stopped: false,
        })
    }

    /// How many events the site has taken.
    pub fn taken(&self) -> u64
        ensures { result ≡ self.now.taken }
    {
        self.taken
    }

    /// Whether memory ran out in a step. The site is then as after a crash.
    pub fn stopped(&self) -> bool
        ensures { result ≡ self.now.stopped }
    {
        self.stopped
    }

    /// The open sessions with unanswered requests, in order, each with the first one's place, are put behind those that are there.
    pub fn put_waits(&self, waits: &mut Vec<WaitingRequest>) -> Result<(), Memory>
        ensures { OnOk result (waits.new.items ≡ waits.old.items ++ waits_at self.now.site.number 1 self.now.site.shards) }
    {
        put_waits_at(self.number, self.shards.as_slice(), waits)
    }

    /// Takes an event: the state after it, and what is given out, are the machine's.
    pub fn step(&mut self, alloc: Global, event: Event) -> Result<Outputs, Memory>
        requires { self.old.stopped ≡ false }
        ensures site { OnOk result (self.new.site ≡ (site_step self.old.site event).site) }
        ensures out { IfOk result (λ out. out ≡ (site_step self.old.site event).out) }
        ensures taken { OnOk result (self.new.taken ≡ self.old.taken + 1) }
        ensures stopped { self.new.stopped ≡ is_err result }
    {
        self.stopped = true;
        let taken = checked_sum(self.taken, 1)?;
        let out = step_shards(
            alloc,
            self.number,
            &self.settings,
            self.shards.as_mut_slice(),
            event,
        )?;
        self.taken = taken;
        self.stopped = false;
        Ok(out)
    }
}

/// The actor of an event.
fn actor_in(event: &Event) -> u8
    ensures { result ≡ actor_of event.now }
{
    match event {
        Event::Open { coord } => *coord,
        Event::Bytes { coord, .. } => *coord,
        Event::Close { coord, .. } => *coord,
        Event::Take { packet } => packet.to.actor,
    }
}

/// The sessions that wait at a site's actors, in order, are put behind those that are there.
fn put_waits_at(site: u8, shards: &[Shard], waits: &mut Vec<WaitingRequest>) -> Result<(), Memory>
    requires { length shards.now ≤ 16 }
    ensures { OnOk result (waits.new.items ≡ waits.old.items ++ waits_at site 1 (map shard_of shards.now)) }
{
    for place in 0..shards.len() {
        let me = Actor {
            site,
            actor: place as u8 + 1,
        };
        shards[place].put_waits(&me, waits)?;
    }
    Ok(())
}

/// Whether as many sessions are open at these actors as may be at a site.
fn is_full(shards: &[Shard]) -> bool
    ensures { result ≡ nat_le 4096 (open_at (map shard_of shards.now)) }
{
    let mut open: usize = 0;
    for shard in shards {
        open = open.saturating_add(shard.open_sessions());
        if open >= SESSIONS {
            return true;
        }
    }
    false
}

/// Whether a client opens a session by the event.
fn is_open(event: &Event) -> bool
    ensures { result ≡ is_open event.now }
{
    match event {
        Event::Open { .. } => true,
        _ => false,
    }
}

/// Whether a client opens a session by the event at actors that have as many open ones as a site may have.
fn is_one_too_many(shards: &[Shard], event: &Event) -> bool
    ensures { result ≡ (is_open event.now && nat_le 4096 (open_at (map shard_of shards.now))) }
{
    is_open(event) && is_full(shards)
}

/// What a step gives out that changes nothing.
fn nothing(alloc: Global) -> Outputs
    ensures { result ≡ no_outputs }
{
    Outputs {
        packets: Items::new(alloc),
        client: Items::new(alloc),
        notes: Items::new(alloc),
    }
}

/// The step of the site with this number and these shards. An event at another actor changes nothing.
fn step_shards(
    alloc: Global,
    number: u8,
    settings: &Settings,
    shards: &mut [Shard],
    event: Event,
) -> Result<Outputs, Memory>
    requires number { number < 10 }
    requires shape { IsShape settings.now.shape }
    requires few { length shards.old ≤ 16 }
    requires places { AreAt settings.now.shape number 1 shards.old }
    ensures shards { OnOk result ((site_step (record { number = number; settings = settings.now; shards = map shard_of shards.old }) event).site ≡ record { number = number; settings = settings.now; shards = map shard_of shards.new }) }
    ensures places { OnOk result (AreAt settings.now.shape number 1 shards.new) }
    ensures out { IfOk result (λ out. out ≡ (site_step (record { number = number; settings = settings.now; shards = map shard_of shards.old }) event).out) }
{
    let actor = actor_in(&event);
    if actor == 0 || usize::from(actor) > shards.len() {
        return Ok(nothing(alloc));
    }
    let me = Actor {
        site: number,
        actor,
    };
    let full = is_one_too_many(shards, &event);
    shards[usize::from(actor) - 1].step(alloc, &me, settings, full, event)
}
