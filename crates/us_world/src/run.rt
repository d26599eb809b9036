//! What is kept of a world: its sites, the packets between them, and what was told.
ghost use Rattle.std.specs.Prelude.{◌≡◌, ◌+◌, ◌++◌, ◌<◌, ◌≤◌, length, map, IfOk, IfErr, IfSome, OnOk};
ghost use Rattle.us_base.specs.Shape.{IsShape};
ghost use Rattle.us_model.specs.Worlds.{new_sites, start, waits_of, Flushes};
ghost use Rattle.us_model.specs.Executions.{noted, noted_all};
ghost use Rattle.us_network.specs.Packets.{IsLeastDue};
ghost use Rattle.us_world.specs.WorldState.{Represents, unmarked, site_of, HasStepped, after_at, passed_by, HasCome, LimitSays};
ghost use Rattle.us_world.specs.Limits.{Delivers, is_opening, is_beginning, opened_in, begun_in};
ghost use Rattle.us_world.specs.Lines.{IsBuilt, AdvancesBy, StoppedBy, IsDelivery, IsPerformed, IsStopped};

use crate::WorldFault;
use std::alloc::Global;
use std::marker::Model;
use us_base::Limits;
use us_exec::WaitingRequest;
use us_extract::History;
use us_kind::{Items, Memory, checked_sum};
use us_model::Settings;
use us_network::Network;
use us_peer_wire::Packet;
use us_schedule::Line;
use us_site::{Event, Note, Outputs, Site};

/// The most events of a run.
const MOST_EVENTS: u64 = Limits::RUN_EVENTS;

/// The most sessions that are opened in a run.
const MOST_SESSIONS: u64 = Limits::RUN_SESSIONS;

/// The most transactions that are begun in a run.
const MOST_TRANSACTIONS: u64 = Limits::RUN_TRANSACTIONS;

/// What is kept of a world. After a fault it is only dropped.
#[derive(Drop)]
pub struct Run {
    sites: Vec<Site>,
    network: Network,
    history: History,
    events: u64,
    sessions: u64,
    transactions: u64,
}

impl Model for Run {
    ghost use Rattle.std.specs.Prelude.{map};
    ghost use Rattle.us_world.specs.WorldState.{WorldState, site_of};

    ghost Value = { WorldState };

    ghost view = { λ a. record { sites = map site_of a.sites.items; sent = a.network; history = a.history; events = a.events; sessions = a.sessions; transactions = a.transactions } };
}

fn is_opening(note: &Note) -> bool
    ensures { result ≡ is_opening note.now }
{
    match note {
        Note::Opened { .. } => true,
        _ => false,
    }
}

fn is_beginning(note: &Note) -> bool
    ensures { result ≡ is_beginning note.now }
{
    match note {
        Note::Begun { .. } => true,
        _ => false,
    }
}

/// How many sessions the notes open.
fn opened_in(notes: &[Note]) -> u64
    ensures { result ≡ opened_in notes.now }
{
    let mut count = 0;
    for note in notes {
        if is_opening(note) {
            count += 1;
        }
    }
    count
}

/// How many transactions the notes begin.
fn begun_in(notes: &[Note]) -> u64
    ensures { result ≡ begun_in notes.now }
{
    let mut count = 0;
    for note in notes {
        if is_beginning(note) {
            count += 1;
        }
    }
    count
}

/// The packets are on their way.
fn send_all(network: &mut Network, packets: Items<Packet>) -> Result<(), Memory>
    ensures { OnOk result (network.new ≡ network.old ++ unmarked packets) }
{
    for packet in packets.into_vec() {
        network.push(packet)?;
    }
    Ok(())
}

/// A note is told.
fn tell(history: &mut History, note: Note) -> Result<(), Memory>
    ensures { OnOk result (history.new ≡ noted history.old note) }
{
    match note {
        Note::Opened {
            coord: _,
            session: _,
        } => Ok(()),
        Note::Begun {
            tid,
            session,
            snapshot,
        } => history.begin(tid, session, snapshot),
        Note::Performed { tid, done } => history.perform(tid, done),
        Note::Decided { tid, vector } => history.decide(&tid, false, vector),
        Note::Left { tid } => history.leave(tid),
        Note::Refused {
            session,
            at,
            number,
        } => history.refuse(session, at, number),
    }
}

/// The notes are told.
fn tell_all(history: &mut History, notes: Items<Note>) -> Result<(), Memory>
    ensures { OnOk result (history.new ≡ noted_all history.old notes) }
{
    for note in notes.into_vec() {
        tell(history, note)?;
    }
    Ok(())
}

/// The sessions that wait, in order.
fn waits_of(alloc: Global, sites: &[Site]) -> Result<Items<WaitingRequest>, Memory>
    ensures { IfOk result (λ waits. waits ≡ waits_of (map site_of sites.now)) }
{
    let mut waits = Vec::new(alloc);
    for site in sites {
        site.put_waits(&mut waits)?;
    }
    Ok(Items::of(waits))
}

/// The sites of a store with these settings, of which nothing has come.
fn new_sites(alloc: Global, settings: &Settings) -> Result<Vec<Site>, Memory>
    requires { IsShape settings.now.shape }
    ensures { IfOk result (λ sites. map site_of sites.items ≡ new_sites settings.now) }
{
    let mut sites = Vec::new(alloc);
    for before in 0..settings.shape.sites() {
        sites.push(Site::new(alloc, settings, before + 1)?)?;
    }
    Ok(sites)
}

/// The site at this place takes an event, unless memory ran out there before.
fn step_site(
    alloc: Global,
    sites: &mut [Site],
    place: usize,
    event: Event,
) -> Result<Outputs, Memory>
    requires { place < length sites.old }
    ensures { IfOk result (λ out. HasStepped place event sites.old sites.new out) }
{
    if sites[place].stopped() {
        return Err(Memory);
    }
    sites[place].step(alloc, event)
}

impl Run {
    /// The opening world of a store with these settings, in which nothing has happened.
    pub fn new(alloc: Global, settings: &Settings) -> Result<Run, Memory>
        requires { IsShape settings.now.shape }
        ensures start { IfOk result (λ run. Represents run (start settings.now)) }
        ensures events { IfOk result (λ run. run.events ≡ 0) }
    {
        Ok(Run {
            sites: new_sites(alloc, settings)?,
            network: Network::new(alloc),
            history: History::new(alloc),
            events: 0,
            sessions: 0,
            transactions: 0,
        })
    }

    /// An event at the site of this number, with its outputs. After a failed allocation the world is only dropped.
    fn step(&mut self, alloc: Global, site: u8, event: Event) -> Result<(), Memory>
        requires first { 1 ≤ site }
        requires last { site ≤ length self.old.sites }
        requires room { self.old.events < 1000000 }
        ensures { OnOk result (self.new ≡ after_at self.old site event) }
    {
        let place = usize::from(site) - 1;
        let out = step_site(alloc, self.sites.as_mut_slice(), place, event)?;
        self.events += 1;
        self.sessions = checked_sum(self.sessions, opened_in(out.notes.as_slice()))?;
        self.transactions = checked_sum(self.transactions, begun_in(out.notes.as_slice()))?;
        send_all(&mut self.network, out.packets)?;
        tell_all(&mut self.history, out.notes)
    }

    /// An event at a site, also where there is none of that number, which changes nothing but counts.
    fn step_at(&mut self, alloc: Global, site: u8, event: Event) -> Result<(), Memory>
        requires { self.old.events < 1000000 }
        ensures happened { OnOk result (self.new ≡ after_at self.old site event) }
    {
        if 1 <= site && usize::from(site) <= self.sites.len() {
            return self.step(alloc, site, event);
        }
        self.events += 1;
        Ok(())
    }

    /// Whether the counts are within their limits.
    fn within_limits(&self) -> Result<(), WorldFault>
        ensures { LimitSays result (passed_by self.now) }
    {
        if self.events > MOST_EVENTS {
            return Err(WorldFault::Events);
        }
        if self.sessions > MOST_SESSIONS {
            return Err(WorldFault::Sessions);
        }
        if self.transactions > MOST_TRANSACTIONS {
            return Err(WorldFault::Transactions);
        }
        Ok(())
    }

    /// An event at a site, within the limits. After a fault the world is only dropped.
    fn happen(&mut self, alloc: Global, site: u8, event: Event) -> Result<(), WorldFault>
        ensures happened { OnOk result (self.new ≡ after_at self.old site event) }
        ensures limit { LimitSays result (passed_by (after_at self.old site event)) }
    {
        if self.events >= MOST_EVENTS {
            return Err(WorldFault::Events);
        }
        self.step_at(alloc, site, event)?;
        self.within_limits()
    }

    /// The packet at this place comes, also one that came before.
    fn deliver_at(&mut self, alloc: Global, place: usize) -> Result<(), WorldFault>
        requires { place < length self.old.sent }
        ensures { HasCome result place self.old self.new }
    {
        let packet = self.network.deliver(place)?;
        self.happen(alloc, packet.to.site, Event::Take { packet })
    }

    /// The packet of this number, from 1, comes, where so many were sent.
    fn deliver(&mut self, alloc: Global, number: u64) -> Result<(), WorldFault>
        ensures delivered { OnOk result (AdvancesBy (IsDelivery number) self.old self.new) }
        ensures stopped { IfErr result (λ fault. StoppedBy (IsDelivery number) self.old fault) }
    {
        if number == 0 || number > self.network.len() as u64 {
            return Ok(());
        }
        self.deliver_at(alloc, (number - 1) as usize)
    }

    /// The place of the least undelivered packet from one site to another.
    fn next_due(&mut self, from: u8, to: u8) -> Option<usize>
        ensures same { self.new ≡ self.old }
        ensures due { IsLeastDue from to self.old.sent result }
        ensures within { IfSome result (λ place. place < length self.old.sent) }
    {
        self.network.next_due(from, to)
    }

    /// The packets from one site to another come, in order, and those that are sent meanwhile.
    fn flush(&mut self, alloc: Global, from: u8, to: u8) -> Result<(), WorldFault>
        ensures flushed { OnOk result (AdvancesBy (Flushes from to) self.old self.new) }
        ensures stopped { IfErr result (λ fault. StoppedBy (Delivers from to) self.old fault) }
    {
        while let Some(place) = self.next_due(from, to) {
            self.deliver_at(alloc, place)?;
        }
        Ok(())
    }

    /// What the line stands for happens. A fault that is a limit comes at the first event that takes a count past its
    /// number: events first, then sessions, then transactions.
    pub fn perform(&mut self, alloc: Global, line: &Line) -> Result<(), WorldFault>
        requires { IsBuilt line.now }
        ensures performed { OnOk result (IsPerformed line.now self.old self.new) }
        ensures stopped { IfErr result (λ fault. IsStopped line.now self.old fault) }
    {
        match line {
            Line::Open { site, coord } => self.happen(alloc, *site, Event::Open { coord: *coord }),
            Line::Bytes {
                site,
                coord,
                session,
                bytes,
            } => {
                let bytes = bytes.copy()?;
                self.happen(
                    alloc,
                    *site,
                    Event::Bytes {
                        coord: *coord,
                        session: *session,
                        bytes,
                    },
                )
            }
            Line::Close {
                site,
                coord,
                session,
            } => self.happen(
                alloc,
                *site,
                Event::Close {
                    coord: *coord,
                    session: *session,
                },
            ),
            Line::Deliver { number } => self.deliver(alloc, *number),
            Line::Flush { from, to } => self.flush(alloc, *from, *to),
            _ => unreachable!(),
        }
    }

    /// What the run so far told.
    pub fn history(&self) -> &History
        ensures { result.now ≡ self.now.history }
    {
        &self.history
    }

    /// The sessions that wait, in order.
    pub fn waiting(&self, alloc: Global) -> Result<Items<WaitingRequest>, Memory>
        ensures { IfOk result (λ waits. waits ≡ waits_of self.now.sites) }
    {
        waits_of(alloc, self.sites.as_slice())
    }
}
