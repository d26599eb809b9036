//! A partition and the coordinator of the same number take events.
ghost use Rattle.std.specs.Prelude.{◌≡◌, ◌<◌, ◌++◌, ◌∷◌, [], ◌==◌, true, IfOk, OnOk, Some, None};
ghost use Rattle.us_model.specs.Coordinators.{open_in, waits_in};
ghost use Rattle.us_model.specs.Sites.{new_shard, view_of, take_message, op_is_of, effect_is_of, own_are_of, writes_fit, message_fits};
ghost use Rattle.us_model.specs.Sites.{is_partition, is_for, take_event, wake, no_outputs};
ghost use Rattle.us_base.specs.Shape.{IsShape};
ghost use Rattle.us_part.specs.Placed.{IsPlace};
ghost use Rattle.us_site.specs.Shards.{shard_of, with_shard, IsAt};

use std::alloc::Global;
use std::marker::Model;
use us_base::{Shape, Vector};
use us_coord::{Coordinator, refuse_open};
use us_exec::WaitingRequest;
use us_kind::{Items, Memory, Tid};
use us_model::{Event, Get, Outputs, Settings, View, Vote};
use us_part::Part;
use us_peer_wire::{Actor, Message, Packet};
use us_value::{Catalog, Effect, Kind, Op, Write, effect_fits, op_fits};

/// A partition and the coordinator of the same number.
#[derive(Drop)]
pub struct Shard {
    part: Part,
    coordinator: Coordinator,
}

impl Model for Shard {
    ghost use Rattle.us_site.specs.Shards.{Kept};

    ghost Value = { Kept };

    ghost view = { λ a. record { part = a.part; coordinator = a.coordinator } };
}

impl Shard {
    /// The actor of this number at this site, where nothing has happened.
    pub fn new(alloc: Global, shape: Shape, site: u8, actor: u8) -> Shard
        requires { IsPlace shape (record { site = site; actor = actor }) }
        ensures shard { shard_of result ≡ new_shard }
        ensures place { IsAt shape (record { site = site; actor = actor }) result }
    {
        Shard {
            part: Part::new(alloc, shape, site, actor),
            coordinator: Coordinator::new(alloc),
        }
    }

    /// The sessions that wait, in order, are put behind those that are there.
    pub fn put_waits(&self, me: &Actor, waits: &mut Vec<WaitingRequest>) -> Result<(), Memory>
        ensures { OnOk result (waits.new.items ≡ waits.old.items ++ waits_in me.now.site me.now.actor self.now.coordinator.sessions) }
    {
        self.coordinator.put_waits(me, waits)
    }

    /// What the coordinator sees of its actor.
    fn view(&self, me: &Actor, settings: &Settings) -> View
        requires { IsAt settings.now.shape me.now self.now }
        ensures { result ≡ view_of me.now settings.now.shape (record { shard = shard_of self.now; out = no_outputs }) }
    {
        View {
            me: *me,
            shape: settings.shape,
            base: self.part.known(),
        }
    }

    /// How many of its sessions are open.
    pub fn open_sessions(&self) -> usize
        ensures { result ≡ open_in self.now.coordinator.sessions }
    {
        self.coordinator.open_sessions()
    }

    /// A coordinator asks for a transaction to be prepared.
    fn prepare(
        &mut self,
        me: &Actor,
        settings: &Settings,
        from: &Actor,
        mut out: Outputs,
        tid: Tid,
        snapshot: Vector,
        writes: Items<Write>,
    ) -> Result<Outputs, Memory>
        requires site { me.now.site < 10 }
        requires here { IsAt settings.now.shape me.now self.old }
        ensures shard { OnOk result (self.new ≡ with_shard self.old (take_message me.now settings.now.shape from.now (record { shard = shard_of self.old; out = out })
            (Message.Prepare tid snapshot writes)).shard) }
        ensures out { IfOk result (λ given. given ≡ (take_message me.now settings.now.shape from.now (record { shard = shard_of self.old; out = out })
            (Message.Prepare tid snapshot writes)).out) }
    {
        if let Some(ts) = self.part.prepare(tid, snapshot, writes)? {
            out.packets.push(Packet {
                from: *me,
                to: *from,
                message: Message::Prepared { tid, ts },
            })?;
        }
        Ok(out)
    }

    /// A message comes.
    fn take(
        &mut self,
        alloc: Global,
        me: &Actor,
        settings: &Settings,
        from: &Actor,
        out: Outputs,
        message: Message,
    ) -> Result<Outputs, Memory>
        requires site { me.now.site < 10 }
        requires here { IsAt settings.now.shape me.now self.old }
        requires shape { IsShape settings.now.shape }
        ensures shard { OnOk result (self.new ≡ with_shard self.old (take_message me.now settings.now.shape from.now
            (record { shard = shard_of self.old; out = out }) message).shard) }
        ensures out { IfOk result (λ given. given ≡ (take_message me.now settings.now.shape from.now
            (record { shard = shard_of self.old; out = out }) message).out) }
    {
        match message {
            Message::Get {
                tid,
                place,
                at,
                snapshot,
                item,
                op,
                own,
            } => {
                let question = Get {
                    from: from.actor,
                    tid,
                    place,
                    at,
                    snapshot,
                    item,
                    op,
                    own,
                };
                self.part.get(question)?;
                Ok(out)
            }
            Message::Version { version } => {
                let view = self.view(me, settings);
                self.coordinator.version(alloc, &view, &version, out)
            }
            Message::Prepare {
                tid,
                snapshot,
                writes,
            } => self.prepare(me, settings, from, out, tid, snapshot, writes),
            Message::Prepared { tid, ts } => {
                let one = Vote {
                    part: from.actor,
                    ts,
                };
                let view = self.view(me, settings);
                self.coordinator.prepared(alloc, &view, one, tid, out)
            }
            Message::Commit { tid, vector } => {
                self.part.commit(&tid, vector)?;
                Ok(out)
            }
            _ => Ok(out),
        }
    }

    /// An event comes.
    #[tactic(auto, unfolding(us_model::specs::Sites::take_event))]
    fn take_event(
        &mut self,
        alloc: Global,
        me: &Actor,
        settings: &Settings,
        full: bool,
        out: Outputs,
        event: Event,
    ) -> Result<Outputs, Memory>
        requires site { me.now.site < 10 }
        requires here { IsAt settings.now.shape me.now self.old }
        requires shape { IsShape settings.now.shape }
        ensures shard { OnOk result (self.new ≡ with_shard self.old (take_event me.now settings.now full (record { shard = shard_of self.old; out = out }) event).shard) }
        ensures out { IfOk result (λ given. given ≡ (take_event me.now settings.now full (record { shard = shard_of self.old; out = out }) event).out) }
    {
        match event {
            Event::Open { coord } if full => refuse_open(alloc, settings.shape, coord, out),
            Event::Open { coord } => self.coordinator.open(alloc, coord, out),
            Event::Bytes {
                coord: _,
                session,
                bytes,
            } => {
                let view = self.view(me, settings);
                self.coordinator.bytes(
                    alloc,
                    &settings.catalog,
                    &view,
                    session,
                    bytes.as_slice(),
                    out,
                )
            }
            Event::Close { coord: _, session } => {
                let view = self.view(me, settings);
                self.coordinator.close(alloc, &view, session, out)
            }
            Event::Take { packet } => {
                if !is_taken(me, settings, &packet) {
                    return Ok(out);
                }
                let Packet {
                    from,
                    to: _,
                    message,
                } = packet;
                self.take(alloc, me, settings, &from, out, message)
            }
        }
    }

    /// Waiting questions are answered, and then each session runs.
    #[tactic(auto, unfolding(us_model::specs::Sites::wake))]
    fn wake(
        &mut self,
        alloc: Global,
        me: &Actor,
        settings: &Settings,
        mut out: Outputs,
    ) -> Result<Outputs, Memory>
        requires site { me.now.site < 10 }
        requires here { IsAt settings.now.shape me.now self.old }
        requires shape { IsShape settings.now.shape }
        ensures shard { OnOk result (self.new ≡ with_shard self.old (wake me.now settings.now (record { shard = shard_of self.old; out = out })).shard) }
        ensures out { IfOk result (λ given. given ≡ (wake me.now settings.now (record { shard = shard_of self.old; out = out })).out) }
    {
        self.part.ready(alloc, &settings.catalog, &mut out.packets)?;
        let view = self.view(me, settings);
        self.coordinator.run(alloc, &settings.catalog, &view, out)
    }

    /// An event comes, and then the actor wakes. A site that is full opens no session.
    pub fn step(
        &mut self,
        alloc: Global,
        me: &Actor,
        settings: &Settings,
        full: bool,
        event: Event,
    ) -> Result<Outputs, Memory>
        requires site { me.now.site < 10 }
        requires here { IsAt settings.now.shape me.now self.old }
        requires shape { IsShape settings.now.shape }
        ensures shard { OnOk result (self.new ≡ with_shard self.old (wake me.now settings.now
            (take_event me.now settings.now full (record { shard = shard_of self.old; out = no_outputs }) event)).shard) }
        ensures out { IfOk result (λ given. given ≡ (wake me.now settings.now
            (take_event me.now settings.now full (record { shard = shard_of self.old; out = no_outputs }) event)).out) }
    {
        let out = Outputs {
            packets: Items::new(alloc),
            client: Items::new(alloc),
            notes: Items::new(alloc),
        };
        let out = self.take_event(alloc, me, settings, full, out, event)?;
        self.wake(alloc, me, settings, out)
    }
}

/// Whether the operation is one of this kind.
fn op_is_of(kind: Option<Kind>, op: &Op) -> bool
    ensures { result ≡ op_is_of kind op.now }
{
    match kind {
        None => false,
        Some(kind) => op_fits(kind, op),
    }
}

/// Whether the effect is one of this kind.
fn effect_is_of(kind: Option<Kind>, effect: &Effect) -> bool
    ensures { result ≡ effect_is_of kind effect.now }
{
    match kind {
        None => false,
        Some(kind) => effect_fits(kind, effect),
    }
}

/// Whether the transaction's own effects are of this kind.
fn own_are_of(kind: Option<Kind>, own: &[(u8, Effect)]) -> bool
    ensures { result ≡ own_are_of kind own.now }
{
    for (_, effect) in own {
        if !effect_is_of(kind, effect) {
            return false;
        }
    }
    true
}

/// Whether all writes are on items of configured spaces, with effects of their kinds.
fn writes_fit(catalog: &Catalog, writes: &[Write]) -> bool
    ensures { result ≡ writes_fit catalog.now writes.now }
{
    for write in writes {
        if !effect_is_of(catalog.kind_of(write.item.space), &write.effect) {
            return false;
        }
    }
    true
}

/// Whether the message is about items of configured spaces, with operations and effects of their kinds.
fn fits(catalog: &Catalog, message: &Message) -> bool
    ensures { result ≡ message_fits catalog.now message.now }
{
    match message {
        Message::Get { item, op, own, .. } => {
            let kind = catalog.kind_of(item.space);
            op_is_of(kind, op) && own_are_of(kind, own.as_slice())
        }
        Message::Prepare { writes, .. } => writes_fit(catalog, writes.as_slice()),
        Message::Version { .. } => true,
        Message::Prepared { .. } => true,
        Message::Commit { .. } => true,
        _ => false,
    }
}

/// Whether the actor is that of a partition.
fn is_partition(shape: Shape, actor: u8) -> bool
    ensures { result ≡ is_partition shape actor }
{
    1 <= actor && actor <= shape.parts
}

/// Whether the actor takes the packet: from a partition's actor of the own site, about items of configured spaces.
fn is_taken(me: &Actor, settings: &Settings, packet: &Packet) -> bool
    ensures { result ≡ is_for me.now settings.now packet.now }
{
    packet.from.site == me.site
        && is_partition(settings.shape, packet.from.actor)
        && fits(&settings.catalog, &packet.message)
}
