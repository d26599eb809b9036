//! The rules of a partition.
ghost use Rattle.std.specs.Prelude.{◌≡◌, ◌<◌, ◌^◌, ◌++◌, ◌∷◌, [], IfOk, OnOk, IfSome, Some, None, if◌then◌else◌, position, not, filter};
ghost use Rattle.us_base.specs.Shape.{IsShape};
ghost use Rattle.us_base.specs.Vector.{zero};
ghost use Rattle.us_part.specs.Placed.{IsPlace, IsBelow};
ghost use Rattle.us_model.specs.Partitions.{known, own_known, least_ts, is_home, are_home, may_get, get, next_timestamp, timestamp_for, may_prepare, prepared};
ghost use Rattle.us_model.specs.Partitions.{is_of, may_commit, commit, may_answer, versions, still_parked, stays_above, set_floor, raise};

use crate::reading::push_versions;
use std::alloc::Global;
use std::marker::Model;
use us_base::{Limits, Shape, Vector, partition_of};
use us_index::Listed;
use us_kind::{Items, Memory, Tid};
use us_model::{Get, LogTx, PreparedTx};
use us_oplog::OpLog;
use us_peer_wire::{Actor, Packet};
use us_value::{Catalog, Item, Write};

/// The greatest number of a timestamp.
const GREATEST: u64 = Limits::NUMBER;

/// Timestamps of a partition leave its number as the remainder by this.
const STRIDE: u64 = 64;

/// A partition of a site.
#[derive(Drop)]
pub struct Part {
    shape: Shape,
    me: Actor,
    clock: u64,
    log: OpLog,
    prepared: Vec<PreparedTx>,
    done: Listed<Tid>,
    received: Vector,
    parked: Vec<Get>,
}

impl Model for Part {
    ghost use Rattle.us_part.specs.Placed.{Placed, IsPlace, AreClocked};

    ghost Value = { Placed };

    ghost view = { λ a. record {
      shape = a.shape;
      me = a.me;
      partition = record {
        clock = a.clock;
        log = a.log.transactions;
        prepared = a.prepared.items;
        done = a.done;
        received = a.received;
        parked = a.parked.items;
        floor = a.log.floor;
      };
    } };

    ghost invariant = { λ a. record { place : IsPlace a.shape a.me; clocked : AreClocked a.clock a.prepared.items } };
}

impl Part {
    /// The partition of this number at this site, where nothing has happened. It takes no memory.
    pub fn new(alloc: Global, shape: Shape, site: u8, part: u8) -> Part
        requires { IsPlace shape (record { site = site; actor = part }) }
        ensures { result ≡ record {
          shape = shape;
          me = record { site = site; actor = part };
          partition = record { clock = 0; log = []; prepared = []; done = []; received = zero; parked = []; floor = zero };
        } }
    {
        Part {
            shape,
            me: Actor { site, actor: part },
            clock: 0,
            log: OpLog::new(alloc),
            prepared: Vec::new(alloc),
            done: Listed::new(alloc),
            received: Vector::zero(),
            parked: Vec::new(alloc),
        }
    }

    /// The transactions that are committed here.
    pub fn log(&self) -> &OpLog
        ensures { result.now ≡ record { transactions = self.now.partition.log; floor = self.now.partition.floor } }
    {
        &self.log
    }

    /// Up to which timestamps the log is complete. Its own entry is below each timestamp that is prepared.
    pub fn known(&self) -> Vector
        ensures value { result ≡ known self.now.me self.now.partition }
        ensures below { IsBelow self.now.me.site result self.now.partition.prepared }
    {
        let own = own_known_of(self.clock, self.prepared.as_slice());
        self.received.with_entry(self.me.site, own)
    }

    /// A question comes, and waits. Whether it does: one on an item of another partition is dropped, and so is one with a snapshot
    /// that isn't at least the floor.
    pub fn get(&mut self, question: Get) -> Result<bool, Memory>
        ensures state { OnOk result (self.new ≡ record self.old { partition = get self.old.shape.parts self.old.me self.old.partition question }) }
        ensures told { IfOk result (λ r. r ≡ may_get self.old.shape.parts self.old.me self.old.partition question) }
    {
        if !self.may_get(&question) {
            return Ok(false);
        }
        let clock = self.clock.max(question.snapshot.get(self.me.site));
        self.parked.push(question)?;
        self.clock = clock;
        Ok(true)
    }

    /// The timestamp under which the transaction is prepared here, if it may be.
    pub fn prepare(
        &mut self,
        tid: Tid,
        snapshot: Vector,
        writes: Items<Write>,
    ) -> Result<Option<u64>, Memory>
        ensures state { OnOk result (self.new ≡ record self.old {
          partition =
              if may_prepare self.old.shape.parts self.old.me self.old.partition tid snapshot writes
              then prepared self.old.me self.old.partition tid snapshot writes else self.old.partition;
        }) }
        ensures told { IfOk result (λ r. r ≡ (if may_prepare self.old.shape.parts self.old.me self.old.partition tid snapshot writes
            then Some (timestamp_for self.old.me self.old.partition snapshot) else None)) }
    {
        let Some(ts) = self.timestamp_of(&tid, &snapshot, writes.as_slice()) else {
            return Ok(None);
        };
        self.done.push(tid)?;
        self.clock = ts;
        self.prepared.push(PreparedTx {
            tid,
            ts,
            snapshot,
            writes,
        })?;
        Ok(Some(ts))
    }

    /// A prepared transaction moves to the log. Whether it does: one that isn't prepared stays away, and so does one whose timestamp
    /// the vector's own entry doesn't reach.
    pub fn commit(&mut self, tid: &Tid, vector: Vector) -> Result<bool, Memory>
        ensures state { OnOk result (self.new ≡ record self.old { partition = commit self.old.me self.old.partition tid.now vector }) }
        ensures told { IfOk result (λ r. r ≡ may_commit self.old.me self.old.partition tid.now vector) }
    {
        let Some(place) = place_of(self.prepared.as_slice(), tid) else {
            return Ok(false);
        };
        let own = vector.get(self.me.site);
        if self.prepared[place].ts > own {
            return Ok(false);
        }
        let was = self.prepared.remove(place);
        self.log.append(LogTx {
            tid: was.tid,
            strong: false,
            vector,
            writes: was.writes,
        })?;
        self.clock = self.clock.max(own);
        Ok(true)
    }

    /// The questions whose snapshot is known are answered, in order of coming, and leave. The answers are put behind those packets
    /// that are there.
    pub fn ready(
        &mut self,
        alloc: Global,
        catalog: &Catalog,
        packets: &mut Items<Packet>,
    ) -> Result<(), Memory>
        ensures state { OnOk result (self.new ≡ record self.old {
          partition =
              record self.old.partition { parked = still_parked (known self.old.me self.old.partition) self.old.partition.parked };
        }) }
        ensures packets { OnOk result (packets.new ≡ packets.old
            ++ versions self.old.me catalog.now (known self.old.me self.old.partition) self.old.partition.log self.old.partition.parked) }
    {
        let known = self.known();
        push_versions(
            alloc,
            &self.me,
            catalog,
            &known,
            &self.log,
            self.parked.as_slice(),
            packets,
        )?;
        keep_unknown(&mut self.parked, &known);
        Ok(())
    }

    /// The floor rises, and the questions that ask below it are dropped.
    pub fn set_floor(&mut self, floor: &Vector)
        ensures { self.new ≡ record self.old { partition = set_floor floor.now self.old.partition } }
    {
        self.log.set_floor(floor);
        let floor = self.log.floor();
        keep_above(&mut self.parked, &floor);
    }

    /// The clock rises to a number.
    pub fn raise(&mut self, clock: u64)
        ensures { self.new ≡ record self.old { partition = raise clock self.old.partition } }
    {
        self.clock = self.clock.max(clock);
    }

    /// Whether the question's item is here, and the floor is at most its snapshot.
    fn may_get(&self, question: &Get) -> bool
        ensures { result ≡ may_get self.now.shape.parts self.now.me self.now.partition question.now }
    {
        is_home(self.shape, &self.me, &question.item)
            && self.log.floor().at_most(&question.snapshot)
    }

    /// The timestamp for a transaction, if it may be prepared.
    fn timestamp_of(&self, tid: &Tid, snapshot: &Vector, writes: &[Write]) -> Option<u64>
        ensures above { IfSome result (λ ts. self.now.partition.clock < ts) }
        ensures told { result ≡ (if may_prepare self.now.shape.parts self.now.me self.now.partition tid.now snapshot.now writes.now
            then Some (timestamp_for self.now.me self.now.partition snapshot.now) else None) }
    {
        let above = self.clock.max(snapshot.get(self.me.site));
        if above >= GREATEST {
            return None;
        }
        if self.done.contains(tid) || !are_home(self.shape, &self.me, writes) {
            return None;
        }
        let ts = timestamp_above(self.me.actor, above);
        if ts > GREATEST {
            return None;
        }
        Some(ts)
    }
}

/// Whether this partition, of those of the shape, keeps the item.
fn is_home(shape: Shape, me: &Actor, item: &Item) -> bool
    requires { IsShape shape }
    ensures { result ≡ is_home shape.parts me.now item.now }
{
    partition_of(shape, item.space, item.id.as_slice()) == me.actor
}

/// Whether this partition keeps each item that is written.
fn are_home(shape: Shape, me: &Actor, writes: &[Write]) -> bool
    requires { IsShape shape }
    ensures { result ≡ are_home shape.parts me.now writes.now }
{
    for write in writes {
        if !is_home(shape, me, &write.item) {
            return false;
        }
    }
    true
}

/// Only the questions stay whose snapshot isn't known.
fn keep_unknown(questions: &mut Vec<Get>, known: &Vector)
    ensures { questions.new.items ≡ still_parked known.now questions.old.items }
{
    questions.retain(|question| still_waits(question, known));
}

/// Whether the question's snapshot isn't known yet.
fn still_waits(question: &Get, known: &Vector) -> bool
    ensures { result ≡ not (may_answer known.now question.now) }
{
    !question.snapshot.at_most(known)
}

/// Only the questions stay whose snapshot is at least the floor.
fn keep_above(questions: &mut Vec<Get>, floor: &Vector)
    ensures { questions.new.items ≡ filter (stays_above floor.now) questions.old.items }
{
    questions.retain(|question| stays_above(question, floor));
}

/// Whether the question's snapshot is at least the floor.
fn stays_above(question: &Get, floor: &Vector) -> bool
    ensures { result ≡ stays_above floor.now question.now }
{
    floor.at_most(&question.snapshot)
}

/// The known timestamp of the own site.
#[tactic(auto, unfolding(us_model::specs::Partitions::own_known))]
fn own_known_of(clock: u64, transactions: &[PreparedTx]) -> u64
    ensures { result ≡ own_known clock transactions.now }
{
    match transactions.split_first() {
        None => clock,
        Some((first, others)) => least_of(first.ts, others).saturating_sub(1),
    }
}

/// The least timestamp of these, or `start` where it is less.
fn least_of(start: u64, transactions: &[PreparedTx]) -> u64
    ensures { result ≡ least_ts start transactions.now }
{
    let mut least = start;
    for transaction in transactions {
        least = least.min(transaction.ts);
    }
    least
}

fn place_of(transactions: &[PreparedTx], tid: &Tid) -> Option<usize>
    ensures { result ≡ position (is_of tid.now) transactions.now }
{
    transactions.iter().position(|t| t.tid.same(tid))
}

/// The least number above `n` that leaves the actor's remainder.
#[tactic(auto, unfolding(us_model::specs::Partitions::next_timestamp))]
fn timestamp_above(actor: u8, n: u64) -> u64
    requires actor { actor < 64 }
    requires room { n < 2 ^ 62 }
    ensures value { result ≡ next_timestamp actor n }
    ensures above { n < result }
{
    n + 1 + (u64::from(actor) + STRIDE - (n + 1) % STRIDE) % STRIDE
}
