//! The calls of a site's ballot log.
ghost use Rattle.std.specs.Prelude.{◌≡◌, ◌≤◌, ◌↔◌, [], true, false, OnOk, IfOk, length};
ghost use Rattle.us_base.specs.Shape.{sites_of};
ghost use Rattle.us_ballot_model.specs.declared.message.Appended.TheVariants.{NotLeader, Full};
ghost use Rattle.us_ballot_model.specs.Ballots.{IsLog, IsMessage, WINDOW, ballot_in, is_below, leads, opening, owner};
ghost use Rattle.us_ballot_model.specs.Rules.{append, append_answer, lead, take_message, tick};
ghost use Rattle.us_ballot.specs.Outs.{onto};

use crate::append::append;
use crate::collect::{lead, new_ballot, promise};
use crate::follow::{accept, new_state};
use crate::learn::{accepted, catch_up, learn};
use crate::numbers::owner;
use crate::repeat::tick;
use crate::sends::nothing;
use std::alloc::Global;
use std::marker::Model;
use us_ballot_model::{Appended, BallotLog, BallotMessage, BallotOut, PromisedLog, Role};
use us_base::Shape;
use us_kind::{Items, Memory, Slot};

/// One site's part of a log that 2f + 1 sites agree on by ballots: what f + 1 sites hold is chosen, and stays.
///
/// Every call is a rule of `docs/PROTOCOL.md`, section "The ballot log". After a failed allocation the value is only dropped.
#[derive(Drop)]
pub struct Ballots<E: Slot> {
    alloc: Global,
    log: BallotLog<E>,
}

impl<E: Slot> Model for Ballots<E> {
    ghost use Rattle.us_ballot_model.specs.declared.log.BallotLog.{BallotLog};
    ghost use Rattle.us_ballot_model.specs.Ballots.{IsLog};

    ghost Value = { BallotLog E };

    ghost view = { λ a. a.log };

    ghost invariant = { λ a. IsLog a.log };
}

/// A message comes from a site.
#[tactic(auto, unfolding(us_ballot_model::specs::Rules::take_message))]
fn take_message<E: Slot>(
    alloc: Global,
    log: &mut BallotLog<E>,
    from: u8,
    message: BallotMessage<E>,
    out: &mut BallotOut<E>,
) -> Result<(), Memory>
    requires log { IsLog log.old }
    requires first { 1 ≤ from }
    requires last { from ≤ 9 }
    requires message { IsMessage message }
    ensures kept { IsLog log.new }
    ensures log { OnOk result (log.new ≡ (take_message E.eq log.old from message).log) }
    ensures out { OnOk result (out.new ≡ onto out.old (take_message E.eq log.old from message)) }
{
    match message {
        BallotMessage::NewBallot { ballot } => new_ballot(alloc, log, from, ballot, out),
        BallotMessage::Promise {
            ballot,
            accepted,
            base,
            tail,
        } => {
            let promised = PromisedLog {
                site: from,
                accepted,
                base,
                tail,
            };
            promise(alloc, log, ballot, promised, out)
        }
        BallotMessage::NewState { ballot, base, tail } => new_state(
            alloc,
            log,
            from,
            ballot,
            base,
            tail.as_slice(),
            out,
        ),
        BallotMessage::Accept {
            ballot,
            slot,
            entry,
        } => accept(log, from, ballot, slot, entry, out),
        BallotMessage::Accepted { ballot, length } => accepted(
            alloc, log, from, ballot, length, out,
        ),
        BallotMessage::CatchUp { length } => catch_up(alloc, log, from, length, out),
        BallotMessage::Learn { first, entries } => learn(
            alloc,
            log,
            first,
            entries.as_slice(),
            out,
        ),
    }
}

impl<E: Slot> Ballots<E> {
    /// The log of the site of this number before anything happened. Site 1 leads ballot 1.
    pub fn new(alloc: Global, shape: Shape, site: u8) -> Result<Ballots<E>, Memory>
        requires few { shape.f ≤ 4 }
        requires first { 1 ≤ site }
        requires last { site ≤ sites_of shape }
        ensures { IfOk result (λ ballots. ballots ≡ opening shape.f site) }
    {
        let role = if site == 1 {
            Role::Leader { acks: [Some(0); 9] }
        } else {
            Role::Follower
        };
        Ok(Ballots {
            alloc,
            log: BallotLog {
                f: shape.f,
                site,
                ballot: 1,
                accepted: 1,
                chosen: Items::new(alloc),
                tail: Items::new(alloc),
                role,
            },
        })
    }

    /// The rule lead: the site collects promises for the least ballot above its own that it owns.
    pub fn lead(&mut self) -> Result<BallotOut<E>, Memory>
        ensures state { OnOk result (self.new ≡ (lead self.old).log) }
        ensures out { IfOk result (λ out. out ≡ (lead self.old).out) }
    {
        let mut out = nothing(self.alloc);
        lead(self.alloc, &mut self.log, &mut out)?;
        Ok(out)
    }

    /// The rule append: a leader whose tail has room puts the entry into the next slot. Else it comes back.
    pub fn append(&mut self, entry: E) -> Result<Appended<E>, Memory>
        ensures state { OnOk result (self.new ≡ (append self.old entry).log) }
        ensures answer { IfOk result (λ answer. answer ≡ append_answer self.old entry) }
        ensures not_leader { IfOk result (λ answer. (answer ≡ NotLeader entry) ↔ (leads self.old.role ≡ false)) }
        ensures full { IfOk result (λ answer. (answer ≡ Full entry) ↔ ((leads self.old.role ≡ true) × (length self.old.tail ≡ WINDOW))) }
    {
        append(self.alloc, &mut self.log, entry)
    }

    /// A message comes from another site, one of 1 to 2f + 1: the rule of its name. One of an old ballot changes nothing.
    ///
    /// `is_message` tests what a message may hold.
    pub fn take(&mut self, from: u8, message: BallotMessage<E>) -> Result<BallotOut<E>, Memory>
        requires first { 1 ≤ from }
        requires last { from ≤ 9 }
        requires message { IsMessage message }
        ensures state { OnOk result (self.new ≡ (take_message E.eq self.old from message).log) }
        ensures out { IfOk result (λ out. out ≡ (take_message E.eq self.old from message).out) }
        ensures old_ballot { is_below self.old.ballot (ballot_in message) ≡ true → OnOk result (self.new ≡ self.old) }
        ensures old_ballot_out { is_below self.old.ballot (ballot_in message) ≡ true → IfOk result (λ out. out ≡ record { sends = []; chosen = [] }) }
    {
        let mut out = nothing(self.alloc);
        take_message(self.alloc, &mut self.log, from, message, &mut out)?;
        Ok(out)
    }

    /// The rule tick: chosen entries are asked for, and what isn't acknowledged is told again.
    pub fn tick(&mut self) -> Result<BallotOut<E>, Memory>
        ensures state { self.new ≡ self.old }
        ensures out { IfOk result (λ out. out ≡ (tick self.old).out) }
    {
        let mut out = nothing(self.alloc);
        tick(self.alloc, &self.log, &mut out)?;
        Ok(out)
    }

    /// The chosen entries, from slot 1 on.
    pub fn chosen(&self) -> &[E]
        ensures { result.now ≡ self.now.chosen }
    {
        self.log.chosen.as_slice()
    }

    /// The entries behind the chosen ones that the site holds, at most 8.
    pub fn tail(&self) -> &[E]
        ensures value { result.now ≡ self.now.tail }
        ensures window { length self.now.tail ≤ WINDOW }
    {
        self.log.tail.as_slice()
    }

    /// The site's ballot, from 1.
    pub fn ballot(&self) -> u64
        ensures { result ≡ self.now.ballot }
    {
        self.log.ballot
    }

    /// The site that owns the site's ballot.
    pub fn owner(&self) -> u8
        ensures { result ≡ owner self.now.f self.now.ballot }
    {
        owner(self.log.f, self.log.ballot)
    }
}
