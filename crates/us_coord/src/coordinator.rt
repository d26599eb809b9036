//! A coordinator and its sessions.
ghost use Rattle.std.specs.Prelude.{◌≡◌, ◌<◌, ◌++◌, not, nat_lt, None, IfOk, IfSome, IsTrue, OnOk};
ghost use Rattle.us_base.specs.Shape.{IsShape};
ghost use Rattle.us_model.specs.Sessions.{bytes, close, version, prepared, run_session};
ghost use Rattle.us_model.specs.Coordinators.{new_coordinator, new_session, opened, refused_open, open_in, waits_in};
ghost use Rattle.us_model.specs.Coordinators.{each_acts, each_session, is_over, remembered};
ghost use Rattle.us_coord.specs.Order.{StandsAt, Absent, Concerns};
ghost use Rattle.us_coord.specs.Steps.{acts};
ghost use Rattle.us_coord.specs.Table.{AreFound, Ascends, found_in};

use crate::marks::Marked;
use crate::table::session_of;
use crate::turn::{Turn, each, is_over, one};
use crate::waits::put_waits_in;
use std::alloc::Global;
use std::collections::HashMap;
use std::marker::Model;
use std::mem;
use us_base::{Shape, Vector};
use us_client_wire::Reply;
use us_exec::WaitingRequest;
use us_kind::{Items, Memory, Tid, checked_sum};
use us_model::{Await, ClientOut, Context, Note, Outputs, Refusal, Session, View, Vote};
use us_peer_wire::{Actor, Version};
use us_session::{encoded, new_stream};
use us_value::Catalog;

/// A coordinator. A call that takes an event takes what the actor has given out so far, and gives it back with what the rule adds.
#[derive(Drop)]
pub struct Coordinator {
    seq: u64,
    opens: u64,
    sessions: Vec<Session>,
    /// The number of each running transaction, with the number of its session.
    table: HashMap<u64, u64>,
    marked: Marked,
}

impl Model for Coordinator {
    ghost use Rattle.us_model.specs.State.{Coordinator};
    ghost use Rattle.us_coord.specs.Order.{InOrder};
    ghost use Rattle.us_coord.specs.Marks.{AreIdle};
    ghost use Rattle.us_coord.specs.Table.{AreFound, found_in};

    ghost Value = { Coordinator };

    ghost view = { λ a. record { seq = a.seq; opens = a.opens; sessions = a.sessions.items } };

    ghost invariant = { λ a. record {
      order : InOrder 0 a.sessions.items a.opens;
      idle : AreIdle a.marked a.sessions.items;
      found : AreFound (found_in a.table) a.seq a.sessions.items;
    } };
}

impl Coordinator {
    /// A coordinator at which nothing has happened.
    pub fn new(alloc: Global) -> Coordinator
        ensures { result ≡ new_coordinator }
    {
        Coordinator {
            seq: 0,
            opens: 0,
            sessions: Vec::new(alloc),
            table: HashMap::new(alloc),
            marked: Marked::Nobody,
        }
    }

    /// A client opens a session.
    pub fn open(&mut self, alloc: Global, coord: u8, mut out: Outputs) -> Result<Outputs, Memory>
        ensures coordinator { OnOk result (self.new ≡ (opened coord self.old out).coordinator) }
        ensures out { IfOk result (λ given. given ≡ (opened coord self.old out).out) }
    {
        let number = checked_sum(self.opens, 1)?;
        out.notes.push(Note::Opened {
            coord,
            session: number,
        })?;
        self.sessions.push(new_session(alloc, number))?;
        self.opens = number;
        Ok(out)
    }

    /// Each session's turn. Those that are over then are forgotten.
    fn turn(
        &mut self,
        alloc: Global,
        view: &View,
        turn: &Turn<'_>,
        out: Outputs,
    ) -> Result<Outputs, Memory>
        requires site { view.now.me.site < 10 }
        requires shape { IsShape view.now.shape }
        ensures coordinator { OnOk result (self.new ≡ (each_acts (acts turn.now) view.now self.old out).coordinator) }
        ensures out { IfOk result (λ given. given ≡ (each_acts (acts turn.now) view.now self.old out).out) }
    {
        let mut context = context_of(view, self.seq, out);
        let mut sessions = mem::replace(&mut self.sessions, Vec::new(alloc));
        all(alloc, &mut context, &mut sessions, &mut self.table, turn)?;
        self.sessions = sessions;
        self.marked = Marked::All;
        self.seq = context.seq;
        Ok(context.out)
    }

    /// Where the session of this number stands, if it is remembered.
    fn place_of(&self, number: u64) -> Option<usize>
        ensures found { IfSome result (λ place. StandsAt number self.now.sessions place) }
        ensures absent { result ≡ None → Absent number self.now.sessions }
    {
        let place = self
            .sessions
            .as_slice()
            .partition_point(|session| is_below(session, number));
        if place < self.sessions.len() && self.sessions[place].number == number {
            return Some(place);
        }
        None
    }

    /// The turn of the session of this number, which is the only one that the event concerns.
    fn turn_of(
        &mut self,
        alloc: Global,
        view: &View,
        number: u64,
        turn: &Turn<'_>,
        out: Outputs,
    ) -> Result<Outputs, Memory>
        requires site { view.now.me.site < 10 }
        requires shape { IsShape view.now.shape }
        requires concerns { Concerns (acts turn.now) number self.old.sessions }
        ensures coordinator { OnOk result (self.new ≡ (each_acts (acts turn.now) view.now self.old out).coordinator) }
        ensures out { IfOk result (λ given. given ≡ (each_acts (acts turn.now) view.now self.old out).out) }
    {
        let Some(place) = self.place_of(number) else {
            return Ok(out);
        };
        let mut context = context_of(view, self.seq, out);
        let mut sessions = mem::replace(&mut self.sessions, Vec::new(alloc));
        one(
            alloc,
            &mut context,
            &mut sessions,
            &mut self.table,
            place,
            turn,
        )?;
        self.sessions = sessions;
        self.marked = self.marked.marking(number);
        self.seq = context.seq;
        Ok(context.out)
    }

    /// A client's bytes come to the session of this number, if it is open.
    #[tactic(auto, using(crate::proofs::Concerned::bytes_concerns))]
    pub fn bytes(
        &mut self,
        alloc: Global,
        catalog: &Catalog,
        view: &View,
        session: u64,
        piece: &[u8],
        out: Outputs,
    ) -> Result<Outputs, Memory>
        requires site { view.now.me.site < 10 }
        requires shape { IsShape view.now.shape }
        ensures coordinator { OnOk result (self.new ≡ (each_acts (bytes catalog.now session piece.now) view.now self.old out).coordinator) }
        ensures out { IfOk result (λ given. given ≡ (each_acts (bytes catalog.now session piece.now) view.now self.old out).out) }
    {
        let turn = Turn::Bytes {
            catalog,
            number: session,
            piece,
        };
        self.turn_of(alloc, view, session, &turn, out)
    }

    /// The client closes the session of this number, if it is open.
    #[tactic(auto, using(crate::proofs::Concerned::close_concerns))]
    pub fn close(
        &mut self,
        alloc: Global,
        view: &View,
        session: u64,
        out: Outputs,
    ) -> Result<Outputs, Memory>
        requires site { view.now.me.site < 10 }
        requires shape { IsShape view.now.shape }
        ensures coordinator { OnOk result (self.new ≡ (each_acts (close session) view.now self.old out).coordinator) }
        ensures out { IfOk result (λ given. given ≡ (each_acts (close session) view.now self.old out).out) }
    {
        let turn = Turn::Close { number: session };
        self.turn_of(alloc, view, session, &turn, out)
    }

    /// The version for which an operation waits comes. One that nobody awaits changes nothing.
    pub fn version(
        &mut self,
        alloc: Global,
        view: &View,
        received: &Version,
        out: Outputs,
    ) -> Result<Outputs, Memory>
        requires site { view.now.me.site < 10 }
        requires shape { IsShape view.now.shape }
        ensures coordinator { OnOk result (self.new ≡ (each_acts (version received.now) view.now self.old out).coordinator) }
        ensures out { IfOk result (λ given. given ≡ (each_acts (version received.now) view.now self.old out).out) }
    {
        let session = session_of(&self.table, received.tid.seq);
        let turn = Turn::Version { version: received };
        self.turn_of(alloc, view, session, &turn, out)
    }

    /// A partition tells under which timestamp it has prepared a transaction. What nobody awaits changes nothing.
    pub fn prepared(
        &mut self,
        alloc: Global,
        view: &View,
        one: Vote,
        tid: Tid,
        out: Outputs,
    ) -> Result<Outputs, Memory>
        requires site { view.now.me.site < 10 }
        requires shape { IsShape view.now.shape }
        ensures coordinator { OnOk result (self.new ≡ (each_acts (prepared one.part tid one.ts) view.now self.old out).coordinator) }
        ensures out { IfOk result (λ given. given ≡ (each_acts (prepared one.part tid one.ts) view.now self.old out).out) }
    {
        let session = session_of(&self.table, tid.seq);
        self.turn_of(alloc, view, session, &Turn::Prepared { one, tid }, out)
    }

    /// The sessions that are marked run, all others having nothing to do.
    fn run_marked(
        &mut self,
        alloc: Global,
        catalog: &Catalog,
        view: &View,
        out: Outputs,
    ) -> Result<Outputs, Memory>
        requires site { view.now.me.site < 10 }
        requires shape { IsShape view.now.shape }
        ensures coordinator { OnOk result (self.new ≡ (each_acts (run_session catalog.now) view.now self.old out).coordinator) }
        ensures out { IfOk result (λ given. given ≡ (each_acts (run_session catalog.now) view.now self.old out).out) }
    {
        let turn = Turn::Run { catalog };
        match self.marked {
            Marked::One { number } => self.turn_of(alloc, view, number, &turn, out),
            _ => self.turn(alloc, view, &turn, out),
        }
    }

    /// Each session runs: its requests are performed, until one waits. Only sessions that an event concerned since the last run have
    /// any to perform.
    pub fn run(
        &mut self,
        alloc: Global,
        catalog: &Catalog,
        view: &View,
        out: Outputs,
    ) -> Result<Outputs, Memory>
        requires site { view.now.me.site < 10 }
        requires shape { IsShape view.now.shape }
        ensures coordinator { OnOk result (self.new ≡ (each_acts (run_session catalog.now) view.now self.old out).coordinator) }
        ensures out { IfOk result (λ given. given ≡ (each_acts (run_session catalog.now) view.now self.old out).out) }
    {
        if let Marked::Nobody = self.marked {
            return Ok(out);
        }
        let out = self.run_marked(alloc, catalog, view, out)?;
        self.marked = Marked::Nobody;
        Ok(out)
    }

    /// How many of its sessions are open.
    pub fn open_sessions(&self) -> usize
        ensures { result ≡ open_in self.now.sessions }
    {
        open_count(self.sessions.as_slice())
    }

    /// The open sessions with unanswered requests, in order, each with the first one's place, are put behind those that are there.
    pub fn put_waits(&self, me: &Actor, waits: &mut Vec<WaitingRequest>) -> Result<(), Memory>
        ensures { OnOk result (waits.new.items ≡ waits.old.items ++ waits_in me.now.site me.now.actor self.now.sessions) }
    {
        put_waits_in(me, self.sessions.as_slice(), waits)
    }
}

/// What the actor, the coordinator and what was given out so far make.
fn context_of(view: &View, seq: u64, out: Outputs) -> Context
    ensures { result ≡ record { me = view.now.me; shape = view.now.shape; base = view.now.base; seq = seq; out = out } }
{
    Context {
        me: view.me,
        shape: view.shape,
        base: view.base,
        seq,
        out,
    }
}

/// Whether the session's number is smaller.
fn is_below(session: &Session, number: u64) -> bool
    ensures { result ≡ nat_lt session.now.number number }
{
    session.number < number
}

/// Whether the session isn't over: it is open or still commits.
fn is_remembered(session: &Session) -> bool
    ensures { result ≡ not (is_over session.now) }
{
    !is_over(session)
}

/// Each session's turn. Those that are over then are forgotten.
fn all(
    alloc: Global,
    context: &mut Context,
    sessions: &mut Vec<Session>,
    table: &mut HashMap<u64, u64>,
    turn: &Turn<'_>,
) -> Result<(), Memory>
    requires site { context.old.me.site < 10 }
    requires shape { IsShape context.old.shape }
    requires ascend { Ascends 0 sessions.old.items }
    requires found { AreFound (found_in table.old) context.old.seq sessions.old.items }
    ensures context { OnOk result (context.new ≡ (each_session (acts turn.now) context.old sessions.old.items).context) }
    ensures sessions { OnOk result (sessions.new.items ≡ remembered (each_session (acts turn.now) context.old sessions.old.items).sessions) }
    ensures found { OnOk result (AreFound (found_in table.new) context.new.seq sessions.new.items) }
{
    each(alloc, context, sessions.as_mut_slice(), table, turn)?;
    forget(sessions);
    Ok(())
}

/// Forgets the sessions that are over.
fn forget(sessions: &mut Vec<Session>)
    ensures { sessions.new.items ≡ remembered sessions.old.items }
{
    sessions.retain(|session| is_remembered(session));
}

/// How many of the sessions are open.
fn open_count(sessions: &[Session]) -> usize
    ensures { result ≡ open_in sessions.now }
{
    let mut open = 0;
    for session in sessions {
        if session.closed {
            continue;
        }
        open += 1;
    }
    open
}

/// Whether a configuration may have the shape.
fn is_shape(shape: Shape) -> bool
    ensures { IsTrue result → IsShape shape }
{
    shape.f <= 4 && 1 <= shape.parts && shape.parts <= 16
}

/// Refuses to open a session at a site that has as many open ones as it may have. A shape that no configuration has counts
/// as out of memory: none is met.
pub fn refuse_open(
    alloc: Global,
    shape: Shape,
    coord: u8,
    mut out: Outputs,
) -> Result<Outputs, Memory>
    ensures { IfOk result (λ given. given ≡ refused_open coord shape out) }
{
    if !is_shape(shape) {
        return Err(Memory);
    }
    let reply = Reply::Refused {
        at: 0,
        number: Refusal::TooManySessions.number(),
    };
    out.client.push(ClientOut {
        coord,
        session: 0,
        bytes: encoded(alloc, shape, &reply)?,
        ends: true,
    })?;
    Ok(out)
}

/// A session of which nothing has come.
fn new_session(alloc: Global, number: u64) -> Session
    ensures { result ≡ new_session number }
{
    Session {
        number,
        past: Vector::zero(),
        asked: 0,
        stream: new_stream(alloc),
        begun: false,
        count: 0,
        running: None,
        waits: Await::Nothing,
        requests: Items::new(alloc),
        closed: false,
    }
}
