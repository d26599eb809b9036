//! The rules of a coordinator, at one of its sessions.
ghost use Rattle.std.specs.Prelude.{◌≡◌, ◌+◌, ◌<◌, ◌++◌, ◌∷◌, [], IfOk, OnOk, length, true, false, Some, None};
ghost use Rattle.us_client_wire.specs.Replies.{reply_encoding};
ghost use Rattle.us_base.specs.Shape.{IsShape};
ghost use Rattle.us_base.specs.Vector.{join};
ghost use Rattle.us_value.specs.Catalogs.{kind_in};
ghost use Rattle.us_history.specs.States.{own_effects};
ghost use Rattle.us_model.specs.Sessions.{stays, with_packets, with_note, reply_out, tell, session_name, refused, asked_for, prepares, objection};
ghost use Rattle.us_model.specs.Sessions.{begin, perform, commit_causal, abandon, request, to_partition, no_stream, is_nothing};

use crate::codec::encoded;
use crate::placement::{home, partitions_written, writes_on};
use std::alloc::Global;
use us_base::{Limits, Vector};
use us_client_wire::{Reply, Request};
use us_exec::SessionName;
use us_kind::{Items, Memory, Tid, checked_sum};
use us_model::{Await, ClientOut, Context, Note, Refusal, Session, Transaction};
use us_peer_wire::{Actor, Message, Packet};
use us_value::{Catalog, Effect, Item, Op, Write, op_fits};
use us_wire::FrameReader;

/// How many operations a transaction has at most.
const OPERATIONS: usize = Limits::OPERATIONS;

/// The greatest whole frame of a client, in bytes.
const CLIENT_FRAME: u32 = Limits::CLIENT_FRAME;

/// A stream of which nothing has come.
pub fn new_stream(alloc: Global) -> FrameReader
    ensures { result ≡ no_stream }
{
    FrameReader::new(alloc, CLIENT_FRAME)
}

/// Gives a reply out to the session's client.
fn give(
    alloc: Global,
    context: &mut Context,
    session: &Session,
    reply: &Reply,
    ends: bool,
) -> Result<(), Memory>
    requires { IsShape context.old.shape }
    ensures { OnOk result (context.new ≡ record context.old {
      out = record context.old.out
          { client = context.old.out.client ++ reply_out context.old session.now reply.now ends ∷ [] };
    }) }
{
    let out = ClientOut {
        coord: context.me.actor,
        session: session.number,
        bytes: encoded(alloc, context.shape, reply)?,
        ends,
    };
    context.out.client.push(out)
}

/// Tells the session's client, unless the session is closed.
pub fn tell_client(
    alloc: Global,
    context: &mut Context,
    session: &Session,
    reply: &Reply,
) -> Result<(), Memory>
    requires { IsShape context.old.shape }
    ensures { OnOk result (context.new ≡ tell context.old session.now reply.now) }
{
    if session.closed {
        Ok(())
    } else {
        give(alloc, context, session, reply, false)
    }
}

fn name_of(context: &Context, session: &Session) -> SessionName
    ensures { result ≡ session_name context.now session.now }
{
    SessionName {
        site: context.me.site,
        coord: context.me.actor,
        number: session.number,
    }
}

/// Refuses the request with this `at`.
pub fn refuse(
    alloc: Global,
    context: &mut Context,
    session: &Session,
    at: u64,
    why: Refusal,
) -> Result<(), Memory>
    requires { IsShape context.old.shape }
    ensures { OnOk result (context.new ≡ (refused context.old session.now at why).context) }
{
    let number = why.number();
    let reply = Reply::Refused { at, number };
    let ends = number == Refusal::Malformed.number();
    give(alloc, context, session, &reply, ends)?;
    let name = name_of(context, session);
    context.out.notes.push(Note::Refused {
        session: name,
        at,
        number,
    })
}

/// Sends a message to a partition of the own site.
pub fn send(context: &mut Context, part: u8, message: Message) -> Result<(), Memory>
    ensures { OnOk result (context.new ≡ with_packets context.old (to_partition context.old part message ∷ [])) }
{
    let packet = Packet {
        from: context.me,
        to: Actor {
            site: context.me.site,
            actor: part,
        },
        message,
    };
    context.out.packets.push(packet)
}

/// Begins a transaction, unless one runs.
fn begin(alloc: Global, context: &mut Context, session: &mut Session, at: u64) -> Result<(), Memory>
    requires { IsShape context.old.shape }
    ensures { OnOk result (stays context.new session.new ≡ begin context.old session.old at session.old.running) }
{
    if session.running.is_some() {
        return refuse(alloc, context, session, at, Refusal::InTransaction);
    }
    let seq = checked_sum(context.seq, 1)?;
    let tid = Tid {
        site: context.me.site,
        coord: context.me.actor,
        seq,
    };
    let snapshot = session.past.join(&context.base);
    tell_client(alloc, context, session, &Reply::Started { at, tid })?;
    let name = name_of(context, session);
    context.out.notes.push(Note::Begun {
        tid,
        session: name,
        snapshot,
    })?;
    context.seq = seq;
    session.begun = true;
    session.running = Some(Transaction {
        tid,
        snapshot,
        ops: Items::new(alloc),
        writes: Items::new(alloc),
    });
    Ok(())
}

/// The transaction's own earlier effects on an item, with their places.
fn own_effects_on(
    alloc: Global,
    item: &Item,
    writes: &[Write],
) -> Result<Items<(u8, Effect)>, Memory>
    ensures { IfOk result (λ own. own ≡ own_effects item.now writes.now) }
{
    let mut own = Items::new(alloc);
    for write in writes {
        if write.item.same(item) {
            own.push((write.place, write.effect.copy()?))?;
        }
    }
    Ok(own)
}

/// The question for the version that an operation meets.
fn question(
    alloc: Global,
    transaction: &Transaction,
    at: u64,
    place: u8,
    item: &Item,
    op: &Op,
) -> Result<Message, Memory>
    ensures { IfOk result (λ m. m ≡ Message.Get transaction.now.tid place at transaction.now.snapshot item.now op.now
        (own_effects item.now transaction.now.writes)) }
{
    Ok(Message::Get {
        tid: transaction.tid,
        place,
        at,
        snapshot: transaction.snapshot,
        item: item.copy()?,
        op: op.copy()?,
        own: own_effects_on(alloc, item, transaction.writes.as_slice())?,
    })
}

/// Asks for the version that an operation meets, and waits for it.
fn ask(
    alloc: Global,
    context: &mut Context,
    session: &mut Session,
    at: u64,
    transaction: Transaction,
    item: Item,
    op: Op,
) -> Result<(), Memory>
    requires room { length transaction.ops < 64 }
    requires shape { IsShape context.old.shape }
    ensures { OnOk result (stays context.new session.new ≡ asked_for context.old (record session.old { running = Some transaction }) at transaction item op) }
{
    let place = (transaction.ops.len() + 1) as u8;
    let message = question(alloc, &transaction, at, place, &item, &op)?;
    send(context, home(context.shape, &item), message)?;
    session.running = Some(transaction);
    session.waits = Await::Version {
        at,
        place,
        item,
        op,
    };
    Ok(())
}

/// Why the transaction may not do the operation, if so.
fn objection(catalog: &Catalog, transaction: &Transaction, item: &Item, op: &Op) -> Option<Refusal>
    ensures { result ≡ objection (kind_in catalog.now item.now.space) transaction.now op.now }
{
    match catalog.kind_of(item.space) {
        None => Some(Refusal::UnknownSpace),
        Some(kind) if !op_fits(kind, op) => Some(Refusal::OtherKind),
        Some(_) if transaction.ops.len() >= OPERATIONS => Some(Refusal::TooManyOperations),
        Some(_) => None,
    }
}

/// Performs an operation, which waits for its item's version.
fn perform(
    alloc: Global,
    catalog: &Catalog,
    context: &mut Context,
    session: &mut Session,
    at: u64,
    item: Item,
    op: Op,
) -> Result<(), Memory>
    requires { IsShape context.old.shape }
    ensures { OnOk result (stays context.new session.new ≡ perform catalog.now context.old session.old at item op session.old.running) }
{
    let Some(transaction) = session.running.take() else {
        return refuse(alloc, context, session, at, Refusal::NoTransaction);
    };
    if let Some(why) = objection(catalog, &transaction, &item, &op) {
        session.running = Some(transaction);
        return refuse(alloc, context, session, at, why);
    }
    ask(alloc, context, session, at, transaction, item, op)
}

/// Asks each of these partitions to prepare what the transaction writes there.
fn send_prepares(
    alloc: Global,
    context: &mut Context,
    transaction: &Transaction,
    parts: &[u8],
) -> Result<(), Memory>
    requires { IsShape context.old.shape }
    ensures { OnOk result (context.new ≡ with_packets context.old (prepares context.old transaction.now parts.now)) }
{
    for part in parts {
        let message = Message::Prepare {
            tid: transaction.tid,
            snapshot: transaction.snapshot,
            writes: writes_on(alloc, context.shape, *part, transaction.writes.as_slice())?,
        };
        send(context, *part, message)?;
    }
    Ok(())
}

/// The transaction is committed with this vector.
pub fn end(
    alloc: Global,
    context: &mut Context,
    session: &mut Session,
    at: u64,
    tid: Tid,
    vector: Vector,
) -> Result<(), Memory>
    requires { IsShape context.old.shape }
    ensures { OnOk result (stays context.new session.new ≡ stays
        (with_note (tell context.old session.old (Reply.Committed at (session.old.count + 1))) (Note.Decided tid vector))
        (record session.old { past = join session.old.past vector; count = session.old.count + 1; running = None; waits = Await.Nothing })) }
{
    let count = checked_sum(session.count, 1)?;
    tell_client(alloc, context, session, &Reply::Committed { at, count })?;
    context.out.notes.push(Note::Decided { tid, vector })?;
    session.past = session.past.join(&vector);
    session.count = count;
    session.running = None;
    session.waits = Await::Nothing;
    Ok(())
}

/// Commits the transaction: at once where it wrote nothing, else its writes are to be prepared.
fn commit(
    alloc: Global,
    context: &mut Context,
    session: &mut Session,
    at: u64,
) -> Result<(), Memory>
    requires { IsShape context.old.shape }
    ensures { OnOk result (stays context.new session.new ≡ commit_causal context.old session.old at session.old.running) }
{
    let Some(transaction) = &session.running else {
        return refuse(alloc, context, session, at, Refusal::NoTransaction);
    };
    let tid = transaction.tid;
    let snapshot = transaction.snapshot;
    if transaction.writes.is_empty() {
        return end(alloc, context, session, at, tid, snapshot);
    }
    let pending = partitions_written(alloc, context.shape, transaction.writes.as_slice())?;
    send_prepares(alloc, context, transaction, pending.as_slice())?;
    session.waits = Await::Prepared {
        at,
        pending,
        votes: Items::new(alloc),
    };
    Ok(())
}

/// Ends the transaction as left.
fn abandon(
    alloc: Global,
    context: &mut Context,
    session: &mut Session,
    at: u64,
) -> Result<(), Memory>
    requires { IsShape context.old.shape }
    ensures { OnOk result (stays context.new session.new ≡ abandon context.old session.old at session.old.running) }
{
    let Some(transaction) = &session.running else {
        return refuse(alloc, context, session, at, Refusal::NoTransaction);
    };
    let tid = transaction.tid;
    tell_client(alloc, context, session, &Reply::Dropped { at })?;
    context.out.notes.push(Note::Left { tid })?;
    session.running = None;
    Ok(())
}

/// One request.
#[tactic(auto, unfolding(us_model::specs::Sessions::request))]
pub fn perform_request(
    alloc: Global,
    catalog: &Catalog,
    context: &mut Context,
    session: &mut Session,
    at: u64,
    asked: Request,
) -> Result<(), Memory>
    requires { IsShape context.old.shape }
    ensures { OnOk result (stays context.new session.new ≡ request catalog.now context.old session.old at asked) }
{
    match asked {
        Request::Begin => begin(alloc, context, session, at),
        Request::Perform { item, op } => perform(alloc, catalog, context, session, at, item, op),
        Request::CommitCausal => commit(alloc, context, session, at),
        Request::Abandon => abandon(alloc, context, session, at),
        Request::CommitStrong | Request::Barrier | Request::AskToken | Request::Attach { .. } => Ok(
            (),
        ),
    }
}

pub fn waits_for_nothing(session: &Session) -> bool
    ensures { result ≡ is_nothing session.now.waits }
{
    match &session.waits {
        Await::Nothing => true,
        Await::Version { .. } => false,
        Await::Prepared { .. } => false,
    }
}
