//! The partitions' answers come to a session.
ghost use Rattle.std.specs.Prelude.{◌≡◌, ◌<◌, ◌++◌, ◌∷◌, [], ◌==◌, ◌&&◌, not, nat_le, IfOk, OnOk, Some};
ghost use Rattle.std.specs.Option.{option_to_list};
ghost use Rattle.us_base.specs.Shape.{IsShape};
ghost use Rattle.us_value.specs.Lengths.{capped};
ghost use Rattle.std.specs.List.{list_any};
ghost use Rattle.us_kind.specs.Comparison.{tid_eq};
ghost use Rattle.us_model.specs.Sessions.{stays, tell, with_note, with_packets, commits, is_awaited, write_of, writes_length, turned_down};
ghost use Rattle.us_model.specs.Sessions.{recorded_by, version, without, greatest, all_voted, prepared, prepared_in};

use crate::placement::partitions_written;
use crate::session::{end, refuse, send, tell_client};
use std::alloc::Global;
use std::mem;
use us_base::{Limits, Vector};
use us_client_wire::Reply;
use us_exec::Done;
use us_kind::{Items, Memory, Tid};
use us_model::{Await, Context, Note, Refusal, Session, Transaction, Vote};
use us_peer_wire::{Form, Message, Version};
use us_value::{Answer, Effect, Item, Op, Write, write_len};

/// How many bytes the writes of a transaction are encoded in at most.
const MOST_WRITES: usize = Limits::WRITES;

/// The operation that waits for a version: the request that asks for it, its place in the transaction, and what it does.
#[derive(Drop)]
struct Awaited {
    at: u64,
    place: u8,
    item: Item,
    op: Op,
}

/// A transaction's commit that waits: the request that asks for it, the partitions that haven't prepared the transaction, and what
/// the others told.
#[derive(Drop)]
struct Preparing {
    at: u64,
    pending: Items<u8>,
    votes: Items<Vote>,
}

/// Whether the transaction's operation at this place, asked for by this request, waits for the version.
fn awaits(version: &Version, at: u64, place: u8, transaction: &Transaction) -> bool
    ensures { result ≡ is_awaited version.now at place transaction.now }
{
    transaction.tid.same(&version.tid) && at == version.at && place == version.place
}

/// The write that an operation made, if it updates.
fn new_write(item: &Item, place: u8, effect: &Option<Effect>) -> Result<Option<Write>, Memory>
    ensures { IfOk result (λ write. option_to_list write ≡ write_of item.now place effect.now) }
{
    match effect {
        None => Ok(None),
        Some(effect) => Ok(Some(Write {
            item: item.copy()?,
            place,
            effect: effect.copy()?,
        })),
    }
}

/// How many bytes encode these writes.
fn length_of(writes: &[Write]) -> usize
    ensures { result ≡ capped (writes_length writes.now) }
{
    let mut length: usize = 0;
    for write in writes {
        length = length.saturating_add(write_len(write));
    }
    length
}

/// Whether the transaction's writes stay short enough with one more.
#[tactic(auto, using(crate::proofs::Lengths::length_none, crate::proofs::Lengths::length_push))]
fn has_room(writes: &[Write], write: &Option<Write>) -> bool
    ensures { result ≡ nat_le (writes_length (writes.now ++ option_to_list write.now)) 65536 }
{
    match write {
        None => length_of(writes) <= MOST_WRITES,
        Some(write) => length_of(writes).saturating_add(write_len(write)) <= MOST_WRITES,
    }
}

/// An operation with its answer.
fn done(item: &Item, op: &Op, answer: &Answer) -> Result<Done, Memory>
    ensures { IfOk result (λ done. done ≡ record { item = item.now; op = op.now; answer = answer.now }) }
{
    Ok(Done {
        item: item.copy()?,
        op: op.copy()?,
        answer: answer.copy()?,
    })
}

/// The operation is recorded with its answer, and with its write where it updates.
fn record_operation(
    alloc: Global,
    context: &mut Context,
    session: &mut Session,
    asked: &Awaited,
    mut transaction: Transaction,
    answer: &Answer,
    write: Option<Write>,
) -> Result<(), Memory>
    requires { IsShape context.old.shape }
    ensures { OnOk result (stays context.new session.new ≡ stays
        (with_note (tell context.old session.old (Reply.Answered asked.now.at answer.now))
        (Note.Performed transaction.tid (record { item = asked.now.item; op = asked.now.op; answer = answer.now })))
        (record session.old {
          running = Some (record transaction {
            ops = transaction.ops ++ record { item = asked.now.item; op = asked.now.op; answer = answer.now } ∷ [];
            writes = transaction.writes ++ option_to_list write;
          });
          waits = Await.Nothing;
        })) }
{
    let reply = Reply::Answered {
        at: asked.at,
        answer: answer.copy()?,
    };
    tell_client(alloc, context, session, &reply)?;
    context.out.notes.push(Note::Performed {
        tid: transaction.tid,
        done: done(&asked.item, &asked.op, answer)?,
    })?;
    transaction.ops.push(done(&asked.item, &asked.op, answer)?)?;
    if let Some(write) = write {
        transaction.writes.push(write)?;
    }
    session.running = Some(transaction);
    session.waits = Await::Nothing;
    Ok(())
}

/// The operation isn't done: its request is refused, and the transaction is as before.
fn turn_down(
    alloc: Global,
    context: &mut Context,
    session: &mut Session,
    at: u64,
    transaction: Transaction,
    why: Refusal,
) -> Result<(), Memory>
    requires { IsShape context.old.shape }
    ensures { OnOk result (stays context.new session.new ≡ turned_down context.old (record session.old { running = Some transaction }) at why) }
{
    session.running = Some(transaction);
    session.waits = Await::Nothing;
    refuse(alloc, context, session, at, why)
}

/// The operation is answered, unless its write makes the transaction's too long.
fn take_answer(
    alloc: Global,
    context: &mut Context,
    session: &mut Session,
    asked: Awaited,
    transaction: Transaction,
    answer: &Answer,
    effect: &Option<Effect>,
) -> Result<(), Memory>
    requires { IsShape context.old.shape }
    ensures { OnOk result (stays context.new session.new ≡ recorded_by context.old
        (record session.old { running = Some transaction }) asked.at asked.place asked.item asked.op transaction
        (Form.Answered answer.now effect.now)) }
{
    let write = new_write(&asked.item, asked.place, effect)?;
    if !has_room(transaction.writes.as_slice(), &write) {
        return turn_down(
            alloc,
            context,
            session,
            asked.at,
            transaction,
            Refusal::WritesTooLong,
        );
    }
    record_operation(alloc, context, session, &asked, transaction, answer, write)
}

/// The version for which an operation waits comes.
fn take_form(
    alloc: Global,
    context: &mut Context,
    session: &mut Session,
    asked: Awaited,
    transaction: Transaction,
    form: &Form,
) -> Result<(), Memory>
    requires { IsShape context.old.shape }
    ensures { OnOk result (stays context.new session.new ≡ recorded_by context.old
        (record session.old { running = Some transaction }) asked.at asked.place asked.item asked.op transaction form.now) }
{
    match form {
        Form::Answered { answer, effect } => take_answer(
            alloc,
            context,
            session,
            asked,
            transaction,
            answer,
            effect,
        ),
        Form::WritesFull => turn_down(
            alloc,
            context,
            session,
            asked.at,
            transaction,
            Refusal::WritesTooLong,
        ),
        Form::AnswerFull => turn_down(
            alloc,
            context,
            session,
            asked.at,
            transaction,
            Refusal::AnswerTooLong,
        ),
    }
}

/// A version comes: the operation that waits for it is answered or turned down.
#[tactic(auto, unfolding(us_model::specs::Sessions::version))]
pub fn take_version(
    alloc: Global,
    context: &mut Context,
    session: &mut Session,
    received: &Version,
) -> Result<(), Memory>
    requires { IsShape context.old.shape }
    ensures { OnOk result (stays context.new session.new ≡ version received.now context.old session.old) }
{
    match mem::replace(&mut session.waits, Await::Nothing) {
        Await::Version {
            at,
            place,
            item,
            op,
        } => match session.running.take() {
            Some(transaction) => {
                if awaits(received, at, place, &transaction) {
                    let asked = Awaited {
                        at,
                        place,
                        item,
                        op,
                    };
                    return take_form(alloc, context, session, asked, transaction, &received.form);
                }
                session.running = Some(transaction);
                session.waits = Await::Version {
                    at,
                    place,
                    item,
                    op,
                };
            }
            None => {
                session.waits = Await::Version {
                    at,
                    place,
                    item,
                    op,
                };
            }
        },
        waits => session.waits = waits,
    }
    Ok(())
}

/// Whether the partition is one of these.
fn is_pending(pending: &[u8], part: u8) -> bool
    ensures { result ≡ list_any (λ p. p == part) pending.now }
{
    pending.iter().any(|p| *p == part)
}

/// Whether the transaction waits for the partition to have prepared it.
fn awaits_partition(pending: &[u8], part: u8, tid: &Tid, transaction: &Transaction) -> bool
    ensures { result ≡ (tid_eq transaction.now.tid tid.now && list_any (λ p. p == part) pending.now) }
{
    transaction.tid.same(tid) && is_pending(pending, part)
}

/// Whether these are two partitions.
fn is_other(one: u8, part: u8) -> bool
    ensures { result ≡ not (one == part) }
{
    one != part
}

/// The partitions but for one.
fn drop_part(pending: Items<u8>, part: u8) -> Items<u8>
    ensures { result ≡ without part pending }
{
    let mut pending = pending.into_vec();
    pending.retain(|p| is_other(*p, part));
    Items::of(pending)
}

/// The greatest timestamp of the votes.
fn greatest_of(votes: &[Vote]) -> u64
    ensures { result ≡ greatest votes.now }
{
    let mut most = 0;
    for one in votes {
        most = one.ts.max(most);
    }
    most
}

/// Tells each of these partitions that the transaction is committed with this vector.
fn send_commits(context: &mut Context, parts: &[u8], tid: Tid, vector: Vector) -> Result<(), Memory>
    ensures { OnOk result (context.new ≡ with_packets context.old (commits context.old tid vector parts.now)) }
{
    for part in parts {
        send(context, *part, Message::Commit { tid, vector })?;
    }
    Ok(())
}

/// Once no vote is pending, the vector is decided and sent.
fn note_prepared(
    alloc: Global,
    context: &mut Context,
    session: &mut Session,
    transaction: Transaction,
    preparing: Preparing,
) -> Result<(), Memory>
    requires site { context.old.me.site < 10 }
    requires shape { IsShape context.old.shape }
    ensures { OnOk result (stays context.new session.new ≡ all_voted context.old
        (record session.old { running = Some transaction }) preparing.at transaction preparing.pending preparing.votes) }
{
    let Preparing { at, pending, votes } = preparing;
    if !pending.is_empty() {
        session.running = Some(transaction);
        session.waits = Await::Prepared { at, pending, votes };
        return Ok(());
    }
    let tid = transaction.tid;
    let vector = transaction
        .snapshot
        .with_entry(context.me.site, greatest_of(votes.as_slice()));
    let parts = partitions_written(alloc, context.shape, transaction.writes.as_slice())?;
    send_commits(context, parts.as_slice(), tid, vector)?;
    end(alloc, context, session, at, tid, vector)
}

/// A partition tells a session whose transaction is being committed. What waits, and the transaction, were taken out of
/// the session.
fn hear_prepared(
    alloc: Global,
    context: &mut Context,
    session: &mut Session,
    one: Vote,
    tid: &Tid,
    transaction: Transaction,
    preparing: Preparing,
) -> Result<(), Memory>
    requires site { context.old.me.site < 10 }
    requires shape { IsShape context.old.shape }
    ensures { OnOk result (stays context.new session.new ≡ prepared_in one.part tid.now one.ts context.old
        (record session.old { running = Some transaction; waits = Await.Prepared preparing.at preparing.pending preparing.votes })
        (Await.Prepared preparing.at preparing.pending preparing.votes) (Some transaction)) }
{
    let Preparing {
        at,
        pending,
        mut votes,
    } = preparing;
    if !awaits_partition(pending.as_slice(), one.part, tid, &transaction) {
        session.running = Some(transaction);
        session.waits = Await::Prepared { at, pending, votes };
        return Ok(());
    }
    votes.push(one)?;
    let pending = drop_part(pending, one.part);
    let preparing = Preparing { at, pending, votes };
    note_prepared(alloc, context, session, transaction, preparing)
}

/// A partition tells under which timestamp it has prepared a transaction.
#[tactic(auto, unfolding(us_model::specs::Sessions::prepared))]
pub fn take_prepared(
    alloc: Global,
    context: &mut Context,
    session: &mut Session,
    one: Vote,
    tid: &Tid,
) -> Result<(), Memory>
    requires site { context.old.me.site < 10 }
    requires shape { IsShape context.old.shape }
    ensures { OnOk result (stays context.new session.new ≡ prepared one.part tid.now one.ts context.old session.old) }
{
    match mem::replace(&mut session.waits, Await::Nothing) {
        Await::Prepared { at, pending, votes } => match session.running.take() {
            Some(transaction) => {
                let preparing = Preparing { at, pending, votes };
                hear_prepared(alloc, context, session, one, tid, transaction, preparing)
            }
            None => {
                session.waits = Await::Prepared { at, pending, votes };
                Ok(())
            }
        },
        waits => {
            session.waits = waits;
            Ok(())
        }
    }
}
