ghost use Rattle.std.specs.Prelude.{◌≡◌, ◌≤◌, ◌∷◌, ◌++◌, IfOk, option_to_list};
ghost use Rattle.std.specs.Int.{w64, to_be_bytes};
ghost use Rattle.us_base.specs.Shape.{IsShape};
ghost use Rattle.us_migrate.specs.Encodings.{tid_encoding, vector_encoding, TidFits, VectorFits};
ghost use Rattle.us_fields.specs.Lists.{list_encoding};
ghost use Rattle.us_fields.specs.Effects.{effect_encoding};
ghost use Rattle.us_peer_wire.specs.Parts.{actor_encoding, MaybeFits, form_encoding, FormFits, end_encoding, EndFits};
ghost use Rattle.us_peer_wire.specs.Messages.{message_tag, message_fields, MessageFits};
ghost use Rattle.us_peer_wire.specs.Packets.{packet_fields, packet_encoding, PacketFits};

use crate::codes::{end_code, form_code, tag};
use crate::{Actor, Form, Message, OutcomeEnd, Packet};
use std::alloc::Global;
use us_base::{Shape, Vector};
use us_fields::{Field, frame_of, put_answer, put_item, put_list, put_op, put_writes};
use us_kind::{Memory, Tid};
use us_migrate::{put_tid, put_vector};
use us_value::Effect;
use us_wire::{put_u8, put_u16, put_u64};

/// The tag of a message.
fn tag_of(message: &Message) -> u8
    ensures { result ≡ message_tag message.now }
{
    match message {
        Message::Get { .. } => tag::GET,
        Message::Version { .. } => tag::VERSION,
        Message::Prepare { .. } => tag::PREPARE,
        Message::Prepared { .. } => tag::PREPARED,
        Message::Commit { .. } => tag::COMMIT,
        Message::Replicate { .. } => tag::REPLICATE,
        Message::KnownLocal { .. } => tag::KNOWN_LOCAL,
        Message::Stable { .. } => tag::STABLE,
        Message::KnownGlobal { .. } => tag::KNOWN_GLOBAL,
        Message::Submit { .. } => tag::SUBMIT,
        Message::Outcome { .. } => tag::OUTCOME,
        Message::Deliver { .. } => tag::DELIVER,
        Message::NewBallot { .. } => tag::NEW_BALLOT,
        Message::Promise { .. } => tag::PROMISE,
        Message::NewState { .. } => tag::NEW_STATE,
        Message::Accept { .. } => tag::ACCEPT,
        Message::Accepted { .. } => tag::ACCEPTED,
        Message::CatchUp { .. } => tag::CATCH_UP,
        Message::Learn { .. } => tag::LEARN,
    }
}

fn put_actor(mut out: Vec<u8>, actor: Actor) -> Result<Vec<u8>, Memory>
    ensures { IfOk result (λ new. new.items ≡ out.items ++ actor_encoding actor) }
{
    put_u8(&mut out, actor.site)?;
    put_u8(&mut out, actor.actor)?;
    Ok(out)
}

/// An effect or none, as a list of at most one.
#[tactic(auto, unfolding(us_wire::specs::Decoders::many_encoding))]
fn put_maybe(mut out: Vec<u8>, effect: &Option<Effect>, shape: Shape) -> Result<Vec<u8>, Memory>
    requires shape { IsShape shape }
    requires fits { MaybeFits shape effect.now }
    ensures { IfOk result (λ new. new.items ≡ out.items ++ list_encoding effect_encoding (option_to_list effect.now)) }
{
    match effect {
        None => {
            put_u16(&mut out, 0)?;
            Ok(out)
        }
        Some(effect) => {
            put_u16(&mut out, 1)?;
            effect.put(out, shape)
        }
    }
}

fn put_form(mut out: Vec<u8>, form: &Form, shape: Shape) -> Result<Vec<u8>, Memory>
    requires shape { IsShape shape }
    requires fits { FormFits shape form.now }
    ensures { IfOk result (λ new. new.items ≡ out.items ++ form_encoding form.now) }
{
    match form {
        Form::Answered { answer, effect } => {
            put_u8(&mut out, form_code::ANSWERED)?;
            put_maybe(put_answer(out, answer)?, effect, shape)
        }
        Form::WritesFull => {
            put_u8(&mut out, form_code::WRITES_FULL)?;
            Ok(out)
        }
        Form::AnswerFull => {
            put_u8(&mut out, form_code::ANSWER_FULL)?;
            Ok(out)
        }
    }
}

fn put_end(mut out: Vec<u8>, end: &OutcomeEnd, shape: Shape) -> Result<Vec<u8>, Memory>
    requires shape { IsShape shape }
    requires fits { EndFits shape end.now }
    ensures { IfOk result (λ new. new.items ≡ out.items ++ end_encoding end.now) }
{
    match end {
        OutcomeEnd::Commit => {
            put_u8(&mut out, end_code::COMMIT)?;
            Ok(out)
        }
        OutcomeEnd::Abort { named, item } => {
            put_u8(&mut out, end_code::ABORT)?;
            put_tid(&mut out, shape, *named)?;
            put_item(out, item)
        }
    }
}

fn put_number(mut out: Vec<u8>, number: u64) -> Result<Vec<u8>, Memory>
    ensures { IfOk result (λ new. new.items ≡ out.items ++ to_be_bytes w64 number) }
{
    put_u64(&mut out, number)?;
    Ok(out)
}

fn put_a_vector(mut out: Vec<u8>, vector: &Vector, shape: Shape) -> Result<Vec<u8>, Memory>
    requires shape { IsShape shape }
    requires fits { VectorFits shape vector.now }
    ensures { IfOk result (λ new. new.items ≡ out.items ++ vector_encoding shape vector.now) }
{
    put_vector(&mut out, shape, vector)?;
    Ok(out)
}

/// A transaction, and a vector.
fn put_tid_at(mut out: Vec<u8>, tid: Tid, vector: &Vector, shape: Shape) -> Result<Vec<u8>, Memory>
    requires shape { IsShape shape }
    requires tid { TidFits shape tid }
    requires vector { VectorFits shape vector.now }
    ensures { IfOk result (λ new. new.items ≡ out.items ++ (tid_encoding tid ++ vector_encoding shape vector.now)) }
{
    put_tid(&mut out, shape, tid)?;
    put_a_vector(out, vector, shape)
}

/// A transaction, and a number.
fn put_tid_number(mut out: Vec<u8>, tid: Tid, number: u64, shape: Shape) -> Result<Vec<u8>, Memory>
    requires shape { IsShape shape }
    requires tid { TidFits shape tid }
    ensures { IfOk result (λ new. new.items ≡ out.items ++ (tid_encoding tid ++ to_be_bytes w64 number)) }
{
    put_tid(&mut out, shape, tid)?;
    put_number(out, number)
}

/// Which operation a question or its answer is of: the transaction, the place there, and the request that asked.
fn put_asked(
    mut out: Vec<u8>,
    tid: Tid,
    place: u8,
    at: u64,
    shape: Shape,
) -> Result<Vec<u8>, Memory>
    requires shape { IsShape shape }
    requires tid { TidFits shape tid }
    ensures { IfOk result (λ new. new.items ≡ out.items ++ (tid_encoding tid ++ (place ∷ to_be_bytes w64 at))) }
{
    put_tid(&mut out, shape, tid)?;
    put_u8(&mut out, place)?;
    put_number(out, at)
}

/// Two numbers.
fn put_pair(out: Vec<u8>, first: u64, second: u64) -> Result<Vec<u8>, Memory>
    ensures { IfOk result (λ new. new.items ≡ out.items ++ (to_be_bytes w64 first ++ to_be_bytes w64 second)) }
{
    put_number(put_number(out, first)?, second)
}

fn put_message_fields(mut out: Vec<u8>, message: &Message, shape: Shape) -> Result<Vec<u8>, Memory>
    requires shape { IsShape shape }
    requires fits { MessageFits shape message.now }
    ensures { IfOk result (λ new. new.items ≡ out.items ++ message_fields shape message.now) }
{
    match message {
        Message::Get {
            tid,
            place,
            at,
            snapshot,
            item,
            op,
            own,
        } => {
            let out = put_asked(out, *tid, *place, *at, shape)?;
            let out = put_item(put_a_vector(out, snapshot, shape)?, item)?;
            put_list(put_op(out, op)?, own.as_slice(), shape)
        }
        Message::Version { version } => {
            let out = put_asked(out, version.tid, version.place, version.at, shape)?;
            put_form(out, &version.form, shape)
        }
        Message::Prepare {
            tid,
            snapshot,
            writes,
        } => put_writes(put_tid_at(out, *tid, snapshot, shape)?, writes, shape),
        Message::Prepared { tid, ts } => put_tid_number(out, *tid, *ts, shape),
        Message::Commit { tid, vector } => put_tid_at(out, *tid, vector, shape),
        Message::Replicate {
            origin,
            lo,
            hi,
            txs,
        } => {
            put_u8(&mut out, *origin)?;
            put_list(put_pair(out, *lo, *hi)?, txs.as_slice(), shape)
        }
        Message::KnownLocal { known, horizon } => {
            put_a_vector(put_a_vector(out, known, shape)?, horizon, shape)
        }
        Message::Stable { vector } | Message::KnownGlobal { vector } => {
            put_a_vector(out, vector, shape)
        }
        Message::Submit { entry } => entry.put(out, shape),
        Message::Outcome { outcome } => {
            let out = put_tid_number(out, outcome.tid, outcome.slot, shape)?;
            put_end(out, &outcome.end, shape)
        }
        Message::Deliver { first, pages } => {
            put_list(put_number(out, *first)?, pages.as_slice(), shape)
        }
        Message::NewBallot { ballot } => put_number(out, *ballot),
        Message::Promise {
            ballot,
            accepted,
            base,
            tail,
        } => {
            let out = put_number(put_pair(out, *ballot, *accepted)?, *base)?;
            put_list(out, tail.as_slice(), shape)
        }
        Message::NewState { ballot, base, tail } => {
            put_list(put_pair(out, *ballot, *base)?, tail.as_slice(), shape)
        }
        Message::Accept {
            ballot,
            slot,
            entry,
        } => entry.put(put_pair(out, *ballot, *slot)?, shape),
        Message::Accepted { ballot, length } => put_pair(out, *ballot, *length),
        Message::CatchUp { length } => put_number(out, *length),
        Message::Learn { first, entries } => {
            put_list(put_number(out, *first)?, entries.as_slice(), shape)
        }
    }
}

fn put_packet_fields(out: Vec<u8>, packet: &Packet, shape: Shape) -> Result<Vec<u8>, Memory>
    requires shape { IsShape shape }
    requires fits { MessageFits shape packet.now.message }
    ensures { IfOk result (λ new. new.items ≡ out.items ++ packet_fields shape packet.now) }
{
    let out = put_actor(put_actor(out, packet.from)?, packet.to)?;
    put_message_fields(out, &packet.message, shape)
}

/// The whole frame of a packet.
#[tactic(auto, unfolding(crate::specs::Packets::packet_encoding))]
pub fn encode(alloc: Global, packet: &Packet, shape: Shape) -> Result<Vec<u8>, Memory>
    requires shape { IsShape shape }
    requires fits { PacketFits shape packet.now }
    ensures { IfOk result (λ frame. frame.items ≡ packet_encoding shape packet.now) }
{
    let fields = put_packet_fields(Vec::new(alloc), packet, shape)?;
    frame_of(alloc, tag_of(&packet.message), fields.as_slice())
}
