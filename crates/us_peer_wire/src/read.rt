ghost use Rattle.std.specs.Prelude.{◌≡◌, ◌<◌, ◌⊎◌, IfOk, IfSome, IsOk, Ok, Err, None, Some, slice_get};
ghost use Rattle.us_base.specs.Shape.{IsShape, sites_of};
ghost use Rattle.us_fields.specs.declared.fault.DecodeFault.{DecodeFault};
ghost use Rattle.us_fields.specs.DecodeResult.{Tells};
ghost use Rattle.us_wire.specs.Decoders.{number_between_at};
ghost use Rattle.std.specs.Int.{w8};
ghost use Rattle.us_peer_wire.specs.declared.message.Packet.{Packet};
ghost use Rattle.us_peer_wire.specs.Parts.{actor_at, maybe_at, form_fields_at, form_at, end_fields_at, end_at};
ghost use Rattle.us_peer_wire.specs.Messages.{a_number, get_at, version_at, prepare_at, prepared_at, commit_at, replicate_at, known_local_at, outcome_at, deliver_at, promise_at, new_state_at, accept_at, accepted_at, learn_at, early_fields_at, late_fields_at, message_fields_at};
ghost use Rattle.us_peer_wire.specs.Packets.{packet_fields_at, packet_of, packet_encoding, PacketFits};

use crate::codes::{end_code, form_code, tag};
use crate::{Actor, Form, LogEntry, Message, Outcome, OutcomeEnd, Packet, Page, Version};
use std::alloc::Global;
use us_base::{Limits, Shape, Vector};
use us_fields::{
    DecodeFault, Field, Order, are_in_order, found, take_answer, take_item, take_list, take_op,
    take_writes,
};
use us_kind::{Items, Tid};
use us_migrate::{take_tid, take_vector};
use us_value::{Effect, Write};
use us_wire::{open_frame, take_number, take_u8, take_u8_between};

/// How many slots one packet tells of at most.
const SLOTS: u16 = Limits::SLOTS as u16;

/// How many transactions one packet replicates at most.
const REPLICATED: u16 = Limits::REPLICATED as u16;

/// An actor of a store of this shape, and the place behind it.
#[tactic(auto, unfolding(crate::specs::Parts::actor_at))]
fn actor_in(input: &[u8], at: usize, shape: Shape) -> Option<(Actor, usize)>
    requires { IsShape shape }
    ensures { result ≡ actor_at shape input.now at }
{
    let (site, at) = take_u8_between(input, at, 1, shape.sites())?;
    let (actor, next) = take_u8_between(input, at, 0, shape.parts)?;
    Some((Actor { site, actor }, next))
}

/// A number of at most 2^62, and the place behind it.
fn number_in(input: &[u8], at: usize) -> Result<(u64, usize), DecodeFault>
    ensures { Tells result (a_number input.now at) }
{
    found(take_number(input, at, 0))
}

#[tactic(auto, unfolding(crate::specs::Messages::get_at))]
fn get_in(
    alloc: Global,
    input: &[u8],
    at: usize,
    shape: Shape,
) -> Result<(Message, usize), DecodeFault>
    requires { IsShape shape }
    ensures { Tells result (get_at shape input.now at) }
{
    let (tid, next) = found(take_tid(input, at, shape))?;
    let (place, next) = found(take_u8(input, next))?;
    let (at, next) = number_in(input, next)?;
    let (snapshot, next) = found(take_vector(input, next, shape))?;
    let (item, next) = take_item(alloc, input, next)?;
    let (op, next) = take_op(alloc, input, next)?;
    let (own, next) = take_list::<(u8, Effect)>(alloc, input, next, 0, u16::MAX, shape)?;
    let message = Message::Get {
        tid,
        place,
        at,
        snapshot,
        item,
        op,
        own,
    };
    Ok((message, next))
}

/// The effect of a list of at most one.
fn first_of(mut effects: Items<Effect>) -> Option<Effect>
    ensures { result ≡ slice_get effects 0 }
{
    if effects.is_empty() {
        return None;
    }
    Some(effects.remove(0))
}

/// An effect or none, as a list of at most one.
#[tactic(auto, unfolding(crate::specs::Parts::maybe_at))]
fn maybe_in(
    alloc: Global,
    input: &[u8],
    at: usize,
    shape: Shape,
) -> Result<(Option<Effect>, usize), DecodeFault>
    requires { IsShape shape }
    ensures { Tells result (maybe_at shape input.now at) }
{
    let (effects, next) = take_list::<Effect>(alloc, input, at, 0, 1, shape)?;
    Ok((first_of(effects), next))
}

/// The fields of the form with this code.
#[tactic(auto, unfolding(crate::specs::Parts::form_fields_at))]
fn form_fields_in(
    alloc: Global,
    code: u8,
    input: &[u8],
    at: usize,
    shape: Shape,
) -> Result<(Form, usize), DecodeFault>
    requires { IsShape shape }
    ensures { Tells result (form_fields_at shape code input.now at) }
{
    match code {
        form_code::ANSWERED => {
            let (answer, at) = take_answer(alloc, input, at)?;
            let (effect, next) = maybe_in(alloc, input, at, shape)?;
            Ok((Form::Answered { answer, effect }, next))
        }
        form_code::WRITES_FULL => Ok((Form::WritesFull, at)),
        form_code::ANSWER_FULL => Ok((Form::AnswerFull, at)),
        _ => Err(DecodeFault::Malformed),
    }
}

#[tactic(auto, unfolding(crate::specs::Parts::form_at))]
fn form_in(
    alloc: Global,
    input: &[u8],
    at: usize,
    shape: Shape,
) -> Result<(Form, usize), DecodeFault>
    requires { IsShape shape }
    ensures { Tells result (form_at shape input.now at) }
{
    let (code, at) = found(take_u8(input, at))?;
    form_fields_in(alloc, code, input, at, shape)
}

#[tactic(auto, unfolding(crate::specs::Messages::version_at))]
fn version_in(
    alloc: Global,
    input: &[u8],
    at: usize,
    shape: Shape,
) -> Result<(Message, usize), DecodeFault>
    requires { IsShape shape }
    ensures { Tells result (version_at shape input.now at) }
{
    let (tid, next) = found(take_tid(input, at, shape))?;
    let (place, next) = found(take_u8(input, next))?;
    let (at, next) = number_in(input, next)?;
    let (form, next) = form_in(alloc, input, next, shape)?;
    let version = Version {
        tid,
        place,
        at,
        form,
    };
    Ok((Message::Version { version }, next))
}

#[tactic(auto, unfolding(crate::specs::Messages::prepare_at))]
fn prepare_in(
    alloc: Global,
    input: &[u8],
    at: usize,
    shape: Shape,
) -> Result<(Message, usize), DecodeFault>
    requires { IsShape shape }
    ensures { Tells result (prepare_at shape input.now at) }
{
    let (tid, at) = found(take_tid(input, at, shape))?;
    let (snapshot, at) = found(take_vector(input, at, shape))?;
    let (writes, next) = take_writes(alloc, input, at, shape)?;
    let message = Message::Prepare {
        tid,
        snapshot,
        writes,
    };
    Ok((message, next))
}

#[tactic(auto, unfolding(crate::specs::Messages::prepared_at))]
fn prepared_in(input: &[u8], at: usize, shape: Shape) -> Result<(Message, usize), DecodeFault>
    requires { IsShape shape }
    ensures { Tells result (prepared_at shape input.now at) }
{
    let (tid, at) = found(take_tid(input, at, shape))?;
    let (ts, next) = number_in(input, at)?;
    Ok((Message::Prepared { tid, ts }, next))
}

#[tactic(auto, unfolding(crate::specs::Messages::commit_at))]
fn commit_in(input: &[u8], at: usize, shape: Shape) -> Result<(Message, usize), DecodeFault>
    requires { IsShape shape }
    ensures { Tells result (commit_at shape input.now at) }
{
    let (tid, at) = found(take_tid(input, at, shape))?;
    let (vector, next) = found(take_vector(input, at, shape))?;
    Ok((Message::Commit { tid, vector }, next))
}

/// Replicated transactions ascend by the entry of their origin, where equal ones may stand.
#[derive(Drop)]
struct ByEntry {
    origin: u8,
    ghost is_entry: { origin < 10 },
}

impl Order<(Tid, Vector, Items<Write>)> for ByEntry {
    ghost use Rattle.us_fields.specs.Tuples.{committed_before};

    ghost before = { λ order. committed_before order.origin };

    fn may_precede(
        &self,
        item: &(Tid, Vector, Items<Write>),
        next: &(Tid, Vector, Items<Write>),
    ) -> bool {
        item.1.get(self.origin) <= next.1.get(self.origin)
    }
}

/// The site at which replicated transactions were committed, which is the place of an entry, and the place behind it.
fn origin_in(input: &[u8], at: usize, shape: Shape) -> Option<(u8, usize)>
    requires { IsShape shape }
    ensures read { result ≡ number_between_at w8 1 (sites_of shape) input.now at }
    ensures entry { IfSome result (λ read. read.0 < 10) }
{
    take_u8_between(input, at, 1, shape.sites())
}

#[tactic(auto, unfolding(crate::specs::Messages::replicate_at))]
fn replicate_in(
    alloc: Global,
    input: &[u8],
    at: usize,
    shape: Shape,
) -> Result<(Message, usize), DecodeFault>
    requires { IsShape shape }
    ensures { Tells result (replicate_at shape input.now at) }
{
    let (origin, at) = found(origin_in(input, at, shape))?;
    let (lo, at) = number_in(input, at)?;
    let (hi, at) = number_in(input, at)?;
    let (txs, next) = take_list::<(Tid, Vector, Items<Write>)>(
        alloc, input, at, 0, REPLICATED, shape,
    )?;
    if !are_in_order(&ByEntry { origin }, txs.as_slice()) {
        return Err(DecodeFault::Malformed);
    }
    let message = Message::Replicate {
        origin,
        lo,
        hi,
        txs,
    };
    Ok((message, next))
}

#[tactic(auto, unfolding(crate::specs::Messages::known_local_at))]
fn known_local_in(input: &[u8], at: usize, shape: Shape) -> Result<(Message, usize), DecodeFault>
    requires { IsShape shape }
    ensures { Tells result (known_local_at shape input.now at) }
{
    let (known, at) = found(take_vector(input, at, shape))?;
    let (horizon, next) = found(take_vector(input, at, shape))?;
    Ok((Message::KnownLocal { known, horizon }, next))
}

/// The fields of the message with this tag, of the first nine.
#[tactic(auto, unfolding(crate::specs::Messages::early_fields_at))]
fn early_fields_in(
    alloc: Global,
    number: u8,
    input: &[u8],
    at: usize,
    shape: Shape,
) -> Result<(Message, usize), DecodeFault>
    requires { IsShape shape }
    ensures { Tells result (early_fields_at shape number input.now at) }
{
    match number {
        tag::GET => get_in(alloc, input, at, shape),
        tag::VERSION => version_in(alloc, input, at, shape),
        tag::PREPARE => prepare_in(alloc, input, at, shape),
        tag::PREPARED => prepared_in(input, at, shape),
        tag::COMMIT => commit_in(input, at, shape),
        tag::REPLICATE => replicate_in(alloc, input, at, shape),
        tag::KNOWN_LOCAL => known_local_in(input, at, shape),
        tag::STABLE => match take_vector(input, at, shape) {
            Some((vector, next)) => Ok((Message::Stable { vector }, next)),
            None => Err(DecodeFault::Malformed),
        },
        tag::KNOWN_GLOBAL => match take_vector(input, at, shape) {
            Some((vector, next)) => Ok((Message::KnownGlobal { vector }, next)),
            None => Err(DecodeFault::Malformed),
        },
        _ => Err(DecodeFault::Malformed),
    }
}

/// The fields of the end with this code.
#[tactic(auto, unfolding(crate::specs::Parts::end_fields_at))]
fn end_fields_in(
    alloc: Global,
    code: u8,
    input: &[u8],
    at: usize,
    shape: Shape,
) -> Result<(OutcomeEnd, usize), DecodeFault>
    requires { IsShape shape }
    ensures { Tells result (end_fields_at shape code input.now at) }
{
    match code {
        end_code::COMMIT => Ok((OutcomeEnd::Commit, at)),
        end_code::ABORT => {
            let (named, at) = found(take_tid(input, at, shape))?;
            let (item, next) = take_item(alloc, input, at)?;
            Ok((OutcomeEnd::Abort { named, item }, next))
        }
        _ => Err(DecodeFault::Malformed),
    }
}

#[tactic(auto, unfolding(crate::specs::Parts::end_at))]
fn end_in(
    alloc: Global,
    input: &[u8],
    at: usize,
    shape: Shape,
) -> Result<(OutcomeEnd, usize), DecodeFault>
    requires { IsShape shape }
    ensures { Tells result (end_at shape input.now at) }
{
    let (code, at) = found(take_u8(input, at))?;
    end_fields_in(alloc, code, input, at, shape)
}

#[tactic(auto, unfolding(crate::specs::Messages::outcome_at))]
fn outcome_in(
    alloc: Global,
    input: &[u8],
    at: usize,
    shape: Shape,
) -> Result<(Message, usize), DecodeFault>
    requires { IsShape shape }
    ensures { Tells result (outcome_at shape input.now at) }
{
    let (tid, at) = found(take_tid(input, at, shape))?;
    let (slot, at) = number_in(input, at)?;
    let (end, next) = end_in(alloc, input, at, shape)?;
    let outcome = Outcome { tid, slot, end };
    Ok((Message::Outcome { outcome }, next))
}

#[tactic(auto, unfolding(crate::specs::Messages::deliver_at))]
fn deliver_in(
    alloc: Global,
    input: &[u8],
    at: usize,
    shape: Shape,
) -> Result<(Message, usize), DecodeFault>
    requires { IsShape shape }
    ensures { Tells result (deliver_at shape input.now at) }
{
    let (first, at) = number_in(input, at)?;
    let (pages, next) = take_list::<Page>(alloc, input, at, 1, SLOTS, shape)?;
    Ok((Message::Deliver { first, pages }, next))
}

#[tactic(auto, unfolding(crate::specs::Messages::promise_at))]
fn promise_in(
    alloc: Global,
    input: &[u8],
    at: usize,
    shape: Shape,
) -> Result<(Message, usize), DecodeFault>
    requires { IsShape shape }
    ensures { Tells result (promise_at shape input.now at) }
{
    let (ballot, at) = number_in(input, at)?;
    let (accepted, at) = number_in(input, at)?;
    let (base, at) = number_in(input, at)?;
    let (tail, next) = take_list::<LogEntry>(alloc, input, at, 0, SLOTS, shape)?;
    let message = Message::Promise {
        ballot,
        accepted,
        base,
        tail,
    };
    Ok((message, next))
}

#[tactic(auto, unfolding(crate::specs::Messages::new_state_at))]
fn new_state_in(
    alloc: Global,
    input: &[u8],
    at: usize,
    shape: Shape,
) -> Result<(Message, usize), DecodeFault>
    requires { IsShape shape }
    ensures { Tells result (new_state_at shape input.now at) }
{
    let (ballot, at) = number_in(input, at)?;
    let (base, at) = number_in(input, at)?;
    let (tail, next) = take_list::<LogEntry>(alloc, input, at, 0, SLOTS, shape)?;
    Ok((Message::NewState { ballot, base, tail }, next))
}

#[tactic(auto, unfolding(crate::specs::Messages::accept_at))]
fn accept_in(
    alloc: Global,
    input: &[u8],
    at: usize,
    shape: Shape,
) -> Result<(Message, usize), DecodeFault>
    requires { IsShape shape }
    ensures { Tells result (accept_at shape input.now at) }
{
    let (ballot, at) = number_in(input, at)?;
    let (slot, at) = number_in(input, at)?;
    let (entry, next) = LogEntry::take(alloc, input, at, shape)?;
    let message = Message::Accept {
        ballot,
        slot,
        entry,
    };
    Ok((message, next))
}

#[tactic(auto, unfolding(crate::specs::Messages::accepted_at))]
fn accepted_in(input: &[u8], at: usize) -> Result<(Message, usize), DecodeFault>
    ensures { Tells result (accepted_at input.now at) }
{
    let (ballot, at) = number_in(input, at)?;
    let (length, next) = number_in(input, at)?;
    Ok((Message::Accepted { ballot, length }, next))
}

#[tactic(auto, unfolding(crate::specs::Messages::learn_at))]
fn learn_in(
    alloc: Global,
    input: &[u8],
    at: usize,
    shape: Shape,
) -> Result<(Message, usize), DecodeFault>
    requires { IsShape shape }
    ensures { Tells result (learn_at shape input.now at) }
{
    let (first, at) = number_in(input, at)?;
    let (entries, next) = take_list::<LogEntry>(alloc, input, at, 1, SLOTS, shape)?;
    Ok((Message::Learn { first, entries }, next))
}

/// The fields of the message with this tag, from the tenth on.
#[tactic(auto, unfolding(crate::specs::Messages::late_fields_at))]
fn late_fields_in(
    alloc: Global,
    number: u8,
    input: &[u8],
    at: usize,
    shape: Shape,
) -> Result<(Message, usize), DecodeFault>
    requires { IsShape shape }
    ensures { Tells result (late_fields_at shape number input.now at) }
{
    match number {
        tag::SUBMIT => {
            let (entry, next) = LogEntry::take(alloc, input, at, shape)?;
            Ok((Message::Submit { entry }, next))
        }
        tag::OUTCOME => outcome_in(alloc, input, at, shape),
        tag::DELIVER => deliver_in(alloc, input, at, shape),
        tag::NEW_BALLOT => {
            let (ballot, next) = number_in(input, at)?;
            Ok((Message::NewBallot { ballot }, next))
        }
        tag::PROMISE => promise_in(alloc, input, at, shape),
        tag::NEW_STATE => new_state_in(alloc, input, at, shape),
        tag::ACCEPT => accept_in(alloc, input, at, shape),
        tag::ACCEPTED => accepted_in(input, at),
        tag::CATCH_UP => {
            let (length, next) = number_in(input, at)?;
            Ok((Message::CatchUp { length }, next))
        }
        tag::LEARN => learn_in(alloc, input, at, shape),
        _ => Err(DecodeFault::Malformed),
    }
}

/// The fields of the message with this tag.
#[tactic(auto, unfolding(crate::specs::Messages::message_fields_at))]
fn message_fields_in(
    alloc: Global,
    number: u8,
    input: &[u8],
    at: usize,
    shape: Shape,
) -> Result<(Message, usize), DecodeFault>
    requires { IsShape shape }
    ensures { Tells result (message_fields_at shape number input.now at) }
{
    if number < tag::SUBMIT {
        return early_fields_in(alloc, number, input, at, shape);
    }
    late_fields_in(alloc, number, input, at, shape)
}

/// The fields of the packet with this tag.
#[tactic(auto, unfolding(crate::specs::Packets::packet_fields_at))]
fn packet_fields_in(
    alloc: Global,
    number: u8,
    input: &[u8],
    at: usize,
    shape: Shape,
) -> Result<(Packet, usize), DecodeFault>
    requires { IsShape shape }
    ensures { Tells result (packet_fields_at shape number input.now at) }
{
    let (from, at) = found(actor_in(input, at, shape))?;
    let (to, at) = found(actor_in(input, at, shape))?;
    let (message, next) = message_fields_in(alloc, number, input, at, shape)?;
    Ok((Packet { from, to, message }, next))
}

/// The packet that a whole frame is.
#[tactic(auto, unfolding(crate::specs::Packets::packet_of, us_wire::specs::Whole::frame_of))]
fn packet_in(alloc: Global, frame: &[u8], shape: Shape) -> Result<Packet, DecodeFault>
    requires { IsShape shape }
    ensures { Tells result (packet_of shape frame.now) }
{
    let (number, at) = found(open_frame(frame))?;
    let (packet, next) = packet_fields_in(alloc, number, frame, at, shape)?;
    if next != frame.len() {
        return Err(DecodeFault::Malformed);
    }
    Ok(packet)
}

/// The packet that a whole frame is in a store of this shape: Malformed exactly where the frame is no packet's encoding.
pub fn decode(alloc: Global, frame: &[u8], shape: Shape) -> Result<Packet, DecodeFault>
    requires { IsShape shape }
    ensures decoded { IfOk result (λ packet. packet_of shape frame.now ≡ Some packet) }
    ensures malformed { result ≡ Err DecodeFault.Malformed → packet_of shape frame.now ≡ None }
    ensures refused { packet_of shape frame.now ≡ None → IsOk result → ⊥ }
    ensures is_encoding { IfOk result (λ packet. (frame.now ≡ packet_encoding shape packet) × PacketFits shape packet) }
    ensures no_encoding { result ≡ Err DecodeFault.Malformed → (packet : Packet) → PacketFits shape packet → frame.now ≡ packet_encoding shape packet → ⊥ }
    ensures encoding_is_read { (packet : Packet) → PacketFits shape packet → frame.now ≡ packet_encoding shape packet → (result ≡ Ok packet) ⊎ (result ≡ Err DecodeFault.Memory) }
{
    packet_in(alloc, frame, shape)
}
