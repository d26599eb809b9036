//! The versions of items that a partition's log tells.
ghost use Rattle.std.specs.Prelude.{◌≡◌, ◌++◌, IfOk, OnOk};
ghost use Rattle.us_value.specs.Values.{answered, prepared};
ghost use Rattle.us_history.specs.States.{after_own};
ghost use Rattle.us_model.specs.Partitions.{state_for, is_too_long, form_for, version_for, versions};

use std::alloc::Global;
use us_base::{Limits, Vector};
use us_kind::{Items, Memory, Stamp, Tag, Tid};
use us_model::Get;
use us_oplog::{OpLog, apply_effect};
use us_peer_wire::{Actor, Form, Message, Packet, Version};
use us_value::{Answer, Catalog, Effect, Kind, Op, State, ValueFault, answer_len, effect_len};

/// The sum under which a transaction's own effects count: above every other.
const OWN_SUM: u128 = u128::MAX;

/// How many bytes an answer is encoded in at most.
const MOST_ANSWER: usize = Limits::ANSWER;

/// How many bytes the writes of a transaction are encoded in at most.
const MOST_WRITES: usize = Limits::WRITES;

/// The versions for the questions whose snapshot is known.
pub fn push_versions(
    alloc: Global,
    me: &Actor,
    catalog: &Catalog,
    known: &Vector,
    log: &OpLog,
    questions: &[Get],
    packets: &mut Items<Packet>,
) -> Result<(), Memory>
    ensures { OnOk result (packets.new ≡ packets.old ++ versions me.now catalog.now known.now log.now.transactions questions.now) }
{
    for question in questions {
        if question.snapshot.at_most(known) {
            packets.push(version_of(alloc, me, catalog, log, question)?)?;
        }
    }
    Ok(())
}

/// The version that a question asks for.
fn version_of(
    alloc: Global,
    me: &Actor,
    catalog: &Catalog,
    log: &OpLog,
    question: &Get,
) -> Result<Packet, Memory>
    ensures { IfOk result (λ packet. packet ≡ version_for me.now catalog.now log.now.transactions question.now) }
{
    let state = state_of(alloc, catalog, log, question)?;
    let tag = Tag {
        tid: question.tid,
        place: question.place,
    };
    let version = Version {
        tid: question.tid,
        place: question.place,
        at: question.at,
        form: form_at(alloc, &state, &question.op, tag)?,
    };
    Ok(Packet {
        from: *me,
        to: Actor {
            site: me.site,
            actor: question.from,
        },
        message: Message::Version { version },
    })
}

/// What a version tells of an operation at a state.
fn form_at(alloc: Global, state: &State, op: &Op, tag: Tag) -> Result<Form, Memory>
    ensures { IfOk result (λ form. form ≡ form_for (answered op.now state.now) (prepared tag op.now state.now)) }
{
    let answer = answer_at(alloc, state, op)?;
    if answer_len(&answer) > MOST_ANSWER {
        return Ok(Form::AnswerFull);
    }
    let effect = effect_at(alloc, state, op, tag)?;
    if is_too_long(&effect) {
        return Ok(Form::WritesFull);
    }
    Ok(Form::Answered { answer, effect })
}

/// Whether the effect is longer than the writes of a transaction may be.
fn is_too_long(effect: &Option<Effect>) -> bool
    ensures { result ≡ is_too_long effect.now }
{
    match effect {
        None => false,
        Some(effect) => effect_len(effect) > MOST_WRITES,
    }
}

/// What an operation answers at a state. One of another kind answers that it is done: none is met, since a question that
/// doesn't fit its space is dropped.
fn answer_at(alloc: Global, state: &State, op: &Op) -> Result<Answer, Memory>
    ensures { IfOk result (λ answer. answer ≡ answered op.now state.now) }
{
    match us_value::answer(alloc, state, op) {
        Ok(answer) => Ok(answer),
        Err(ValueFault::WrongOperation) => Ok(Answer::Done),
        Err(ValueFault::Memory) => Err(Memory),
    }
}

/// The effect of an operation at a state. One of another kind has none, as above.
fn effect_at(alloc: Global, state: &State, op: &Op, tag: Tag) -> Result<Option<Effect>, Memory>
    ensures { IfOk result (λ effect. effect ≡ prepared tag op.now state.now) }
{
    match us_value::prepare(alloc, state, op, tag) {
        Ok(effect) => Ok(effect),
        Err(ValueFault::WrongOperation) => Ok(None),
        Err(ValueFault::Memory) => Err(Memory),
    }
}

/// The state of the question's item at its snapshot, and the transaction's own effects on top.
#[tactic(auto, unfolding(us_model::specs::Partitions::state_for))]
fn state_of(alloc: Global, catalog: &Catalog, log: &OpLog, question: &Get) -> Result<State, Memory>
    ensures { IfOk result (λ state. state ≡ state_for catalog.now log.now.transactions question.now) }
{
    let kind = catalog
        .kind_of(question.item.space)
        .unwrap_or(Kind::Register);
    let mut state = log.read_at(&question.item, kind, &question.snapshot)?;
    apply_own(alloc, &mut state, question.tid, question.own.as_slice())?;
    Ok(state)
}

/// The transaction's own effects, above every other.
fn apply_own(alloc: Global, state: &mut State, tid: Tid, own: &[(u8, Effect)]) -> Result<(), Memory>
    ensures { OnOk result (state.new ≡ after_own tid state.old own.now) }
{
    for (place, effect) in own {
        let stamp = Stamp {
            sum: OWN_SUM,
            tid,
            place: *place,
        };
        apply_effect(alloc, state, effect, stamp)?;
    }
    Ok(())
}
