//! Replies are encoded.
ghost use Rattle.std.specs.Prelude.{◌≡◌, ◌≤◌, IfOk, IsTrue};
ghost use Rattle.us_base.specs.Shape.{IsShape};
ghost use Rattle.us_migrate.specs.Encodings.{TidFits};
ghost use Rattle.us_value.specs.Lengths.{answer_length};
ghost use Rattle.us_client_wire.specs.Fields.{AnswerFits};
ghost use Rattle.us_client_wire.specs.Replies.{reply_encoding, ReplyFits};

use std::alloc::Global;
use us_base::{Limits, Shape};
use us_client_wire::{Reply, answer_fits, encode_reply};
use us_kind::{Bytes, Memory, Tid};
use us_value::{Answer, answer_len};

/// How many bytes an answer is encoded in at most.
const MOST_ANSWER: usize = Limits::ANSWER;

/// The greatest number on the wire.
const GREATEST: u64 = Limits::NUMBER;

/// The greatest number of a refusal.
const CAUSES: u8 = 11;

/// A reply's whole frame. One that has no encoding counts as out of memory: none is met (docs/DECISIONS.md).
pub fn encoded(alloc: Global, shape: Shape, reply: &Reply) -> Result<Bytes, Memory>
    requires { IsShape shape }
    ensures { IfOk result (λ bytes. bytes ≡ reply_encoding shape reply.now) }
{
    if has_encoding(shape, reply) {
        Ok(Bytes::of(encode_reply(alloc, reply, shape)?))
    } else {
        Err(Memory)
    }
}

/// Whether the reply is one of those that a site gives so far, and has an encoding.
fn has_encoding(shape: Shape, reply: &Reply) -> bool
    ensures { IsTrue result → ReplyFits shape reply.now }
{
    match reply {
        Reply::Started { at, tid } => is_started(shape, *at, tid),
        Reply::Answered { at, answer } => is_answered(shape, *at, answer),
        Reply::Committed { at, count } => is_committed(shape, *at, *count),
        Reply::Dropped { at } => is_dropped(shape, *at),
        Reply::Refused { at, number } => is_refused(shape, *at, *number),
        Reply::Aborted { .. } => false,
        Reply::Passed { .. } => false,
        Reply::TokenIs { .. } => false,
        Reply::Attached { .. } => false,
    }
}

/// Whether the begin of this transaction can be told.
#[tactic(auto, using(crate::proofs::Fitting::started_fits))]
fn is_started(shape: Shape, at: u64, tid: &Tid) -> bool
    ensures { IsTrue result → ReplyFits shape (Reply.Started at tid.now) }
{
    tid_fits(shape, tid)
}

/// Whether this answer can be told.
#[tactic(auto, using(crate::proofs::Fitting::answered_fits))]
fn is_answered(shape: Shape, at: u64, answer: &Answer) -> bool
    ensures { IsTrue result → ReplyFits shape (Reply.Answered at answer.now) }
{
    is_encoded(answer)
}

/// A commit can always be told.
#[tactic(auto, using(crate::proofs::Fitting::committed_fits))]
fn is_committed(shape: Shape, at: u64, count: u64) -> bool
    ensures { IsTrue result → ReplyFits shape (Reply.Committed at count) }
{
    true
}

/// The end of a transaction that is left can always be told.
#[tactic(auto, using(crate::proofs::Fitting::dropped_fits))]
fn is_dropped(shape: Shape, at: u64) -> bool
    ensures { IsTrue result → ReplyFits shape (Reply.Dropped at) }
{
    true
}

/// Whether this number is one of a refusal.
#[tactic(auto, using(crate::proofs::Fitting::refused_fits))]
fn is_refused(shape: Shape, at: u64, number: u8) -> bool
    ensures { IsTrue result → ReplyFits shape (Reply.Refused at number) }
{
    1 <= number && number <= CAUSES
}

/// Whether an answer is short enough and has an encoding.
fn is_encoded(answer: &Answer) -> bool
    ensures short { IsTrue result → answer_length answer.now ≤ 65000 }
    ensures fits { IsTrue result → AnswerFits answer.now }
{
    answer_len(answer) <= MOST_ANSWER && answer_fits(answer)
}

/// Whether the transaction is one of a store of the shape.
fn tid_fits(shape: Shape, tid: &Tid) -> bool
    ensures { IsTrue result → TidFits shape tid.now }
{
    1 <= tid.site
        && u16::from(tid.site) <= 2 * u16::from(shape.f) + 1
        && 1 <= tid.coord
        && tid.coord <= shape.parts
        && 1 <= tid.seq
        && tid.seq <= GREATEST
}
