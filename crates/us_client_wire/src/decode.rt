ghost use Rattle.std.specs.Prelude.{◌≡◌, ◌⊎◌, ◌≤◌, IfOk, IsOk, Ok, Err, None, Some};
ghost use Rattle.us_base.specs.Shape.{IsShape};
ghost use Rattle.us_client_wire.specs.declared.frame.Request.{Request};
ghost use Rattle.us_client_wire.specs.declared.frame.Reply.{Reply};
ghost use Rattle.us_fields.specs.DecodeResult.{Tells};
ghost use Rattle.us_client_wire.specs.Requests.{perform_at, request_fields_at, request_of, request_encoding, RequestFits};
ghost use Rattle.us_client_wire.specs.Replies.{aborted_at, body_at, reply_fields_at, reply_of, reply_encoding, ReplyFits};

use crate::frame::{CAUSES, tag};
use crate::{DecodeFault, Reply, Request};
use std::alloc::Global;
use us_base::Shape;
use us_fields::{take_answer, take_item, take_op};
use us_migrate::{read_token, take_tid};
use us_wire::{open_frame, take_u8_between, take_u64};

/// An item and an operation on it.
#[tactic(auto, unfolding(crate::specs::Requests::perform_at))]
fn perform_in(alloc: Global, input: &[u8], at: usize) -> Result<(Request, usize), DecodeFault>
    ensures { Tells result (perform_at input.now at) }
{
    let (item, at) = take_item(alloc, input, at)?;
    let (op, next) = take_op(alloc, input, at)?;
    Ok((Request::Perform { item, op }, next))
}

/// The fields of the request with this tag.
#[tactic(auto, unfolding(crate::specs::Requests::request_fields_at))]
fn request_fields_in(
    alloc: Global,
    number: u8,
    input: &[u8],
    at: usize,
    shape: Shape,
) -> Result<(Request, usize), DecodeFault>
    requires { IsShape shape }
    ensures { Tells result (request_fields_at shape number input.now at) }
{
    match number {
        tag::BEGIN => Ok((Request::Begin, at)),
        tag::PERFORM => perform_in(alloc, input, at),
        tag::COMMIT_CAUSAL => Ok((Request::CommitCausal, at)),
        tag::COMMIT_STRONG => Ok((Request::CommitStrong, at)),
        tag::ABANDON => Ok((Request::Abandon, at)),
        tag::BARRIER => Ok((Request::Barrier, at)),
        tag::ASK_TOKEN => Ok((Request::AskToken, at)),
        tag::ATTACH => match read_token(input, at, shape) {
            Some((token, next)) => Ok((Request::Attach { token }, next)),
            None => Err(DecodeFault::Malformed),
        },
        _ => Err(DecodeFault::Malformed),
    }
}

/// The request that a whole frame is.
#[tactic(auto, unfolding(crate::specs::Requests::request_of, us_wire::specs::Whole::frame_of))]
fn request_in(alloc: Global, frame: &[u8], shape: Shape) -> Result<Request, DecodeFault>
    requires { IsShape shape }
    ensures { Tells result (request_of shape frame.now) }
{
    let Some((number, at)) = open_frame(frame) else {
        return Err(DecodeFault::Malformed);
    };
    let (request, next) = request_fields_in(alloc, number, frame, at, shape)?;
    if next != frame.len() {
        return Err(DecodeFault::Malformed);
    }
    Ok(request)
}

/// An item on which a transaction conflicts with the one that is named.
#[tactic(auto, unfolding(crate::specs::Replies::aborted_at))]
fn aborted_in(
    alloc: Global,
    at: u64,
    input: &[u8],
    place: usize,
    shape: Shape,
) -> Result<(Reply, usize), DecodeFault>
    requires { IsShape shape }
    ensures { Tells result (aborted_at shape at input.now place) }
{
    let Some((named, place)) = take_tid(input, place, shape) else {
        return Err(DecodeFault::Malformed);
    };
    let (item, next) = take_item(alloc, input, place)?;
    Ok((Reply::Aborted { at, named, item }, next))
}

/// What the reply with this tag tells of frame `at`.
#[tactic(auto, unfolding(crate::specs::Replies::body_at))]
fn told_in(
    alloc: Global,
    number: u8,
    at: u64,
    input: &[u8],
    place: usize,
    shape: Shape,
) -> Result<(Reply, usize), DecodeFault>
    requires { IsShape shape }
    ensures { Tells result (body_at shape number at input.now place) }
{
    match number {
        tag::STARTED => match take_tid(input, place, shape) {
            Some((tid, next)) => Ok((Reply::Started { at, tid }, next)),
            None => Err(DecodeFault::Malformed),
        },
        tag::ANSWERED => {
            let (answer, next) = take_answer(alloc, input, place)?;
            Ok((Reply::Answered { at, answer }, next))
        }
        tag::COMMITTED => match take_u64(input, place) {
            Some((count, next)) => Ok((Reply::Committed { at, count }, next)),
            None => Err(DecodeFault::Malformed),
        },
        tag::ABORTED => aborted_in(alloc, at, input, place, shape),
        tag::DROPPED => Ok((Reply::Dropped { at }, place)),
        tag::PASSED => Ok((Reply::Passed { at }, place)),
        tag::TOKEN_IS => match read_token(input, place, shape) {
            Some((token, next)) => Ok((Reply::TokenIs { at, token }, next)),
            None => Err(DecodeFault::Malformed),
        },
        tag::ATTACHED => Ok((Reply::Attached { at }, place)),
        tag::REFUSED => match take_u8_between(input, place, 1, CAUSES) {
            Some((number, next)) => Ok((Reply::Refused { at, number }, next)),
            None => Err(DecodeFault::Malformed),
        },
        _ => Err(DecodeFault::Malformed),
    }
}

/// The fields of the reply with this tag.
#[tactic(auto, unfolding(crate::specs::Replies::reply_fields_at))]
fn reply_fields_in(
    alloc: Global,
    number: u8,
    input: &[u8],
    place: usize,
    shape: Shape,
) -> Result<(Reply, usize), DecodeFault>
    requires { IsShape shape }
    ensures { Tells result (reply_fields_at shape number input.now place) }
{
    let Some((at, place)) = take_u64(input, place) else {
        return Err(DecodeFault::Malformed);
    };
    told_in(alloc, number, at, input, place, shape)
}

/// The reply that a whole frame is.
#[tactic(auto, unfolding(crate::specs::Replies::reply_of, us_wire::specs::Whole::frame_of))]
fn reply_in(alloc: Global, frame: &[u8], shape: Shape) -> Result<Reply, DecodeFault>
    requires { IsShape shape }
    ensures { Tells result (reply_of shape frame.now) }
{
    let Some((number, at)) = open_frame(frame) else {
        return Err(DecodeFault::Malformed);
    };
    let (reply, next) = reply_fields_in(alloc, number, frame, at, shape)?;
    if next != frame.len() {
        return Err(DecodeFault::Malformed);
    }
    Ok(reply)
}

/// The request that a whole frame is in a store of this shape: Malformed exactly where the frame is no request's
/// encoding.
pub fn decode_request(alloc: Global, frame: &[u8], shape: Shape) -> Result<Request, DecodeFault>
    requires { IsShape shape }
    ensures decoded { IfOk result (λ request. request_of shape frame.now ≡ Some request) }
    ensures malformed { result ≡ Err DecodeFault.Malformed → request_of shape frame.now ≡ None }
    ensures refused { request_of shape frame.now ≡ None → IsOk result → ⊥ }
    ensures is_encoding { IfOk result (λ request. (frame.now ≡ request_encoding shape request) × RequestFits shape request) }
    ensures no_encoding { result ≡ Err DecodeFault.Malformed → (request : Request) → RequestFits shape request → frame.now ≡ request_encoding shape request → ⊥ }
    ensures encoding_is_read { (request : Request) → RequestFits shape request → frame.now ≡ request_encoding shape request → (result ≡ Ok request) ⊎ (result ≡ Err DecodeFault.Memory) }
{
    request_in(alloc, frame, shape)
}

/// The reply that a whole frame is in a store of this shape: Malformed exactly where the frame is no reply's encoding.
pub fn decode_reply(alloc: Global, frame: &[u8], shape: Shape) -> Result<Reply, DecodeFault>
    requires { IsShape shape }
    ensures decoded { IfOk result (λ reply. reply_of shape frame.now ≡ Some reply) }
    ensures malformed { result ≡ Err DecodeFault.Malformed → reply_of shape frame.now ≡ None }
    ensures refused { reply_of shape frame.now ≡ None → IsOk result → ⊥ }
    ensures is_encoding { IfOk result (λ reply. (frame.now ≡ reply_encoding shape reply) × ReplyFits shape reply) }
    ensures no_encoding { result ≡ Err DecodeFault.Malformed → (reply : Reply) → ReplyFits shape reply → frame.now ≡ reply_encoding shape reply → ⊥ }
    ensures encoding_is_read { (reply : Reply) → ReplyFits shape reply → frame.now ≡ reply_encoding shape reply → (result ≡ Ok reply) ⊎ (result ≡ Err DecodeFault.Memory) }
{
    reply_in(alloc, frame, shape)
}
