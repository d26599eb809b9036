ghost use Rattle.std.specs.Prelude.{◌≡◌, ◌≤◌, ◌++◌, IfOk};
ghost use Rattle.us_base.specs.Shape.{IsShape};
ghost use Rattle.us_client_wire.specs.Requests.{request_tag, request_fields, request_encoding, RequestFits};
ghost use Rattle.us_client_wire.specs.Replies.{reply_tag, reply_at, body_encoding, reply_fields, reply_encoding, BodyFits, ReplyFits};

use crate::frame::tag;
use crate::{Reply, Request};
use std::alloc::Global;
use us_base::Shape;
use us_fields::{frame_of, put_answer, put_item, put_op};
use us_kind::Memory;
use us_migrate::{put_tid, write_token};
use us_wire::{put_u8, put_u64};

/// The tag of a request.
fn tag_of_request(request: &Request) -> u8
    ensures { result ≡ request_tag request.now }
{
    match request {
        Request::Begin => tag::BEGIN,
        Request::Perform { .. } => tag::PERFORM,
        Request::CommitCausal => tag::COMMIT_CAUSAL,
        Request::CommitStrong => tag::COMMIT_STRONG,
        Request::Abandon => tag::ABANDON,
        Request::Barrier => tag::BARRIER,
        Request::AskToken => tag::ASK_TOKEN,
        Request::Attach { .. } => tag::ATTACH,
    }
}

fn put_request_fields(mut out: Vec<u8>, request: &Request, shape: Shape) -> Result<Vec<u8>, Memory>
    requires shape { IsShape shape }
    requires fits { RequestFits shape request.now }
    ensures { IfOk result (λ new. new.items ≡ out.items ++ request_fields shape request.now) }
{
    match request {
        Request::Perform { item, op } => put_op(put_item(out, item)?, op),
        Request::Attach { token } => {
            write_token(&mut out, shape, token)?;
            Ok(out)
        }
        Request::Begin
        | Request::CommitCausal
        | Request::CommitStrong
        | Request::Abandon
        | Request::Barrier
        | Request::AskToken => Ok(out),
    }
}

/// The tag of a reply.
fn tag_of_reply(reply: &Reply) -> u8
    ensures { result ≡ reply_tag reply.now }
{
    match reply {
        Reply::Started { .. } => tag::STARTED,
        Reply::Answered { .. } => tag::ANSWERED,
        Reply::Committed { .. } => tag::COMMITTED,
        Reply::Aborted { .. } => tag::ABORTED,
        Reply::Dropped { .. } => tag::DROPPED,
        Reply::Passed { .. } => tag::PASSED,
        Reply::TokenIs { .. } => tag::TOKEN_IS,
        Reply::Attached { .. } => tag::ATTACHED,
        Reply::Refused { .. } => tag::REFUSED,
    }
}

/// The number of the frame that a reply answers.
fn at_of(reply: &Reply) -> u64
    ensures { result ≡ reply_at reply.now }
{
    match reply {
        Reply::Started { at, .. }
        | Reply::Answered { at, .. }
        | Reply::Committed { at, .. }
        | Reply::Aborted { at, .. }
        | Reply::Dropped { at }
        | Reply::Passed { at }
        | Reply::TokenIs { at, .. }
        | Reply::Attached { at }
        | Reply::Refused { at, .. } => *at,
    }
}

fn put_told(mut out: Vec<u8>, reply: &Reply, shape: Shape) -> Result<Vec<u8>, Memory>
    requires shape { IsShape shape }
    requires fits { BodyFits shape reply.now }
    ensures { IfOk result (λ new. new.items ≡ out.items ++ body_encoding shape reply.now) }
{
    match reply {
        Reply::Started { tid, .. } => {
            put_tid(&mut out, shape, *tid)?;
            Ok(out)
        }
        Reply::Answered { answer, .. } => put_answer(out, answer),
        Reply::Committed { count, .. } => {
            put_u64(&mut out, *count)?;
            Ok(out)
        }
        Reply::Aborted { named, item, .. } => {
            put_tid(&mut out, shape, *named)?;
            put_item(out, item)
        }
        Reply::TokenIs { token, .. } => {
            write_token(&mut out, shape, token)?;
            Ok(out)
        }
        Reply::Refused { number, .. } => {
            put_u8(&mut out, *number)?;
            Ok(out)
        }
        Reply::Dropped { .. } | Reply::Passed { .. } | Reply::Attached { .. } => Ok(out),
    }
}

fn put_reply_fields(mut out: Vec<u8>, reply: &Reply, shape: Shape) -> Result<Vec<u8>, Memory>
    requires shape { IsShape shape }
    requires fits { BodyFits shape reply.now }
    ensures { IfOk result (λ new. new.items ≡ out.items ++ reply_fields shape reply.now) }
{
    put_u64(&mut out, at_of(reply))?;
    put_told(out, reply, shape)
}

/// The whole frame of a request.
#[tactic(auto, unfolding(crate::specs::Requests::request_encoding))]
pub fn encode_request(alloc: Global, request: &Request, shape: Shape) -> Result<Vec<u8>, Memory>
    requires shape { IsShape shape }
    requires fits { RequestFits shape request.now }
    ensures { IfOk result (λ frame. frame.items ≡ request_encoding shape request.now) }
{
    let fields = put_request_fields(Vec::new(alloc), request, shape)?;
    frame_of(alloc, tag_of_request(request), fields.as_slice())
}

/// The whole frame of a reply.
#[tactic(auto, unfolding(crate::specs::Replies::reply_encoding))]
pub fn encode_reply(alloc: Global, reply: &Reply, shape: Shape) -> Result<Vec<u8>, Memory>
    requires shape { IsShape shape }
    requires fits { ReplyFits shape reply.now }
    ensures { IfOk result (λ frame. frame.items ≡ reply_encoding shape reply.now) }
{
    let fields = put_reply_fields(Vec::new(alloc), reply, shape)?;
    frame_of(alloc, tag_of_reply(reply), fields.as_slice())
}
