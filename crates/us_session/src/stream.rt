//! A client's bytes come to a session.
ghost use Rattle.std.specs.Prelude.{◌≡◌, not, nat_lt, IfOk, OnOk, Some};
ghost use Rattle.us_base.specs.Shape.{IsShape};
ghost use Rattle.us_wire.specs.Frames.{frames_of};
ghost use Rattle.us_model.specs.Sessions.{stays, closes_in, close, malformed, is_built, unanswered, joins, framed, framed_in, take_frames, bytes};

use crate::running::run;
use crate::session::{new_stream, refuse, waits_for_nothing};
use std::alloc::Global;
use us_base::Limits;
use us_client_wire::{DecodeFault, Request, decode_request};
use us_kind::{Bytes, Items, Memory, checked_sum};
use us_model::{Await, Context, Note, QueuedRequest, Refusal, Session};
use us_value::Catalog;
use us_wire::{FrameReader, Next};

/// How many requests of a session may be unanswered.
const REQUESTS: usize = Limits::REQUESTS;

/// Closes the session. Its transaction ends as left, but for one that is being committed.
fn end_session(alloc: Global, context: &mut Context, session: &mut Session) -> Result<(), Memory>
    ensures { OnOk result (stays context.new session.new ≡ closes_in context.old session.old session.old.waits) }
{
    session.stream = new_stream(alloc);
    session.requests = Items::new(alloc);
    session.closed = true;
    if let Await::Prepared { .. } = &session.waits {
        return Ok(());
    }
    if let Some(transaction) = &session.running {
        context.out.notes.push(Note::Left {
            tid: transaction.tid,
        })?;
    }
    session.running = None;
    session.waits = Await::Nothing;
    Ok(())
}

/// The frame that was counted last is no request: the session is told so and closed.
fn refuse_malformed(
    alloc: Global,
    context: &mut Context,
    session: &mut Session,
) -> Result<(), Memory>
    requires { IsShape context.old.shape }
    ensures { OnOk result (stays context.new session.new ≡ malformed context.old session.old) }
{
    refuse(alloc, context, session, session.asked, Refusal::Malformed)?;
    end_session(alloc, context, session)
}

/// The client closes the session of this number, if it is open.
#[tactic(auto, unfolding(us_model::specs::Sessions::close))]
pub fn close(
    alloc: Global,
    context: &mut Context,
    session: &mut Session,
    number: u64,
) -> Result<(), Memory>
    ensures { OnOk result (stays context.new session.new ≡ close number context.old session.old) }
{
    if session.number != number || session.closed {
        return Ok(());
    }
    end_session(alloc, context, session)
}

/// Whether the machine serves such requests.
fn is_built(request: &Request) -> bool
    ensures { result ≡ is_built request.now }
{
    match request {
        Request::Begin | Request::Perform { .. } | Request::CommitCausal | Request::Abandon => true,
        Request::CommitStrong | Request::Barrier | Request::AskToken | Request::Attach { .. } =>
            false,
    }
}

/// Whether as many requests are unanswered as may be.
fn is_full(session: &Session) -> bool
    ensures { result ≡ not (nat_lt (unanswered session.now) 64) }
{
    let waiting = if waits_for_nothing(session) { 0 } else { 1 };
    session.requests.len() >= REQUESTS - waiting
}

/// A request joins the session's, which runs.
fn join_request(
    alloc: Global,
    catalog: &Catalog,
    context: &mut Context,
    session: &mut Session,
    request: Request,
) -> Result<(), Memory>
    requires { IsShape context.old.shape }
    ensures { OnOk result (stays context.new session.new ≡ joins catalog.now context.old session.old request) }
{
    session.requests.push(QueuedRequest {
        at: session.asked,
        request,
    })?;
    run(alloc, catalog, context, session)
}

/// The frame that was counted last is this request.
fn take_request(
    alloc: Global,
    catalog: &Catalog,
    context: &mut Context,
    session: &mut Session,
    request: Request,
) -> Result<(), Memory>
    requires { IsShape context.old.shape }
    ensures { OnOk result (stays context.new session.new ≡ framed_in catalog.now context.old session.old (Some request)) }
{
    if !is_built(&request) {
        return refuse_malformed(alloc, context, session);
    }
    if is_full(session) {
        return refuse(
            alloc,
            context,
            session,
            session.asked,
            Refusal::TooManyRequests,
        );
    }
    join_request(alloc, catalog, context, session, request)
}

/// One frame of the session's stream.
#[tactic(auto, unfolding(us_model::specs::Sessions::framed))]
fn take_frame(
    alloc: Global,
    catalog: &Catalog,
    context: &mut Context,
    session: &mut Session,
    frame: &[u8],
) -> Result<(), Memory>
    requires { IsShape context.old.shape }
    ensures { OnOk result (stays context.new session.new ≡ framed catalog.now context.old session.old frame.now) }
{
    session.asked = checked_sum(session.asked, 1)?;
    match decode_request(alloc, frame, context.shape) {
        Ok(request) => take_request(alloc, catalog, context, session, request),
        Err(DecodeFault::Malformed) => refuse_malformed(alloc, context, session),
        Err(DecodeFault::Memory) => Err(Memory),
    }
}

/// The frames that came off a stream, and whether a bad length stands behind them.
#[derive(Drop)]
struct FramesTaken {
    whole: Vec<Bytes>,
    bad: bool,
}

/// Takes all whole frames off the stream.
fn frames_off(alloc: Global, stream: &mut FrameReader) -> Result<FramesTaken, Memory>
    ensures whole { IfOk result (λ came. came.whole.items ≡ (frames_of stream.old.limit stream.old.unread).whole) }
    ensures bad { IfOk result (λ came. came.bad ≡ (frames_of stream.old.limit stream.old.unread).bad) }
    ensures limit { OnOk result (stream.new.limit ≡ stream.old.limit) }
    ensures rest { OnOk result (stream.new.unread ≡ (frames_of stream.old.limit stream.old.unread).rest) }
{
    let mut whole = Vec::new(alloc);
    'frames: loop {
        match stream.next_frame()? {
            Next::Frame(frame) => whole.push(frame)?,
            Next::NotYet => return Ok(FramesTaken { whole, bad: false }),
            Next::BadLength => return Ok(FramesTaken { whole, bad: true }),
        }
    }
}

/// The frames, one after another, until the session is closed; then a bad length counts as one more.
fn take_all(
    alloc: Global,
    catalog: &Catalog,
    context: &mut Context,
    session: &mut Session,
    frames: &[Bytes],
    bad: bool,
) -> Result<(), Memory>
    requires { IsShape context.old.shape }
    ensures { OnOk result (stays context.new session.new ≡ take_frames catalog.now context.old session.old frames.now bad) }
{
    for frame in frames {
        take_frame(alloc, catalog, context, session, frame.as_slice())?;
        if session.closed {
            return Ok(());
        }
    }
    if bad {
        session.asked = checked_sum(session.asked, 1)?;
        refuse_malformed(alloc, context, session)?;
    }
    Ok(())
}

/// A piece of the stream comes to the session of this number, if it is open.
#[tactic(auto, unfolding(us_model::specs::Sessions::bytes))]
pub fn take_bytes(
    alloc: Global,
    catalog: &Catalog,
    context: &mut Context,
    session: &mut Session,
    number: u64,
    piece: &[u8],
) -> Result<(), Memory>
    requires { IsShape context.old.shape }
    ensures { OnOk result (stays context.new session.new ≡ bytes catalog.now number piece.now context.old session.old) }
{
    if session.number != number || session.closed {
        return Ok(());
    }
    session.stream.feed(piece)?;
    let came = frames_off(alloc, &mut session.stream)?;
    take_all(
        alloc,
        catalog,
        context,
        session,
        came.whole.as_slice(),
        came.bad,
    )
}
