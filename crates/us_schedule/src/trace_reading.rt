ghost use Rattle.std.specs.Prelude.{◌≡◌, map, IfOk, IfSome};
ghost use Rattle.us_base.specs.Shape.{IsShape};
ghost use Rattle.us_schedule.specs.Lines.{Says, Gives, one, two};
ghost use Rattle.us_schedule.specs.Trace.{in_trace_range, IsAllowedTrace, hex_alone, two_and_hex, trace_by_none, trace_by_one, trace_by_two, trace_by_three, trace_said, trace_read};

use crate::numbers::{actor_in, at_most, coord_in, number_of, positive, site_in};
use crate::reading::{LAST_CLOCK, MOST_BYTES, bytes_of, spaces_in, words_of};
use crate::{LineFault, TraceLine};
use std::alloc::Global;
use us_base::Shape;

/// The most spaces between the words of a line.
const MOST_SPACES: usize = 3;

/// What a line of a trace says, for stores of this shape: None where it is blank or a comment.
///
/// # Errors
///
/// The first that holds of `BadWord`, `BadNumber`, `BadHex` and `OutOfRange`, or `Memory`.
pub fn read_trace_line(
    alloc: Global,
    text: &[u8],
    shape: Shape,
) -> Result<Option<TraceLine>, LineFault>
    requires { IsShape shape }
    ensures exact { Gives result (trace_read shape text.now) }
    ensures allowed { IfOk result (λ found. IfSome found (λ line. IsAllowedTrace shape line)) }
{
    if text.is_empty() || text[0] == b'#' {
        return Ok(None);
    }
    if spaces_in(text) > MOST_SPACES {
        return Err(LineFault::BadWord);
    }
    let words = words_of(alloc, text)?;
    let line = line_of(alloc, shape, words.as_slice())?;
    Ok(Some(line))
}

#[tactic(auto, unfolding(crate::specs::Trace::trace_said))]
fn line_of(alloc: Global, shape: Shape, words: &[&[u8]]) -> Result<TraceLine, LineFault>
    requires { IsShape shape }
    ensures { Says result (trace_said shape (map (λ w. w.now) words.now)) }
{
    match words {
        [name] => line_of_none(name),
        [name, a] => line_of_one(alloc, shape, name, a),
        [name, a, b] => line_of_two(shape, name, a, b),
        [name, a, b, c] => line_of_three(alloc, shape, name, a, b, c),
        _ => Err(LineFault::BadWord),
    }
}

fn line_of_none(name: &[u8]) -> Result<TraceLine, LineFault>
    ensures { result ≡ trace_by_none name.now }
{
    if name == b"lead".as_slice() {
        Ok(TraceLine::Lead)
    } else if name == b"nopoll".as_slice() {
        Ok(TraceLine::NoPoll)
    } else {
        Err(LineFault::BadWord)
    }
}

fn line_of_one(alloc: Global, shape: Shape, name: &[u8], a: &[u8]) -> Result<TraceLine, LineFault>
    requires { IsShape shape }
    ensures { Says result (trace_by_one shape name.now a.now) }
{
    if name == b"node".as_slice() {
        node_line(shape, a)
    } else if name == b"open".as_slice() {
        open_line(shape, a)
    } else if name == b"take".as_slice() {
        take_line(alloc, shape, a)
    } else if name == b"lost".as_slice() {
        lost_line(shape, a)
    } else if name == b"bad".as_slice() {
        bad_line(shape, a)
    } else if name == b"end".as_slice() {
        end_line(shape, a)
    } else {
        Err(LineFault::BadWord)
    }
}

fn line_of_two(shape: Shape, name: &[u8], a: &[u8], b: &[u8]) -> Result<TraceLine, LineFault>
    requires { IsShape shape }
    ensures { result ≡ trace_by_two shape name.now a.now b.now }
{
    if name == b"close".as_slice() {
        close_line(shape, a, b)
    } else if name == b"tick".as_slice() {
        tick_line(shape, a, b)
    } else if name == b"forward".as_slice() {
        forward_line(shape, a, b)
    } else {
        Err(LineFault::BadWord)
    }
}

fn line_of_three(
    alloc: Global,
    shape: Shape,
    name: &[u8],
    a: &[u8],
    b: &[u8],
    c: &[u8],
) -> Result<TraceLine, LineFault>
    ensures { Says result (trace_by_three shape name.now a.now b.now c.now) }
{
    if name == b"bytes".as_slice() {
        bytes_line(alloc, shape, a, b, c)
    } else {
        Err(LineFault::BadWord)
    }
}

fn node_line(shape: Shape, site: &[u8]) -> Result<TraceLine, LineFault>
    requires { IsShape shape }
    ensures { result ≡ one (in_trace_range shape) TraceLine.Node site.now }
{
    Ok(TraceLine::Node {
        site: site_in(shape, number_of(site)?)?,
    })
}

fn open_line(shape: Shape, coord: &[u8]) -> Result<TraceLine, LineFault>
    ensures { result ≡ one (in_trace_range shape) TraceLine.Open coord.now }
{
    Ok(TraceLine::Open {
        coord: coord_in(shape, number_of(coord)?)?,
    })
}

fn bytes_line(
    alloc: Global,
    shape: Shape,
    coord: &[u8],
    session: &[u8],
    bytes: &[u8],
) -> Result<TraceLine, LineFault>
    ensures { Says result (two_and_hex (in_trace_range shape) TraceLine.Bytes coord.now session.now bytes.now) }
{
    let coord = number_of(coord)?;
    let session = number_of(session)?;
    let bytes = bytes_of(alloc, bytes)?;
    let coord = coord_in(shape, coord)?;
    let session = positive(session)?;
    if bytes.len() < 1 || bytes.len() > MOST_BYTES {
        return Err(LineFault::OutOfRange);
    }
    Ok(TraceLine::Bytes {
        coord,
        session,
        bytes,
    })
}

fn close_line(shape: Shape, coord: &[u8], session: &[u8]) -> Result<TraceLine, LineFault>
    ensures { result ≡ two (in_trace_range shape) TraceLine.Close coord.now session.now }
{
    let coord = number_of(coord)?;
    let session = number_of(session)?;
    Ok(TraceLine::Close {
        coord: coord_in(shape, coord)?,
        session: positive(session)?,
    })
}

fn tick_line(shape: Shape, actor: &[u8], clock: &[u8]) -> Result<TraceLine, LineFault>
    ensures { result ≡ two (in_trace_range shape) TraceLine.Tick actor.now clock.now }
{
    let actor = number_of(actor)?;
    let clock = number_of(clock)?;
    Ok(TraceLine::Tick {
        actor: actor_in(shape, actor)?,
        clock: at_most(LAST_CLOCK, clock)?,
    })
}

fn take_line(alloc: Global, shape: Shape, frame: &[u8]) -> Result<TraceLine, LineFault>
    ensures { Says result (hex_alone (in_trace_range shape) TraceLine.Take frame.now) }
{
    Ok(TraceLine::Take {
        frame: bytes_of(alloc, frame)?,
    })
}

fn forward_line(shape: Shape, part: &[u8], origin: &[u8]) -> Result<TraceLine, LineFault>
    requires { IsShape shape }
    ensures { result ≡ two (in_trace_range shape) TraceLine.Forward part.now origin.now }
{
    let part = number_of(part)?;
    let origin = number_of(origin)?;
    Ok(TraceLine::Forward {
        part: coord_in(shape, part)?,
        origin: site_in(shape, origin)?,
    })
}

fn lost_line(shape: Shape, site: &[u8]) -> Result<TraceLine, LineFault>
    requires { IsShape shape }
    ensures { result ≡ one (in_trace_range shape) TraceLine.Lost site.now }
{
    Ok(TraceLine::Lost {
        site: site_in(shape, number_of(site)?)?,
    })
}

fn bad_line(shape: Shape, site: &[u8]) -> Result<TraceLine, LineFault>
    requires { IsShape shape }
    ensures { result ≡ one (in_trace_range shape) TraceLine.Bad site.now }
{
    Ok(TraceLine::Bad {
        site: site_in(shape, number_of(site)?)?,
    })
}

fn end_line(shape: Shape, turns: &[u8]) -> Result<TraceLine, LineFault>
    ensures { result ≡ one (in_trace_range shape) TraceLine.End turns.now }
{
    Ok(TraceLine::End {
        turns: number_of(turns)?,
    })
}
