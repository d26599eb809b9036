ghost use Rattle.std.specs.Prelude.{◌≡◌, ◌==◌, List, map, count_by, IfOk, IfSome};
ghost use Rattle.std.specs.List.{slice_split};
ghost use Rattle.us_base.specs.Shape.{IsShape};
ghost use Rattle.us_schedule.specs.Lines.{Says, Gives, IsAllowed, hex, in_range, one, two, three, three_and_hex, said_by_one, said_by_two, said_by_three, said_by_four, said, line_read};

use crate::numbers::{actor_in, at_most, coord_in, number_of, positive, site_in};
use crate::{Line, LineFault};
use hex::FromHexError;
use std::alloc::{AllocError, Global};
use us_base::{Limits, Shape};
use us_kind::Bytes;

/// The most bytes that a `bytes` line brings.
pub const MOST_BYTES: usize = 65_536;

/// The last clock that a line hands out.
pub const LAST_CLOCK: u64 = Limits::CLOCK;

/// The most rounds of a `settle` line.
const MOST_ROUNDS: u64 = Limits::ROUNDS;

/// The most spaces between the words of a line.
const MOST_SPACES: usize = 4;

/// What a line of a schedule says, for stores of this shape: None where it is blank or a comment.
///
/// # Errors
///
/// The first that holds of `BadWord`, `BadNumber`, `BadHex` and `OutOfRange`, or `Memory`.
pub fn read_line(alloc: Global, text: &[u8], shape: Shape) -> Result<Option<Line>, LineFault>
    requires { IsShape shape }
    ensures exact { Gives result (line_read shape text.now) }
    ensures allowed { IfOk result (λ found. IfSome found (λ line. IsAllowed shape line)) }
{
    if text.is_empty() || text[0] == b'#' {
        return Ok(None);
    }
    if spaces_in(text) > MOST_SPACES {
        return Err(LineFault::BadWord);
    }
    let words = words_of(alloc, text)?;
    let line = line_of(alloc, shape, words.as_slice())?;
    Ok(Some(line))
}

/// How many spaces the text has.
pub fn spaces_in(text: &[u8]) -> usize
    ensures { result ≡ count_by (λ b. b == 32) text.now }
{
    text.iter().filter(|byte| **byte == b' ').count()
}

/// What stands between the spaces.
pub fn words_of(alloc: Global, text: &[u8]) -> Result<Vec<&[u8]>, AllocError>
    ensures { IfOk result (λ words. map (λ w. w.now) words.items ≡ slice_split (λ b. b == 32) text.now) }
{
    text.split(|byte| *byte == b' ').collect(alloc)
}

#[tactic(auto, unfolding(crate::specs::Lines::said))]
fn line_of(alloc: Global, shape: Shape, words: &[&[u8]]) -> Result<Line, LineFault>
    requires { IsShape shape }
    ensures { Says result (said shape (map (λ w. w.now) words.now)) }
{
    match words {
        [name, a] => line_of_one(shape, name, a),
        [name, a, b] => line_of_two(shape, name, a, b),
        [name, a, b, c] => line_of_three(shape, name, a, b, c),
        [name, a, b, c, d] => line_of_four(alloc, shape, name, a, b, c, d),
        _ => Err(LineFault::BadWord),
    }
}

fn line_of_one(shape: Shape, name: &[u8], a: &[u8]) -> Result<Line, LineFault>
    requires { IsShape shape }
    ensures { result ≡ said_by_one shape name.now a.now }
{
    if name == b"deliver".as_slice() {
        deliver_line(shape, a)
    } else if name == b"lead".as_slice() {
        lead_line(shape, a)
    } else if name == b"crash".as_slice() {
        crash_line(shape, a)
    } else {
        Err(LineFault::BadWord)
    }
}

fn line_of_two(shape: Shape, name: &[u8], a: &[u8], b: &[u8]) -> Result<Line, LineFault>
    requires { IsShape shape }
    ensures { result ≡ said_by_two shape name.now a.now b.now }
{
    if name == b"open".as_slice() {
        open_line(shape, a, b)
    } else if name == b"flush".as_slice() {
        flush_line(shape, a, b)
    } else if name == b"forward".as_slice() {
        forward_line(shape, a, b)
    } else if name == b"settle".as_slice() {
        settle_line(shape, a, b)
    } else {
        Err(LineFault::BadWord)
    }
}

fn line_of_three(shape: Shape, name: &[u8], a: &[u8], b: &[u8], c: &[u8]) -> Result<Line, LineFault>
    requires { IsShape shape }
    ensures { result ≡ said_by_three shape name.now a.now b.now c.now }
{
    if name == b"close".as_slice() {
        close_line(shape, a, b, c)
    } else if name == b"tick".as_slice() {
        tick_line(shape, a, b, c)
    } else {
        Err(LineFault::BadWord)
    }
}

fn line_of_four(
    alloc: Global,
    shape: Shape,
    name: &[u8],
    a: &[u8],
    b: &[u8],
    c: &[u8],
    d: &[u8],
) -> Result<Line, LineFault>
    requires { IsShape shape }
    ensures { Says result (said_by_four shape name.now a.now b.now c.now d.now) }
{
    if name == b"bytes".as_slice() {
        bytes_line(alloc, shape, a, b, c, d)
    } else {
        Err(LineFault::BadWord)
    }
}

fn open_line(shape: Shape, site: &[u8], coord: &[u8]) -> Result<Line, LineFault>
    requires { IsShape shape }
    ensures { result ≡ two (in_range shape) Line.Open site.now coord.now }
{
    let site = number_of(site)?;
    let coord = number_of(coord)?;
    Ok(Line::Open {
        site: site_in(shape, site)?,
        coord: coord_in(shape, coord)?,
    })
}

fn bytes_line(
    alloc: Global,
    shape: Shape,
    site: &[u8],
    coord: &[u8],
    session: &[u8],
    bytes: &[u8],
) -> Result<Line, LineFault>
    requires { IsShape shape }
    ensures { Says result (three_and_hex (in_range shape) Line.Bytes site.now coord.now session.now bytes.now) }
{
    let site = number_of(site)?;
    let coord = number_of(coord)?;
    let session = number_of(session)?;
    let bytes = bytes_of(alloc, bytes)?;
    let site = site_in(shape, site)?;
    let coord = coord_in(shape, coord)?;
    let session = positive(session)?;
    if bytes.len() < 1 || bytes.len() > MOST_BYTES {
        return Err(LineFault::OutOfRange);
    }
    Ok(Line::Bytes {
        site,
        coord,
        session,
        bytes,
    })
}

/// The bytes that the word writes in hex.
pub fn bytes_of(alloc: Global, word: &[u8]) -> Result<Bytes, LineFault>
    ensures { Says result (hex word.now) }
{
    match hex::decode(alloc, word) {
        Ok(bytes) => Ok(Bytes::of(bytes)),
        Err(FromHexError::OutOfMemory) => Err(LineFault::Memory),
        Err(_) => Err(LineFault::BadHex),
    }
}

fn close_line(shape: Shape, site: &[u8], coord: &[u8], session: &[u8]) -> Result<Line, LineFault>
    requires { IsShape shape }
    ensures { result ≡ three (in_range shape) Line.Close site.now coord.now session.now }
{
    let site = number_of(site)?;
    let coord = number_of(coord)?;
    let session = number_of(session)?;
    Ok(Line::Close {
        site: site_in(shape, site)?,
        coord: coord_in(shape, coord)?,
        session: positive(session)?,
    })
}

fn tick_line(shape: Shape, site: &[u8], actor: &[u8], clock: &[u8]) -> Result<Line, LineFault>
    requires { IsShape shape }
    ensures { result ≡ three (in_range shape) Line.Tick site.now actor.now clock.now }
{
    let site = number_of(site)?;
    let actor = number_of(actor)?;
    let clock = number_of(clock)?;
    Ok(Line::Tick {
        site: site_in(shape, site)?,
        actor: actor_in(shape, actor)?,
        clock: at_most(LAST_CLOCK, clock)?,
    })
}

fn deliver_line(shape: Shape, number: &[u8]) -> Result<Line, LineFault>
    ensures { result ≡ one (in_range shape) Line.Deliver number.now }
{
    Ok(Line::Deliver {
        number: positive(number_of(number)?)?,
    })
}

fn flush_line(shape: Shape, from: &[u8], to: &[u8]) -> Result<Line, LineFault>
    requires { IsShape shape }
    ensures { result ≡ two (in_range shape) Line.Flush from.now to.now }
{
    let from = number_of(from)?;
    let to = number_of(to)?;
    Ok(Line::Flush {
        from: site_in(shape, from)?,
        to: site_in(shape, to)?,
    })
}

fn lead_line(shape: Shape, site: &[u8]) -> Result<Line, LineFault>
    requires { IsShape shape }
    ensures { result ≡ one (in_range shape) Line.Lead site.now }
{
    Ok(Line::Lead {
        site: site_in(shape, number_of(site)?)?,
    })
}

fn forward_line(shape: Shape, site: &[u8], origin: &[u8]) -> Result<Line, LineFault>
    requires { IsShape shape }
    ensures { result ≡ two (in_range shape) Line.Forward site.now origin.now }
{
    let site = number_of(site)?;
    let origin = number_of(origin)?;
    let site = site_in(shape, site)?;
    let origin = site_in(shape, origin)?;
    if site == origin {
        return Err(LineFault::OutOfRange);
    }
    Ok(Line::Forward { site, origin })
}

fn crash_line(shape: Shape, site: &[u8]) -> Result<Line, LineFault>
    requires { IsShape shape }
    ensures { result ≡ one (in_range shape) Line.Crash site.now }
{
    Ok(Line::Crash {
        site: site_in(shape, number_of(site)?)?,
    })
}

fn settle_line(shape: Shape, clock: &[u8], rounds: &[u8]) -> Result<Line, LineFault>
    ensures { result ≡ two (in_range shape) Line.Settle clock.now rounds.now }
{
    let clock = number_of(clock)?;
    let rounds = number_of(rounds)?;
    Ok(Line::Settle {
        clock: at_most(LAST_CLOCK, clock)?,
        rounds: at_most(MOST_ROUNDS, rounds)?,
    })
}
