ghost use Rattle.std.specs.Prelude.{◌≡◌, [], IfOk, OnOk, OnErr};
ghost use Rattle.us_wire.specs.Answers.{Begins};

use crate::take_u32;
use std::alloc::Global;
use std::marker::Model;
use us_kind::{Bytes, Memory};

/// What a reader of frames answers.
#[derive(Drop)]
pub enum Next {
    /// A whole frame, its length field included.
    Frame(Bytes),
    /// Less than a whole frame came.
    NotYet,
    /// The length field is below 2 or the frame would be longer than the limit.
    BadLength,
}

/// Cuts a stream that comes in pieces into frames.
///
/// A frame is four bytes that say how many follow, the highest first, and these. Feeding and reading take time that
/// grows with the length of the stream.
#[derive(Drop)]
pub struct FrameReader {
    limit: u32,
    buffer: Vec<u8>,
    start: usize,
}

impl Model for FrameReader {
    ghost use Rattle.us_wire.specs.Frames.{Reader};

    ghost Value = { Reader };

    ghost use Rattle.std.specs.Prelude.{drop, ◌≤◌, vec_len};

    ghost view = { λ a. record { limit = a.limit; unread = drop a.start a.buffer.items } };

    ghost invariant = { λ a. a.start ≤ vec_len a.buffer };
}

impl FrameReader {
    ghost use Rattle.us_wire.specs.Frames.{fed};
    ghost use Rattle.us_wire.specs.Answers.{Answers};
    ghost use Rattle.us_wire.specs.Runs.{after, answer_of, next_of};

    /// A reader of frames of at most `limit` bytes, the length field included.
    pub fn new(alloc: Global, limit: u32) -> FrameReader
        ensures { result ≡ record { limit = limit; unread = [] } }
    {
        FrameReader {
            limit,
            buffer: Vec::new(alloc),
            start: 0,
        }
    }

    /// Takes the next piece of the stream.
    pub fn feed(&mut self, piece: &[u8]) -> Result<(), Memory>
        ensures ok { OnOk result (self.new ≡ fed self.old piece.now) }
        ensures err { OnErr result (self.new ≡ self.old) }
    {
        self.compact();
        self.buffer.extend_from_slice(piece)?;
        Ok(())
    }

    /// Gives out the next frame of the stream, if the whole of it came.
    pub fn next_frame(&mut self) -> Result<Next, Memory>
        ensures ok { IfOk result (λ next. Answers next self.old self.new) }
        ensures model { IfOk result (λ next. (answer_of next ≡ next_of self.old) × (self.new ≡ after (answer_of next) self.old)) }
        ensures err { OnErr result (self.new ≡ self.old) }
    {
        let unread = &self.buffer[self.start..];
        let whole = match first_frame(self.limit, unread) {
            FirstFrame::Partial => return Ok(Next::NotYet),
            FirstFrame::Bad => return Ok(Next::BadLength),
            FirstFrame::Whole(whole) => whole,
        };
        let frame = Bytes::from_slice(*self.buffer.allocator(), &unread[..whole])?;
        self.start += whole;
        Ok(Next::Frame(frame))
    }

    /// Drops what was given out from the buffer once it is half of it, so that each byte is moved at most once
    /// for a byte that was given out.
    fn compact(&mut self)
        ensures { self.new ≡ self.old }
    {
        let rest = self.buffer.len() - self.start;
        if self.start < rest {
            return;
        }
        self.buffer.copy_within(self.start.., 0);
        self.buffer.truncate(rest);
        self.start = 0;
    }
}

/// How a stream begins.
enum FirstFrame {
    /// With less than a whole frame.
    Partial,
    /// With a bad length field.
    Bad,
    /// With a whole frame of so many bytes.
    Whole(usize),
}

/// How the stream begins, where frames have at most `limit` bytes.
fn first_frame(limit: u32, stream: &[u8]) -> FirstFrame
    ensures { Begins result limit stream.now }
{
    let Some((after, _)) = take_u32(stream, 0) else {
        return FirstFrame::Partial;
    };
    if after < 2 || u64::from(limit) < 4 + u64::from(after) {
        return FirstFrame::Bad;
    }
    let whole = 4 + after as usize;
    if stream.len() < whole {
        return FirstFrame::Partial;
    }
    FirstFrame::Whole(whole)
}
