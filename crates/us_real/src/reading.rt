ghost use Rattle.std.specs.Prelude.{◌≤◌, length, vec_len};
ghost use Rattle.us_real.specs.Real.{IsPiece};

use std::io::{Error, ErrorKind, Read};
use std::mem;
use std::net::TcpStream;
use us_kind::Bytes;

/// The most bytes that are read at a time.
pub const MOST: usize = 65_536;

/// What came of a read that doesn't block.
#[derive(Drop)]
pub enum Came {
    /// Nothing yet.
    NotYet,
    /// The connection ended.
    Ended,
    /// Bytes, at most as many as there was room for.
    Piece(Bytes),
}

/// Whether a call would have blocked.
pub fn would_block(error: &Error) -> bool {
    matches!(error.kind(), ErrorKind::WouldBlock | ErrorKind::Interrupted)
}

/// Reads into the buffer, which is handed on where bytes come. It takes no memory.
pub fn read_from(stream: &mut TcpStream, buffer: &mut Vec<u8>) -> Came
    ensures { IsPiece result }
{
    match stream.read(buffer.as_mut_slice()) {
        Ok(0) => Came::Ended,
        Ok(came) => Came::Piece(front_of(buffer, came)),
        Err(error) if would_block(&error) => Came::NotYet,
        Err(_error) => Came::Ended,
    }
}

// The first bytes of the buffer, which is left empty.
fn front_of(buffer: &mut Vec<u8>, came: usize) -> Bytes
    requires some { 1 ≤ came }
    requires within { came ≤ vec_len buffer.old }
    ensures { (1 ≤ length result) × (length result ≤ 65536) }
{
    let empty = Vec::new(*buffer.allocator());
    let mut piece = mem::replace(buffer, empty);
    piece.truncate(came.min(MOST));
    Bytes::of(piece)
}
