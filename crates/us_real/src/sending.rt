use crate::reading::would_block;
use std::io;
use std::io::Write;
use std::net::{TcpStream, ToSocketAddrs};
use std::time::Duration;

/// How long a connection to another site may take, in milliseconds.
const CONNECT_TIME: u64 = 200;

/// How a send ended.
#[derive(Clone, Copy, Debug, PartialEq, Eq)]
pub enum Sent {
    /// All bytes went out.
    Whole,
    /// No byte went out, and the connection stands.
    Nothing,
    /// The connection is of no use: a part of the bytes went out, or it failed.
    Broken,
}

/// Sends the bytes without blocking.
pub fn send_all(stream: &mut TcpStream, piece: &[u8]) -> Sent {
    let mut rest = piece;
    while !rest.is_empty() {
        match stream.write(rest) {
            Ok(taken) if taken > 0 => rest = &rest[taken..],
            Err(error) if would_block(&error) && rest.len() == piece.len() => {
                return Sent::Nothing;
            }
            _ => return Sent::Broken,
        }
    }
    Sent::Whole
}

/// A connection to another site, which is told the own site's number as the first byte.
pub fn connected(rt: &HostRuntime, address: &str, own: u8) -> io::Result<TcpStream> {
    let mut last = io::Error::from(io::ErrorKind::AddrNotAvailable);
    for found in address.to_socket_addrs(rt)? {
        match TcpStream::connect_timeout(rt, &found, Duration::from_millis(CONNECT_TIME)) {
            Ok(stream) => return greeted(stream, own),
            Err(error) => last = error,
        }
    }
    Err(last)
}

fn greeted(mut stream: TcpStream, own: u8) -> io::Result<TcpStream> {
    stream.set_nodelay(true)?;
    stream.write_all(&[own])?;
    stream.set_nonblocking(true)?;
    Ok(stream)
}
