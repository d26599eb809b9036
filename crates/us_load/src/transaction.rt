ghost use Rattle.std.specs.Prelude.{◌≡◌, ◌<◌, ◌≤◌, ◌++◌, IfOk, OnOk};
ghost use Rattle.us_client_wire.specs.Requests.{request_encoding, RequestFits};
ghost use Rattle.us_load.specs.Words.{stream, skip};
ghost use Rattle.us_load.specs.Transactions.{loaded, operation_count, behind_transaction, performs, perform_of, commit_of, requests, frames};
ghost use Rattle.us_load.specs.Transactions.{session_lines, settled, transaction};

use crate::operation::{item_of, op_of};
use crate::session::{FIRST, SESSIONS, coord_of, site_of};
use rand_xoshiro::Xoshiro256PlusPlus;
use rand_xoshiro::rand_core::Rng;
use std::alloc::Global;
use us_base::{Limits, Shape};
use us_client_wire::{Request, encode_request};
use us_kind::{Bytes, Items, Memory};
use us_schedule::Line;

/// The store of a load: three sites of four partitions.
const LOADED: Shape = Shape { f: 1, parts: 4 };

/// Each eighth transaction is strong.
const STRONG: u64 = 8;

/// Behind each sixteenth transaction the sites settle.
const SETTLED: u64 = 16;

/// The rounds in which they settle there.
const ROUNDS: u64 = 6;

/// The time from one transaction to the next, in clock units.
pub const CLOCK: u64 = 1000;

/// Adds the lines of a transaction, which counts from 1. The generator gives its words.
pub fn put_transaction(
    alloc: Global,
    lines: Items<Line>,
    number: u64,
    rng: &mut Xoshiro256PlusPlus,
) -> Result<Items<Line>, Memory>
    requires { number ≤ Limits.LOAD }
    ensures lines { IfOk result (λ new. new ≡ lines ++ transaction number (stream rng.old)) }
    ensures words { OnOk result (stream rng.new ≡ behind_transaction (stream rng.old)) }
{
    let word = rng.next_u64();
    let bytes = requests_of(alloc, number, operation_count(word), rng)?;
    let lines = put_session_lines(lines, word % SESSIONS, bytes)?;
    put_settled(lines, number)
}

/// How many operations a transaction has, by its first word.
fn operation_count(word: u64) -> u64
    ensures { result ≡ operation_count word }
{
    1 + word / 12 % 4
}

/// The frames of a transaction with so many operations.
fn requests_of(
    alloc: Global,
    number: u64,
    operations: u64,
    rng: &mut Xoshiro256PlusPlus,
) -> Result<Bytes, Memory>
    ensures bytes { IfOk result (λ bytes. bytes ≡ frames (requests number operations (stream rng.old))) }
    ensures words { OnOk result (stream rng.new ≡ skip operations (stream rng.old)) }
{
    let out = put_request(alloc, Vec::new(alloc), &Request::Begin)?;
    let out = put_performs(alloc, out, operations, rng)?;
    Ok(Bytes::of(put_request(alloc, out, &commit_of(number))?))
}

/// Adds the frames of so many operations, each of the generator's next word.
fn put_performs(
    alloc: Global,
    mut out: Vec<u8>,
    operations: u64,
    rng: &mut Xoshiro256PlusPlus,
) -> Result<Vec<u8>, Memory>
    ensures bytes { IfOk result (λ new. new.items ≡ out.items ++ frames (performs operations (stream rng.old))) }
    ensures words { OnOk result (stream rng.new ≡ skip operations (stream rng.old)) }
{
    let mut left = operations;
    while left > 0 {
        out = put_perform(alloc, out, rng.next_u64())?;
        left -= 1;
    }
    Ok(out)
}

/// Adds the frame of the operation that a word asks for.
fn put_perform(alloc: Global, out: Vec<u8>, word: u64) -> Result<Vec<u8>, Memory>
    ensures { IfOk result (λ new. new.items ≡ out.items ++ request_encoding loaded (perform_of word)) }
{
    let request = Request::Perform {
        item: item_of(alloc, word)?,
        op: op_of(alloc, word)?,
    };
    put_request(alloc, out, &request)
}

/// Adds the frame of a request.
fn put_request(alloc: Global, mut out: Vec<u8>, request: &Request) -> Result<Vec<u8>, Memory>
    requires { RequestFits loaded request.now }
    ensures { IfOk result (λ new. new.items ≡ out.items ++ request_encoding loaded request.now) }
{
    let frame = encode_request(alloc, request, LOADED)?;
    out.extend_from_slice(frame.as_slice())?;
    Ok(out)
}

/// How a transaction ends.
fn commit_of(number: u64) -> Request
    ensures is { result ≡ commit_of number }
    ensures fits { RequestFits loaded result }
{
    if number % STRONG == 0 {
        Request::CommitStrong
    } else {
        Request::CommitCausal
    }
}

/// Adds the line that brings the bytes to the session's coordinator, and the line that delivers what is sent at its site.
fn put_session_lines(
    mut lines: Items<Line>,
    session: u64,
    bytes: Bytes,
) -> Result<Items<Line>, Memory>
    requires { session < SESSIONS }
    ensures { IfOk result (λ new. new ≡ lines ++ session_lines session bytes) }
{
    let site = site_of(session);
    lines.push(Line::Bytes {
        site,
        coord: coord_of(session),
        session: FIRST,
        bytes,
    })?;
    lines.push(Line::Flush {
        from: site,
        to: site,
    })?;
    Ok(lines)
}

/// Adds the line in which the sites settle, where one stands behind this transaction.
fn put_settled(mut lines: Items<Line>, number: u64) -> Result<Items<Line>, Memory>
    requires { number ≤ Limits.LOAD }
    ensures { IfOk result (λ new. new ≡ lines ++ settled number) }
{
    if number % SETTLED == 0 {
        lines.push(Line::Settle {
            clock: CLOCK * number,
            rounds: ROUNDS,
        })?;
    }
    Ok(lines)
}
