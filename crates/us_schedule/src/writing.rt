ghost use Rattle.std.specs.Prelude.{◌≡◌, IfOk};
ghost use Rattle.std.specs.String.{string_bytes};
ghost use Rattle.us_schedule.specs.Lines.{encoding_of};

use crate::Line;
use std::alloc::{AllocError, Global};
use us_kind::Memory;

/// The line's text, without an end: what `read_line` reads as the line.
pub fn write_line(alloc: Global, line: &Line) -> Result<Vec<u8>, Memory>
    ensures { IfOk result (λ text. text.items ≡ encoding_of line.now) }
{
    Ok(text_of(alloc, line)?.into_bytes())
}

fn text_of(alloc: Global, line: &Line) -> Result<String, AllocError>
    ensures { IfOk result (λ text. string_bytes text ≡ encoding_of line.now) }
{
    match line {
        Line::Open { site, coord } => format!(in alloc; "open {site} {coord}"),
        Line::Bytes {
            site,
            coord,
            session,
            bytes,
        } => {
            let hex = hex::encode(alloc, bytes.as_slice())?;
            format!(in alloc; "bytes {site} {coord} {session} {hex}")
        }
        Line::Close {
            site,
            coord,
            session,
        } => format!(in alloc; "close {site} {coord} {session}"),
        Line::Tick { site, actor, clock } => format!(in alloc; "tick {site} {actor} {clock}"),
        Line::Deliver { number } => format!(in alloc; "deliver {number}"),
        Line::Flush { from, to } => format!(in alloc; "flush {from} {to}"),
        Line::Lead { site } => format!(in alloc; "lead {site}"),
        Line::Forward { site, origin } => format!(in alloc; "forward {site} {origin}"),
        Line::Crash { site } => format!(in alloc; "crash {site}"),
        Line::Settle { clock, rounds } => format!(in alloc; "settle {clock} {rounds}"),
    }
}
