ghost use Rattle.std.specs.Prelude.{◌≡◌, IfOk};
ghost use Rattle.std.specs.String.{string_bytes};
ghost use Rattle.us_schedule.specs.Trace.{trace_encoding_of};

use crate::TraceLine;
use std::alloc::{AllocError, Global};
use us_kind::Memory;

/// The line's text, without an end: what `read_trace_line` reads as the line.
pub fn write_trace_line(alloc: Global, line: &TraceLine) -> Result<Vec<u8>, Memory>
    ensures { IfOk result (λ text. text.items ≡ trace_encoding_of line.now) }
{
    Ok(text_of(alloc, line)?.into_bytes())
}

fn text_of(alloc: Global, line: &TraceLine) -> Result<String, AllocError>
    ensures { IfOk result (λ text. string_bytes text ≡ trace_encoding_of line.now) }
{
    match line {
        TraceLine::Node { site } => format!(in alloc; "node {site}"),
        TraceLine::Open { coord } => format!(in alloc; "open {coord}"),
        TraceLine::Bytes {
            coord,
            session,
            bytes,
        } => {
            let hex = hex::encode(alloc, bytes.as_slice())?;
            format!(in alloc; "bytes {coord} {session} {hex}")
        }
        TraceLine::Close { coord, session } => format!(in alloc; "close {coord} {session}"),
        TraceLine::Tick { actor, clock } => format!(in alloc; "tick {actor} {clock}"),
        TraceLine::Take { frame } => {
            let hex = hex::encode(alloc, frame.as_slice())?;
            format!(in alloc; "take {hex}")
        }
        TraceLine::Lead => String::from_str(alloc, "lead"),
        TraceLine::Forward { part, origin } => format!(in alloc; "forward {part} {origin}"),
        TraceLine::Lost { site } => format!(in alloc; "lost {site}"),
        TraceLine::NoPoll => String::from_str(alloc, "nopoll"),
        TraceLine::Bad { site } => format!(in alloc; "bad {site}"),
        TraceLine::End { turns } => format!(in alloc; "end {turns}"),
    }
}
