ghost use Rattle.std.specs.Prelude.{◌≡◌, ◌≤◌, IfOk, OnOk, OnErr, length};
ghost use Rattle.us_edge.specs.Faults.{Rose};
ghost use Rattle.us_edge.specs.Streams.{Gives, GivesMoreThan, GivesSome, IsAtEnd};

use crate::{ReadAllFault, Source};
use std::alloc::Global;

/// How many bytes one read asks for.
const ROOM: usize = 65536;

/// Reads the source to its end, in time that grows with the number of bytes.
///
/// `TooLong` comes exactly where more than `limit` bytes came.
pub fn read_all<S: Source>(
    alloc: Global,
    source: &mut S,
    limit: usize,
) -> Result<Vec<u8>, ReadAllFault>
    ensures ok { IfOk result (λ bytes. Gives (S.left source.old) (S.left source.new) bytes.items) }
    ensures end { OnOk result (IsAtEnd (S.left source.new)) }
    ensures within { IfOk result (λ bytes. length bytes.items ≤ limit) }
    ensures too_long { result ≡ Err ReadAllFault.TooLong → GivesMoreThan limit (S.left source.old) (S.left source.new) }
    ensures err { OnErr result (GivesSome (S.left source.old) (S.left source.new)) }
    ensures cause { result ≡ Err ReadAllFault.Failed → Rose (S.faults source.old) (S.faults source.new) }
    ensures counts { S.faults source.old ≤ S.faults source.new }
{
    let mut buffer = vec![in alloc; 0u8; ROOM]?;
    let mut bytes = Vec::new(alloc);
    loop {
        let came = source.read(buffer.as_mut_slice())?;
        if came == 0 {
            return Ok(bytes);
        }
        if came > limit - bytes.len() {
            return Err(ReadAllFault::TooLong);
        }
        bytes.extend_from_slice(&buffer[..came])?;
    }
}
