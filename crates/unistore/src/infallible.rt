ghost use Rattle.std.specs.Prelude.{◌≡◌, ◌⊎◌, map, string_bytes};
ghost use Rattle.unistore.specs.Answers.{form_of, IsExpected};

use crate::{Status, unistore};
use std::alloc::Global;
use us_edge::{Clock, Links, SureSink, SureSource};

/// Where no read and no write fails, the words and the bytes alone say how a call ends, unless memory runs out.
pub fn replay_infallible<L: Links, C: Clock>(
    alloc: Global,
    words: &[String],
    bytes: Vec<u8>,
    links: &mut L,
    clock: &mut C,
) -> Status
    ensures { IsExpected (form_of (map string_bytes words.now)) bytes.items result ⊎ (result ≡ Status.Memory) }
{
    let mut source = SureSource::new(bytes);
    let mut sink = SureSink::new();
    unistore(alloc, words, &mut source, &mut sink, links, clock)
}
