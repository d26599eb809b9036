//! Calls of the program over objects in memory.
ghost use Rattle.std.specs.Prelude.{◌≤◌};

use super::frames::spelled;
use crate::edge::{ListClock, MemorySink, MemorySource};
use crate::{Status, unistore};
use std::alloc::Global;
use std::test::Fail;
use us_edge::SureLinks;

/// The empty store's report.
pub const NOTHING: &str = "committed 0 strong 0 aborted 0 loose 0 links 0 refused 0 waiting 0\n";

/// A transaction that writes and reads, and one that reads what the first wrote.
pub const TWO: &str = "\
---\n\
open 1 1\n\
send 1: begin, register.write 1:61 78\n\
flush 1 1\n\
send 1: register.read 1:61, commit\n\
flush 1 1\n\
send 1: begin, register.read 1:61, commit\n\
flush 1 1\n\
";

/// The report of both.
pub const TWO_REPORT: &str = "\
t 1.1.1 1.1.1 1 causal -\n\
o 1:61 write:78 done\n\
o 1:61 read value:78\n\
t 1.1.2 1.1.1 2 causal 1.1.1=1\n\
o 1:61 read value:78\n\
committed 2 strong 0 aborted 0 loose 0 links 0 refused 0 waiting 0\n\
";

/// How a call ended, and what it wrote.
#[derive(Drop)]
pub struct Outcome {
    pub status: Status,
    pub written: Vec<u8>,
}

/// Splits words at single spaces.
pub fn words_of(alloc: Global, text: &str) -> Result<Vec<String>, Fail> {
    let mut words = Vec::new(alloc);
    for word in text.split(' ') {
        words.push(String::from_str(alloc, word)?)?;
    }
    Ok(words)
}

/// Calls over objects in memory: reads give at most 4,096 bytes, and writes take at most `per_write`. The calls of
/// these numbers fail.
pub fn failing(
    alloc: Global,
    words: &str,
    input: &str,
    per_write: usize,
    failing_read: u64,
    failing_write: u64,
) -> Result<Outcome, Fail>
    requires { 1 ≤ per_write }
{
    let words = words_of(alloc, words)?;
    let mut source = MemorySource::new(
        Vec::from_slice(alloc, input.as_bytes())?,
        4096,
        Vec::from_slice(alloc, [failing_read].as_slice())?,
    );
    let mut sink = MemorySink::new(
        alloc,
        per_write,
        Vec::from_slice(alloc, [failing_write].as_slice())?,
    );
    let mut links = SureLinks::new(Vec::new(alloc));
    let mut clock = ListClock::new(Vec::new(alloc));
    let status = unistore(
        alloc,
        words.as_slice(),
        &mut source,
        &mut sink,
        &mut links,
        &mut clock,
    );
    Ok(Outcome {
        status,
        written: Vec::from_slice(alloc, sink.written())?,
    })
}

/// Calls where nothing is told to fail.
pub fn answered(alloc: Global, words: &str, input: &str) -> Result<Outcome, Fail> {
    failing(alloc, words, input, 4096, 0, 0)
}

/// Whether the words and the schedule, spelled in words, are done with this report.
pub fn reports(alloc: Global, words: &str, schedule: &str, report: &str) -> Result<bool, Fail> {
    let input = spelled(alloc, schedule)?;
    let outcome = answered(alloc, words, input.as_str())?;
    Ok(outcome.status == Status::Done && outcome.written.as_slice() == report.as_bytes())
}
