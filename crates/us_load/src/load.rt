ghost use Rattle.std.specs.Prelude.{◌≡◌, ◌≤◌, ◌<◌, ◌++◌, IfOk, OnOk};
ghost use Rattle.std.specs.List.{flat_map};
ghost use Rattle.us_load.specs.Words.{stream};
ghost use Rattle.us_load.specs.Transactions.{loaded, transactions};
ghost use Rattle.us_load.specs.Load.{opens, load_lines, line_text, configuration, front, load_text};
ghost use Rattle.us_load.specs.Grammar.{IsScheduleOf};

use crate::session::{SESSIONS, coord_of, site_of};
use crate::transaction::{CLOCK, put_transaction};
use rand_xoshiro::Xoshiro256PlusPlus;
use rand_xoshiro::rand_core::SeedableRng;
use std::alloc::Global;
use us_base::Limits;
use us_kind::{Items, Memory};
use us_schedule::{Line, write_line};

/// The configuration of a load's store, and the line that separates it from the lines of the schedule.
const FRONT: &[u8] = b"sites = 3
partitions = 4
[[space]]
number = 1
kind = \"register\"
[[space]]
number = 2
kind = \"counter\"
conflicts = [[\"take\",\"take\"]]
[[space]]
number = 3
kind = \"set\"
[[space]]
number = 4
kind = \"flag\"
[[space]]
number = 5
kind = \"multi\"
---
";

/// The rounds in which the sites settle at the end.
const LAST_ROUNDS: u64 = 40;

/// The text of the load with this number, of so many transactions, at most `Limits::LOAD`. docs/PROTOCOL.md has its rule. It takes
/// time and memory that grow with the text.
///
/// # Errors
///
/// `Memory`.
pub fn schedule_of(alloc: Global, number: u64, count: u64) -> Result<Vec<u8>, Memory>
    requires { count ≤ Limits.LOAD }
    ensures text { IfOk result (λ text. text.items ≡ load_text number count) }
    ensures schedule { IfOk result (λ text. IsScheduleOf loaded configuration (load_lines number count) text.items) }
{
    let lines = lines_of(alloc, number, count)?;
    text_of(alloc, lines.as_slice())
}

/// The lines of a load.
fn lines_of(alloc: Global, number: u64, count: u64) -> Result<Items<Line>, Memory>
    requires { count ≤ Limits.LOAD }
    ensures { IfOk result (λ lines. lines ≡ load_lines number count) }
{
    let mut rng = Xoshiro256PlusPlus::seed_from_u64(number);
    let lines = opens(alloc)?;
    let mut lines = put_transactions(alloc, lines, count, &mut rng)?;
    lines.push(Line::Settle {
        clock: CLOCK * (count + 1),
        rounds: LAST_ROUNDS,
    })?;
    Ok(lines)
}

/// The lines that open the sessions.
fn opens(alloc: Global) -> Result<Items<Line>, Memory>
    ensures { IfOk result (λ lines. lines ≡ opens) }
{
    let mut lines = Items::new(alloc);
    for session in 0..SESSIONS {
        lines.push(Line::Open {
            site: site_of(session),
            coord: coord_of(session),
        })?;
    }
    Ok(lines)
}

/// Adds the lines of so many transactions.
fn put_transactions(
    alloc: Global,
    mut lines: Items<Line>,
    count: u64,
    rng: &mut Xoshiro256PlusPlus,
) -> Result<Items<Line>, Memory>
    requires { count ≤ Limits.LOAD }
    ensures { IfOk result (λ new. new ≡ lines ++ transactions count 1 (stream rng.old)) }
{
    for passed in 0..count {
        lines = put_transaction(alloc, lines, passed + 1, rng)?;
    }
    Ok(lines)
}

/// The configuration, and the text of the lines.
fn text_of(alloc: Global, lines: &[Line]) -> Result<Vec<u8>, Memory>
    ensures { IfOk result (λ text. text.items ≡ front ++ flat_map line_text lines.now) }
{
    let mut out = Vec::from_slice(alloc, FRONT)?;
    for line in lines {
        out = put_line(alloc, out, line)?;
    }
    Ok(out)
}

/// Adds a line's text, with its end.
fn put_line(alloc: Global, mut out: Vec<u8>, line: &Line) -> Result<Vec<u8>, Memory>
    ensures { IfOk result (λ new. new.items ≡ out.items ++ line_text line.now) }
{
    let text = write_line(alloc, line)?;
    out.extend_from_slice(text.as_slice())?;
    out.push(b'\n')?;
    Ok(out)
}
