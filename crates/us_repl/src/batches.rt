//! The next batch of an origin.
ghost use Rattle.std.specs.Prelude.{◌≡◌, ◌<◌, IfOk};
ghost use Rattle.us_repl.specs.Batches.{batch_for, hi_of};

use us_base::Limits;
use us_history::LogTx;
use us_kind::{Items, Memory};
use us_oplog::{Batch, OpLog};

/// The most transactions of a batch.
const MOST: usize = Limits::REPLICATED;

/// What is to be sent of an origin's transactions, where they were sent up to `lo` and the log holds them up to `known`: the first 8
/// above `lo`, ascending. `None` where `known` is at most `lo`.
pub fn batch_for(log: &OpLog, origin: u8, lo: u64, known: u64) -> Result<Option<Batch>, Memory>
    requires { origin < 10 }
    ensures { IfOk result (λ batch. batch ≡ batch_for origin lo known log.now.transactions) }
{
    if known <= lo {
        return Ok(None);
    }
    let mut found = log.range(origin, lo, known, MOST + 1)?;
    let hi = hi_of(found.as_slice(), origin, known);
    found.truncate(MOST);
    Ok(Some(Batch {
        origin,
        lo,
        hi,
        txs: Items::of(found),
    }))
}

/// Up to where these transactions are all: the entry of the eighth where there are more, else `known`.
fn hi_of(found: &[LogTx], origin: u8, known: u64) -> u64
    requires { origin < 10 }
    ensures { result ≡ hi_of origin known found.now }
{
    if found.len() > MOST {
        found[MOST - 1].vector.get(origin)
    } else {
        known
    }
}
