//! What one site sends another of an origin's transactions, and how it comes to a log.
ghost use Rattle.std.specs.Prelude.{◌≡◌, ◌<◌, ◌++◌, Some, None, drop, filter, if◌then◌else◌, IfOk, OnOk};
ghost use Rattle.us_oplog.specs.Batches.{may_take, is_news, news_of};

use crate::log::OpLog;
use crate::range::copy_of;
use us_history::LogTx;
use us_kind::{Items, Memory};

/// The causal transactions of an origin whose entries for it are above `lo` and at most `hi`.
#[derive(Drop)]
pub struct Batch {
    pub origin: u8,
    pub lo: u64,
    pub hi: u64,
    pub txs: Items<LogTx>,
}

/// Up to where the log holds the origin's transactions once it took the batch, where it holds them up to `known` now. `None`, and
/// nothing is taken, where it would leave a gap (`known` is below `lo`) or brings nothing new (`hi` is at most `known`).
pub fn take_batch(log: &mut OpLog, known: u64, batch: &Batch) -> Result<Option<u64>, Memory>
    requires { batch.now.origin < 10 }
    ensures known { IfOk result (λ given. given ≡ (if may_take known batch.now then Some batch.now.hi else None)) }
    ensures log { OnOk result (log.new ≡ (if may_take known batch.now
        then record { transactions = log.old.transactions ++ news_of known batch.now; floor = log.old.floor } else log.old)) }
{
    if known < batch.lo || batch.hi <= known {
        return Ok(None);
    }
    append_news(log, known, batch)?;
    Ok(Some(batch.hi))
}

/// The batch's transactions above `known` come to the log, in their order.
fn append_news(log: &mut OpLog, known: u64, batch: &Batch) -> Result<(), Memory>
    requires { batch.now.origin < 10 }
    ensures { OnOk result (log.new ≡ record { transactions = log.old.transactions ++ news_of known batch.now; floor = log.old.floor }) }
{
    for transaction in batch.txs.as_slice() {
        if is_news(transaction, batch.origin, known) {
            log.append(copy_of(transaction)?)?;
        }
    }
    Ok(())
}

/// Whether the transaction's entry for the origin is above `known`.
fn is_news(transaction: &LogTx, origin: u8, known: u64) -> bool
    requires { origin < 10 }
    ensures { result ≡ is_news origin known transaction.now }
{
    known < transaction.vector.get(origin)
}
