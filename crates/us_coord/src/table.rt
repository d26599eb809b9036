//! Which session runs a transaction.
ghost use Rattle.std.specs.Prelude.{◌≡◌, ℕ, OnOk};
ghost use Rattle.us_coord.specs.Table.{found_in, moved_on, runs, with_one, without};

use std::collections::HashMap;
use us_kind::Memory;
use us_model::Session;

/// The number of the transaction that the session runs, if it runs one.
pub fn runs(session: &Session) -> Option<u64>
    ensures { result ≡ runs session.now }
{
    match &session.running {
        Some(transaction) => Some(transaction.tid.seq),
        None => None,
    }
}

/// The number of the session that runs the transaction of this number, and 0, which is no session's, where none does.
pub fn session_of(table: &HashMap<u64, u64>, seq: u64) -> u64
    ensures { result ≡ found_in table.now seq }
{
    match table.get(&seq) {
        Some(number) => *number,
        None => 0,
    }
}

/// The transaction of this number, if there is one, leaves the table.
fn take_out(table: &mut HashMap<u64, u64>, was: Option<u64>)
    ensures { (q : ℕ) → found_in table.new q ≡ without was (found_in table.old) q }
{
    if let Some(seq) = was {
        table.remove(&seq);
    }
}

/// The session of this number runs the transaction of that number, if there is one.
fn put_in(table: &mut HashMap<u64, u64>, number: u64, now: Option<u64>) -> Result<(), Memory>
    ensures { OnOk result ((q : ℕ) → found_in table.new q ≡ with_one number now (found_in table.old) q) }
{
    if let Some(seq) = now {
        table.insert(seq, number)?;
    }
    Ok(())
}

/// The session of this number ran one transaction, and runs the other now.
pub fn move_on(
    table: &mut HashMap<u64, u64>,
    number: u64,
    was: Option<u64>,
    now: Option<u64>,
) -> Result<(), Memory>
    ensures { OnOk result ((q : ℕ) → found_in table.new q ≡ moved_on number was now (found_in table.old) q) }
{
    if was == now {
        return Ok(());
    }
    take_out(table, was);
    put_in(table, number, now)
}
