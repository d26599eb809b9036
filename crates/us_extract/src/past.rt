//! What is before a transaction, counted per session.
ghost use Rattle.std.specs.Prelude.{◌≡◌, IfOk};
ghost use Rattle.us_exec.specs.Past.{session_eq};
ghost use Rattle.us_history.specs.Histories.{has_own_vector, some_update};
ghost use Rattle.us_value.specs.Values.{is_update};
ghost use Rattle.us_history.specs.Pasts.{counts_of};
ghost use Rattle.us_extract.specs.PastSearch.{steps_to};
ghost use Rattle.us_extract.specs.PastSearch.{IsSearchable};

use crate::beginnings::Beginning;
use crate::commits::{Commit, Commits};
use std::alloc::Global;
use us_exec::{Count, Done, SessionName};
use us_kind::{Items, Memory};

/// The past of a transaction: of each session, up to which of its committed transactions it goes.
pub fn past_of(
    alloc: Global,
    sessions: &[SessionName],
    committed: &Commits,
    transaction: &Beginning,
) -> Result<Items<Count>, Memory>
    requires { IsSearchable committed.now transaction.now }
    ensures { IfOk result (λ past. past ≡ counts_of (steps_to transaction.now) committed.now sessions.now) }
{
    let mut past = Items::new(alloc);
    for session in sessions {
        let count = committed.count_before(session, transaction);
        if count > 0 {
            past.push(Count {
                session: *session,
                count,
            })?;
        }
    }
    Ok(past)
}

fn updates(done: &Done) -> bool
    ensures { result ≡ is_update done.now.op }
{
    done.op.is_update()
}

fn some_update(ops: &[Done]) -> bool
    ensures { result ≡ some_update ops.now }
{
    ops.iter().any(updates)
}

/// Whether the transaction has a commit vector of its own: it is strong, or it updates.
pub fn has_own_vector(commit: &Commit) -> bool
    ensures { result ≡ has_own_vector commit.now }
{
    commit.strong || some_update(commit.ops.as_slice())
}

/// The two are the same session.
pub fn same_session(a: &SessionName, b: &SessionName) -> bool
    ensures { result ≡ session_eq a.now b.now }
{
    a.site == b.site && a.coord == b.coord && a.number == b.number
}
