//! Whether a history ascends, as that of every run does.
ghost use Rattle.std.specs.Prelude.{◌≡◌, true};
ghost use Rattle.std.specs.List.{list_all};
ghost use Rattle.us_history.specs.Histories.{Committed};
ghost use Rattle.us_snapshots.specs.Ascending.{Ascends};
ghost use Rattle.us_extract.specs.AscendingCheck.{all_stay_out, ascend_by_number, ascends, sessions_ascend, stays_out};

use crate::beginnings::Beginning;
use crate::commits::Commit;
use crate::history::History;
use crate::past::{has_own_vector, same_session};

impl History {
    /// Whether the history ascends, as `execution` wants it. That of every run does (`us_order`, `histories_ascend`): this is
    /// for one that was put together by hand, and compares each two of its transactions.
    pub fn ascends(&self) -> bool
        ensures tested { result ≡ ascends self.now }
        ensures holds { result ≡ true → Ascends self.now }
    {
        self.each_two_ascend()
    }

    fn each_two_ascend(&self) -> bool
        ensures { result ≡ ascends self.now }
    {
        self.links().is_empty()
            && sessions_ascend(self.committed())
            && commits_stay_out(self.committed(), self.committed())
            && beginnings_stay_out(self.committed(), self.begun())
    }
}

/// Of each two of a session, the one with the lesser number is the lesser.
fn sessions_ascend(committed: &[Commit]) -> bool
    ensures { result ≡ sessions_ascend committed.now }
{
    committed
        .iter()
        .all(|commit| ascends_with(committed, commit))
}

fn ascends_with(committed: &[Commit], commit: &Commit) -> bool
    ensures { result ≡ list_all (λ d. ascend_by_number commit.now d) committed.now }
{
    committed
        .iter()
        .all(|other| ascend_by_number(commit, other))
}

fn ascend_by_number(a: &Commit, b: &Commit) -> bool
    ensures { result ≡ ascend_by_number a.now b.now }
{
    !(same_session(&a.begun.session, &b.begun.session) && a.number < b.number)
        || (a.begun.tid.seq < b.begun.tid.seq && a.vector.at_most(&b.vector))
}

/// No commit with a vector of its own is in the snapshot of its transaction, of these.
fn commits_stay_out(committed: &[Commit], of: &[Commit]) -> bool
    ensures { result ≡ list_all (λ (d : Committed). all_stay_out committed.now d.begun) of.now }
{
    of.iter().all(|commit| commit_stays_out(committed, commit))
}

fn commit_stays_out(committed: &[Commit], commit: &Commit) -> bool
    ensures { result ≡ all_stay_out committed.now commit.now.begun }
{
    all_stay_out(committed, &commit.begun)
}

fn beginnings_stay_out(committed: &[Commit], of: &[Beginning]) -> bool
    ensures { result ≡ list_all (λ t. all_stay_out committed.now t) of.now }
{
    of.iter().all(|begun| all_stay_out(committed, begun))
}

fn all_stay_out(committed: &[Commit], begun: &Beginning) -> bool
    ensures { result ≡ all_stay_out committed.now begun.now }
{
    committed.iter().all(|commit| stays_out(begun, commit))
}

fn stays_out(begun: &Beginning, commit: &Commit) -> bool
    ensures { result ≡ stays_out begun.now commit.now }
{
    !commit.begun.tid.same(&begun.tid)
        || !(has_own_vector(commit) && commit.vector.at_most(&begun.snapshot))
}
