//! Laws over every run of the written machine.
#![tactic(auto)]

ghost use Rattle.us_order.specs.Laws.{EveryRunIsASnapshotHistory, EveryRunIsPor, ExecutionsAreDirect, ExecutionsAreWellFormed, HistoriesAscend, PastsAreDirect};

/// Whatever clients send and whichever packets come, in whatever order and however often, the notes of the run tell a snapshot
/// history (`us_snapshots`): its transactions are named apart, snapshots cover what their sessions committed before, commit
/// vectors are at least snapshots, and each operation is answered at the state that its snapshot gives. The laws below follow.
pub fn every_run_is_a_snapshot_history()
    ensures { EveryRunIsASnapshotHistory }
{}

/// Whatever clients send and whichever packets come, in whatever order and however often, the execution of the run is
/// consistent: its pasts are closed and stand earlier, each answer is its operation's value over its past and its own
/// transaction's earlier operations, and strong transactions that conflict as declared are ordered.
pub fn every_run_is_por()
    ensures { EveryRunIsPor }
{}

/// The count of a session in a transaction's past, which the execution defines by the closure of steps, is the greatest
/// number of a transaction of the session that leads to it in one step.
pub fn pasts_are_direct()
    ensures { PastsAreDirect }
{}

/// The execution of a run, whose pasts are defined by the closure of steps, is the one whose pasts count what leads to a
/// transaction in one step, entry for entry and loose transaction for loose transaction.
pub fn executions_are_direct()
    ensures { ExecutionsAreDirect }
{}

/// In each session the vectors of later transactions are at least those of earlier ones, and none that updates is in its own
/// snapshot. So of a session's transactions that update those in a snapshot come first, and can be found by binary search.
pub fn histories_ascend()
    ensures { HistoriesAscend }
{}

/// The execution of a run is well formed: in the order of the entries each session's committed transactions are numbered 1, 2
/// and so on, as their coordinator began them, no two transactions, committed or not, have one name, and a past names each
/// session once, ascending, and counts at least one and at most all of its committed transactions.
pub fn executions_are_well_formed()
    ensures { ExecutionsAreWellFormed }
{}
