//! Laws of snapshot histories: of what happened in a store whose transactions read at snapshots, whatever machine did it. A
//! snapshot history (`specs/Snapshots.antt`) names its transactions apart, its snapshots cover what their sessions committed
//! before, each commit vector is at least the snapshot, and each operation is answered at the state that its snapshot gives.
//! No partition, packet or site number stands in these laws: who shows that a machine's runs tell such histories has them all.
#![tactic(auto)]

ghost use Rattle.us_snapshots.specs.Laws.{ExecutionsAreClosed, ExecutionsAreOrdered, ExecutionsAreValued, ExecutionsAreWellFormed};
ghost use Rattle.us_snapshots.specs.Laws.{CountsAreDirect, ExecutionsAreDirect, HistoriesAscend};

/// The execution of a snapshot history is well formed: each session's committed transactions are numbered 1, 2 and so on, as
/// their coordinator began them, no two transactions have one name, and pasts count what is there.
pub fn executions_are_well_formed()
    ensures { ExecutionsAreWellFormed }
{}

/// It is closed: a past holds what its session committed before, what its session goes on from by a link, and what is before a
/// transaction that is in it, all of which stand earlier.
pub fn executions_are_closed()
    ensures { ExecutionsAreClosed }
{}

/// It is valued: each answer, of running and abandoned transactions too, is its operation's value over the past and its own
/// transaction's earlier operations.
pub fn executions_are_valued()
    ensures { ExecutionsAreValued }
{}

/// It is ordered: of two strong transactions that conflict one is before the other, whichever pairs of operations are
/// declared to conflict.
pub fn executions_are_ordered()
    ensures { ExecutionsAreOrdered }
{}

/// Where no session goes on from another one, the count of a session in a past, which is defined by the closure of steps, is the
/// greatest number of a transaction of the session that leads to it in one step.
pub fn counts_are_direct()
    ensures { CountsAreDirect }
{}

/// Where no session goes on from another one, the execution of a snapshot history, whose pasts are defined by the closure of
/// steps, is the one whose pasts are counted in one step.
pub fn executions_are_direct()
    ensures { ExecutionsAreDirect }
{}

/// Where no session goes on from another one, in each session the vectors of later transactions are at least those of earlier ones, and no transaction with a vector of
/// its own is in its own snapshot.
pub fn histories_ascend()
    ensures { HistoriesAscend }
{}
