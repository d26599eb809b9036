//! Laws of verdicts, of whatever log and whatever conflicts are declared.
ghost use Rattle.us_certify.specs.Laws.{VerdictsSayWhy, EntriesStay, DecisionsStay, VerdictsAreOfPrefixes, DecidedOnce, ConflictsAreSeen, ConflictsAreMutual};

/// A repeat stands in an earlier slot. An abort names the least earlier slot that committed, conflicts and isn't in the snapshot, and
/// the item of the first operation that conflicts. For a commit there is no such slot, and the transaction stands in none.
pub fn verdicts_say_why()
    ensures { VerdictsSayWhy }
{}

/// A log's decisions are of its entries, in order; what comes later changes none, and each verdict is by the entries before it.
pub fn decisions_stay()
    ensures entries { EntriesStay }
    ensures later { DecisionsStay }
    ensures prefixes { VerdictsAreOfPrefixes }
{}

/// Of the slots in which a transaction stands all but the first are repeats.
pub fn transactions_are_decided_once()
    ensures { DecidedOnce }
{}

/// Of two transactions that commit and conflict, the later one's snapshot is at least the vector of the earlier one; which of the
/// two conflicts with the other makes no difference.
pub fn conflicts_are_seen()
    ensures seen { ConflictsAreSeen }
    ensures mutual { ConflictsAreMutual }
{}
