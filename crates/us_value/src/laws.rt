//! What follows of every history of operations of one kind.
ghost use Rattle.us_value.specs.Laws.{AnswersAsDefined, CountsAsApplied, PreparesUpdates, OwnUpdatesComeLast};

/// A history, applied in any order, answers each operation as the definition.
pub fn answers_as_defined()
    ensures { AnswersAsDefined }
{}

/// Exactly the operations that update have an effect.
pub fn prepares_updates()
    ensures { PreparesUpdates }
{}

/// A transaction's own updates, applied with the greatest sum after those that it sees, come after them all.
pub fn own_updates_come_last()
    ensures { OwnUpdatesComeLast }
{}

/// A state counts no more updates than were applied to it, so fewer than 2^60 of them are as many as `apply` takes.
pub fn counts_as_applied()
    ensures { CountsAsApplied }
{}
