//! What follows of every replicated type.
ghost use Rattle.us_kind.specs.Updates.{OrderIsFree, AnswersInAnyOrder};

use crate::Replicated;

/// The order of applying doesn't matter: each gives the same state.
pub fn order_is_free<R: Replicated>()
    ensures { OrderIsFree R.Op R.updated }
{}

/// A history, applied in any order, answers each operation as the definition.
pub fn answers_in_any_order<R: Replicated>()
    ensures { AnswersInAnyOrder R.initially R.updated R.answered R.prepared R.value }
{}
