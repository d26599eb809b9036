//! Laws of the state that a log gives an item: neither the order of its transactions matters, nor what isn't written on the item.
#![tactic(auto)]

ghost use Rattle.us_folds.specs.Laws.{EffectsCommute, OrderIsFree, OthersMakeNoDifference, SharesAreEnough};

/// Two effects, of whatever kind, give one state in either order, from each state and whatever their stamps.
pub fn effects_commute()
    ensures { EffectsCommute }
{}

/// The transactions of a log give an item the same state in any order.
pub fn order_is_free()
    ensures { OrderIsFree }
{}

/// Transactions that don't write an item make no difference to its state.
pub fn others_make_no_difference()
    ensures { OthersMakeNoDifference }
{}

/// To the state of an item, of each transaction's writes those on the item are enough, whatever others stand beside them: so a
/// partition that keeps the item needs no more than its own share of the writes.
pub fn shares_are_enough()
    ensures { SharesAreEnough }
{}
