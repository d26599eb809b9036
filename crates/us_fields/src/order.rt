//! Lists whose items stand in an order.
ghost use Rattle.std.specs.Prelude.{◌≡◌};
ghost use Rattle.us_fields.specs.Lists.{is_in_order};

/// An order in which the items of a list stand.
pub trait Order<T> {
    ghost use Rattle.std.specs.Prelude.{◌≡◌, Bool};

    /// Whether an item may stand before the next.
    ghost before: { Self → T → T → Bool };

    fn may_precede(&self, item: &T, next: &T) -> bool
        ensures { result ≡ before self.now item.now next.now };
}

/// Whether each item may stand before the next.
pub fn are_in_order<T, O: Order<T>>(order: &O, items: &[T]) -> bool
    ensures { result ≡ is_in_order (O.before order.now) items.now }
{
    for i in 1..items.len() {
        if !order.may_precede(&items[i - 1], &items[i]) {
            return false;
        }
    }
    true
}
