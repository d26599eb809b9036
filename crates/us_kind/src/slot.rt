use crate::Memory;

/// An entry of a ballot log. Entries that `==` calls equal are the same value.
pub trait Slot: Eq + Sized + Drop {
    ghost use Rattle.std.specs.Prelude.{◌≡◌, true, IfOk};

    /// A copy, which is the same value.
    fn copy(&self) -> Result<Self, Memory>
        ensures { IfOk result (λ copy. copy ≡ self.now) };

    /// `==` answers true only of the same value.
    ghost same: { (x y : Self) → Self.eq x y ≡ true → x ≡ y };
}
