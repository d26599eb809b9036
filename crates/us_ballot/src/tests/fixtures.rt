use us_kind::{Memory, Slot};

/// An entry: a number.
#[derive(Clone, Copy, Debug, PartialEq, Eq)]
pub(crate) struct Mark {
    pub(crate) number: u64,
}

impl Slot for Mark {
    ghost use Rattle.std.proofs.Common.{rules};
    ghost use Rattle.std.proofs.lemmas.Grind.{common_steps};

    ghost same = { λ x y e. Prim.search (rules, common_steps) };

    fn copy(&self) -> Result<Mark, Memory> {
        Ok(*self)
    }
}
