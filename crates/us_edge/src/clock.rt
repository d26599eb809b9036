ghost use Rattle.std.specs.Prelude.{ℕ, List, Option};
ghost use Rattle.us_edge.specs.Numbers.{Ticks};

/// What time it is, as a number.
pub trait Clock {
    // The numbers still to come, where the clock tells them. The last is given again and again.
    ghost numbers: { Self → Option (List ℕ) };

    /// The next number, which may be below the last one. It never fails.
    fn now(&mut self) -> u64
        ensures { Ticks (numbers self.old) (numbers self.new) result };
}
