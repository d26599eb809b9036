ghost use Rattle.std.specs.Prelude.{◌≡◌, Some};
ghost use Rattle.us_edge.specs.Numbers.{given, still_to_come};

use crate::Clock;
use std::marker::Model;

/// A clock that gives the numbers of a list, and its last again and again, and tells them. It gives 0 where the
/// list is empty.
#[derive(Drop)]
pub struct ListClock {
    numbers: Vec<u64>,
    at: usize,
}

impl Model for ListClock {
    ghost use Rattle.std.specs.Prelude.{List, ℕ, drop, ◌≤◌, vec_len};

    ghost Value = { List ℕ };

    ghost view = { λ a. drop a.at a.numbers.items };

    ghost invariant = { λ a. a.at ≤ vec_len a.numbers };
}

impl ListClock {
    /// The clock that gives these numbers.
    pub fn new(numbers: Vec<u64>) -> ListClock
        ensures { result ≡ numbers.items }
    {
        ListClock { numbers, at: 0 }
    }
}

impl Clock for ListClock {
    ghost numbers = { λ a. Some a };

    fn now(&mut self) -> u64
        ensures given { result ≡ given self.old }
        ensures left { self.new ≡ still_to_come self.old }
    {
        let Some(number) = self.numbers.get(self.at) else {
            return 0;
        };
        let number = *number;
        if self.at + 1 < self.numbers.len() {
            self.at += 1;
        }
        number
    }
}
