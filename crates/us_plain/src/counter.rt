use std::alloc::Global;
use std::marker::Model;
use us_kind::{Memory, Replicated, Stamp, Tag};

/// What a user asks of a counter.
#[derive(Clone, Copy, Debug, PartialEq, Eq)]
pub enum CounterOp {
    CounterRead,
    CounterAdd { amount: i64 },
}

/// What an addition does at each site.
#[derive(Clone, Copy, Debug, PartialEq, Eq)]
pub enum CounterEffect {
    CounterAdd { amount: i64 },
}

/// What a counter answers.
#[derive(Clone, Copy, Debug, PartialEq, Eq)]
pub enum CounterAnswer {
    Done,
    Number { number: i128 },
}

/// The sum so far, and of how many additions: each is less than 2^63 away from 0, so the sum of fewer than 2^60 fits.
#[derive(Clone, Copy, Debug, PartialEq, Eq)]
pub struct CounterState {
    sum: i128,
    updates: u64,
}

impl Model for CounterState {
    ghost use Rattle.us_plain.specs.Sums.{Sum, IsWithin};

    ghost Value = { Sum };

    ghost view = { λ s. record { total = s.sum; updates = s.updates } };

    ghost inverse = { λ s. record { sum = s.total; updates = s.updates } };

    ghost invariant = { λ s. IsWithin (s.updates) (s.sum) };
}

impl CounterState {
    ghost use Rattle.std.specs.Prelude.{◌≡◌};

    /// How many additions it counts.
    pub fn updates(&self) -> u64
        ensures { result ≡ self.now.updates }
    {
        self.updates
    }
}

/// A counter: the sum of all amounts.
pub struct Counter;

impl Replicated for Counter {
    ghost use Rattle.us_plain.specs.Counter.{counter_initial, counter_updated, counter_answered, counter_prepared, counter_reads, counter_value};
    ghost use Rattle.us_plain.specs.CounterLaws.{counter-commutes, counter-reads, counter-counts, counter-in_order};

    type Op = CounterOp;

    type Effect = CounterEffect;

    type Answer = CounterAnswer;

    type State = CounterState;

    ghost initially = { counter_initial };

    ghost updated = { counter_updated };

    ghost answered = { counter_answered };

    ghost prepared = { counter_prepared };

    ghost is_reading = { counter_reads };

    ghost update_count = { λ s. s.updates };

    ghost value = { counter_value };

    fn initial(_alloc: Global) -> Result<CounterState, Memory> {
        Ok(CounterState { sum: 0, updates: 0 })
    }

    fn answer(
        _alloc: Global,
        state: &CounterState,
        op: &CounterOp,
    ) -> Result<CounterAnswer, Memory> {
        match op {
            CounterOp::CounterRead => Ok(CounterAnswer::Number { number: state.sum }),
            CounterOp::CounterAdd { .. } => Ok(CounterAnswer::Done),
        }
    }

    fn prepare(
        _alloc: Global,
        _state: &CounterState,
        op: &CounterOp,
        _tag: Tag,
    ) -> Result<Option<CounterEffect>, Memory> {
        match op {
            CounterOp::CounterRead => Ok(None),
            CounterOp::CounterAdd { amount } => {
                Ok(Some(CounterEffect::CounterAdd { amount: *amount }))
            }
        }
    }

    fn apply(
        _alloc: Global,
        state: &mut CounterState,
        effect: &CounterEffect,
        _stamp: Stamp,
    ) -> Result<(), Memory> {
        let CounterEffect::CounterAdd { amount } = *effect;
        state.sum += i128::from(amount);
        state.updates += 1;
        Ok(())
    }

    ghost commutes = { counter-commutes };

    ghost reads = { counter-reads };

    ghost counts = { counter-counts };

    ghost in_order = { counter-in_order };
}
