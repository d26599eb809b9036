use super::fixtures::{ORDERS, stamp, tid};
use crate::{Counter, CounterAnswer, CounterEffect, CounterOp};
use std::test::Fail;
use us_kind::{Replicated, Tag};

fn add(amount: i64) -> CounterEffect {
    CounterEffect::CounterAdd { amount }
}

// Four amounts in all orders; the least and the greatest are the ends of 64 bits.
#[test]
fn counter_in_all_orders(rt: HostRuntime) -> Result<(), Fail> {
    let alloc = rt.alloc();
    let read = CounterOp::CounterRead;
    let tables: [([i64; 4], i128); 5] = [
        ([5, -3, 0, 7], 9),
        (
            [i64::MAX, i64::MAX, i64::MAX, i64::MAX],
            36_893_488_147_419_103_228,
        ),
        (
            [i64::MIN, i64::MIN, i64::MIN, i64::MIN],
            -36_893_488_147_419_103_232,
        ),
        ([i64::MIN, i64::MAX, 1, 1], 1),
        (
            [i64::MIN, i64::MIN, i64::MAX, 0],
            -9_223_372_036_854_775_809,
        ),
    ];
    for (amounts, sum) in &tables {
        for order in &ORDERS {
            let mut state = Counter::initial(alloc)?;
            for i in order {
                if let Some(amount) = amounts.get(*i) {
                    Counter::apply(alloc, &mut state, &add(*amount), stamp(1, 1, 1))?;
                }
            }
            let answer = Counter::answer(alloc, &state, &read)?;
            assert_eq!(rt;
                answer,
                CounterAnswer::Number { number: *sum },
                "in order {order:?}"
            );
        }
    }
    Ok(())
}

#[test]
fn counter_calls(rt: HostRuntime) -> Result<(), Fail> {
    let alloc = rt.alloc();
    let tag = Tag {
        tid: tid(1),
        place: 1,
    };
    let read = CounterOp::CounterRead;
    let take = CounterOp::CounterAdd { amount: -4 };
    let state = Counter::initial(alloc)?;
    assert_eq!(rt;
        Counter::answer(alloc, &state, &read)?,
        CounterAnswer::Number { number: 0 }
    );
    assert_eq!(rt; Counter::answer(alloc, &state, &take)?, CounterAnswer::Done);
    assert_eq!(rt; Counter::prepare(alloc, &state, &read, tag)?, None);
    assert_eq!(rt; Counter::prepare(alloc, &state, &take, tag)?, Some(add(-4)));
    Ok(())
}
