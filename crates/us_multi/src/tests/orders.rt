use super::fixtures::{is, prepared, stamp, state_after, written};
use crate::{MultiEffect, MultiState, MultiValue};
use std::alloc::Global;
use std::test::Fail;
use us_kind::{Memory, Replicated};

const ORDERS: [[usize; 4]; 24] = [
    [0, 1, 2, 3],
    [0, 1, 3, 2],
    [0, 2, 1, 3],
    [0, 2, 3, 1],
    [0, 3, 1, 2],
    [0, 3, 2, 1],
    [1, 0, 2, 3],
    [1, 0, 3, 2],
    [1, 2, 0, 3],
    [1, 2, 3, 0],
    [1, 3, 0, 2],
    [1, 3, 2, 0],
    [2, 0, 1, 3],
    [2, 0, 3, 1],
    [2, 1, 0, 3],
    [2, 1, 3, 0],
    [2, 3, 0, 1],
    [2, 3, 1, 0],
    [3, 0, 1, 2],
    [3, 0, 2, 1],
    [3, 1, 0, 2],
    [3, 1, 2, 0],
    [3, 2, 0, 1],
    [3, 2, 1, 0],
];

// The effects applied, each with the number of its update.
fn state_of(alloc: Global, effects: &[(&MultiEffect, u64)]) -> Result<MultiState, Memory> {
    let mut state = MultiValue::initial(alloc)?;
    for (effect, seq) in effects {
        MultiValue::apply(alloc, &mut state, effect, stamp(*seq))?;
    }
    Ok(state)
}

// Two concurrent writes overwrite the first, and one of them is overwritten: what stays is given once.
#[test]
fn multi_in_all_orders(rt: HostRuntime) -> Result<(), Fail> {
    let alloc = rt.alloc();
    let twice = [
        (9, [].as_slice()),
        (3, [0].as_slice()),
        (2, [0].as_slice()),
        (3, [2].as_slice()),
    ];
    let apart = [
        (9, [].as_slice()),
        (7, [0].as_slice()),
        (2, [0].as_slice()),
        (3, [0].as_slice()),
    ];
    for order in &ORDERS {
        let state = state_after(alloc, &twice, order)?;
        assert!(rt; is(alloc, &state, &[3], &[1, 3])?, "in order {order:?}");
        let state = state_after(alloc, &apart, order)?;
        assert!(rt;
            is(alloc, &state, &[2, 3, 7], &[1, 2, 3])?,
            "in order {order:?}"
        );
    }
    Ok(())
}

// Of two writes with one tag the greater value stays, and a write that names its own tag is overwritten for good.
#[test]
fn multi_with_one_tag(rt: HostRuntime) -> Result<(), Fail> {
    let alloc = rt.alloc();
    let four = written(alloc, 4, &[])?;
    let six = written(alloc, 6, &[])?;
    let own = written(alloc, 8, &[5, 0, 5])?;
    let one = state_of(alloc, &[(&four, 0), (&six, 0)])?;
    assert!(rt; is(alloc, &one, &[6], &[0])?);
    let other = state_of(alloc, &[(&six, 0), (&four, 0)])?;
    assert!(rt; is(alloc, &other, &[6], &[0])?);
    let gone = state_of(alloc, &[(&four, 0), (&own, 0), (&six, 0), (&six, 5)])?;
    assert!(rt; is(alloc, &gone, &[], &[])?);
    Ok(())
}

// Two sites write at the same time, and a third write overwrites both, wherever it comes first.
#[test]
fn multi_two_at_once(rt: HostRuntime) -> Result<(), Fail> {
    let alloc = rt.alloc();
    let empty = MultiValue::initial(alloc)?;
    let one = prepared(alloc, &empty, 8)?;
    let other = prepared(alloc, &empty, 5)?;
    let both = state_of(alloc, &[(&one, 1), (&other, 2)])?;
    assert!(rt; is(alloc, &both, &[5, 8], &[1, 2])?);
    let last = prepared(alloc, &both, 6)?;
    let late = state_of(alloc, &[(&one, 1), (&other, 2), (&last, 3)])?;
    assert!(rt; is(alloc, &late, &[6], &[3])?);
    let early = state_of(alloc, &[(&last, 3), (&other, 2), (&one, 1)])?;
    assert!(rt; is(alloc, &early, &[6], &[3])?);
    Ok(())
}
