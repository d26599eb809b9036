use super::fixtures::{ORDERS, stamp, tid};
use crate::{Register, RegisterAnswer, RegisterEffect, RegisterOp, RegisterState, StampedValue};
use std::alloc::Global;
use std::test::Fail;
use us_kind::{Bytes, Memory, Replicated, Stamp, Tag};

fn write(alloc: Global, value: &[u8]) -> Result<RegisterEffect, Memory> {
    Ok(RegisterEffect::RegisterWrite {
        value: Bytes::from_slice(alloc, value)?,
    })
}

// Four writes in all orders: the latest stamp wins, and of equal stamps the greater value.
#[test]
fn register_in_all_orders(rt: HostRuntime) -> Result<(), Fail> {
    let alloc = rt.alloc();
    let tables: [([(Stamp, &[u8]); 4], Stamp, &[u8]); 4] = [
        (
            [
                (stamp(1, 4, 1), b"z"),
                (stamp(2, 1, 1), b"y"),
                (stamp(2, 1, 2), b"a"),
                (stamp(1, 9, 9), b"x"),
            ],
            stamp(2, 1, 2),
            b"a",
        ),
        (
            [
                (stamp(5, 1, 1), b"b"),
                (stamp(5, 1, 1), b"a"),
                (stamp(5, 1, 1), b"ba"),
                (stamp(4, 7, 1), b"z"),
            ],
            stamp(5, 1, 1),
            b"ba",
        ),
        (
            [
                (stamp(3, 2, 1), b"m"),
                (stamp(3, 1, 9), b"n"),
                (stamp(3, 2, 1), b"m"),
                (stamp(3, 1, 9), b""),
            ],
            stamp(3, 2, 1),
            b"m",
        ),
        (
            [
                (stamp(0, 1, 1), b"a"),
                (stamp(1, 1, 1), b"b"),
                (stamp(2, 1, 1), b"c"),
                (stamp(3, 1, 1), b""),
            ],
            stamp(3, 1, 1),
            b"",
        ),
    ];
    for (writes, last, value) in &tables {
        for order in &ORDERS {
            let mut state = Register::initial(alloc)?;
            for i in order {
                if let Some((stamp, value)) = writes.get(*i) {
                    Register::apply(alloc, &mut state, &write(alloc, value)?, *stamp)?;
                }
            }
            let kept = StampedValue {
                stamp: *last,
                value: Bytes::from_slice(alloc, value)?,
            };
            assert_eq!(rt;
                state,
                RegisterState { kept: Some(kept) },
                "in order {order:?}"
            );
        }
    }
    Ok(())
}

#[test]
fn register_calls(rt: HostRuntime) -> Result<(), Fail> {
    let alloc = rt.alloc();
    let tag = Tag {
        tid: tid(1),
        place: 1,
    };
    let read = RegisterOp::RegisterRead;
    let change = RegisterOp::RegisterWrite {
        value: Bytes::from_slice(alloc, b"x")?,
    };
    let mut state = Register::initial(alloc)?;
    assert_eq!(rt;
        Register::answer(alloc, &state, &read)?,
        RegisterAnswer::Nothing
    );
    assert_eq!(rt; Register::prepare(alloc, &state, &read, tag)?, None);
    let effect = Register::prepare(alloc, &state, &change, tag)?.ok_or("no effect")?;
    assert_eq!(rt; effect, write(alloc, b"x")?);
    Register::apply(alloc, &mut state, &effect, stamp(1, 1, 1))?;
    let value = Bytes::from_slice(alloc, b"x")?;
    assert_eq!(rt;
        Register::answer(alloc, &state, &read)?,
        RegisterAnswer::Value { value }
    );
    assert_eq!(rt;
        Register::answer(alloc, &state, &change)?,
        RegisterAnswer::Done
    );
    assert_eq!(rt; state.copy()?, state);
    Ok(())
}
