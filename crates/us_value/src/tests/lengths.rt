use super::*;
use std::alloc::Global;
use std::test::Fail;
use us_kind::{Bytes, Memory};

// The bytes of a write of the effect: an item of 4 bytes and a place of one before it.
fn written(alloc: Global, effect: Effect) -> Result<usize, Memory> {
    let item = Item {
        space: 7,
        id: Bytes::from_slice(alloc, b"ab")?,
    };
    Ok(write_len(&Write {
        item,
        place: 3,
        effect,
    }))
}

#[test]
fn writes(rt: HostRuntime) -> Result<(), Fail> {
    let alloc = rt.alloc();
    assert_eq!(rt; written(alloc, register_write(alloc, b"x")?)?, 9);
    assert_eq!(rt; written(alloc, Effect::CounterAdd { amount: -1 })?, 14);
    assert_eq!(rt; written(alloc, set_add(alloc, b"xy")?)?, 10);
    assert_eq!(rt; written(alloc, set_remove(alloc, b"x", &[1, 2])?)?, 33);
    assert_eq!(rt; written(alloc, Effect::Enable)?, 6);
    assert_eq!(rt; written(alloc, disable(alloc, &[1])?)?, 19);
    assert_eq!(rt; written(alloc, multi_write(alloc, b"", &[])?)?, 10);
    Ok(())
}

#[test]
fn answers(rt: HostRuntime) -> Result<(), Fail> {
    let alloc = rt.alloc();
    let value = Bytes::from_slice(alloc, b"abc")?;
    assert_eq!(rt; answer_len(&Answer::Done), 1);
    assert_eq!(rt; answer_len(&Answer::Nothing), 1);
    assert_eq!(rt; answer_len(&Answer::Value { value }), 6);
    assert_eq!(rt; answer_len(&Answer::Number { number: -1 }), 17);
    assert_eq!(rt; answer_len(&values(alloc, b"abc")?), 14);
    assert_eq!(rt; answer_len(&Answer::Bit { yes: true }), 2);
    Ok(())
}

#[test]
fn copies(rt: HostRuntime) -> Result<(), Fail> {
    let alloc = rt.alloc();
    let item = Item {
        space: 7,
        id: Bytes::from_slice(alloc, b"ab")?,
    };
    let write = Write {
        item: item.copy()?,
        place: 3,
        effect: disable(alloc, &[1])?,
    };
    let several = values(alloc, b"abc")?;
    assert_eq!(rt; write.copy()?, write);
    assert_eq!(rt; write.item, item);
    assert_eq!(rt; several.copy()?, several);
    Ok(())
}
