use super::*;
use std::alloc::Global;
use std::test::Fail;
use us_kind::{Bytes, Memory};

const ORDERS: [[usize; 4]; 24] = [
    [0, 1, 2, 3],
    [0, 1, 3, 2],
    [0, 2, 1, 3],
    [0, 2, 3, 1],
    [0, 3, 1, 2],
    [0, 3, 2, 1],
    [1, 0, 2, 3],
    [1, 0, 3, 2],
    [1, 2, 0, 3],
    [1, 2, 3, 0],
    [1, 3, 0, 2],
    [1, 3, 2, 0],
    [2, 0, 1, 3],
    [2, 0, 3, 1],
    [2, 1, 0, 3],
    [2, 1, 3, 0],
    [2, 3, 0, 1],
    [2, 3, 1, 0],
    [3, 0, 1, 2],
    [3, 0, 2, 1],
    [3, 1, 0, 2],
    [3, 1, 2, 0],
    [3, 2, 0, 1],
    [3, 2, 1, 0],
];

// The state after effects that are applied in the order. The k-th effect has the k-th sum and the number k, from 0.
#[tactic(auto, using(crate::proofs::UpdateCount::one_more))]
fn state_after(
    alloc: Global,
    kind: Kind,
    sums: &[u128],
    effects: &[Effect],
    order: &[usize; 4],
) -> Result<State, Fail> {
    let mut state = initial(alloc, kind)?;
    for i in order {
        let effect = effects.get(*i).ok_or("no effect")?;
        let sum = sums.get(*i).ok_or("no sum")?;
        apply(alloc, &mut state, effect, stamp(*sum, *i as u64))?;
    }
    Ok(state)
}

// Some order after which the read answers anything else.
fn wrong_order(
    alloc: Global,
    kind: Kind,
    sums: &[u128],
    effects: &[Effect],
    read: &Op,
    wanted: &Answer,
) -> Result<Option<[usize; 4]>, Fail> {
    for order in &ORDERS {
        let state = state_after(alloc, kind, sums, effects, order)?;
        let answered = answer(alloc, &state, read)?;
        if answered != *wanted {
            return Ok(Some(*order));
        }
    }
    Ok(None)
}

// Of the two latest sums the greater number wins.
#[test]
fn registers(rt: HostRuntime) -> Result<(), Fail> {
    let alloc = rt.alloc();
    let mut effects = Vec::new(alloc);
    for letter in b"dcba" {
        effects.push(register_write(alloc, &[*letter])?)?;
    }
    let wanted = Answer::Value {
        value: Bytes::from_slice(alloc, b"b")?,
    };
    let wrong = wrong_order(
        alloc,
        Kind::Register,
        &[1, 3, 3, 2],
        &effects,
        &Op::RegisterRead,
        &wanted,
    )?;
    assert_eq!(rt; wrong, None);
    Ok(())
}

#[test]
fn counters(rt: HostRuntime) -> Result<(), Fail> {
    let alloc = rt.alloc();
    let mut effects = Vec::new(alloc);
    for amount in [5, -7, 0, 9_223_372_036_854_775_807] {
        effects.push(Effect::CounterAdd { amount })?;
    }
    let wanted = Answer::Number {
        number: 9_223_372_036_854_775_805,
    };
    let wrong = wrong_order(
        alloc,
        Kind::Counter,
        &[1, 1, 2, 2],
        &effects,
        &Op::CounterRead,
        &wanted,
    )?;
    assert_eq!(rt; wrong, None);
    Ok(())
}

// The removal met the first addition of z alone.
fn set_effects(alloc: Global) -> Result<Vec<Effect>, Memory> {
    let mut effects = Vec::new(alloc);
    effects.push(set_add(alloc, b"z")?)?;
    effects.push(set_add(alloc, b"a")?)?;
    effects.push(set_remove(alloc, b"z", &[0])?)?;
    effects.push(set_add(alloc, b"z")?)?;
    Ok(effects)
}

#[test]
fn sets(rt: HostRuntime) -> Result<(), Fail> {
    let alloc = rt.alloc();
    let effects = set_effects(alloc)?;
    let wanted = values(alloc, b"az")?;
    let wrong = wrong_order(
        alloc,
        Kind::Set,
        &[1, 2, 3, 3],
        &effects,
        &Op::SetMembers,
        &wanted,
    )?;
    assert_eq!(rt; wrong, None);
    Ok(())
}

// Two enablings, a disabling that met the first alone, and one that met these.
fn flag_effects(alloc: Global, met: &[u64]) -> Result<Vec<Effect>, Memory> {
    let mut effects = Vec::new(alloc);
    effects.push(Effect::Enable)?;
    effects.push(Effect::Enable)?;
    effects.push(disable(alloc, &[0])?)?;
    effects.push(disable(alloc, met)?)?;
    Ok(effects)
}

fn wrong_flag_order(alloc: Global, met: &[u64], yes: bool) -> Result<Option<[usize; 4]>, Fail> {
    let effects = flag_effects(alloc, met)?;
    wrong_order(
        alloc,
        Kind::Flag,
        &[1, 2, 3, 3],
        &effects,
        &Op::FlagRead,
        &Answer::Bit { yes },
    )
}

#[test]
fn flags(rt: HostRuntime) -> Result<(), Fail> {
    let alloc = rt.alloc();
    assert_eq!(rt; wrong_flag_order(alloc, &[], true)?, None);
    assert_eq!(rt; wrong_flag_order(alloc, &[0, 1], false)?, None);
    Ok(())
}

// Two concurrent writes overwrite the first, and one of them is overwritten.
fn multi_effects(alloc: Global) -> Result<Vec<Effect>, Memory> {
    let mut effects = Vec::new(alloc);
    effects.push(multi_write(alloc, b"a", &[])?)?;
    effects.push(multi_write(alloc, b"c", &[0])?)?;
    effects.push(multi_write(alloc, b"d", &[0])?)?;
    effects.push(multi_write(alloc, b"b", &[2])?)?;
    Ok(effects)
}

#[test]
fn multis(rt: HostRuntime) -> Result<(), Fail> {
    let alloc = rt.alloc();
    let effects = multi_effects(alloc)?;
    let wanted = values(alloc, b"bc")?;
    let wrong = wrong_order(
        alloc,
        Kind::Multi,
        &[1, 2, 2, 3],
        &effects,
        &Op::MultiRead,
        &wanted,
    )?;
    assert_eq!(rt; wrong, None);
    Ok(())
}
