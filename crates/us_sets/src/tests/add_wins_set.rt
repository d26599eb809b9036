use super::fixtures::{ORDERS, are_tags, stamp, tag, tags};
use crate::{AddWinsSet, SetAnswer, SetEffect, SetOp, SetState};
use std::alloc::Global;
use std::test::Fail;
use us_kind::{Bytes, Items, Memory, Replicated};

fn are_values(found: &Items<Bytes>, values: &[u8]) -> bool {
    for (found, value) in found.as_slice().iter().zip(values) {
        if found.as_slice() != [*value].as_slice() {
            return false;
        }
    }
    found.len() == values.len()
}

fn bytes(alloc: Global, value: u8) -> Result<Bytes, Memory> {
    Bytes::from_slice(alloc, &[value])
}

// An update of an element: an addition, or a removal of these.
fn change(alloc: Global, value: u8, removes: Option<&[u64]>) -> Result<SetEffect, Memory> {
    let value = bytes(alloc, value)?;
    match removes {
        None => Ok(SetEffect::SetAdd { value }),
        Some(seqs) => Ok(SetEffect::SetRemove {
            value,
            tags: tags(alloc, seqs)?,
        }),
    }
}

// The effects applied, each with the number of its update.
fn set_of(alloc: Global, effects: &[(&SetEffect, u64)]) -> Result<SetState, Memory> {
    let mut state = AddWinsSet::initial(alloc)?;
    for (effect, seq) in effects {
        AddWinsSet::apply(alloc, &mut state, effect, stamp(*seq))?;
    }
    Ok(state)
}

fn set_after(
    alloc: Global,
    updates: &[(u8, Option<&'static [u64]>)],
    order: &[usize],
) -> Result<SetState, Memory> {
    let mut state = AddWinsSet::initial(alloc)?;
    for i in order {
        if let Some((value, removes)) = updates.get(*i) {
            let effect = change(alloc, *value, *removes)?;
            AddWinsSet::apply(alloc, &mut state, &effect, stamp(*i as u64))?;
        }
    }
    Ok(state)
}

// All that the set answers: whether it holds the value, and the tags of the additions of it that are there.
fn holds(alloc: Global, state: &SetState, value: u8, live: &[u64]) -> Result<bool, Memory> {
    let value = bytes(alloc, value)?;
    let found = state.live(alloc, &value)?;
    Ok(are_tags(&found, live) && state.contains(&value) != live.is_empty())
}

fn has_members(alloc: Global, state: &SetState, members: &[u8]) -> Result<bool, Memory> {
    let found = state.members(alloc)?;
    Ok(are_values(&found, members))
}

// Four updates in all orders: a concurrent addition stays, and a removal takes away what it names, arrived or not.
#[test]
fn set_in_all_orders(rt: HostRuntime) -> Result<(), Fail> {
    let alloc = rt.alloc();
    let updates = [(2, None), (2, Some([0].as_slice())), (1, None), (2, None)];
    for order in &ORDERS {
        let state = set_after(alloc, &updates, order)?;
        assert!(rt; has_members(alloc, &state, &[1, 2])?, "in order {order:?}");
        assert!(rt; holds(alloc, &state, 1, &[2])?, "in order {order:?}");
        assert!(rt; holds(alloc, &state, 2, &[3])?, "in order {order:?}");
        assert!(rt; holds(alloc, &state, 3, &[])?, "in order {order:?}");
    }
    Ok(())
}

// One addition, two removals of it, and another element: the addition would have to come twice more to be there.
#[test]
fn set_removed_twice(rt: HostRuntime) -> Result<(), Fail> {
    let alloc = rt.alloc();
    let updates = [
        (7, None),
        (7, Some([0].as_slice())),
        (7, Some([0].as_slice())),
        (8, None),
    ];
    let add = change(alloc, 7, None)?;
    for order in &ORDERS {
        let mut state = set_after(alloc, &updates, order)?;
        assert!(rt; has_members(alloc, &state, &[8])?, "in order {order:?}");
        AddWinsSet::apply(alloc, &mut state, &add, stamp(0))?;
        assert!(rt; has_members(alloc, &state, &[8])?, "in order {order:?}");
        AddWinsSet::apply(alloc, &mut state, &add, stamp(0))?;
        assert!(rt; has_members(alloc, &state, &[7, 8])?, "in order {order:?}");
    }
    Ok(())
}

// A removal that names one tag twice, and one that never arrives.
#[test]
fn set_removal_names_a_tag_twice(rt: HostRuntime) -> Result<(), Fail> {
    let alloc = rt.alloc();
    let updates = [
        (7, Some([2, 9, 2].as_slice())),
        (7, Some([].as_slice())),
        (7, None),
        (7, None),
    ];
    let add = change(alloc, 7, None)?;
    for order in &ORDERS {
        let mut state = set_after(alloc, &updates, order)?;
        assert!(rt; holds(alloc, &state, 7, &[3])?, "in order {order:?}");
        AddWinsSet::apply(alloc, &mut state, &add, stamp(2))?;
        assert!(rt; holds(alloc, &state, 7, &[3])?, "in order {order:?}");
        AddWinsSet::apply(alloc, &mut state, &add, stamp(2))?;
        assert!(rt; holds(alloc, &state, 7, &[2, 3])?, "in order {order:?}");
    }
    Ok(())
}

fn removal(alloc: Global, state: &SetState, value: u8) -> Result<SetEffect, Fail> {
    let value = bytes(alloc, value)?;
    let remove = SetOp::SetRemove { value };
    let effect = AddWinsSet::prepare(alloc, state, &remove, tag(9))?;
    Ok(effect.ok_or("no effect")?)
}

fn is_addition(effect: &SetEffect, element: u8) -> bool {
    match effect {
        SetEffect::SetAdd { value } => value.as_slice() == [element].as_slice(),
        SetEffect::SetRemove { .. } => false,
    }
}

fn is_removal(effect: &SetEffect, element: u8, seqs: &[u64]) -> bool {
    match effect {
        SetEffect::SetRemove { value, tags } => {
            value.as_slice() == [element].as_slice() && are_tags(tags, seqs)
        }
        SetEffect::SetAdd { .. } => false,
    }
}

// Two sites: one removes what both have, the other adds it again at the same time.
#[test]
fn set_addition_beside_removal(rt: HostRuntime) -> Result<(), Fail> {
    let alloc = rt.alloc();
    let add = change(alloc, 4, None)?;
    let met = set_of(alloc, &[(&add, 1)])?;
    let remove = removal(alloc, &met, 4)?;
    let gone = set_of(alloc, &[(&add, 1), (&remove, 2)])?;
    assert!(rt; holds(alloc, &gone, 4, &[])?);
    let one = set_of(alloc, &[(&add, 1), (&remove, 2), (&add, 3)])?;
    assert!(rt; holds(alloc, &one, 4, &[3])?);
    let other = set_of(alloc, &[(&add, 1), (&add, 3), (&remove, 2)])?;
    assert!(rt; holds(alloc, &other, 4, &[3])?);
    Ok(())
}

#[test]
fn set_removal_of_what_was_never_added(rt: HostRuntime) -> Result<(), Fail> {
    let alloc = rt.alloc();
    let add = change(alloc, 1, None)?;
    let met = set_of(alloc, &[(&add, 1)])?;
    let remove = removal(alloc, &met, 9)?;
    assert!(rt; is_removal(&remove, 9, &[]));
    let after = set_of(alloc, &[(&add, 1), (&remove, 2)])?;
    assert!(rt; has_members(alloc, &after, &[1])?);
    assert!(rt; holds(alloc, &after, 9, &[])?);
    Ok(())
}

// Each call, at a set that holds 5.
#[test]
fn set_prepares(rt: HostRuntime) -> Result<(), Fail> {
    let alloc = rt.alloc();
    let state = set_after(alloc, &[(5, None)], &[0])?;
    let value = bytes(alloc, 5)?;
    let add = SetOp::SetAdd { value };
    let effect = AddWinsSet::prepare(alloc, &state, &add, tag(1))?.ok_or("no effect")?;
    assert!(rt; is_addition(&effect, 5));
    assert!(rt; is_removal(&removal(alloc, &state, 5)?, 5, &[0]));
    let read = SetOp::SetMembers;
    assert!(rt; AddWinsSet::prepare(alloc, &state, &read, tag(1))?.is_none());
    let value = bytes(alloc, 5)?;
    let asks = SetOp::SetContains { value };
    assert!(rt; AddWinsSet::prepare(alloc, &state, &asks, tag(1))?.is_none());
    Ok(())
}

fn bit(alloc: Global, state: &SetState, value: u8) -> Result<bool, Fail> {
    let value = bytes(alloc, value)?;
    let asks = SetOp::SetContains { value };
    match AddWinsSet::answer(alloc, state, &asks)? {
        SetAnswer::Bit { yes } => Ok(yes),
        SetAnswer::Done | SetAnswer::Values { .. } => Err(Fail::from("no bit")),
    }
}

#[test]
fn set_answers(rt: HostRuntime) -> Result<(), Fail> {
    let alloc = rt.alloc();
    let state = set_after(alloc, &[(5, None), (3, None)], &[0, 1])?;
    match AddWinsSet::answer(alloc, &state, &SetOp::SetMembers)? {
        SetAnswer::Values { values } => assert!(rt; are_values(&values, &[3, 5])),
        SetAnswer::Done | SetAnswer::Bit { .. } => assert!(rt; false, "no values"),
    }
    assert!(rt; bit(alloc, &state, 5)?);
    assert!(rt; !bit(alloc, &state, 4)?);
    let value = bytes(alloc, 5)?;
    let add = SetOp::SetAdd { value };
    assert!(rt; matches!(AddWinsSet::answer(alloc, &state, &add)?, SetAnswer::Done));
    Ok(())
}
