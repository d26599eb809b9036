use super::*;
use std::alloc::Global;
use std::process::Abort;
use std::test::Fail;
use us_kind::{Bytes, Memory};

fn set_operations(alloc: Global) -> Result<Vec<Op>, Memory> {
    let mut operations = Vec::new(alloc);
    operations.push(Op::SetMembers)?;
    let value = Bytes::from_slice(alloc, b"x")?;
    operations.push(Op::SetContains { value })?;
    let value = Bytes::from_slice(alloc, b"x")?;
    operations.push(Op::SetAdd { value })?;
    let value = Bytes::from_slice(alloc, b"x")?;
    operations.push(Op::SetRemove { value })?;
    Ok(operations)
}

// The operations of a kind.
fn operations(alloc: Global, kind: Kind) -> Result<Vec<Op>, Memory> {
    let mut operations = Vec::new(alloc);
    match kind {
        Kind::Register => {
            let value = Bytes::from_slice(alloc, b"x")?;
            operations.push(Op::RegisterRead)?;
            operations.push(Op::RegisterWrite { value })?;
        }
        Kind::Counter => {
            operations.push(Op::CounterRead)?;
            operations.push(Op::CounterAdd { amount: 0 })?;
            operations.push(Op::CounterAdd { amount: -1 })?;
        }
        Kind::Set => return set_operations(alloc),
        Kind::Flag => {
            operations.push(Op::FlagRead)?;
            operations.push(Op::FlagEnable)?;
            operations.push(Op::FlagDisable)?;
        }
        Kind::Multi => {
            let value = Bytes::from_slice(alloc, b"x")?;
            operations.push(Op::MultiRead)?;
            operations.push(Op::MultiWrite { value })?;
        }
    }
    Ok(operations)
}

// The effects of a kind.
fn effects(alloc: Global, kind: Kind) -> Result<Vec<Effect>, Memory> {
    let mut effects = Vec::new(alloc);
    match kind {
        Kind::Register => effects.push(register_write(alloc, b"x")?)?,
        Kind::Counter => effects.push(Effect::CounterAdd { amount: -1 })?,
        Kind::Set => {
            effects.push(set_add(alloc, b"x")?)?;
            effects.push(set_remove(alloc, b"x", &[1, 2])?)?;
        }
        Kind::Flag => {
            effects.push(Effect::Enable)?;
            effects.push(disable(alloc, &[1])?)?;
        }
        Kind::Multi => effects.push(multi_write(alloc, b"x", &[1])?)?,
    }
    Ok(effects)
}

// The state answers the operation, and prepares it exactly where it updates.
fn serves(alloc: Global, state: &State, op: &Op) -> bool {
    let answered = answer(alloc, state, op).is_ok();
    match prepare(alloc, state, op, stamp(1, 1).tag()) {
        Ok(effect) => answered && effect.is_some() == op.is_update(),
        Err(_) => false,
    }
}

// Both calls say that the operation is of another kind.
fn refuses(alloc: Global, state: &State, op: &Op) -> bool {
    let answered = answer(alloc, state, op);
    let prepared = prepare(alloc, state, op, stamp(1, 1).tag());
    matches!(answered, Err(ValueFault::WrongOperation))
        && matches!(prepared, Err(ValueFault::WrongOperation))
}

// Each operation at the first state of each kind: its own kind answers it, every other one refuses it.
#[test]
fn operations_fit_their_kind(rt: HostRuntime) -> Result<(), Fail> {
    let alloc = rt.alloc();
    for own in KINDS {
        let operations = operations(alloc, own)?;
        for kind in KINDS {
            let state = initial(alloc, kind)?;
            for op in &operations {
                assert_eq!(rt; op_fits(kind, op), kind == own);
                assert_eq!(rt; serves(alloc, &state, op), kind == own);
                assert_eq!(rt; refuses(alloc, &state, op), kind != own);
            }
        }
    }
    Ok(())
}

fn applied(alloc: Global, kind: Kind, effect: &Effect) -> Result<(), ValueFault> {
    let mut state = initial(alloc, kind)?;
    apply(alloc, &mut state, effect, stamp(1, 1))
}

#[test]
fn effects_fit_their_kind(rt: HostRuntime) -> Result<(), Fail> {
    let alloc = rt.alloc();
    for own in KINDS {
        let effects = effects(alloc, own)?;
        for kind in KINDS {
            for effect in &effects {
                let wanted = if kind == own {
                    Ok(())
                } else {
                    Err(ValueFault::WrongOperation)
                };
                assert_eq!(rt; effect_fits(kind, effect), kind == own);
                assert_eq!(rt; applied(alloc, kind, effect), wanted);
            }
        }
    }
    Ok(())
}

#[test]
fn copies(rt: HostRuntime) -> Result<(), Fail> {
    let alloc = rt.alloc();
    for kind in KINDS {
        for op in &operations(alloc, kind)? {
            assert_eq!(rt; op.copy()?, *op);
        }
        for effect in &effects(alloc, kind)? {
            assert_eq!(rt; effect.copy()?, *effect);
        }
        assert_eq!(rt; State::initial(alloc, kind)?.kind(), kind);
    }
    Ok(())
}

/// What a set answers of `x` at the state, and at a copy of it.
fn answers_alike(rt: &impl Abort, alloc: Global, state: &State) -> Result<(), ValueFault> {
    let copy = state.copy()?;
    let asked = Op::SetMembers;
    assert_eq!(rt;
        answer(alloc, &copy, &asked)?,
        answer(alloc, state, &asked)?
    );
    Ok(())
}

#[test]
fn a_copy_of_a_state_answers_alike(rt: HostRuntime) -> Result<(), Fail> {
    let alloc = rt.alloc();
    let mut state = initial(alloc, Kind::Set)?;
    let value = Bytes::from_slice(alloc, b"x")?;
    let effect = Effect::SetAdd { value };
    apply(alloc, &mut state, &effect, stamp(1, 1))?;
    answers_alike(&rt, alloc, &state)?;
    Ok(())
}

fn first_answer(alloc: Global, kind: Kind, op: &Op) -> Result<Answer, ValueFault> {
    let state = initial(alloc, kind)?;
    answer(alloc, &state, op)
}

#[test]
fn first_answers(rt: HostRuntime) -> Result<(), Fail> {
    let alloc = rt.alloc();
    let register = first_answer(alloc, Kind::Register, &Op::RegisterRead)?;
    assert_eq!(rt; register, Answer::Nothing);
    let counter = first_answer(alloc, Kind::Counter, &Op::CounterRead)?;
    assert_eq!(rt; counter, Answer::Number { number: 0 });
    let set = first_answer(alloc, Kind::Set, &Op::SetMembers)?;
    assert_eq!(rt; set, values(alloc, b"")?);
    let flag = first_answer(alloc, Kind::Flag, &Op::FlagRead)?;
    assert_eq!(rt; flag, Answer::Bit { yes: false });
    let multi = first_answer(alloc, Kind::Multi, &Op::MultiRead)?;
    assert_eq!(rt; multi, values(alloc, b"")?);
    Ok(())
}
