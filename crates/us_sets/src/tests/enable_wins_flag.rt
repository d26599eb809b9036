use super::fixtures::{ORDERS, are_tags, stamp, tag, tags};
use crate::{EnableWinsFlag, FlagAnswer, FlagEffect, FlagOp, Marks};
use std::alloc::Global;
use std::test::Fail;
use us_kind::{Memory, Replicated};

fn flag_after(
    alloc: Global,
    updates: &[Option<&'static [u64]>],
    order: &[usize],
) -> Result<Marks, Memory> {
    let mut state = EnableWinsFlag::initial(alloc)?;
    for i in order {
        if let Some(removes) = updates.get(*i) {
            let effect = match removes {
                None => FlagEffect::Enable,
                Some(seqs) => FlagEffect::Disable {
                    tags: tags(alloc, seqs)?,
                },
            };
            EnableWinsFlag::apply(alloc, &mut state, &effect, stamp(*i as u64))?;
        }
    }
    Ok(state)
}

// All that the flag answers: whether it is on, and the tags of the enablings that are there.
fn flag_is(alloc: Global, state: &Marks, live: &[u64]) -> Result<bool, Memory> {
    let found = state.live(alloc)?;
    let yes = !live.is_empty();
    let read = EnableWinsFlag::answer(alloc, state, &FlagOp::FlagRead)?;
    Ok(are_tags(&found, live) && read == FlagAnswer::Bit { yes })
}

// Four updates in all orders: an enabling, or a disabling of these.
#[test]
fn flag_in_all_orders(rt: HostRuntime) -> Result<(), Fail> {
    let alloc = rt.alloc();
    let on = [None, Some([0].as_slice()), None, Some([0].as_slice())];
    let off = [None, None, Some([0].as_slice()), Some([0, 1].as_slice())];
    for order in &ORDERS {
        let state = flag_after(alloc, &on, order)?;
        assert!(rt; flag_is(alloc, &state, &[2])?, "in order {order:?}");
        let state = flag_after(alloc, &off, order)?;
        assert!(rt; flag_is(alloc, &state, &[])?, "in order {order:?}");
    }
    Ok(())
}

fn disabling(alloc: Global, state: &Marks) -> Result<FlagEffect, Fail> {
    let effect = EnableWinsFlag::prepare(alloc, state, &FlagOp::FlagDisable, tag(9))?;
    Ok(effect.ok_or("no effect")?)
}

// Two sites: one disables what both enabled, the other enables it again at the same time.
#[test]
fn flag_enabling_beside_disabling(rt: HostRuntime) -> Result<(), Fail> {
    let alloc = rt.alloc();
    let mut one = flag_after(alloc, &[None], &[0])?;
    let mut other = one.copy()?;
    let off = disabling(alloc, &one)?;
    EnableWinsFlag::apply(alloc, &mut one, &off, stamp(1))?;
    assert!(rt; flag_is(alloc, &one, &[])?);
    assert!(rt; one.is_empty());
    EnableWinsFlag::apply(alloc, &mut one, &FlagEffect::Enable, stamp(2))?;
    assert!(rt; flag_is(alloc, &one, &[2])?);
    EnableWinsFlag::apply(alloc, &mut other, &FlagEffect::Enable, stamp(2))?;
    assert!(rt; flag_is(alloc, &other, &[0, 2])?);
    EnableWinsFlag::apply(alloc, &mut other, &off, stamp(1))?;
    assert!(rt; flag_is(alloc, &other, &[2])?);
    Ok(())
}

#[test]
fn flag_calls(rt: HostRuntime) -> Result<(), Fail> {
    let alloc = rt.alloc();
    let state = flag_after(alloc, &[None], &[0])?;
    match disabling(alloc, &state)? {
        FlagEffect::Disable { tags } => assert!(rt; are_tags(&tags, &[0])),
        FlagEffect::Enable => assert!(rt; false, "an enabling"),
    }
    let on = EnableWinsFlag::prepare(alloc, &state, &FlagOp::FlagEnable, tag(1))?;
    assert!(rt; matches!(on, Some(FlagEffect::Enable)));
    assert!(rt; EnableWinsFlag::prepare(alloc, &state, &FlagOp::FlagRead, tag(1))?.is_none());
    let done = EnableWinsFlag::answer(alloc, &state, &FlagOp::FlagDisable)?;
    assert_eq!(rt; done, FlagAnswer::Done);
    Ok(())
}
