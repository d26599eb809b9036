use super::fixtures::{are_tags, are_values, is, prepared, state_after, tag};
use crate::{MultiAnswer, MultiEffect, MultiOp, MultiValue};
use std::test::Fail;
use us_kind::Replicated;

#[test]
fn multi_calls(rt: HostRuntime) -> Result<(), Fail> {
    let alloc = rt.alloc();
    let state = state_after(alloc, &[(7, [].as_slice())], &[0])?;
    let copy = state.copy()?;
    assert!(rt; is(alloc, &copy, &[7], &[0])?);
    assert!(rt; are_values(&state.values(alloc)?, &[7]));
    let MultiEffect::MultiWrite { value, tags } = prepared(alloc, &state, 3)?;
    assert_eq!(rt; value.as_slice(), [3].as_slice());
    assert!(rt; are_tags(&tags, &[0]));
    let read = MultiOp::MultiRead;
    assert!(rt; MultiValue::prepare(alloc, &state, &read, tag(1))?.is_none());
    let write = MultiOp::MultiWrite { value };
    assert!(rt;
        matches!(
            MultiValue::answer(alloc, &state, &write)?,
            MultiAnswer::Done
        )
    );
    Ok(())
}
