use super::net::{Step, after, has_chosen};
use std::test::Fail;

/// Site 2 takes over what site 1 appended, though it had heard nothing of it; the second promise comes late.
#[test]
fn a_new_leader_keeps_what_others_hold(rt: HostRuntime) -> Result<(), Fail> {
    let net = after(
        rt.alloc(),
        &[
            Step::Append(1, 7),
            Step::Append(1, 8),
            Step::Lead(2),
            Step::All,
        ],
    )?;
    assert!(rt; has_chosen(&net, 1, &[7, 8])?);
    assert!(rt; has_chosen(&net, 2, &[7, 8])?);
    assert!(rt; has_chosen(&net, 3, &[7, 8])?);
    Ok(())
}

/// Sites 1 and 2 lead at once: the entries of the lesser ballot, which only site 1 holds, are never chosen.
#[test]
fn two_lead_at_once(rt: HostRuntime) -> Result<(), Fail> {
    let steps = [
        Step::Append(1, 7),
        Step::Lead(2),
        Step::Come(3),
        Step::Come(4),
        Step::Append(1, 8),
        Step::Append(2, 9),
        Step::All,
    ];
    let net = after(rt.alloc(), &steps)?;
    assert!(rt; has_chosen(&net, 1, &[9])?);
    assert!(rt; has_chosen(&net, 2, &[9])?);
    assert!(rt; has_chosen(&net, 3, &[9])?);
    Ok(())
}

/// Site 1 leads ballot 1 with the tail 7, 8 and learns that 9 is chosen: its tail goes, and it leads on.
#[test]
fn a_leader_learns(rt: HostRuntime) -> Result<(), Fail> {
    let steps = [
        Step::Append(1, 7),
        Step::Lead(2),
        Step::Come(3),
        Step::Come(4),
        Step::Append(1, 8),
        Step::Append(2, 9),
        Step::Come(6),
        Step::Come(10),
        Step::Come(12),
        Step::Come(13),
        Step::Append(1, 5),
    ];
    let net = after(rt.alloc(), &steps)?;
    assert!(rt; has_chosen(&net, 1, &[9])?);
    assert!(rt; has_chosen(&net, 2, &[9])?);
    assert!(rt; has_chosen(&net, 3, &[])?);
    Ok(())
}

/// Site 1 chooses 7 after one acknowledgement and is heard of no more: site 3 leads, and 7 stays.
#[test]
fn a_leader_crashes_after_one_acknowledgement(rt: HostRuntime) -> Result<(), Fail> {
    let steps = [
        Step::Append(1, 7),
        Step::Come(0),
        Step::Come(2),
        Step::Lead(3),
        Step::Come(6),
        Step::Come(7),
        Step::Come(9),
        Step::Come(10),
        Step::Come(12),
    ];
    let net = after(rt.alloc(), &steps)?;
    assert!(rt; has_chosen(&net, 1, &[7])?);
    assert!(rt; has_chosen(&net, 2, &[7])?);
    assert!(rt; has_chosen(&net, 3, &[7])?);
    Ok(())
}
