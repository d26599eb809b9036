use super::fixtures::Mark;
use crate::{Appended, Ballots};
use std::test::Fail;
use us_base::Shape;

#[test]
fn a_leader_takes_eight_entries_and_another_none(rt: HostRuntime) -> Result<(), Fail> {
    let shape = Shape { f: 1, parts: 1 };
    let mut one: Ballots<Mark> = Ballots::new(rt.alloc(), shape, 1)?;
    let mut two: Ballots<Mark> = Ballots::new(rt.alloc(), shape, 2)?;
    for number in 0..8 {
        let _ = one.append(Mark { number })?;
    }
    assert_eq!(rt; one.tail().len(), 8);
    assert!(rt;
        matches!(
            one.append(Mark { number: 8 })?,
            Appended::Full(Mark { number: 8 })
        )
    );
    assert!(rt;
        matches!(
            two.append(Mark { number: 9 })?,
            Appended::NotLeader(Mark { number: 9 })
        )
    );
    assert_eq!(rt; one.chosen().len(), 0);
    assert_eq!(rt; one.ballot(), 1);
    assert_eq!(rt; two.owner(), 1);
    Ok(())
}

/// A tick asks every site for chosen entries, and a leader's repeats what isn't acknowledged.
#[test]
fn a_tick_repeats(rt: HostRuntime) -> Result<(), Fail> {
    let shape = Shape { f: 1, parts: 1 };
    let mut one: Ballots<Mark> = Ballots::new(rt.alloc(), shape, 1)?;
    let _ = one.append(Mark { number: 7 })?;
    let out = one.tick()?;
    assert_eq!(rt; out.sends.len(), 4);
    Ok(())
}
