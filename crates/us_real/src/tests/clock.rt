use crate::SystemClock;
use std::test::Fail;
use us_edge::Clock;

// It is later than the year 2020.
#[test]
fn a_clock(rt: HostRuntime) -> Result<(), Fail> {
    let mut clock = SystemClock::new(rt.clone()?);
    assert!(rt; clock.now() > 1_577_836_800_000);
    Ok(())
}
