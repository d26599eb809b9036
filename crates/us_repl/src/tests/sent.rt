use crate::Sent;
use std::test::Fail;
use us_base::{Shape, Vector};

#[test]
fn a_site_is_sent_again_from_what_it_says(rt: HostRuntime) -> Result<(), Fail> {
    let mut sent = Sent::new(rt.alloc(), Shape { f: 1, parts: 1 })?;
    sent.sent(2, 1, 50);
    sent.sent(3, 1, 70);
    assert_eq!(rt; (sent.lo(2, 1), sent.lo(2, 3), sent.lo(3, 1)), (50, 0, 70));
    sent.heard(2, &Vector::zero().with_entry(1, 20).with_entry(3, 9));
    assert_eq!(rt; (sent.lo(2, 1), sent.lo(2, 3), sent.lo(3, 1)), (20, 9, 70));
    sent.heard(2, &Vector::zero().with_entry(1, 10).with_entry(3, 12));
    assert_eq!(rt; (sent.lo(2, 1), sent.lo(2, 3)), (20, 12));
    Ok(())
}
